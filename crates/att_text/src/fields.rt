//! A text line by line, and what each line says. No text is copied.
ghost use Rattle.std.specs.Prelude.{◌≡◌, ◌∷◌, ◌<◌, ◌≤◌, ◌==◌, ◌++◌, [], length, IfSome, MatchOption, None};
ghost use Rattle.std.specs.List.{list_all};
ghost use Rattle.std.specs.Option.{option_map};
ghost use Rattle.std.specs.Char.{is_ascii_digit};
ghost use Rattle.std.specs.Str.{IsUtf8, all_ascii_digits};
ghost use Rattle.att_text.specs.Drawing.{HasSymbols};
ghost use Rattle.att_text.specs.Lines.{arc_of, fields_of, is_decimal, lines_of, said_by, said_of, side_of, state_of, no_symbol};
ghost use Rattle.att_text.specs.Views.{said_seen, HasNo};

/// An arc line.
#[derive(Clone, Copy, Debug)]
pub(crate) struct Arc<'a> {
    /// The state that it leaves.
    pub(crate) from: u64,
    /// The state that it enters.
    pub(crate) to: u64,
    /// The symbol of its upper side, if there is one.
    pub(crate) up: Option<&'a str>,
    /// The symbol of its lower side, if there is one.
    pub(crate) low: Option<&'a str>,
}

/// What a line says.
#[derive(Clone, Copy, Debug)]
pub(crate) enum Said<'a> {
    /// An arc.
    Arc(Arc<'a>),
    /// A state is final.
    Final(u64),
}

/// What stands before the first newline, and what behind it; or the whole text, and nothing.
pub(crate) fn first_line(text: &str) -> (&str, &str)
    requires { 0 < length text.now }
    ensures lines { lines_of text.now ≡ result.0.now ∷ lines_of result.1.now }
    ensures shorter { length result.1.now < length text.now }
    ensures text { IsUtf8 result.1.now }
{
    match split_newline(text) {
        Some((line, rest)) => (line, rest),
        None => (text, ""),
    }
}

/// What stands before the first newline, and what behind it, or `None` where there is no newline.
fn split_newline(text: &str) -> Option<(&str, &str)>
    ensures { MatchOption result (HasNo 10 text.now) (λ parts. HasNo 10 parts.0.now × (text.now ≡ parts.0.now ++ 10 ∷ parts.1.now)) }
{
    text.split_once('\n')
}

/// What stands before the first tab, and what behind it, or `None` where there is no tab.
fn split_tab(text: &str) -> Option<(&str, &str)>
    ensures { MatchOption result (HasNo 9 text.now) (λ parts. HasNo 9 parts.0.now × (text.now ≡ parts.0.now ++ 9 ∷ parts.1.now)) }
{
    text.split_once('\t')
}

/// What a line says, or `None` where it is neither an arc line nor a final line.
pub(crate) fn said_of(line: &str) -> Option<Said<'_>>
    ensures said { option_map said_seen result ≡ said_of line.now }
    ensures symbols { IfSome result (λ said. HasSymbols (said_seen said)) }
{
    said_by_line(line)
}

/// What a line says.
fn said_by_line(line: &str) -> Option<Said<'_>>
    ensures { option_map said_seen result ≡ said_of line.now }
{
    match split_tab(line) {
        Some((from, behind)) => arc_said(from, behind),
        None => final_said(line),
    }
}

/// What a final line says.
fn final_said(field: &str) -> Option<Said<'_>>
    ensures { option_map said_seen result ≡ said_by (field.now ∷ []) }
{
    match state_of(field) {
        Some(state) => Some(Said::Final(state)),
        None => None,
    }
}

/// What a line says whose first field this is, with the others behind it.
fn arc_said<'a>(from: &'a str, behind: &'a str) -> Option<Said<'a>>
    ensures { option_map said_seen result ≡ said_by (from.now ∷ fields_of behind.now) }
{
    match split_tab(behind) {
        Some((to, sides)) => sides_said(from, to, sides),
        None => None,
    }
}

/// The same where its second field is this, with the others behind it.
fn sides_said<'a>(from: &'a str, to: &'a str, sides: &'a str) -> Option<Said<'a>>
    ensures { option_map said_seen result ≡ said_by (from.now ∷ to.now ∷ fields_of sides.now) }
{
    match split_tab(sides) {
        Some((upper, behind)) => four_said(from, to, upper, behind),
        None => arc_of(from, to, sides, sides),
    }
}

/// The same where its third field is this, with the others behind it.
fn four_said<'a>(from: &'a str, to: &'a str, upper: &'a str, behind: &'a str) -> Option<Said<'a>>
    ensures { option_map said_seen result ≡ said_by (from.now ∷ to.now ∷ upper.now ∷ fields_of behind.now) }
{
    match split_tab(behind) {
        Some((lower, weight)) => none_said(lower, weight),
        None => arc_of(from, to, upper, behind),
    }
}

/// A line with a fifth field says nothing.
fn none_said<'a>(_lower: &'a str, _weight: &'a str) -> Option<Said<'a>>
    ensures { result ≡ None }
{
    None
}

/// What the fields of an arc line say.
fn arc_of<'a>(from: &'a str, to: &'a str, upper: &'a str, lower: &'a str) -> Option<Said<'a>>
    ensures { option_map said_seen result ≡ arc_of from.now to.now upper.now lower.now }
{
    if upper.is_empty() || lower.is_empty() {
        return None;
    }
    match (state_of(from), state_of(to)) {
        (Some(from), Some(to)) => Some(Said::Arc(Arc {
            from,
            to,
            up: side_of(upper),
            low: side_of(lower),
        })),
        _ => None,
    }
}

/// The symbol that a field is, if it is one.
fn side_of(field: &str) -> Option<&str>
    ensures { option_map (λ symbol. symbol.now) result ≡ side_of field.now }
{
    if field == "@0@" { None } else { Some(field) }
}

/// The state that a field is.
fn state_of(field: &str) -> Option<u64>
    ensures { result ≡ state_of field.now }
{
    if !is_decimal(field.as_bytes()) {
        return None;
    }
    match field.parse::<u64>() {
        Ok(state) => Some(state),
        Err(_) => None,
    }
}

/// Whether these are digits, at least one, and no 0 before others.
fn is_decimal(field: &[u8]) -> bool
    ensures { result ≡ is_decimal field.now }
{
    match field {
        [] => false,
        [digit] => digit.is_ascii_digit(),
        [first, ..] => *first != b'0' && are_digits(field),
    }
}

/// Whether all these are digits.
fn are_digits(field: &[u8]) -> bool
    ensures { result ≡ all_ascii_digits field.now }
{
    all_digits(field)
}

/// Whether all these are digits, tried one by one.
fn all_digits(field: &[u8]) -> bool
    ensures { result ≡ list_all is_ascii_digit field.now }
{
    field.iter().all(|byte| byte.is_ascii_digit())
}
