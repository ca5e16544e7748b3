ghost use Rattle.std.specs.Prelude.{◌≡◌, ◌≢◌, ◌++◌, ◌∷◌, [], ℕ, List, IfOk, MatchOption};
ghost use Rattle.std.specs.Option.{option_map};
ghost use Rattle.regex_ast.specs.Flags.{IsFlag, IsFeature};
ghost use Rattle.regex_ast.specs.declared.lexc.FlagKind.{FlagKind};
ghost use Rattle.flag_texts.specs.Reading.{IsFlagOf, MayHave, HasNo, letter_of, ending_of};

use fsm_base::Text;
use regex_ast::{FlagKind, FlagOp};
use regex_tokens::is_flag;
use std::alloc::{AllocError, Global};

/// The parts of a flag.
#[derive(Clone, Copy)]
struct Parts<'a> {
    /// What it does.
    kind: FlagKind,
    /// Its feature.
    feature: &'a str,
    /// Its value, where it has one.
    value: Option<&'a str>,
}

/// The flag diacritic that a text is, or `None` where it is none. A flag is `@X.F.V@` or `@X.F@`: X is `P`, `N` or `U`
/// with a value V, `C` without, `R` or `D` with or without; F and V aren't empty and have no blank, `.` or `@`.
pub fn read_flag(alloc: Global, text: &str) -> Result<Option<FlagOp>, AllocError>
    ensures { IfOk result (λ flag. MatchOption flag (IsFlag text.now → ⊥) (IsFlagOf text.now)) }
{
    let Some(parts) = parts_of(text) else {
        return Ok(None);
    };
    let feature = Text::of(alloc, parts.feature)?;
    let value = match parts.value {
        Some(value) => Some(Text::of(alloc, value)?),
        None => None,
    };
    Ok(Some(FlagOp {
        kind: parts.kind,
        feature,
        value,
    }))
}

/// The parts of the flag that a text is, or `None` where it is none.
fn parts_of(text: &str) -> Option<Parts<'_>>
    ensures { MatchOption result (IsFlag text.now → ⊥) (λ parts. IsFeature parts.feature.now × (text.now ≡ 64 ∷ letter_of parts.kind ∷ 46 ∷ parts.feature.now ++ ending_of (option_map (λ v. v.now) parts.value)) × MayHave parts.kind (option_map (λ v. v.now) parts.value)) }
{
    if !is_flag(text.as_bytes()) {
        return None;
    }
    let (letter, rest) = split_dot(between(text)?)?;
    let kind = kind_of(letter)?;
    match split_dot(rest) {
        Some((feature, value)) => Some(Parts {
            kind,
            feature,
            value: Some(value),
        }),
        None => Some(Parts {
            kind,
            feature: rest,
            value: None,
        }),
    }
}

/// What stands between the two `@`, or `None` where the text doesn't begin and end with one and has no others.
fn between(text: &str) -> Option<&str>
    ensures { MatchOption result ((inner : List ℕ) → HasNo 64 inner → text.now ≢ 64 ∷ inner ++ 64 ∷ []) (λ inner. text.now ≡ 64 ∷ inner.now ++ 64 ∷ []) }
{
    let (before, rest) = split_mark(text)?;
    let (inner, behind) = split_mark(rest)?;
    if !before.is_empty() {
        return None;
    }
    if !behind.is_empty() {
        return None;
    }
    Some(inner)
}

/// What stands before the first `@`, and what behind it, or `None` where there is no `@`.
fn split_mark(text: &str) -> Option<(&str, &str)>
    ensures { MatchOption result (HasNo 64 text.now) (λ parts. HasNo 64 parts.0.now × (text.now ≡ parts.0.now ++ 64 ∷ parts.1.now)) }
{
    text.split_once('@')
}

/// What stands before the first dot, and what behind it, or `None` where there is no dot.
fn split_dot(text: &str) -> Option<(&str, &str)>
    ensures { MatchOption result (HasNo 46 text.now) (λ parts. HasNo 46 parts.0.now × (text.now ≡ parts.0.now ++ 46 ∷ parts.1.now)) }
{
    text.split_once('.')
}

/// The kind of a letter, or `None` where it has none.
fn kind_of(letter: &str) -> Option<FlagKind>
    ensures { MatchOption result ((kind : FlagKind) → letter.now ≢ letter_of kind ∷ []) (λ kind. letter.now ≡ letter_of kind ∷ []) }
{
    match letter.as_bytes() {
        [b'P'] => Some(FlagKind::P),
        [b'N'] => Some(FlagKind::N),
        [b'C'] => Some(FlagKind::C),
        [b'R'] => Some(FlagKind::R),
        [b'D'] => Some(FlagKind::D),
        [b'U'] => Some(FlagKind::U),
        _ => None,
    }
}
