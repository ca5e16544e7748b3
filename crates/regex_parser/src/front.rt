ghost use Rattle.std.specs.Prelude.{◌≡◌, ⊤, Bool, List, IfOk, IsTrue, Some};
ghost use Rattle.std.specs.List.{list_all};
ghost use Rattle.std.specs.Option.{option_map};
ghost use Rattle.regex_ast.specs.Terms.{Term};
ghost use Rattle.regex_ast.specs.declared.expr.Raw.{Raw};
ghost use Rattle.regex_grammar.specs.Grammar.{is_digit, is_number, power_value, arrow_operator, way_operator};
ghost use Rattle.regex_grammar.specs.Reading.{is_level, one_of, backslash_of, prefix_of, linked_of, side_of, arrow_of, way_of, step_of, power_at, suffix_at};
ghost use Rattle.regex_grammar.specs.Rows.{begins};
ghost use Rattle.regex_parser.specs.Levels.{is_operand, backslashes_at, prefixes_at, suffixes_at};
ghost use Rattle.regex_parser.specs.Values.{linked_by, step_by};

use regex_ast::{Prefix, Side, Suffix, Way};
use regex_tokens::{Operator, Token};
use std::alloc::{AllocError, Global};

/// An operator of a row of `|`, `&` and `-`.
#[derive(Clone, Copy, Debug, PartialEq, Eq)]
pub enum LinkOperator {
    /// `|`.
    Or,
    /// `&`.
    And,
    /// `-`.
    Less,
}

/// An operator of a row of `.x.` and `.o.`.
#[derive(Clone, Copy, Debug, PartialEq, Eq)]
pub enum StepOperator {
    /// `.x.`.
    CrossWith,
    /// `.o.`.
    Then,
}

/// Whether the first token begins an operand.
#[tactic(auto, unfolding(crate::specs::Levels::is_operand))]
pub fn begins_operand(tokens: &[Token]) -> bool
    ensures { result ≡ begins is_operand tokens.now }
{
    match tokens.first() {
        None => false,
        Some(Token::Run(_) | Token::Quoted(_) | Token::Braced(_)) => true,
        Some(Token::Operator(operator)) => matches!(
            operator,
            Operator::OpenSquare
                | Operator::OpenRound
                | Operator::Question
                | Operator::Edge
                | Operator::Backslash
                | Operator::Tilde
                | Operator::Dollar
        ),
    }
}

/// The operator of a row of `|`, `&` and `-` at the front, and the tokens behind it.
pub fn split_link(tokens: &[Token]) -> Option<(LinkOperator, &[Token])>
    ensures { option_map (λ x. (linked_by x.0, x.1.now)) result ≡ one_of (linked_of {T = Term Raw}) tokens.now }
{
    match tokens.split_first() {
        Some((Token::Operator(Operator::Bar), rest)) => Some((LinkOperator::Or, rest)),
        Some((Token::Operator(Operator::Ampersand), rest)) => Some((LinkOperator::And, rest)),
        Some((Token::Operator(Operator::Minus), rest)) => Some((LinkOperator::Less, rest)),
        _ => None,
    }
}

/// The operator of a row of `.x.` and `.o.` at the front, and the tokens behind it.
pub fn split_step(tokens: &[Token]) -> Option<(StepOperator, &[Token])>
    ensures { option_map (λ x. (step_by x.0, x.1.now)) result ≡ one_of (step_of {T = Term Raw}) tokens.now }
{
    match tokens.split_first() {
        Some((Token::Operator(Operator::CrossWith), rest)) => Some((StepOperator::CrossWith, rest)),
        Some((Token::Operator(Operator::Then), rest)) => Some((StepOperator::Then, rest)),
        _ => None,
    }
}

/// The sides on which the contexts behind the first token are read, and these tokens.
pub fn split_side(tokens: &[Token]) -> Option<(Side, &[Token])>
    ensures { option_map (λ x. (x.0, x.1.now)) result ≡ one_of side_of tokens.now }
{
    match tokens.split_first() {
        Some((Token::Operator(Operator::UpUp), rest)) => Some((Side::UpUp, rest)),
        Some((Token::Operator(Operator::LowUp), rest)) => Some((Side::LowUp, rest)),
        Some((Token::Operator(Operator::UpLow), rest)) => Some((Side::UpLow, rest)),
        Some((Token::Operator(Operator::LowLow), rest)) => Some((Side::LowLow, rest)),
        _ => None,
    }
}

/// Whether the arrow at the front is `(->)`, and the tokens behind it; `None` where there is no arrow.
pub fn split_arrow(tokens: &[Token]) -> Option<(bool, &[Token])>
    ensures { option_map {U = Bool × List Token} (λ x. (x.0, x.1.now)) result ≡ one_of arrow_of tokens.now }
{
    match tokens.split_first() {
        Some((Token::Operator(Operator::Optional), rest)) => Some((true, rest)),
        Some((Token::Operator(Operator::Arrow), rest)) => Some((false, rest)),
        _ => None,
    }
}

/// The arrow of rules that may leave a match as it is, and of those that may not.
pub fn arrow(optional: bool) -> Operator
    ensures { result ≡ arrow_operator optional }
{
    if optional {
        Operator::Optional
    } else {
        Operator::Arrow
    }
}

/// The way of the directed arrow at the front, and the tokens behind it; `None` where there is no such arrow.
pub fn split_way(tokens: &[Token]) -> Option<(Way, &[Token])>
    ensures { option_map (λ x. (x.0, x.1.now)) result ≡ one_of way_of tokens.now }
{
    match tokens.split_first() {
        Some((Token::Operator(Operator::LeftLongest), rest)) => Some((Way::LeftLongest, rest)),
        Some((Token::Operator(Operator::LeftShortest), rest)) => Some((Way::LeftShortest, rest)),
        Some((Token::Operator(Operator::RightLongest), rest)) => Some((Way::RightLongest, rest)),
        Some((Token::Operator(Operator::RightShortest), rest)) => Some((Way::RightShortest, rest)),
        _ => None,
    }
}

/// The arrow of a way.
pub fn directed_arrow(way: Way) -> Operator
    ensures { result ≡ way_operator way }
{
    match way {
        Way::LeftLongest => Operator::LeftLongest,
        Way::LeftShortest => Operator::LeftShortest,
        Way::RightLongest => Operator::RightLongest,
        Way::RightShortest => Operator::RightShortest,
    }
}

/// The number of backslashes at the front, and the tokens behind them.
pub fn backslashes(tokens: &[Token]) -> (usize, &[Token])
    ensures { backslashes_at tokens.now ≡ Some (result.0, result.1.now) }
{
    let mut marks = 0;
    let mut rest = tokens;
    'marks: while let Some(behind) = split_backslash(rest) {
        marks += 1;
        rest = behind;
    }
    (marks, rest)
}

fn split_backslash(tokens: &[Token]) -> Option<&[Token]>
    ensures { option_map {U = ⊤ × List Token} (λ rest. (tt, rest.now)) result ≡ one_of backslash_of tokens.now }
{
    match tokens.split_first() {
        Some((Token::Operator(Operator::Backslash), rest)) => Some(rest),
        _ => None,
    }
}

/// The prefixes at the front, and the tokens behind them.
pub fn prefixes(alloc: Global, tokens: &[Token]) -> Result<(Vec<Prefix>, &[Token]), AllocError>
    ensures { IfOk result (λ read. prefixes_at tokens.now ≡ Some (read.0.items, read.1.now)) }
{
    let mut found = Vec::new(alloc);
    let mut rest = tokens;
    'prefixes: while let Some((prefix, behind)) = split_prefix(rest) {
        found.push(prefix)?;
        rest = behind;
    }
    Ok((found, rest))
}

fn split_prefix(tokens: &[Token]) -> Option<(Prefix, &[Token])>
    ensures { option_map (λ x. (x.0, x.1.now)) result ≡ one_of prefix_of tokens.now }
{
    match tokens.split_first() {
        Some((Token::Operator(Operator::Tilde), rest)) => Some((Prefix::Not, rest)),
        Some((Token::Operator(Operator::Dollar), rest)) => Some((Prefix::Contains, rest)),
        _ => None,
    }
}

/// The suffixes at the front, and the tokens behind them; `None` where the number of a power is missing.
#[tactic(auto, unfolding(crate::specs::Levels::suffixes_at))]
pub fn suffixes(
    alloc: Global,
    tokens: &[Token],
) -> Result<Option<(Vec<Suffix>, &[Token])>, AllocError>
    ensures { IfOk result (λ read. option_map (λ x. (x.0.items, x.1.now)) read ≡ suffixes_at tokens.now) }
{
    let mut found = Vec::new(alloc);
    let mut rest = tokens;
    'suffixes: while begins_suffix(rest) {
        let Some((suffix, behind)) = suffix(rest) else {
            return Ok(None);
        };
        found.push(suffix)?;
        rest = behind;
    }
    Ok(Some((found, rest)))
}

/// Whether the first token begins a suffix.
fn begins_suffix(tokens: &[Token]) -> bool
    ensures { result ≡ begins (is_level 4) tokens.now }
{
    matches!(
        tokens.first(),
        Some(Token::Operator(
            Operator::Star
                | Operator::Plus
                | Operator::Caret
                | Operator::Upper
                | Operator::Lower
                | Operator::Inverse
                | Operator::Reverse
        ))
    )
}

fn suffix(tokens: &[Token]) -> Option<(Suffix, &[Token])>
    ensures { option_map (λ x. (x.0, x.1.now)) result ≡ suffix_at tokens.now }
{
    match tokens.split_first() {
        Some((Token::Operator(Operator::Star), rest)) => Some((Suffix::Star, rest)),
        Some((Token::Operator(Operator::Plus), rest)) => Some((Suffix::Plus, rest)),
        Some((Token::Operator(Operator::Caret), rest)) => power(rest),
        Some((Token::Operator(Operator::Upper), rest)) => Some((Suffix::Upper, rest)),
        Some((Token::Operator(Operator::Lower), rest)) => Some((Suffix::Lower, rest)),
        Some((Token::Operator(Operator::Inverse), rest)) => Some((Suffix::Inverse, rest)),
        Some((Token::Operator(Operator::Reverse), rest)) => Some((Suffix::Reverse, rest)),
        _ => None,
    }
}

/// The suffix of a `^` before these tokens.
fn power(tokens: &[Token]) -> Option<(Suffix, &[Token])>
    ensures { option_map (λ x. (x.0, x.1.now)) result ≡ power_at tokens.now }
{
    match tokens.split_first() {
        Some((Token::Run(run), rest)) if !run.escaped && is_number(run.text.as_str().as_bytes()) =>
            { Some((Suffix::Power(times(run.text.as_str())), rest)) }
        _ => None,
    }
}

/// Whether the text is one decimal digit or more.
fn is_number(text: &[u8]) -> bool
    ensures { result ≡ is_number text.now }
{
    !text.is_empty() && has_only_digits(text)
}

fn has_only_digits(text: &[u8]) -> bool
    ensures { result ≡ list_all is_digit text.now }
{
    text.iter().all(|byte| byte.is_ascii_digit())
}

/// The number that the digits say, or 256 where it is above 255.
fn times(digits: &str) -> u32
    requires { IsTrue (is_number digits.now) }
    ensures { result ≡ power_value digits.now }
{
    match digits.parse::<u8>() {
        Ok(number) => u32::from(number),
        Err(_) => 256,
    }
}
