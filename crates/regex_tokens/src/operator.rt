ghost use Rattle.std.specs.Prelude.{◌≡◌, true};
ghost use Rattle.regex_tokens.specs.Bytes.{begins, is_sign};
ghost use Rattle.regex_tokens.specs.Reading.{IsRead, closes, first_of, longest_first, spaced_at, spaced_by};

use crate::bytes::{ByteClass, split};
use crate::token::{Operator, Token};

/// The operators, none behind one that is shorter.
const LONGEST_FIRST: [Operator; 40] = [
    Operator::Optional,
    Operator::Insertion,
    Operator::Dots,
    Operator::CrossWith,
    Operator::Then,
    Operator::Edge,
    Operator::LeftLongest,
    Operator::RightLongest,
    Operator::Arrow,
    Operator::Only,
    Operator::UpUp,
    Operator::LowUp,
    Operator::UpLow,
    Operator::LowLow,
    Operator::GroupComma,
    Operator::LeftShortest,
    Operator::RightShortest,
    Operator::Upper,
    Operator::Lower,
    Operator::Inverse,
    Operator::Reverse,
    Operator::OpenSquare,
    Operator::CloseSquare,
    Operator::OpenRound,
    Operator::CloseRound,
    Operator::Bar,
    Operator::Slash,
    Operator::Backslash,
    Operator::Ampersand,
    Operator::Minus,
    Operator::Tilde,
    Operator::Dollar,
    Operator::Star,
    Operator::Plus,
    Operator::Caret,
    Operator::Colon,
    Operator::Semicolon,
    Operator::Comma,
    Operator::Question,
    Operator::Underscore,
];

/// The longest operator at the front of a text that begins neither a run nor quotes nor braces, and the number of
/// its bytes.
pub fn operator(text: &str) -> Option<(Token, usize)>
    requires { begins is_sign text.now ≡ true }
    ensures { IsRead text.now result }
{
    if let Some(len) = spaced_len(text.as_bytes()) {
        return Some((Token::Operator(Operator::Insertion), len));
    }
    let operator = operator_at(text.as_bytes())?;
    Some((Token::Operator(operator), operator.spelling().len()))
}

/// The longest operator at the front that is spelled without blanks.
fn operator_at(text: &[u8]) -> Option<Operator>
    ensures { result ≡ first_of longest_first text.now }
{
    first_of(&LONGEST_FIRST, text)
}

/// The first of these operators that the text begins with.
fn first_of(operators: &[Operator], text: &[u8]) -> Option<Operator>
    ensures { result ≡ first_of operators.now text.now }
{
    for operator in operators {
        if text.starts_with(operator.spelling().as_bytes()) {
            return Some(*operator);
        }
    }
    None
}

/// The length of `[.`, one or more blanks and `.]` at the front.
fn spaced_len(text: &[u8]) -> Option<usize>
    ensures { result ≡ spaced_at text.now }
{
    match text {
        [b'[', b'.', inner @ ..] => spaced_inner_len(inner),
        _ => None,
    }
}

fn spaced_inner_len(inner: &[u8]) -> Option<usize>
    ensures { result ≡ spaced_by inner.now }
{
    let (blanks, end) = split(inner, ByteClass::Blank);
    if blanks.is_empty() || !closes(end) {
        return None;
    }
    Some(blanks.len() + 4)
}

fn closes(text: &[u8]) -> bool
    ensures { result ≡ closes text.now }
{
    matches!(text, [b'.', b']', ..])
}
