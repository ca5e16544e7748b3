ghost use Rattle.std.specs.Prelude.{◌≡◌, ◌==◌, false};
ghost use Rattle.regex_tokens.specs.Bytes.{begins};
ghost use Rattle.twolc_tokens.specs.Reading.{HasNoAtom, IsRead, first_of, longest_first};

use crate::token::{Operator, Token};
use regex_ast::RuleKind;

/// The operators, none behind one that is shorter.
const LONGEST_FIRST: [Operator; 23] = [
    Operator::Edge,
    Operator::Arrow(RuleKind::Both),
    Operator::Arrow(RuleKind::Never),
    Operator::Arrow(RuleKind::Only),
    Operator::Arrow(RuleKind::Must),
    Operator::OpenSquare,
    Operator::CloseSquare,
    Operator::OpenRound,
    Operator::CloseRound,
    Operator::Bar,
    Operator::Ampersand,
    Operator::Minus,
    Operator::Slash,
    Operator::Tilde,
    Operator::Backslash,
    Operator::Dollar,
    Operator::Star,
    Operator::Plus,
    Operator::Caret,
    Operator::Question,
    Operator::Semicolon,
    Operator::Underscore,
    Operator::Equals,
];

/// The longest operator at the front of a text that begins with neither an atom nor quotes, and the number of its
/// bytes.
pub fn operator(text: &str) -> Option<(Token, usize)>
    requires no_atom { HasNoAtom text.now }
    requires no_quotes { begins (λ b. b == 34) text.now ≡ false }
    ensures { IsRead text.now result }
{
    let Some(operator) = operator_at(text.as_bytes()) else {
        return None;
    };
    Some((Token::Operator(operator), operator.spelling().len()))
}

/// The longest operator at the front.
fn operator_at(text: &[u8]) -> Option<Operator>
    ensures { result ≡ first_of longest_first text.now }
{
    first_of(&LONGEST_FIRST, text)
}

/// The first of these operators that the text begins with.
fn first_of(operators: &[Operator], text: &[u8]) -> Option<Operator>
    ensures { result ≡ first_of operators.now text.now }
{
    for operator in operators {
        if text.starts_with(operator.spelling().as_bytes()) {
            return Some(*operator);
        }
    }
    None
}
