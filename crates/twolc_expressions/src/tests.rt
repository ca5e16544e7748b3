ghost use Rattle.std.specs.Prelude.{◌≡◌, ◌&&◌, IsTrue, false, nat_lt};
ghost use Rattle.std.specs.List.{list_all, list_any};
ghost use Rattle.regex_grammar.specs.Grammar.{is_digit, is_number, number_of};
ghost use Rattle.regex_reader.specs.Limits.{highest_power};
ghost use Rattle.twolc_grammar.specs.Expressions.{has_edge, has_high_power, is_edge, is_high};
ghost use Rattle.twolc_grammar.specs.Sections.{tokens_of};

use crate::operand::is_caret;
use twolc_tokens::{Operator, Placed, Token};

/// Whether `.#.` stands among the tokens.
pub fn has_edge(tokens: &[Placed]) -> bool
    ensures { result ≡ has_edge (tokens_of tokens.now) }
{
    'tokens: for placed in tokens {
        if is_edge(&placed.token) {
            return true;
        }
    }
    false
}

fn is_edge(token: &Token) -> bool
    ensures { result ≡ is_edge token.now }
{
    matches!(token, Token::Operator(Operator::Edge))
}

/// Whether a number above 255 stands behind a `^`.
pub fn has_high_power(tokens: &[Placed]) -> bool
    ensures { result ≡ has_high_power false (tokens_of tokens.now) }
{
    let mut power = false;
    'tokens: for placed in tokens {
        if power && is_high(&placed.token) {
            return true;
        }
        power = is_caret(&placed.token);
    }
    false
}

/// Whether a token is a number above 255.
fn is_high(token: &Token) -> bool
    ensures { result ≡ is_high token.now }
{
    match token {
        Token::Atom(atom) => is_high_number(atom.as_str()),
        _ => false,
    }
}

/// Whether the text is a number above 255.
fn is_high_number(text: &str) -> bool
    ensures { result ≡ is_number text.now && nat_lt highest_power (number_of text.now) }
{
    is_number(text.as_bytes()) && is_above(text)
}

/// Whether the number that digits say is above 255.
fn is_above(digits: &str) -> bool
    requires { IsTrue (is_number digits.now) }
    ensures { result ≡ nat_lt highest_power (number_of digits.now) }
{
    match digits.parse::<u8>() {
        Ok(_) => false,
        Err(_) => true,
    }
}

/// Whether the text is one decimal digit or more.
fn is_number(text: &[u8]) -> bool
    ensures { result ≡ is_number text.now }
{
    !text.is_empty() && has_only_digits(text)
}

fn has_only_digits(text: &[u8]) -> bool
    ensures { result ≡ list_all is_digit text.now }
{
    text.iter().all(|byte| byte.is_ascii_digit())
}
