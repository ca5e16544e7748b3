ghost use Rattle.std.specs.Prelude.{◌≡◌};
ghost use Rattle.std.specs.Option.{option_map};
ghost use Rattle.regex_tokens.specs.Fronts.{after, is_operator};

use crate::token::{Operator, Token};

/// The tokens behind this operator; `None` where they don't begin with it.
pub fn after(tokens: &[Token], operator: Operator) -> Option<&[Token]>
    ensures { option_map (λ rest. rest.now) result ≡ after operator tokens.now }
{
    match tokens.split_first() {
        Some((first, rest)) if is_operator(first, operator) => Some(rest),
        _ => None,
    }
}

fn is_operator(token: &Token, operator: Operator) -> bool
    ensures { result ≡ is_operator operator token.now }
{
    match token {
        Token::Operator(other) => operator == *other,
        _ => false,
    }
}
