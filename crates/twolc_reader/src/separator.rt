ghost use Rattle.std.specs.Prelude.{◌≡◌};
ghost use Rattle.std.specs.List.{position};
ghost use Rattle.std.specs.Option.{option_map};
ghost use Rattle.twolc_grammar.specs.Sections.{tokens_of};
ghost use Rattle.twolc_reader.specs.RuleReading.{IsSplit, is_separator};

use twolc_tokens::{Operator, Placed, Token};

/// What ends a part of a context.
#[derive(Clone, Copy, Debug, PartialEq, Eq)]
pub enum Separator {
    /// `_`, behind the left part.
    Underscore,
    /// `;`, behind the right part.
    Semicolon,
}

/// The tokens before and behind the first such separator.
pub fn split_at_separator(tokens: &[Placed], separator: Separator) -> Option<(&[Placed], &[Placed])>
    ensures { IsSplit separator (tokens_of tokens.now) (option_map (λ x. (tokens_of x.0.now, tokens_of x.1.now)) result) }
{
    let Some(place) = place_of(tokens, separator) else {
        return None;
    };
    let (front, rest) = tokens.split_at(place);
    let (_, behind) = rest.split_at(1);
    Some((front, behind))
}

/// The place of the first such separator, counted from 0.
fn place_of(tokens: &[Placed], separator: Separator) -> Option<usize>
    ensures { result ≡ position (λ p. is_separator separator p.token) tokens.now }
{
    tokens
        .iter()
        .position(|placed| is_separator(separator, &placed.token))
}

fn is_separator(separator: Separator, token: &Token) -> bool
    ensures { result ≡ is_separator separator token.now }
{
    match separator {
        Separator::Underscore => matches!(token, Token::Operator(Operator::Underscore)),
        Separator::Semicolon => matches!(token, Token::Operator(Operator::Semicolon)),
    }
}
