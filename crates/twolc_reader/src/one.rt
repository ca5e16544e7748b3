ghost use Rattle.std.specs.Prelude.{◌≡◌, ◌≢◌, ◌<◌, ◌-◌, ◌^◌, [], IfSome};
ghost use Rattle.std.specs.List.{position};
ghost use Rattle.std.specs.Option.{option_map};
ghost use Rattle.twolc_grammar.specs.Sections.{is_quoted, is_semicolon};
ghost use Rattle.twolc_reader.specs.Reading.{IsEndOfRule, IsEndedSplit, IsOneSplit, section_view};

use crate::stage::{Section, is_quoted};
use twolc_tokens::{Operator, Placed, Token};

/// The tokens of the statement of a section that stands in front, and those behind it; `None` where it isn't ended. A rule goes
/// to the next quoted text or to the end, any other statement to its `;`.
pub fn split_one(section: Section, tokens: &[Placed]) -> Option<(&[Placed], &[Placed])>
    requires { tokens.now ≢ [] }
    ensures { IsOneSplit (section_view section) tokens.now (option_map (λ x. (x.0.now, x.1.now)) result) }
{
    match section {
        Section::Rules => Some(tokens.split_at(end_of_rule(tokens))),
        _ => split_semicolon(tokens),
    }
}

/// The tokens to the first `;`, with it, and those behind it.
fn split_semicolon(tokens: &[Placed]) -> Option<(&[Placed], &[Placed])>
    ensures { IsEndedSplit tokens.now (option_map (λ x. (x.0.now, x.1.now)) result) }
{
    let Some(place) = place_of_semicolon(tokens) else {
        return None;
    };
    Some(tokens.split_at(place + 1))
}

/// How many tokens the rule in front has.
fn end_of_rule(tokens: &[Placed]) -> usize
    requires { tokens.now ≢ [] }
    ensures { IsEndOfRule tokens.now result }
{
    let Some((_, more)) = tokens.split_first() else {
        return 0;
    };
    match place_of_quoted(more) {
        Some(place) => place + 1,
        None => tokens.len(),
    }
}

/// The place of the first quoted text, counted from 0.
fn place_of_quoted(tokens: &[Placed]) -> Option<usize>
    ensures first { result ≡ position (λ p. is_quoted p.token) tokens.now }
    ensures within { IfSome result (λ place. place < 2 ^ 64 - 1) }
{
    tokens.iter().position(|placed| is_quoted(&placed.token))
}

/// The place of the first `;`, counted from 0.
fn place_of_semicolon(tokens: &[Placed]) -> Option<usize>
    ensures first { result ≡ position (λ p. is_semicolon p.token) tokens.now }
    ensures within { IfSome result (λ place. place < 2 ^ 64 - 1) }
{
    tokens.iter().position(|placed| is_semicolon(&placed.token))
}

fn is_semicolon(token: &Token) -> bool
    ensures { result ≡ is_semicolon token.now }
{
    matches!(token, Token::Operator(Operator::Semicolon))
}
