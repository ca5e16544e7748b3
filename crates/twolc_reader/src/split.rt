ghost use Rattle.std.specs.Prelude.{◌≡◌};
ghost use Rattle.std.specs.Option.{option_map};
ghost use Rattle.twolc_grammar.specs.Sections.{is_semicolon, tokens_of};
ghost use Rattle.twolc_reader.specs.StatementReading.{IsAtomSplit, IsEndSplit, IsEqualsSplit, IsNameSplit, is_equals};

use fsm_base::Text;
use regex_reader::is_name;
use twolc_tokens::{Operator, Placed, Token};

/// The tokens before the `;` at the end.
pub fn split_end(tokens: &[Placed]) -> Option<&[Placed]>
    ensures { IsEndSplit (tokens_of tokens.now) (option_map (λ front. tokens_of front.now) result) }
{
    let Some((last, front)) = tokens.split_last() else {
        return None;
    };
    if !is_semicolon(&last.token) {
        return None;
    }
    Some(front)
}

fn is_semicolon(token: &Token) -> bool
    ensures { result ≡ is_semicolon token.now }
{
    matches!(token, Token::Operator(Operator::Semicolon))
}

/// The name before a `=` in front, and the tokens behind it.
pub fn split_name(tokens: &[Placed]) -> Option<(&Text, &[Placed])>
    ensures { IsNameSplit (tokens_of tokens.now) (option_map (λ x. (x.0.now, tokens_of x.1.now)) result) }
{
    let (name, rest) = split_atom(tokens)?;
    let behind = split_equals(rest)?;
    if !is_name(name.as_str().as_bytes()) {
        return None;
    }
    Some((name, behind))
}

/// The atom in front, and the tokens behind it.
fn split_atom(tokens: &[Placed]) -> Option<(&Text, &[Placed])>
    ensures { IsAtomSplit (tokens_of tokens.now) (option_map (λ x. (x.0.now, tokens_of x.1.now)) result) }
{
    let Some((first, rest)) = tokens.split_first() else {
        return None;
    };
    match &first.token {
        Token::Atom(atom) => Some((atom, rest)),
        _ => None,
    }
}

/// The tokens behind a `=` in front.
fn split_equals(tokens: &[Placed]) -> Option<&[Placed]>
    ensures { IsEqualsSplit (tokens_of tokens.now) (option_map (λ rest. tokens_of rest.now) result) }
{
    let Some((first, rest)) = tokens.split_first() else {
        return None;
    };
    if !is_equals(&first.token) {
        return None;
    }
    Some(rest)
}

fn is_equals(token: &Token) -> bool
    ensures { result ≡ is_equals token.now }
{
    matches!(token, Token::Operator(Operator::Equals))
}
