ghost use Rattle.std.specs.Prelude.{◌≡◌};
ghost use Rattle.std.specs.Option.{option_map};
ghost use Rattle.twolc_grammar.specs.Sections.{tokens_of};
ghost use Rattle.twolc_reader.specs.RuleReading.{IsArrowSplit, IsAtomSplit, IsQuotedSplit};

use fsm_base::Text;
use regex_ast::RuleKind;
use twolc_tokens::{Operator, Placed, Token};

/// The quoted text in front, and the tokens behind it.
pub fn split_quoted(tokens: &[Placed]) -> Option<(&Text, &[Placed])>
    ensures { IsQuotedSplit (tokens_of tokens.now) (option_map (λ x. (x.0.now, tokens_of x.1.now)) result) }
{
    let Some((first, rest)) = tokens.split_first() else {
        return None;
    };
    match &first.token {
        Token::Quoted(name) => Some((name, rest)),
        _ => None,
    }
}

/// The atom in front, and the tokens behind it.
pub fn split_atom(tokens: &[Placed]) -> Option<(&Text, &[Placed])>
    ensures { IsAtomSplit (tokens_of tokens.now) (option_map (λ x. (x.0.now, tokens_of x.1.now)) result) }
{
    let Some((first, rest)) = tokens.split_first() else {
        return None;
    };
    match &first.token {
        Token::Atom(atom) => Some((atom, rest)),
        _ => None,
    }
}

/// The kind of the rules in which the arrow in front stands, and the tokens behind it.
pub fn split_arrow(tokens: &[Placed]) -> Option<(RuleKind, &[Placed])>
    ensures { IsArrowSplit (tokens_of tokens.now) (option_map (λ x. (x.0, tokens_of x.1.now)) result) }
{
    let Some((first, rest)) = tokens.split_first() else {
        return None;
    };
    match &first.token {
        Token::Operator(Operator::Arrow(kind)) => Some((*kind, rest)),
        _ => None,
    }
}
