ghost use Rattle.std.specs.Prelude.{◌≡◌, false, IfOk};
ghost use Rattle.std.specs.Option.{option_map};
ghost use Rattle.twolc_grammar.specs.Expressions.{as_operand, as_token, as_xfst, in_xfst, is_any, is_caret};
ghost use Rattle.twolc_grammar.specs.Sections.{tokens_of};

use fsm_base::Text;
use regex_tokens as xfst;
use std::alloc::{AllocError, Global};
use twolc_tokens::{Operator, Placed, Token};

/// The tokens as those of an xfst expression, in which each atom stands as one symbol; `None` where one of them may not
/// stand there.
pub fn as_xfst(alloc: Global, tokens: &[Placed]) -> Result<Option<Vec<xfst::Token>>, AllocError>
    ensures { IfOk result (λ found. option_map (λ xs. xs.items) found ≡ as_xfst false (tokens_of tokens.now)) }
{
    let mut found = Vec::new(alloc);
    let mut power = false;
    'tokens: for placed in tokens {
        let Some(token) = as_token(alloc, power, &placed.token)? else {
            return Ok(None);
        };
        found.push(token)?;
        power = is_caret(&placed.token);
    }
    Ok(Some(found))
}

/// A token as one of an xfst expression, behind a `^` or not.
fn as_token(alloc: Global, power: bool, token: &Token) -> Result<Option<xfst::Token>, AllocError>
    ensures { IfOk result (λ found. found ≡ as_token power token.now) }
{
    match token {
        Token::Operator(operator) => match in_xfst(*operator) {
            Some(operator) => Ok(Some(xfst::Token::Operator(operator))),
            None => Ok(None),
        },
        Token::Quoted(_) => Ok(None),
        Token::Atom(atom) => Ok(Some(as_operand(alloc, power, atom.as_str())?)),
    }
}

/// An atom as one symbol, or behind a `^` as a run.
fn as_operand(alloc: Global, power: bool, atom: &str) -> Result<xfst::Token, AllocError>
    ensures { IfOk result (λ token. token ≡ as_operand power atom.now) }
{
    if power {
        return Ok(xfst::Token::Run(xfst::Run {
            text: Text::of(alloc, atom)?,
            escaped: atom.as_bytes().contains(&b'%'),
        }));
    }
    if is_any(atom) {
        return Ok(xfst::Token::Operator(xfst::Operator::Question));
    }
    Ok(xfst::Token::Quoted(Text::of(alloc, atom)?))
}

/// Whether an atom is `?` with a `:`.
fn is_any(atom: &str) -> bool
    ensures { result ≡ is_any atom.now }
{
    atom == "?:" || atom == ":?" || atom == "?:?"
}

/// Whether a token is `^`.
pub fn is_caret(token: &Token) -> bool
    ensures { result ≡ is_caret token.now }
{
    matches!(token, Token::Operator(Operator::Caret))
}

/// The operator of xfst that an operator is, where it is one of expressions.
fn in_xfst(operator: Operator) -> Option<xfst::Operator>
    ensures { result ≡ in_xfst operator }
{
    match operator {
        Operator::OpenSquare => Some(xfst::Operator::OpenSquare),
        Operator::CloseSquare => Some(xfst::Operator::CloseSquare),
        Operator::OpenRound => Some(xfst::Operator::OpenRound),
        Operator::CloseRound => Some(xfst::Operator::CloseRound),
        Operator::Bar => Some(xfst::Operator::Bar),
        Operator::Ampersand => Some(xfst::Operator::Ampersand),
        Operator::Minus => Some(xfst::Operator::Minus),
        Operator::Tilde => Some(xfst::Operator::Tilde),
        Operator::Backslash => Some(xfst::Operator::Backslash),
        Operator::Dollar => Some(xfst::Operator::Dollar),
        Operator::Star => Some(xfst::Operator::Star),
        Operator::Plus => Some(xfst::Operator::Plus),
        Operator::Caret => Some(xfst::Operator::Caret),
        Operator::Slash => Some(xfst::Operator::Slash),
        Operator::Question => Some(xfst::Operator::Question),
        Operator::Edge => Some(xfst::Operator::Edge),
        Operator::Arrow(_) | Operator::Semicolon | Operator::Underscore | Operator::Equals => None,
    }
}
