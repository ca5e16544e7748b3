ghost use Rattle.std.specs.Prelude.{◌≡◌, ◌<◌, ◌≤◌, ◌+◌, ◌-◌, ◌^◌, ◌↔◌, IfErr, IfOk, IsTrue, length, map};
ghost use Rattle.twolc_expressions.specs.Views.{pair_view};
ghost use Rattle.twolc_tokens.specs.Cuts.{HasFlag};
ghost use Rattle.twolc_tokens.specs.Spelling.{IsAtom, sides_of};
ghost use Rattle.pair_lines.specs.Reading.{IsAlone, IsPairFound, IsWhyNoString};
ghost use Rattle.pair_lines.specs.Strings.{IsPairString};

use crate::words::{behind_blanks, split_word};
use regex_ast::{PairAtom, Raw, ReadError, Why};
use regex_tokens::Ending;
use std::alloc::{AllocError, Global};
use twolc_expressions::symbols_in;
use twolc_tokens::{Placed, Token, Tokens, tokens};

/// Whether a token is this atom.
fn is_this(token: &Token, atom: &str) -> bool
    ensures { IsTrue result ↔ (token.now ≡ Token.Atom atom.now) }
{
    match token {
        Token::Atom(text) => text.as_str() == atom,
        _ => false,
    }
}

/// Whether tokens are this atom alone.
fn is_alone(found: &Tokens, atom: &str) -> bool
    ensures { IsTrue result ↔ IsAlone found.now atom.now }
{
    match (found.tokens.as_slice(), found.ending) {
        ([placed], Ending::Whole) => is_this(&placed.token, atom),
        _ => false,
    }
}

/// Whether a text is an atom, and no flag stands in it.
fn is_atom(alloc: Global, text: &str) -> Result<bool, AllocError>
    requires { length text.now + 1 < 2 ^ 32 - 1 }
    ensures { IfOk result (λ is. IsTrue is ↔ (IsAtom text.now × ¬ HasFlag text.now (sides_of text.now))) }
{
    let found = tokens(alloc, text)?;
    Ok(is_alone(&found, text))
}

/// The pair that an atom is, if it is one of symbols or one `0`.
fn pair_of(alloc: Global, atom: &str) -> Result<Option<PairAtom<Raw>>, AllocError>
    requires { length atom.now + 1 < 2 ^ 32 - 1 }
    ensures { IfOk result (IsPairFound atom.now) }
{
    if !is_atom(alloc, atom)? {
        return Ok(None);
    }
    symbols_in(alloc, atom)
}

/// Reads a string of pairs, which is in Normalization Form C: atoms `x`, which is `x:x`, and `x:y`, of symbols or one `0`, with blanks
/// between them (Karttunen and Beesley, Two-Level Rule Compiler, 1992). The name of a set or of a definition is a symbol here.
///
/// # Errors
///
/// `Statement` in line 1 where the line is no such string; `Memory` where there was no memory.
pub fn read_pairs(alloc: Global, line: &str) -> Result<Vec<PairAtom<Raw>>, ReadError>
    requires { length line.now + 1 < 2 ^ 32 - 1 }
    ensures pairs { IfOk result (λ pairs. IsPairString line.now (map pair_view pairs.items)) }
    ensures few { IfOk result (λ pairs. length pairs.items ≤ length line.now) }
    ensures error { IfErr result (IsWhyNoString line.now) }
{
    let mut pairs = Vec::new(alloc);
    let mut rest = behind_blanks(line);
    'pairs: while !rest.is_empty() {
        let (atom, behind) = split_word(rest);
        let Some(pair) = pair_of(alloc, atom)? else {
            return Err(ReadError::Fault {
                line: 1,
                why: Why::Statement,
            });
        };
        pairs.push(pair)?;
        rest = behind_blanks(behind);
    }
    Ok(pairs)
}
