ghost use Rattle.std.specs.Prelude.{◌≡◌, ◌==◌, ◌<◌, ◌+◌, ◌-◌, ◌^◌, ◌↔◌, ◌∷◌, false, true, IfOk, IsTrue, MatchOption};
ghost use Rattle.regex_tokens.specs.Bytes.{begins};
ghost use Rattle.regex_tokens.specs.Cuts.{newlines};
ghost use Rattle.twolc_tokens.specs.Spelling.{sides_of};
ghost use Rattle.twolc_tokens.specs.Cuts.{Cuts, HasFlag, IsFlagRun, IsRefused};
ghost use Rattle.twolc_tokens.specs.Reading.{HasNoAtom, IsAtomLen, IsRead, IsSideLen, IsTaken};

use crate::atom::sides;
use crate::bytes::{ByteClass, begins_with, front_len, newlines, run_len};
use crate::characters::undone;
use crate::gap::split_gap;
use crate::operator::operator;
use crate::token::{Placed, Token, Tokens};
use flag_texts::read_flag;
use fsm_base::Text;
use regex_tokens::Ending;
use std::alloc::{AllocError, Global};

/// The tokens of a text, at each place the longest, with their lines, counted from 1 (Karttunen and Beesley, Two-Level
/// Rule Compiler, 1992).
///
/// - Blanks are space, tab and newline. A comment goes from `!` to the end of its line. Both stand between tokens and
///   are none.
/// - Each [`Operator`](crate::Operator) is a token.
/// - `".."` is a quoted text. It has no `"`, backslash, tab or newline, and `!` and `%` stand for themselves.
/// - An atom is `X`, `X:`, `:Y`, `X:Y` or `:`, without blanks, where X and Y are runs or `?`; but X alone is a run. A run is
///   one or more characters other than blanks and `[ ] ( ) | / \ & - ~ $ * + ^ : ; _ . < > = ! " % ?`, or other than tab and
///   newline and with a `%` before them.
/// - An atom of which a run is a flag diacritic, `@X.F.V@` or `@X.F@`, is no token.
///
/// The tokens end before the first place at which none begins.
///
/// # Errors
///
/// Where there was no memory.
pub fn tokens(alloc: Global, text: &str) -> Result<Tokens, AllocError>
    requires { newlines text.now + 1 < 2 ^ 32 - 1 }
    ensures { IfOk result (λ found. Cuts 1 text.now found.tokens.items found.ending) }
{
    let mut tokens = Vec::new(alloc);
    let mut rest = text;
    let mut here: u32 = 1;
    'tokens: loop {
        let (gap, behind) = split_gap(rest);
        here = line_behind(here, gap);
        if behind.is_empty() {
            return Ok(Tokens {
                tokens,
                ending: Ending::Whole,
            });
        }
        let Some((token, len)) = first(alloc, behind)? else {
            return Ok(Tokens {
                tokens,
                ending: Ending::NoToken { line: here },
            });
        };
        let (_, after) = behind.split_at(len);
        tokens.push(Placed { token, line: here })?;
        rest = after;
    }
}

/// The line that is reached behind a text which begins in this line.
fn line_behind(line: u32, text: &[u8]) -> u32
    requires { line + newlines text.now < 2 ^ 32 - 1 }
    ensures { result ≡ line + newlines text.now }
{
    line + newlines(text) as u32
}

/// The first token and the number of its bytes; `None` where no token begins.
fn first(alloc: Global, text: &str) -> Result<Option<(Token, usize)>, AllocError>
    ensures { IfOk result (IsTaken text.now) }
{
    let Some((token, len)) = longest(alloc, text)? else {
        return Ok(None);
    };
    if is_refused(alloc, &token)? {
        return Ok(None);
    }
    Ok(Some((token, len)))
}

/// Whether it is an atom with a flag.
fn is_refused(alloc: Global, token: &Token) -> Result<bool, AllocError>
    ensures { IfOk result (λ refused. IsTrue refused ↔ IsRefused token.now) }
{
    match token {
        Token::Atom(atom) => has_flag(alloc, atom.as_str()),
        _ => Ok(false),
    }
}

/// Whether a side of an atom is a flag, or the run that it is.
fn has_flag(alloc: Global, atom: &str) -> Result<bool, AllocError>
    ensures { IfOk result (λ has. IsTrue has ↔ HasFlag atom.now (sides_of atom.now)) }
{
    let Some((up, low)) = sides(atom) else {
        return is_flag_run(alloc, atom);
    };
    if is_flag_run(alloc, up)? {
        return Ok(true);
    }
    is_flag_run(alloc, low)
}

/// Whether a run, its escapes undone, is a flag.
fn is_flag_run(alloc: Global, run: &str) -> Result<bool, AllocError>
    ensures { IfOk result (λ is. IsTrue is ↔ IsFlagRun run.now) }
{
    let text = undone(alloc, run)?;
    let flag = read_flag(alloc, text.as_str())?;
    Ok(flag.is_some())
}

/// The longest token, be it a flag, and the number of its bytes; `None` where none begins.
fn longest(alloc: Global, text: &str) -> Result<Option<(Token, usize)>, AllocError>
    ensures { IfOk result (IsRead text.now) }
{
    let len = atom_len(text.as_bytes());
    if len > 0 {
        return atom(alloc, text, len);
    }
    if begins_with(text.as_bytes(), b'"') {
        return quoted(alloc, text);
    }
    Ok(operator(text))
}

/// The atom of so many bytes.
fn atom(alloc: Global, text: &str, len: usize) -> Result<Option<(Token, usize)>, AllocError>
    requires here { IsAtomLen text.now len }
    requires some { 0 < len }
    ensures { IfOk result (IsRead text.now) }
{
    let (atom, _) = text.split_at(len);
    let atom = Text::of(alloc, atom)?;
    Ok(Some((Token::Atom(atom), len)))
}

/// The length of the atom at the front; 0 where there is none.
fn atom_len(text: &[u8]) -> usize
    ensures { IsAtomLen text.now result }
{
    let up = side_len(text);
    let (_, behind) = text.split_at(up);
    if let Some(low) = behind_colon(behind) {
        return up + 1 + side_len(low);
    }
    if begins_with(text, b'?') {
        return 0;
    }
    up
}

/// What is behind a `:` at the front.
fn behind_colon(text: &[u8]) -> Option<&[u8]>
    ensures { MatchOption result (begins (λ b. b == 58) text.now ≡ false) (λ low. text.now ≡ 58 ∷ low.now) }
{
    match text.split_first() {
        Some((b':', low)) => Some(low),
        _ => None,
    }
}

/// The length of a run or `?` at the front.
fn side_len(text: &[u8]) -> usize
    ensures { IsSideLen text.now result }
{
    if begins_with(text, b'?') {
        1
    } else {
        run_len(text)
    }
}

fn quoted(alloc: Global, text: &str) -> Result<Option<(Token, usize)>, AllocError>
    requires no_atom { HasNoAtom text.now }
    requires first { begins (λ b. b == 34) text.now ≡ true }
    ensures { IfOk result (IsRead text.now) }
{
    let (_, behind) = text.split_at(1);
    let (inner, end) = behind.split_at(front_len(behind.as_bytes(), ByteClass::Quoted));
    if !begins_with(end.as_bytes(), b'"') {
        return Ok(None);
    }
    let text = Text::of(alloc, inner)?;
    Ok(Some((Token::Quoted(text), inner.len() + 2)))
}
