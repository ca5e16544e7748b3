ghost use Rattle.std.specs.Prelude.{◌≡◌, ◌==◌, ◌||◌, ◌<◌, ◌+◌, ◌-◌, ◌^◌, true, IfOk};
ghost use Rattle.regex_tokens.specs.Bytes.{begins, is_run_byte};
ghost use Rattle.regex_tokens.specs.Cuts.{Cuts, newlines};
ghost use Rattle.regex_tokens.specs.Reading.{IsRead, IsTaken, is_refused};

use crate::bytes::{
    ByteClass, begins_with, front_len, has_escape, is_run_byte, newlines, pieces_len,
};
use crate::characters::{letters, undone};
use crate::comments::Comments;
use crate::flag::is_flag;
use crate::gap::split_gap;
use crate::operator::operator;
use crate::token::{Ending, Place, Run, Token, Tokens};
use fsm_base::Text;
use std::alloc::{AllocError, Global};

/// The tokens of a text that begins in this line, counted from 1: at each place the longest (Beesley and Karttunen,
/// Finite State Morphology, 2003, chapters 2 and 3).
///
/// - Blanks are space, tab and newline. A comment begins with what `comments` says and goes to the end of its line. Both
///   stand between tokens and are none.
/// - Each [`Operator`](crate::Operator) is a token.
/// - `".."` is a quoted text. It has no `"`, backslash, tab or newline, and `%` stands for itself.
/// - `{..}` is a text in braces, each character for itself. A `%` takes the next character as it is. It has no tab or
///   newline, and no `}` without `%`.
/// - A run is one or more characters other than blanks and `[ ] ( ) { } | / \ & - ~ $ * + ^ : ; , ? _ . < > = ! # @ " %`,
///   or other than tab and newline and with a `%` before them.
/// - A quoted text or run that is a flag diacritic, `@X.F.V@` or `@X.F@`, is no token.
///
/// The tokens end before the first place at which none begins.
///
/// # Errors
///
/// Where there was no memory.
pub fn tokens(
    alloc: Global,
    text: &str,
    line: u32,
    comments: Comments,
) -> Result<Tokens, AllocError>
    requires { line + newlines text.now < 2 ^ 32 - 1 }
    ensures { IfOk result (λ found. Cuts comments line text.now found.tokens.items found.places.items found.ending) }
{
    let mut tokens = Vec::new(alloc);
    let mut places = Vec::new(alloc);
    let mut rest = text;
    let mut here = line;
    'tokens: loop {
        let (gap, behind) = split_gap(rest, comments);
        here = line_behind(here, gap);
        if behind.is_empty() {
            return Ok(Tokens {
                tokens,
                places,
                ending: Ending::Whole,
            });
        }
        let Some((token, len)) = first(alloc, behind)? else {
            return Ok(Tokens {
                tokens,
                places,
                ending: Ending::NoToken { line: here },
            });
        };
        let (front, after) = behind.split_at(len);
        tokens.push(token)?;
        places.push(Place {
            line: here,
            apart: !gap.is_empty(),
        })?;
        here = line_behind(here, front.as_bytes());
        rest = after;
    }
}

/// The line that is reached behind a text which begins in this line.
fn line_behind(line: u32, text: &[u8]) -> u32
    requires { line + newlines text.now < 2 ^ 32 - 1 }
    ensures { result ≡ line + newlines text.now }
{
    line + newlines(text) as u32
}

/// The first token and the number of its bytes; `None` where no token begins.
fn first(alloc: Global, text: &str) -> Result<Option<(Token, usize)>, AllocError>
    ensures { IfOk result (IsTaken text.now) }
{
    let Some((token, len)) = longest(alloc, text)? else {
        return Ok(None);
    };
    if is_refused(&token) {
        return Ok(None);
    }
    Ok(Some((token, len)))
}

/// Whether it is a quoted text or run that is a flag.
fn is_refused(token: &Token) -> bool
    ensures { result ≡ is_refused token.now }
{
    match token {
        Token::Quoted(text) => is_flag(text.as_str().as_bytes()),
        Token::Run(run) => is_flag(run.text.as_str().as_bytes()),
        _ => false,
    }
}

/// The longest token, be it a flag, and the number of its bytes; `None` where none begins.
fn longest(alloc: Global, text: &str) -> Result<Option<(Token, usize)>, AllocError>
    ensures { IfOk result (IsRead text.now) }
{
    match text.as_bytes().split_first() {
        None => Ok(None),
        Some((b'"', _)) => quoted(alloc, text),
        Some((b'{', _)) => braced(alloc, text),
        Some((first, _)) if *first == b'%' || is_run_byte(*first) => run(alloc, text),
        _ => Ok(operator(text)),
    }
}

fn quoted(alloc: Global, text: &str) -> Result<Option<(Token, usize)>, AllocError>
    requires { begins (λ b. b == 34) text.now ≡ true }
    ensures { IfOk result (IsRead text.now) }
{
    let (_, behind) = text.split_at(1);
    let (inner, end) = behind.split_at(front_len(behind.as_bytes(), ByteClass::Quoted));
    if !begins_with(end.as_bytes(), b'"') {
        return Ok(None);
    }
    let text = Text::of(alloc, inner)?;
    Ok(Some((Token::Quoted(text), inner.len() + 2)))
}

fn braced(alloc: Global, text: &str) -> Result<Option<(Token, usize)>, AllocError>
    requires { begins (λ b. b == 123) text.now ≡ true }
    ensures { IfOk result (IsRead text.now) }
{
    let (_, behind) = text.split_at(1);
    let (inner, end) = behind.split_at(pieces_len(behind.as_bytes(), ByteClass::Braced));
    if !begins_with(end.as_bytes(), b'}') {
        return Ok(None);
    }
    let letters = letters(alloc, &undone(alloc, inner)?)?;
    Ok(Some((Token::Braced(letters), inner.len() + 2)))
}

fn run(alloc: Global, text: &str) -> Result<Option<(Token, usize)>, AllocError>
    requires { begins (λ b. b == 37 || is_run_byte b) text.now ≡ true }
    ensures { IfOk result (IsRead text.now) }
{
    let (front, _) = text.split_at(pieces_len(text.as_bytes(), ByteClass::Run));
    if front.is_empty() {
        return Ok(None);
    }
    let run = Run {
        text: Text::from_string(undone(alloc, front)?)?,
        escaped: has_escape(front.as_bytes()),
    };
    Ok(Some((Token::Run(run), front.len())))
}
