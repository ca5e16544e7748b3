ghost use Rattle.std.specs.Prelude.{◌≡◌, ◌≤◌, ◌<◌, ◌+◌, ◌-◌, ◌^◌, ◌==◌, IfOk, MatchOption, drop, false, length};
ghost use Rattle.regex_tokens.specs.Bytes.{begins};
ghost use Rattle.regex_tokens.specs.Cuts.{newlines};
ghost use Rattle.lexc_tokens.specs.Tokens.{NoneStands, Stands, begins_expression};
ghost use Rattle.lexc_tokens.specs.Steps.{IsNext, IsTokenFront};

use crate::expressions::inner_len;
use crate::gaps::{gap_len, newlines};
use crate::token::{Token, Word};
use crate::words::word;
use lexc_forms::encode;
use std::alloc::{AllocError, Global};

/// A token and where it stands.
#[derive(Debug, Drop)]
pub struct Found {
    /// The token.
    pub token: Token,
    /// The line in which it begins.
    pub line: u32,
    /// How many characters it has together with what stands before it.
    pub len: usize,
    /// The line in which the text behind it begins.
    pub behind: u32,
}

/// What comes next in a text.
#[derive(Debug, Drop)]
pub enum Next {
    /// Nothing.
    End,
    /// A place where no token begins.
    NoToken {
        /// The line of the place.
        line: u32,
    },
    /// A token.
    Found(Found),
}

/// The token that begins a text, and how many characters it has; `None` where none begins. A `<` begins an expression where
/// `opens` says so.
fn token_front(
    alloc: Global,
    text: &[char],
    opens: bool,
) -> Result<Option<(Token, usize)>, AllocError>
    ensures { IfOk result (λ found. MatchOption found (NoneStands opens text.now) (λ f. IsTokenFront opens text.now f.0 f.1)) }
{
    let Some((first, behind)) = text.split_first() else {
        return Ok(None);
    };
    if *first == ';' {
        return Ok(Some((Token::Semicolon, 1)));
    }
    if opens && *first == '<' {
        let len = inner_len(behind);
        let (inner, _) = behind.split_at(len);
        let token = Token::Expression(encode(alloc, inner)?);
        return Ok(Some((token, text.len().min(len + 2))));
    }
    word_front(alloc, text, opens)
}

/// The word that begins a text, and how many characters it has; `None` where none begins.
fn word_front(
    alloc: Global,
    text: &[char],
    opens: bool,
) -> Result<Option<(Token, usize)>, AllocError>
    requires no_end { begins (λ c. c == 59) text.now ≡ false }
    requires no_expression { begins_expression opens text.now ≡ false }
    ensures { IfOk result (λ found. MatchOption found (NoneStands opens text.now) (λ f. IsTokenFront opens text.now f.0 f.1)) }
{
    let (letters, len) = word(alloc, text)?;
    if letters.is_empty() {
        return Ok(None);
    }
    Ok(Some((Token::Word(Word::from(letters)), len)))
}

/// What comes next in a text that begins in this line, behind blanks and comments. A comment goes from `!` to the end of its
/// line. A `<` begins an expression where `opens` says so.
///
/// - A word has one or more letters: characters other than blanks, `;`, `!` and `%`, or other than tab and newline and
///   with a `%` before them.
/// - `;` is a token of its own.
/// - An expression goes from `<` to the next `>` that isn't escaped, in quotes or in a comment, or to the end of the text.
pub fn scan(alloc: Global, text: &[char], line: u32, opens: bool) -> Result<Next, AllocError>
    requires { line + newlines text.now < 2 ^ 32 - 1 }
    ensures { IfOk result (IsNext opens line text.now) }
{
    let skipped = gap_len(text);
    let (gap, rest) = text.split_at(skipped);
    let at = line + newlines(gap) as u32;
    if rest.is_empty() {
        return Ok(Next::End);
    }
    match token_front(alloc, rest, opens)? {
        None => Ok(Next::NoToken { line: at }),
        Some((token, len)) => {
            let (front, _) = rest.split_at(len);
            Ok(Next::Found(Found {
                token,
                line: at,
                len: skipped + len,
                behind: at + newlines(front) as u32,
            }))
        }
    }
}
