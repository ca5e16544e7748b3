ghost use Rattle.std.specs.Prelude.{◌≡◌, ◌≤◌, IfOk, drop, length};
ghost use Rattle.lexc_tokens.specs.Tokens.{IsWord, escaped_front, is_escapable, is_plain, letter_front};

use lexc_forms::Letter;
use std::alloc::{AllocError, Global};

/// Room for the letters of most words, so that few of them are moved while they grow.
const ROOM: usize = 16;

/// Whether a character may stand in a word without an escape: it is no blank, and none of `;`, `!` and `%`.
fn is_plain(character: char) -> bool
    ensures { result ≡ is_plain character }
{
    !matches!(character, ' ' | '\t' | '\n' | ';' | '!' | '%')
}

/// Whether `%` takes a character as it is.
fn is_escapable(character: char) -> bool
    ensures { result ≡ is_escapable character }
{
    !matches!(character, '\t' | '\n')
}

/// The letter behind a `%`, and how many characters both have.
fn escaped_front(text: &[char]) -> Option<(Letter, usize)>
    ensures { result ≡ escaped_front text.now }
{
    let (first, _) = text.split_first()?;
    if is_escapable(*first) {
        Some((Letter::Escaped(*first), 2))
    } else {
        None
    }
}

/// The letter that begins a text, and how many characters it has; `None` where none begins.
fn letter_front(text: &[char]) -> Option<(Letter, usize)>
    ensures { result ≡ letter_front text.now }
{
    let (first, rest) = text.split_first()?;
    if is_plain(*first) {
        Some((Letter::Plain(*first), 1))
    } else if *first == '%' {
        escaped_front(rest)
    } else {
        None
    }
}

/// The letters that a text begins with, and how many characters they have.
pub fn word(alloc: Global, text: &[char]) -> Result<(Vec<Letter>, usize), AllocError>
    ensures letters { IfOk result (λ found. IsWord text.now found.0.items (drop found.1 text.now)) }
    ensures within { IfOk result (λ found. found.1 ≤ length text.now) }
{
    let mut letters = Vec::with_capacity(alloc, ROOM)?;
    let mut len = 0;
    'letters: while let Some((letter, size)) = letter_front(text.split_at(len).1) {
        letters.push(letter)?;
        len += size;
    }
    Ok((letters, len))
}
