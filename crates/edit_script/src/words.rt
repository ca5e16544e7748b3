ghost use Rattle.std.specs.Prelude.{◌≡◌, ◌↔◌, ◌≢◌, ◌⊎◌, List, ℕ, Some, IsTrue, MatchOption, length, slice_get};
ghost use Rattle.reply_meaning.specs.Replies.{without_return};
ghost use Rattle.edit_script.specs.Commands.{HasNoSpace, IsFile, IsNetAndWord, IsNumber, IsText, spaced};

use fsm_io::MOST_LINE;
use project_manifest::{is_file_name, is_manifest_name};
use reply_meaning::without_return;
use std::str;

/// The greatest number of a command.
const MOST_NUMBER: u32 = 1_048_576;

/// The text of a line, or `None` where it is long or isn't UTF-8.
pub fn text_of(line: &[u8]) -> Option<&str>
    ensures { MatchOption result (IsText line.now → ⊥) (λ text. IsText line.now × (text.now ≡ without_return line.now)) }
{
    if line.len() > MOST_LINE {
        return None;
    }
    str::from_utf8(without_return(line)).ok()
}

/// What stands before the first space, and what behind it, or `None` where there is no space.
pub fn split(text: &str) -> Option<(&str, &str)>
    ensures { MatchOption result (HasNoSpace text.now) (λ parts. HasNoSpace parts.0.now × (text.now ≡ spaced parts.0.now parts.1.now)) }
{
    text.split_once(' ')
}

/// Whether a number's word begins as none does: with a sign, or with a zero that leads.
fn begins_wrongly(word: &[u8]) -> bool
    ensures { IsTrue result ↔ ((slice_get word.now 0 ≡ Some 43) ⊎ ((slice_get word.now 0 ≡ Some 48) × (length word.now ≢ 1))) }
{
    match word.first() {
        Some(first) => *first == b'+' || (*first == b'0' && word.len() != 1),
        None => false,
    }
}

/// The number of a word, or `None` where it is none.
pub fn number(word: &str) -> Option<u32>
    ensures { MatchOption result ((n : ℕ) → IsNumber n word.now → ⊥) (λ n. IsNumber n word.now) }
{
    if begins_wrongly(word.as_bytes()) {
        return None;
    }
    let number = word.parse::<u32>().ok()?;
    if number <= MOST_NUMBER {
        Some(number)
    } else {
        None
    }
}

/// Whether a word names a file.
pub fn is_file(name: &str) -> bool
    ensures { IsTrue result ↔ IsFile name.now }
{
    is_manifest_name(name.as_bytes()) || is_file_name(name.as_bytes())
}

/// The name and the word behind a keyword, or `None` where there is no name.
pub fn net_and_word(rest: &str) -> Option<(&str, &str)>
    ensures { MatchOption result ((net word : List ℕ) → IsNetAndWord net word rest.now → ⊥) (λ parts. IsNetAndWord parts.0.now parts.1.now rest.now) }
{
    let (net, word) = match split(rest) {
        Some(parts) => parts,
        None => (rest, ""),
    };
    if net.is_empty() {
        return None;
    }
    Some((net, word))
}
