ghost use Rattle.std.specs.Prelude.{◌≡◌, IfOk, IfSome, MatchOption, ◌<◌, length};
ghost use Rattle.std.specs.List.{position};
ghost use Rattle.std.specs.Str.{encode_utf8_all};
ghost use Rattle.lexc_forms.specs.Letters.{is_mark};
ghost use Rattle.lexc_forms.specs.Fronts.{HasNoFlag, HasNoMarked, IsFlagFront, IsOnlyMarked};

use flag_texts::read_flag;
use fsm_base::Text;
use regex_ast::FlagOp;
use std::alloc::{AllocError, Global};

/// The text of characters.
pub fn encode(alloc: Global, characters: &[char]) -> Result<Text, AllocError>
    ensures { IfOk result (λ text. text ≡ encode_utf8_all characters.now) }
{
    // Each character has a byte at least.
    let mut text = String::with_capacity(alloc, characters.len())?;
    'characters: for character in characters {
        text.push(*character)?;
    }
    Text::from_string(text)
}

/// The place of the first `@`.
fn mark(text: &[char]) -> Option<usize>
    ensures first { result ≡ position is_mark text.now }
    ensures within { IfSome result (λ place. place < length text.now) }
{
    text.iter().position(|character| *character == '@')
}

/// How many characters stand from an `@` in front to the next one.
fn marked_len(text: &[char]) -> Option<usize>
    ensures { MatchOption result (HasNoMarked text.now) (IsOnlyMarked text.now) }
{
    let Some((first, rest)) = text.split_first() else {
        return None;
    };
    if *first != '@' {
        return None;
    }
    match mark(rest) {
        Some(place) => Some(place + 2),
        None => None,
    }
}

/// The flag that begins a text, and how many characters it has.
pub fn flag_front(alloc: Global, text: &[char]) -> Result<Option<(FlagOp, usize)>, AllocError>
    ensures { IfOk result (λ found. MatchOption found (HasNoFlag text.now) (λ f. IsFlagFront text.now f.0 f.1)) }
{
    let Some(len) = marked_len(text) else {
        return Ok(None);
    };
    let (front, _) = text.split_at(len);
    let front = encode(alloc, front)?;
    match read_flag(alloc, front.as_str())? {
        Some(flag) => Ok(Some((flag, len))),
        None => Ok(None),
    }
}
