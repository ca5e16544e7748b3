ghost use Rattle.std.specs.Prelude.{◌≡◌, false, IfOk, IsTrue};
ghost use Rattle.std.specs.List.{concat, list_all};
ghost use Rattle.std.specs.Char.{encode_utf8};
ghost use Rattle.std.specs.String.{string_bytes};
ghost use Rattle.regex_tokens.specs.Bytes.{is_character};
ghost use Rattle.regex_tokens.specs.Reading.{undone_from};

use crate::token::Letters;
use fsm_base::Text;
use std::alloc::{AllocError, Global};

/// The text without the `%`s that escape what is behind them.
pub fn undone(alloc: Global, text: &str) -> Result<String, AllocError>
    ensures { IfOk result (λ undone. string_bytes undone ≡ undone_from false text.now) }
{
    let mut undone = String::new(alloc);
    let mut escaped = false;
    for character in text.chars() {
        if character == '%' && !escaped {
            escaped = true;
        } else {
            undone.push(character)?;
            escaped = false;
        }
    }
    Ok(undone)
}

/// The characters of a text.
pub fn letters(alloc: Global, text: &str) -> Result<Letters, AllocError>
    ensures joined { IfOk result (λ letters. concat letters ≡ text.now) }
    ensures single { IfOk result (λ letters. IsTrue (list_all is_character letters)) }
{
    let mut letters = Vec::new(alloc);
    for character in text.chars() {
        letters.push(letter(alloc, character)?)?;
    }
    Ok(Letters::from(letters))
}

fn letter(alloc: Global, character: char) -> Result<Text, AllocError>
    ensures { IfOk result (λ letter. letter ≡ encode_utf8 character) }
{
    let mut letter = String::new(alloc);
    letter.push(character)?;
    Text::from_string(letter)
}
