ghost use Rattle.std.specs.Prelude.{◌≡◌, IfOk};
ghost use Rattle.lexc_forms.specs.Letters.{character_of, characters_of, is_colon, text_of};

use crate::flags::encode;
use fsm_base::Text;
use std::alloc::{AllocError, Global};

/// A character of a word.
#[derive(Clone, Copy, Debug, PartialEq, Eq)]
pub enum Letter {
    /// A character as it stands.
    Plain(char),
    /// A character behind the escape `%`, which takes it as it is.
    Escaped(char),
}

impl Letter {
    /// The character.
    pub fn character(self) -> char
        ensures { result ≡ character_of self }
    {
        match self {
            Letter::Plain(character) => character,
            Letter::Escaped(character) => character,
        }
    }

    /// Whether it is a `:` that stands between two sides.
    pub fn is_colon(self) -> bool
        ensures { result ≡ is_colon self }
    {
        match self {
            Letter::Plain(character) => character == ':',
            Letter::Escaped(_) => false,
        }
    }
}

/// The characters of letters.
pub fn characters(alloc: Global, letters: &[Letter]) -> Result<Vec<char>, AllocError>
    ensures { IfOk result (λ characters. characters.items ≡ characters_of letters.now) }
{
    letters
        .iter()
        .map(|letter| letter.character())
        .collect(alloc)
}

/// The text of letters, their escapes undone.
pub fn text_of(alloc: Global, letters: &[Letter]) -> Result<Text, AllocError>
    ensures { IfOk result (λ text. text ≡ text_of letters.now) }
{
    let characters = characters(alloc, letters)?;
    encode(alloc, &characters)
}
