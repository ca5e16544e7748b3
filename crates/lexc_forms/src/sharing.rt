ghost use Rattle.std.specs.Prelude.{◌≡◌, [], ◌∷◌, IfOk, IfSome};
ghost use Rattle.std.specs.Str.{encode_utf8_all};
ghost use Rattle.lexc_forms.specs.Letters.{text_of};
ghost use Rattle.lexc_forms.specs.Shared.{AreTexts};

use crate::flags::encode;
use crate::letters::{Letter, text_of};
use fsm_base::Text;
use std::alloc::{AllocError, Global};
use std::marker::Model;

/// How many places there are for texts of characters. Those of most scripts have one each.
const PLACES: usize = 2_048;

/// A character and its text.
#[derive(Debug, Drop)]
struct KnownCharacter {
    /// The character.
    character: char,
    /// Its text.
    text: Text,
}

/// A word and its text.
#[derive(Debug, Drop)]
struct KnownWord {
    /// The letters of the word.
    letters: Vec<Letter>,
    /// Its text.
    text: Text,
}

/// Texts that come often, which are made once and shared: those of single characters, and that of the word that came last. What
/// it gives is what would be made anew each time.
#[derive(Drop)]
pub struct SharedTexts {
    /// At most one character at each place.
    characters: Vec<Option<KnownCharacter>>,
    /// The word that came last.
    word: Option<KnownWord>,
}

impl Model for SharedTexts {
    ghost use Rattle.std.specs.Prelude.{List, Option};
    ghost use Rattle.lexc_forms.specs.declared.sharing.KnownCharacter.{KnownCharacter};
    ghost use Rattle.lexc_forms.specs.declared.sharing.KnownWord.{KnownWord};
    ghost use Rattle.lexc_forms.specs.Shared.{AreTexts, IsTextOfWord};

    ghost Value = { List (Option KnownCharacter) × Option KnownWord };

    ghost view = { λ shared. (shared.characters.items, shared.word) };

    ghost invariant = { λ shared. AreTexts shared.characters.items × IsTextOfWord shared.word };
}

impl SharedTexts {
    /// No texts.
    pub fn new(alloc: Global) -> SharedTexts {
        SharedTexts {
            characters: Vec::new(alloc),
            word: None,
        }
    }

    /// The text of a character.
    pub fn of_character(&mut self, alloc: Global, character: char) -> Result<Text, AllocError>
        ensures { IfOk result (λ text. text ≡ encode_utf8_all (character ∷ [])) }
    {
        if let Some(text) = self.known_character(character) {
            return text.clone();
        }
        let text = encode(alloc, &[character])?;
        self.note(alloc, character, text.clone()?)?;
        Ok(text)
    }

    /// The text of a word, its escapes undone.
    pub fn of_word(&mut self, alloc: Global, letters: &[Letter]) -> Result<Text, AllocError>
        ensures { IfOk result (λ text. text ≡ text_of letters.now) }
    {
        if let Some(text) = self.known_word(letters) {
            return text.clone();
        }
        let text = text_of(alloc, letters)?;
        self.word = Some(KnownWord {
            letters: Vec::from_slice(alloc, letters)?,
            text: text.clone()?,
        });
        Ok(text)
    }

    /// The text of a character, where it stands at its place.
    fn known_character(&self, character: char) -> Option<&Text>
        ensures { IfSome result (λ text. text.now ≡ encode_utf8_all (character ∷ [])) }
    {
        let place = self.characters.get(place_for(character))?;
        match place {
            Some(known) => {
                if known.character == character {
                    Some(&known.text)
                } else {
                    None
                }
            }
            None => None,
        }
    }

    /// The text of a word, where it is the one that came last.
    fn known_word(&self, letters: &[Letter]) -> Option<&Text>
        ensures { IfSome result (λ text. text.now ≡ text_of letters.now) }
    {
        match &self.word {
            Some(known) => {
                if known.letters.as_slice() == letters {
                    Some(&known.text)
                } else {
                    None
                }
            }
            None => None,
        }
    }

    /// Puts the text of a character at its place.
    fn note(&mut self, alloc: Global, character: char, text: Text) -> Result<(), AllocError>
        requires { text ≡ encode_utf8_all (character ∷ []) }
    {
        if self.characters.is_empty() {
            self.characters = no_texts(alloc)?;
        }
        let place = place_for(character);
        if place < self.characters.len() {
            self.characters[place] = Some(KnownCharacter { character, text });
        }
        Ok(())
    }
}

/// The place at which a character's text may stand.
fn place_for(character: char) -> usize {
    character as usize % PLACES
}

/// Places without texts.
fn no_texts(alloc: Global) -> Result<Vec<Option<KnownCharacter>>, AllocError>
    ensures { IfOk result (λ places. AreTexts places.items) }
{
    let mut places = Vec::with_capacity(alloc, PLACES)?;
    'places: for _place in 0..PLACES {
        places.push(None)?;
    }
    Ok(places)
}
