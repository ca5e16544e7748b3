ghost use Rattle.std.specs.Prelude.{◌≡◌, ℕ, Contains, IfOk, MatchOption, Option, Some, map, slice_get};
ghost use Rattle.word_relations.specs.Words.{IsDistinct};
ghost use Rattle.network_lexicons.specs.Entries.{IsPlaceOf};
ghost use Rattle.network_lexicons.specs.Plain.{lexicon_of, names_of};

use fsm_base::{Text, TextTable};
use regex_ast::{Atom, Lexicon};
use std::alloc::{AllocError, Global};
use std::marker::Model;

/// The names of lexicons, found by a hash. Contracts see them as the list of their texts, in the order of the lexicons.
#[derive(Drop)]
pub struct Names {
    /// The names. The place of a name is that of its lexicon.
    texts: TextTable,
}

impl Model for Names {
    ghost use Rattle.std.specs.Prelude.{List, ℕ, ◌<◌, ◌^◌, length};

    ghost Value = { List (List ℕ) };

    ghost view = { λ names. names.texts };

    ghost invariant = { λ names. length names.texts < 2 ^ 32 };
}

impl Names {
    /// The names of lexicons. Of 2^32 lexicons or more there is no memory for the places.
    pub fn of(alloc: Global, lexicons: &[Lexicon<Atom>]) -> Result<Names, AllocError>
        requires { IsDistinct (names_of (map lexicon_of lexicons.now)) }
        ensures { IfOk result (λ names. names ≡ names_of (map lexicon_of lexicons.now)) }
    {
        let Ok(_count) = u32::try_from(lexicons.len()) else {
            return Err(AllocError);
        };
        let mut texts = TextTable::new(alloc);
        'lexicons: for lexicon in lexicons {
            texts.add(lexicon.name.as_str())?;
        }
        Ok(Names { texts })
    }

    /// The place of a name, counted from 0.
    pub fn place_of(&self, name: &str) -> Option<u32>
        ensures { MatchOption result (¬ Contains self.now name.now) (λ place. slice_get self.now place ≡ Some name.now) }
    {
        match self.texts.place_of(name) {
            Some(place) => Some(place as u32),
            None => None,
        }
    }

    /// The place of the lexicon that an entry names, or none where it ends a path; `None` where there is no such lexicon.
    pub fn target_of(&self, next: &Option<Text>) -> Option<Option<u32>>
        ensures { MatchOption result ((place : Option ℕ) → IsPlaceOf self.now next.now place → ⊥) (IsPlaceOf self.now next.now) }
    {
        match next {
            None => Some(None),
            Some(name) => match self.place_of(name.as_str()) {
                Some(place) => Some(Some(place)),
                None => None,
            },
        }
    }
}
