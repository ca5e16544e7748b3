ghost use Rattle.std.specs.Prelude.{◌≡◌, ◌==◌, ◌≤◌, ◌↔◌, [], false, Some, length, take, slice_get, MatchOption, IfOk, IsTrue, OnOk, OnErr};
ghost use Rattle.std.specs.List.{list_any};
ghost use Rattle.std.specs.Option.{option_map};
ghost use Rattle.std.specs.Str.{bytes_eq};
ghost use Rattle.word_relations.specs.Words.{IsDistinct};
ghost use Rattle.fsm_base.specs.Symbols.{number_of, with_text};

use crate::hints::Hints;
use indexmap::IndexSet;
use std::alloc::{AllocError, Global};
use std::marker::Model;

/// Different texts, numbered from 0 in the order in which they came, and found again by their bytes. Contracts see the list
/// of the texts, each by its bytes.
#[derive(Drop)]
pub struct TextTable {
    /// The texts, each once. The place of a text is its number.
    texts: IndexSet<String>,
    /// Where texts may stand, which is looked at before a text is hashed.
    hints: Hints,
}

impl Model for TextTable {
    ghost use Rattle.std.specs.Prelude.{List, ℕ, map};
    ghost use Rattle.std.specs.String.{string_bytes};
    ghost use Rattle.word_relations.specs.Words.{IsDistinct};

    ghost Value = { List (List ℕ) };

    ghost view = { λ table. map string_bytes table.texts.keys };

    ghost invariant = { λ table. IsDistinct (map string_bytes table.texts.keys) };
}

impl TextTable {
    /// The table of no texts.
    pub fn new(alloc: Global) -> TextTable
        ensures { result ≡ [] }
    {
        TextTable {
            texts: IndexSet::new(alloc),
            hints: Hints::new(alloc),
        }
    }

    /// How many texts there are.
    pub fn len(&self) -> usize
        ensures count { result ≡ length self.now }
        ensures once { IsDistinct self.now }
    {
        self.texts.len()
    }

    /// Whether there is no text.
    pub fn is_empty(&self) -> bool
        ensures { result ≡ (length self.now == 0) }
    {
        self.texts.is_empty()
    }

    /// Whether this is one of the texts.
    pub fn contains(&self, text: &str) -> bool
        ensures { result ≡ list_any (bytes_eq text.now) self.now }
    {
        self.place_of(text).is_some()
    }

    /// The place of a text, counted from 0; `None` where it isn't there.
    pub fn place_of(&self, text: &str) -> Option<usize>
        ensures { MatchOption result (list_any (bytes_eq text.now) self.now ≡ false) (λ place. (slice_get self.now place ≡ Some text.now) × (place ≡ number_of text.now self.now)) }
    {
        match self.hinted_place(text) {
            Some(place) => Some(place),
            None => self.texts.get_index_of(text),
        }
    }

    /// The place of a text, or the number of texts where it isn't there.
    pub fn number_of(&self, text: &str) -> usize
        ensures number { result ≡ number_of text.now self.now }
        ensures within { result ≤ length self.now }
    {
        match self.place_of(text) {
            Some(place) => place,
            None => self.texts.len(),
        }
    }

    /// The text at a place, or `None` behind the last one.
    pub fn text_at(&self, place: usize) -> Option<&str>
        ensures { option_map (λ text. text.now) result ≡ slice_get self.now place }
    {
        let text = self.texts.get_index(place)?;
        Some(text.as_str())
    }

    /// The place of a text, which is put behind the others where it isn't there.
    pub fn add(&mut self, text: &str) -> Result<usize, AllocError>
        ensures number { IfOk result (λ place. place ≡ number_of text.now self.old) }
        ensures within { IfOk result (λ place. place ≤ length self.old) }
        ensures stored { IfOk result (λ place. slice_get self.new place ≡ Some text.now) }
        ensures table { OnOk result (self.new ≡ with_text text.now self.old) }
        ensures once { IsDistinct self.new }
        ensures err { OnErr result (self.new ≡ self.old) }
    {
        if let Some(place) = self.place_of(text) {
            return Ok(place);
        }
        let alloc = *self.texts.allocator();
        let owned = String::from_str(alloc, text)?;
        let (place, _) = self.texts.insert_full(owned)?;
        self.hints.note(alloc, mark_of(text), place);
        Ok(place)
    }

    /// Forgets the texts from the place `len` on.
    pub fn keep(&mut self, len: usize)
        ensures { self.new ≡ take len self.old }
    {
        self.texts.truncate(len);
    }

    /// The place that the hint for a text leads to, if the text stands there.
    fn hinted_place(&self, text: &str) -> Option<usize>
        ensures { MatchOption result (Unit {0}) (λ place. slice_get self.now place ≡ Some text.now) }
    {
        let place = self.hints.place_for(mark_of(text))?;
        let found = self.texts.get_index(place)?;
        if are_same(found.as_str(), text) {
            Some(place)
        } else {
            None
        }
    }
}

/// The mark of a text, by its first and its last byte. Most texts are single characters, each with a mark of its own.
fn mark_of(text: &str) -> usize {
    let bytes = text.as_bytes();
    match (bytes.first(), bytes.last()) {
        (Some(first), Some(last)) => usize::from(*first % 16) * 64 + usize::from(*last % 64),
        _ => 0,
    }
}

/// Whether two texts are the same. Most have one byte, which is compared by itself.
fn are_same(one: &str, other: &str) -> bool
    ensures { IsTrue result ↔ (one.now ≡ other.now) }
{
    match (one.as_bytes(), other.as_bytes()) {
        ([first], [second]) => first == second,
        _ => one == other,
    }
}
