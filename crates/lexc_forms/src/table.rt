ghost use Rattle.std.specs.Prelude.{◌≡◌, ◌<◌, ◌≤◌, ℕ, List, [], ◌∷◌, false, length, take, IfOk, OnOk, MatchOption};
ghost use Rattle.fsm_base.specs.Symbols.{with_text};
ghost use Rattle.lexc_forms.specs.Fronts.{HasNoFront, IsLongestFront};
ghost use Rattle.lexc_forms.specs.Kept.{AreMarked, IsMarkedFor};

use indexmap::IndexSet;
use std::alloc::{AllocError, Global};
use std::marker::Model;

/// How many characters have a place in a table: those that have two bytes at most in UTF-8.
const PLACES: usize = 2_048;

/// The declared multicharacter symbols that are no flags, each once. Contracts see the list of their characters.
#[derive(Drop)]
pub struct DeclaredSymbols {
    /// The symbols, by their characters.
    symbols: IndexSet<Vec<char>>,
    /// No symbol has more characters.
    longest: usize,
    /// Whether a symbol may begin with the character of this number. With one that has no place here, each may.
    begins: Vec<bool>,
}

impl Model for DeclaredSymbols {
    ghost use Rattle.std.specs.Prelude.{List, ℕ, map};
    ghost use Rattle.lexc_forms.specs.Kept.{AreMarked, AreWithin, kept};

    ghost Value = { List (List ℕ) };

    ghost view = { λ declared. map kept declared.symbols.keys };

    ghost invariant = { λ declared. AreWithin declared.longest (map kept declared.symbols.keys) × AreMarked declared.begins.items (map kept declared.symbols.keys) };
}

impl DeclaredSymbols {
    /// No symbols.
    pub fn new(alloc: Global) -> DeclaredSymbols
        ensures { result ≡ [] }
    {
        DeclaredSymbols {
            symbols: IndexSet::new(alloc),
            longest: 0,
            begins: Vec::new(alloc),
        }
    }

    /// Adds a symbol, where it is a new one.
    pub fn add(&mut self, symbol: Vec<char>) -> Result<(), AllocError>
        requires { 0 < length symbol.items }
        ensures { OnOk result (self.new ≡ with_text symbol.items self.old) }
    {
        if self.symbols.contains(symbol.as_slice()) {
            return Ok(());
        }
        let begins = with_mark(self.marks()?, symbol.as_slice());
        self.longest = self.longest.max(symbol.len());
        self.symbols.insert_full(symbol)?;
        self.begins = begins;
        Ok(())
    }

    /// Which characters a symbol may begin with, each of the first ones having a place.
    fn marks(&self) -> Result<Vec<bool>, AllocError>
        ensures { IfOk result (λ marks. AreMarked marks.items self.now) }
    {
        let alloc = *self.symbols.allocator();
        if self.symbols.is_empty() {
            return vec![in alloc; false; PLACES];
        }
        Vec::from_slice(alloc, self.begins.as_slice())
    }

    /// Whether a symbol may begin with a character.
    pub(crate) fn may_begin_with(&self, character: char) -> bool
        ensures { result ≡ false → (behind : List ℕ) → HasNoFront self.now (character ∷ behind) }
    {
        if self.symbols.is_empty() {
            return false;
        }
        let place = character as usize;
        place >= self.begins.len() || self.begins[place]
    }

    /// Whether a symbol may begin a text.
    fn may_begin(&self, text: &[char]) -> bool
        ensures { result ≡ false → HasNoFront self.now text.now }
    {
        if self.symbols.is_empty() {
            return false;
        }
        match text.split_first() {
            Some((first, _)) => self.may_begin_with(*first),
            None => false,
        }
    }

    /// How many characters the longest symbol has that begins a text. It looks up at most as many fronts as the longest of all
    /// symbols has characters, and none where no symbol begins with the first character.
    pub fn longest_front(&self, text: &[char]) -> Option<usize>
        ensures { MatchOption result (HasNoFront self.now text.now) (IsLongestFront self.now text.now) }
    {
        if !self.may_begin(text) {
            return None;
        }
        let mut length = self.longest.min(text.len());
        'lengths: while 0 < length {
            if self.symbols.contains(&text[..length]) {
                return Some(length);
            }
            length -= 1;
        }
        None
    }
}

/// Marks, with the first character of a symbol marked where it has a place.
fn with_mark(marks: Vec<bool>, symbol: &[char]) -> Vec<bool>
    ensures kept { (text : List ℕ) → IsMarkedFor marks.items text → IsMarkedFor result.items text }
    ensures marked { IsMarkedFor result.items symbol.now }
{
    let mut marks = marks;
    if let Some(first) = symbol.first() {
        let place = *first as usize;
        if place < marks.len() {
            marks[place] = true;
        }
    }
    marks
}
