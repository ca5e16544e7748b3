ghost use Rattle.std.specs.Prelude.{◌≡◌, ◌+◌, ◌-◌, ◌^◌, ◌<◌, [], length, Ok, All, Contains, IfOk, IfErr};
ghost use Rattle.std.specs.List.{slice_index_or};
ghost use Rattle.std.specs.List.Sorted.{IsPermutation};
ghost use Rattle.word_relations.specs.Words.{IsDistinct, IsOver, joined};
ghost use Rattle.fsm_base.specs.Alphabet.{IsAlphabet, listed, spelled, symbols_of, text_of, texts_of};
ghost use Rattle.fsm_base.specs.Cut.{characters, cut};
ghost use Rattle.fsm_base.specs.Sorted.{IsByText, entries_of};
ghost use Rattle.fsm_base.specs.Symbols.{IsTable};
ghost use Rattle.fsm_base.specs.Tokens.{IsStopped};

use crate::lone::lone_symbols;
use crate::longest::{Entry, next_symbol};
use crate::{Sym, SymbolTable, Text};
use std::alloc::{AllocError, AllocFailed, Global};
use std::marker::Model;
use thiserror::Error;

/// Why a text is not cut into symbols.
#[derive(Debug, Drop, Error)]
pub enum TokensError {
    /// No symbol of the alphabet begins at this character, counted from 1.
    #[error("no symbol begins at character {at}")]
    NoSymbol {
        /// The place of the character.
        at: u32,
    },
    /// There is no memory.
    #[error(transparent)]
    Memory(AllocError),
}

impl From<AllocError> for TokensError {
    ghost use Rattle.std.specs.Prelude.{◌≡◌};
    ghost use Rattle.fsm_base.specs.declared.alphabet.TokensError.TheVariants.{Memory};

    ghost from_gives = { λ refused error. error ≡ Memory refused };

    fn from(refused: AllocError) -> TokensError {
        TokensError::Memory(refused)
    }
}

impl<T: Drop> From<AllocFailed<T>> for TokensError {
    ghost use Rattle.std.specs.Prelude.{◌≡◌, alloc_error};
    ghost use Rattle.fsm_base.specs.declared.alphabet.TokensError.TheVariants.{Memory};

    ghost from_gives = { λ _ error. error ≡ Memory alloc_error };

    fn from(_: AllocFailed<T>) -> TokensError {
        TokensError::Memory(AllocError)
    }
}

/// A closed alphabet: distinct symbols of a symbol table, with their texts.
///
/// Contracts see it as the list of its symbols, each with the bytes of its text, in the order in
/// which they were given.
#[derive(Drop)]
pub struct Alphabet {
    /// The symbols, each once, in the order in which they were given.
    symbols: Vec<Sym>,
    /// The texts of the table, at the places of their numbers: those of the symbols, none empty and no two the same, and
    /// others.
    texts: Vec<Text>,
    /// The symbols with their texts, sorted by the bytes of these, for the cut.
    sorted: Vec<Entry>,
    /// For each byte the symbol whose text it is, where no longer text begins with it, for the cut.
    lone: Vec<Option<Sym>>,
}

impl Model for Alphabet {
    ghost use Rattle.std.specs.Prelude.{List, ℕ};
    ghost use Rattle.fsm_base.specs.declared.letters.Sym.{Sym};
    ghost use Rattle.fsm_base.specs.Alphabet.{listed};
    ghost use Rattle.fsm_base.specs.Kept.{IsKept};

    ghost Value = { List (Sym × List ℕ) };

    ghost view = { λ a. listed a.texts.items a.symbols.items };

    ghost invariant = { λ a. IsKept a.symbols.items a.texts.items a.sorted.items a.lone.items };
}

impl Alphabet {
    /// The alphabet of these symbols of a table, which are distinct. It keeps a copy of the table's texts.
    pub fn of(alloc: Global, table: &SymbolTable, syms: &[Sym]) -> Result<Alphabet, AllocError>
        requires distinct { IsDistinct syms.now }
        requires held { All (λ sym. sym.0 < length table.now) syms.now }
        ensures alphabet { IfOk result (λ alphabet. alphabet ≡ listed table.now syms.now) }
        ensures formed { IfOk result IsAlphabet }
    {
        let symbols = Vec::from_slice(alloc, syms)?;
        let texts = texts_by_number(alloc, table)?;
        let sorted = entries_by_text(alloc, table, syms)?;
        let lone = lone_symbols(alloc, &sorted)?;
        Ok(Alphabet {
            symbols,
            texts,
            sorted,
            lone,
        })
    }

    /// The symbols, in the order in which they were given.
    pub fn symbols(&self) -> &[Sym]
        ensures symbols { result.now ≡ symbols_of self.now }
        ensures formed { IsAlphabet self.now }
    {
        &self.symbols
    }

    /// The cut of a text into symbols, from left to right and the longest symbol first, or the first
    /// character, counted from 1, at which no symbol begins (Beesley and Karttunen, Finite State
    /// Morphology, 2003).
    pub fn tokens(&self, alloc: Global, text: &str) -> Result<Vec<Sym>, TokensError>
        requires { length text.now < 2 ^ 32 - 1 }
        ensures over { IfOk result (λ word. IsOver (symbols_of self.now) word.items) }
        ensures cut { IfOk result (λ word. cut (texts_of self.now) text.now ≡ Ok (spelled self.now word.items)) }
        ensures stopped { IfErr result (IsStopped (cut (texts_of self.now) text.now)) }
    {
        let bytes = text.as_bytes();
        // A symbol takes a byte of the text at least.
        let mut word = Vec::with_capacity(alloc, bytes.len())?;
        let mut from = 0;
        'symbols: while from < bytes.len() {
            let Some(next) = next_symbol(&self.sorted, &self.lone, &bytes[from..]) else {
                return Err(TokensError::NoSymbol {
                    at: character_at(&bytes[..from]),
                });
            };
            word.push(next.symbol)?;
            from += next.len;
        }
        Ok(word)
    }

    /// The texts of the symbols of a word, joined.
    pub fn text(&self, alloc: Global, word: &[Sym]) -> Result<Text, AllocError>
        requires { IsOver (symbols_of self.now) word.now }
        ensures { IfOk result (λ text. text ≡ joined (spelled self.now word.now)) }
    {
        // Each symbol has a byte at least.
        let mut text = String::with_capacity(alloc, word.len())?;
        'symbols: for sym in word {
            text.push_str(self.text_of(*sym))?;
        }
        Text::from_string(text)
    }

    /// The text of a symbol of the alphabet.
    fn text_of(&self, sym: Sym) -> &str
        requires { Contains (symbols_of self.now) sym }
        ensures { result.now ≡ text_of self.now sym }
    {
        self.texts[sym.0 as usize].as_str()
    }
}

/// The place, counted from 1, of the character that follows these bytes.
fn character_at(before: &[u8]) -> u32
    requires { length before.now < 2 ^ 32 - 1 }
    ensures { result ≡ characters before.now + 1 }
{
    let count = before
        .iter()
        .filter(|byte| **byte < 128 || 192 <= **byte)
        .count();
    count as u32 + 1
}

/// The text of a symbol that the table holds, copied.
fn copy_of(alloc: Global, table: &SymbolTable, sym: Sym) -> Result<Text, AllocError>
    requires { sym.0 < length table.now }
    ensures { IfOk result (λ text. text ≡ slice_index_or table.now sym.0 []) }
{
    Text::of(alloc, table.text_of(sym).unwrap())
}

/// The texts of a table, by their numbers.
fn texts_by_number(alloc: Global, table: &SymbolTable) -> Result<Vec<Text>, AllocError>
    ensures texts { IfOk result (λ texts. texts.items ≡ table.now) }
    ensures formed { IsTable table.now }
{
    let mut texts = Vec::with_capacity(alloc, table.len())?;
    'numbers: for number in 0..table.len() {
        texts.push(copy_of(alloc, table, Sym(number as u32))?)?;
    }
    Ok(texts)
}

/// The entries of these symbols, sorted by text.
fn entries_by_text(
    alloc: Global,
    table: &SymbolTable,
    syms: &[Sym],
) -> Result<Vec<Entry>, AllocError>
    requires { All (λ sym. sym.0 < length table.now) syms.now }
    ensures same { IfOk result (λ entries. IsPermutation (entries_of table.now syms.now) entries.items) }
    ensures sorted { IfOk result (λ entries. IsByText entries.items) }
{
    let mut entries = Vec::new(alloc);
    'symbols: for sym in syms {
        entries.push(Entry {
            text: copy_of(alloc, table, *sym)?,
            symbol: *sym,
        })?;
    }
    entries.sort()?;
    Ok(entries)
}
