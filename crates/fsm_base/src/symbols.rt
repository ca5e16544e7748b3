ghost use Rattle.std.specs.Prelude.{◌≡◌, ◌==◌, ◌<◌, [], length, take, slice_get, IfOk, OnOk, OnErr};
ghost use Rattle.std.specs.Option.{option_map};
ghost use Rattle.fsm_base.specs.Symbols.{IsTable, number_of, with_text};

use crate::{Sym, TextTable};
use std::alloc::{AllocError, Global};
use std::marker::Model;

/// The texts of the symbols, numbered from 0 in the order in which they came.
///
/// A symbol is a text that is not empty, and a number stays as it is until [`SymbolTable::keep`]
/// forgets it. Contracts see a table as the list of its texts, each by its bytes: the text of the
/// symbol `n` stands at place `n`.
#[derive(Drop)]
pub struct SymbolTable {
    /// The texts. The place of a text is its number.
    texts: TextTable,
}

impl Model for SymbolTable {
    ghost use Rattle.std.specs.Prelude.{List, ℕ};
    ghost use Rattle.fsm_base.specs.Symbols.{IsTable};

    ghost Value = { List (List ℕ) };

    ghost view = { λ table. table.texts };

    ghost invariant = { λ table. IsTable table.texts };
}

impl SymbolTable {
    /// A table of no symbol.
    pub fn new(alloc: Global) -> SymbolTable
        ensures { result ≡ [] }
    {
        SymbolTable {
            texts: TextTable::new(alloc),
        }
    }

    /// The number of symbols.
    pub fn len(&self) -> usize
        ensures count { result ≡ length self.now }
        ensures formed { IsTable self.now }
    {
        self.texts.len()
    }

    /// Whether there is no symbol.
    pub fn is_empty(&self) -> bool
        ensures { result ≡ (length self.now == 0) }
    {
        self.texts.is_empty()
    }

    /// The symbol with this text: its own number where the table has it, and else the next one.
    pub fn intern(&mut self, text: &str) -> Result<Sym, AllocError>
        requires some { 0 < length text.now }
        requires room { length self.old < 16777216 }
        ensures number { IfOk result (λ sym. sym.0 ≡ number_of text.now self.old) }
        ensures table { OnOk result (self.new ≡ with_text text.now self.old) }
        ensures err { OnErr result (self.new ≡ self.old) }
    {
        let place = self.texts.add(text)?;
        Ok(Sym(place as u32))
    }

    /// The symbol that [`SymbolTable::intern`] gives for this text: its own number where the table has it, and
    /// else the next one.
    pub fn number_of(&self, text: &str) -> Sym
        ensures { result.0 ≡ number_of text.now self.now }
    {
        Sym(self.texts.number_of(text) as u32)
    }

    /// Forgets the symbols from the number `len` on.
    pub fn keep(&mut self, len: usize)
        ensures { self.new ≡ take len self.old }
    {
        self.texts.keep(len);
    }

    /// The text of a symbol, or `None` where the table has no symbol of this number.
    pub fn text_of(&self, sym: Sym) -> Option<&str>
        ensures text { option_map (λ text. text.now) result ≡ slice_get self.now sym.0 }
        ensures formed { IsTable self.now }
    {
        self.texts.text_at(sym.0 as usize)
    }
}
