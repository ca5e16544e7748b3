ghost use Rattle.std.specs.Prelude.{◌≡◌, ◌⊎◌, ◌↔◌, [], Contains, IfOk, IsTrue, OnOk};
ghost use Rattle.fsm_base.specs.declared.letters.Sym.{Sym as Symbol};
ghost use Rattle.word_relations.specs.Words.{IsDistinct};

use fsm_base::Sym;
use std::alloc::{AllocError, Global};
use std::marker::Model;

/// How many marks there are.
const MARKS: usize = 1024;

/// Symbols that are gathered one by one. Most of them come many times, and then stand in the list already. Contracts see the
/// list.
#[derive(Drop)]
pub struct SymbolList {
    /// The symbols, few of them more than once.
    symbols: Vec<Sym>,
    /// For each mark a place in `symbols` at which a symbol with that mark may stand.
    places: Vec<usize>,
}

impl Model for SymbolList {
    ghost use Rattle.std.specs.Prelude.{List};
    ghost use Rattle.fsm_base.specs.declared.letters.Sym.{Sym as Symbol};

    ghost Value = { List Symbol };

    ghost view = { λ list. list.symbols.items };
}

impl SymbolList {
    /// The list of no symbols.
    pub fn new(alloc: Global) -> Result<SymbolList, AllocError>
        ensures { IfOk result (λ list. list ≡ []) }
    {
        Ok(SymbolList {
            symbols: Vec::new(alloc),
            places: vec![in alloc; 0; MARKS]?,
        })
    }

    /// Adds a symbol.
    pub fn add(&mut self, symbol: Sym) -> Result<(), AllocError>
        ensures { OnOk result ((s : Symbol) → Contains self.new s ↔ (Contains self.old s ⊎ (symbol ≡ s))) }
    {
        if self.is_hinted(symbol) {
            return Ok(());
        }
        let place = self.symbols.len();
        self.symbols.push(symbol)?;
        note(&mut self.places, symbol, place);
        Ok(())
    }

    /// The symbols, each once, in the order of their numbers.
    pub fn into_sorted(self) -> Vec<Sym>
        ensures distinct { IsDistinct result.items }
        ensures same { (s : Symbol) → Contains result.items s ↔ Contains self s }
    {
        let mut symbols = self.symbols;
        symbols.sort_unstable();
        symbols.dedup();
        symbols
    }

    /// Whether the symbol stands where its mark leads.
    fn is_hinted(&self, symbol: Sym) -> bool
        ensures { IsTrue result → Contains self.now symbol }
    {
        let Some(place) = self.places.get(mark_of(symbol)) else {
            return false;
        };
        self.symbols.get(*place) == Some(&symbol)
    }
}

/// Notes where a symbol stands.
fn note(places: &mut [usize], symbol: Sym, place: usize) {
    if let Some(noted) = places.get_mut(mark_of(symbol)) {
        *noted = place;
    }
}

/// The mark of a symbol. Those of a project are numbered from 0 on, so that few have the same.
fn mark_of(symbol: Sym) -> usize {
    symbol.0 as usize % MARKS
}
