ghost use Rattle.std.specs.Prelude.{◌≡◌, ◌↔◌, ◌⊎◌, [], Contains, IfOk, IsTrue, List, None, ℕ, OnOk, cond, map};
ghost use Rattle.std.specs.Str.{bytes_eq};
ghost use Rattle.fsm_base.specs.declared.letters.Sym.{Sym as Symbol};
ghost use Rattle.grammar_pairs.specs.Plain.{set_of, symbol_in};
ghost use Rattle.grammar_pairs.specs.Tables.{HasSymbol, IsMember, symbols_under, under};

use crate::name_table::NameTable;
use fsm_base::Sym;
use indexmap::IndexSet;
use regex_ast::{Atom, SetOf};
use std::alloc::{AllocError, Global};
use std::marker::Model;

/// A set of symbols, found by a hash. Contracts see them as a list.
#[derive(Drop)]
pub struct SymbolSet {
    /// The symbols, each once.
    symbols: IndexSet<Sym>,
}

impl Model for SymbolSet {
    ghost use Rattle.std.specs.Prelude.{List};
    ghost use Rattle.fsm_base.specs.declared.letters.Sym.{Sym};

    ghost Value = { List Sym };

    ghost view = { λ set. set.symbols.keys };
}

impl SymbolSet {
    /// The set of no symbol.
    pub fn new(alloc: Global) -> SymbolSet
        ensures { result ≡ [] }
    {
        SymbolSet {
            symbols: IndexSet::new(alloc),
        }
    }

    /// Adds a symbol.
    pub fn add(&mut self, symbol: Sym) -> Result<(), AllocError>
        ensures { OnOk result ((s : Symbol) → Contains self.new s ↔ (Contains self.old s ⊎ (symbol ≡ s))) }
    {
        self.symbols.insert(symbol)?;
        Ok(())
    }

    /// Whether a symbol is in the set.
    pub fn contains(&self, symbol: Sym) -> bool
        ensures { IsTrue result ↔ Contains self.now symbol }
    {
        self.symbols.contains(&symbol)
    }

    /// The symbols.
    pub fn as_slice(&self) -> &[Sym]
        ensures { result.now ≡ self.now }
    {
        self.symbols.as_slice()
    }
}

/// The symbol of a leaf. In a grammar no leaf is a name: one would count as the symbol with its number.
pub fn symbol_of(leaf: Atom) -> Sym
    ensures { result ≡ symbol_in leaf }
{
    match leaf {
        Atom::Sym(symbol) => symbol,
        Atom::Name(name) => Sym(name),
    }
}

/// Adds the symbols of leaves.
fn add_symbols(set: &mut SymbolSet, leaves: &[Atom]) -> Result<(), AllocError>
    ensures { OnOk result ((s : Symbol) → Contains set.new s ↔ (Contains set.old s ⊎ Contains (map symbol_in leaves.now) s)) }
{
    'leaves: for leaf in leaves {
        set.add(symbol_of(*leaf))?;
    }
    Ok(())
}

/// Takes the symbols out that stand under a name, if some do.
fn taken_out(alloc: Global, table: &mut NameTable<SymbolSet>, name: &str) -> SymbolSet
    ensures symbols { result ≡ symbols_under (under name.now table.old) }
    ensures others { (other : List ℕ) → under other table.new ≡ cond (bytes_eq name.now other) None (under other table.old) }
{
    match table.take(name) {
        Some(symbols) => symbols,
        None => SymbolSet::new(alloc),
    }
}

/// The sets of a grammar, each under its name. Sets of one name are taken together.
pub fn sets_of(alloc: Global, sets: &[SetOf<Atom>]) -> Result<NameTable<SymbolSet>, AllocError>
    ensures { IfOk result (λ table. (name : List ℕ) (s : Symbol) → HasSymbol table name s ↔ IsMember (map set_of sets.now) name s) }
{
    let mut table = NameTable::new(alloc);
    'sets: for set in sets {
        let mut symbols = taken_out(alloc, &mut table, set.name.as_str());
        add_symbols(&mut symbols, &set.symbols)?;
        table.put(set.name.as_str(), symbols)?;
    }
    Ok(table)
}

/// Whether a symbol is in the set of this name.
pub fn has_symbol(sets: &NameTable<SymbolSet>, name: &str, symbol: Sym) -> bool
    ensures { IsTrue result ↔ HasSymbol sets.now name.now symbol }
{
    match sets.get(name) {
        Some(symbols) => symbols.contains(symbol),
        None => false,
    }
}
