ghost use Rattle.std.specs.Prelude.{◌≡◌, ◌≤◌, ◌<◌, ◌+◌, ◌++◌, ◌∷◌, [], Some, None, List, ℕ, Option, length, slice_get, IfOk, IfErr, OnOk};
ghost use Rattle.std.specs.Option.{option_map};
ghost use Rattle.word_relations.specs.Words.{IsDistinct};
ghost use Rattle.fsa.specs.declared.automaton.Edge.{Edge};
ghost use Rattle.fsm_base.specs.declared.letters.Pair.{Pair};
ghost use Rattle.fsm_base.specs.Symbols.{number_of, with_text};
ghost use Rattle.att_text.specs.Drawing.{Extends, HasRoom, HasSymbols, IsAdded, IsDrawn, IsLineError, Keeps, MayBeSymbol};
ghost use Rattle.att_text.specs.Faults.{with_said, with_side};
ghost use Rattle.att_text.specs.Lines.{Saying, final, said_of};
ghost use Rattle.att_text.specs.Paths.{HasTextIn};
ghost use Rattle.att_text.specs.Sides.{HasSide, lower_side, upper_side};
ghost use Rattle.att_text.specs.Views.{arc_seen, said_seen};

use crate::faults::{AttError, AttWhy, fault_in};
use crate::fields::{Arc, Said, said_of};
use crate::states::StateTable;
use fsa::{Edge, Fsa};
use fsm_base::{Pair, Sym, SymbolTable, TextTable};
use std::alloc::{AllocError, Global};

/// The network of the lines that were read so far.
#[derive(Drop)]
pub(crate) struct Drawing {
    /// The states of the text. The place of a state is its number in the network.
    pub(crate) states: StateTable,
    /// Whether the state at each place is final.
    pub(crate) finals: Vec<bool>,
    /// The edges, one for each arc line.
    pub(crate) edges: Vec<Edge<Pair>>,
    /// The symbols of the text.
    pub(crate) symbols: TextTable,
}

/// The symbol with this text, which the table gets where it is new.
fn symbol_of(table: &mut SymbolTable, text: &str) -> Result<Sym, AllocError>
    requires some { 0 < length text.now }
    requires room { number_of text.now table.old ≡ length table.old → length table.old < 16777216 }
    ensures symbol { IfOk result (λ symbol. slice_get table.new symbol.0 ≡ Some text.now) }
    ensures table { OnOk result (table.new ≡ with_text text.now table.old) }
    ensures grows { Extends table.old table.new }
{
    let symbol = table.number_of(text);
    if (symbol.0 as usize) < table.len() {
        return Ok(symbol);
    }
    table.intern(text)
}

/// The symbol of a side, if there is one.
fn side_symbol(table: &mut SymbolTable, side: Option<&str>) -> Result<Option<Sym>, AllocError>
    requires some { MayBeSymbol (option_map (λ symbol. symbol.now) side) }
    requires room { length (with_side (option_map (λ symbol. symbol.now) side) table.old) ≤ 16777216 }
    ensures symbol { IfOk result (λ symbol. HasSide (HasTextIn table.new) symbol (option_map (λ symbol. symbol.now) side.entry)) }
    ensures table { OnOk result (table.new ≡ with_side (option_map (λ symbol. symbol.now) side.entry) table.old) }
    ensures grows { Extends table.old table.new }
{
    match side {
        Some(text) => match symbol_of(table, text) {
            Ok(symbol) => Ok(Some(symbol)),
            Err(error) => Err(error),
        },
        None => Ok(None),
    }
}

/// The letter of an edge with these sides.
fn letter_of(up: Option<Sym>, low: Option<Sym>) -> Option<Pair>
    ensures upper { upper_side result ≡ up }
    ensures lower { lower_side result ≡ low }
{
    match (up, low) {
        (None, None) => None,
        _ => Some(Pair { up, low }),
    }
}

impl Drawing {
    /// The state 0 alone, which isn't final.
    pub(crate) fn new(alloc: Global) -> Result<Drawing, AllocError>
        ensures drawn { IfOk result (λ d. (table : List (List ℕ)) → IsDrawn table [] d.states d.edges.items d.finals.items) }
        ensures symbols { IfOk result (λ d. d.symbols ≡ []) }
    {
        let mut states = StateTable::new(alloc);
        states.place_of(0)?;
        let mut finals = Vec::new(alloc);
        finals.push(false)?;
        Ok(Drawing {
            states,
            finals,
            edges: Vec::new(alloc),
            symbols: TextTable::new(alloc),
        })
    }

    /// The place of a state.
    fn place_of(&mut self, state: u64) -> Result<usize, AllocError>
        ensures place { IfOk result (λ place. slice_get self.new.states place ≡ Some state) }
        ensures keeps { OnOk result (Keeps self.old.states self.new.states) }
        ensures symbols { self.new.symbols ≡ self.old.symbols }
        ensures drawn { OnOk result ((table : List (List ℕ)) (said : List Saying) → IsDrawn table said self.old.states self.old.edges.items self.old.finals.items → IsDrawn table said self.new.states self.new.edges.items self.new.finals.items) }
    {
        let place = self.states.place_of(state)?;
        if self.finals.len() < self.states.len() {
            self.finals.push(false)?;
        }
        Ok(place)
    }

    /// Draws an arc.
    fn add_arc(&mut self, arc: Arc<'_>, table: &mut SymbolTable) -> Result<(), AllocError>
        requires some { HasSymbols (arc_seen arc) }
        requires room { length (with_said (arc_seen arc) table.old) ≤ 16777216 }
        ensures symbols { self.new.symbols ≡ self.old.symbols }
        ensures table { OnOk result (table.new ≡ with_said (arc_seen arc.entry) table.old) }
        ensures grows { Extends table.old table.new }
        ensures drawn { OnOk result ((said : List Saying) → IsDrawn table.old said self.old.states self.old.edges.items self.old.finals.items → IsDrawn table.new (said ++ arc_seen arc.entry ∷ []) self.new.states self.new.edges.items self.new.finals.items) }
    {
        let up = side_symbol(table, arc.up)?;
        let low = side_symbol(table, arc.low)?;
        let from = self.place_of(arc.from)?;
        let to = self.place_of(arc.to)?;
        let letter = letter_of(up, low);
        self.edges.push(Edge { from, letter, to })?;
        Ok(())
    }

    /// Makes a state final.
    fn add_final(&mut self, state: u64) -> Result<(), AllocError>
        ensures symbols { self.new.symbols ≡ self.old.symbols }
        ensures drawn { OnOk result ((table : List (List ℕ)) (said : List Saying) → IsDrawn table said self.old.states self.old.edges.items self.old.finals.items → IsDrawn table (said ++ final state ∷ []) self.new.states self.new.edges.items self.new.finals.items) }
    {
        let place = self.place_of(state)?;
        if place >= self.finals.len() {
            return Ok(());
        }
        self.finals[place] = true;
        Ok(())
    }

    /// Draws what a line says.
    fn add_said(&mut self, said: Said<'_>, table: &mut SymbolTable) -> Result<(), AllocError>
        requires some { HasSymbols (said_seen said) }
        requires room { length (with_said (said_seen said) table.old) ≤ 16777216 }
        ensures symbols { self.new.symbols ≡ self.old.symbols }
        ensures table { OnOk result (table.new ≡ with_said (said_seen said.entry) table.old) }
        ensures grows { Extends table.old table.new }
        ensures drawn { OnOk result ((lines : List Saying) → IsDrawn table.old lines self.old.states self.old.edges.items self.old.finals.items → IsDrawn table.new (lines ++ said_seen said.entry ∷ []) self.new.states self.new.edges.items self.new.finals.items) }
    {
        match said {
            Said::Arc(arc) => self.add_arc(arc, table),
            Said::Final(state) => self.add_final(state),
        }
    }

    /// Draws a line with this number, or tells its first fault.
    pub(crate) fn add_line(
        &mut self,
        number: u32,
        line: &str,
        table: &mut SymbolTable,
    ) -> Result<(), AttError>
        requires { HasRoom self.old.symbols table.old }
        ensures grows { Extends table.old table.new }
        ensures ok { OnOk result (IsAdded line.now self.old.symbols table.old self.old.states self.old.edges.items self.old.finals.items self.new.symbols table.new self.new.states self.new.edges.items self.new.finals.items) }
        ensures error { IfErr result (IsLineError number self.old.symbols (said_of line.now)) }
    {
        let Some(said) = said_of(line) else {
            return Err(AttError::Refused {
                line: number,
                why: AttWhy::Statement,
            });
        };
        let fault = fault_in(&mut self.symbols, said)?;
        match fault {
            Some(why) => return Err(AttError::Refused { line: number, why }),
            None => {}
        }
        self.add_said(said, table)?;
        Ok(())
    }

    /// The network.
    pub(crate) fn into_network(self) -> Fsa<Pair>
        requires { (table : List (List ℕ)) × (said : List Saying) × IsDrawn table said self.states self.edges.items self.finals.items }
        ensures { result ≡ record { edges = self.edges.items; finals = self.finals.items } }
    {
        let Drawing {
            states: _,
            finals,
            edges,
            symbols: _,
        } = self;
        Fsa::of(finals, edges)
    }
}
