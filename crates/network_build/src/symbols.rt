ghost use Rattle.std.specs.Prelude.{◌≡◌, ◌<◌, ◌⊎◌, ◌↔◌, IfOk, OnOk, Contains, Some};
ghost use Rattle.fsm_base.specs.declared.letters.Sym.{Sym as Symbol};
ghost use Rattle.fsm_base.specs.declared.letters.Pair.{Pair as Letter};
ghost use Rattle.word_relations.specs.Words.{IsDistinct};
ghost use Rattle.fsa.specs.declared.automaton.Edge.{Edge as EdgeOf};
ghost use Rattle.fsm_base.specs.declared.letters.Bound.{Bound as WithEdge};
ghost use Rattle.fst_flagged.specs.Conditions.{first};
ghost use Rattle.project_definitions.specs.Plain.{body_of};
ghost use Rattle.network_build.specs.Networks.{IsLetterOn, IsOn, PartsUse, UsesSymbol, body_leaves};

use crate::leaf_symbols::add_body;
use crate::symbol_list::SymbolList;
use fsa::Edge;
use fsm_base::{Bound, Pair, Sym};
use fst_flagged::FIRST;
use network_algebra::Network;
use network_expr::Part;
use project_definitions::Body;
use regex_ast::Atom;
use std::alloc::{AllocError, Global};

/// The symbols that stand in what a name stands for and in the networks of parts, each once, in the order of their numbers.
pub fn body_symbols(
    alloc: Global,
    body: &Body<Atom>,
    parts: &[Part],
) -> Result<Vec<Sym>, AllocError>
    ensures distinct { IfOk result (λ symbols. IsDistinct symbols.items) }
    ensures same { IfOk result (λ symbols. (s : Symbol) → Contains symbols.items s ↔ (Contains (body_leaves (body_of body.now)) (Atom.Sym s) ⊎ PartsUse parts.now s)) }
{
    let mut symbols = SymbolList::new(alloc)?;
    add_body(alloc, body, &mut symbols)?;
    add_parts(parts, &mut symbols)?;
    Ok(symbols.into_sorted())
}

/// Adds the symbols that stand in the networks of parts.
fn add_parts(parts: &[Part], symbols: &mut SymbolList) -> Result<(), AllocError>
    ensures { OnOk result ((s : Symbol) → Contains symbols.new s ↔ (Contains symbols.old s ⊎ PartsUse parts.now s)) }
{
    'parts: for part in parts {
        add_network(part.network, symbols)?;
    }
    Ok(())
}

/// Adds the symbols that stand in a network.
fn add_network(network: &Network, symbols: &mut SymbolList) -> Result<(), AllocError>
    ensures { OnOk result ((s : Symbol) → Contains symbols.new s ↔ (Contains symbols.old s ⊎ UsesSymbol network.now s)) }
{
    match network {
        Network::Words(words) => add_words(words.edges(), symbols),
        Network::Pairs(pairs) => add_pairs(pairs.edges(), symbols),
        Network::Flagged(flagged) => add_flagged(flagged.net().edges(), symbols),
    }
}

/// Adds the symbols that edges read.
fn add_words(edges: &[Edge<Bound<Sym>>], symbols: &mut SymbolList) -> Result<(), AllocError>
    ensures { OnOk result ((s : Symbol) → Contains symbols.new s ↔ (Contains symbols.old s ⊎ ((e : EdgeOf (WithEdge Symbol)) × Contains edges.now e × (e.letter ≡ Some (Bound.Inner s))))) }
{
    'edges: for edge in edges {
        add_letter(edge.letter, symbols)?;
    }
    Ok(())
}

/// Adds the symbol that a letter is, if it's one.
fn add_letter(letter: Option<Bound<Sym>>, symbols: &mut SymbolList) -> Result<(), AllocError>
    ensures { OnOk result ((s : Symbol) → Contains symbols.new s ↔ (Contains symbols.old s ⊎ (letter ≡ Some (Bound.Inner s)))) }
{
    if let Some(Bound::Inner(symbol)) = letter {
        symbols.add(symbol)?;
    }
    Ok(())
}

/// Adds the symbols on both sides of edges.
fn add_pairs(edges: &[Edge<Pair>], symbols: &mut SymbolList) -> Result<(), AllocError>
    ensures { OnOk result ((s : Symbol) → Contains symbols.new s ↔ (Contains symbols.old s ⊎ ((e : EdgeOf Letter) × Contains edges.now e × ((pair : Letter) × (e.letter ≡ Some pair) × IsOn pair s)))) }
{
    'edges: for edge in edges {
        add_pair(edge.letter, symbols)?;
    }
    Ok(())
}

/// Adds the symbols on both sides of a pair, if there is one.
fn add_pair(letter: Option<Pair>, symbols: &mut SymbolList) -> Result<(), AllocError>
    ensures { OnOk result ((s : Symbol) → Contains symbols.new s ↔ (Contains symbols.old s ⊎ ((pair : Letter) × (letter ≡ Some pair) × IsOn pair s))) }
{
    let Some(pair) = letter else {
        return Ok(());
    };
    add_side(pair.up, symbols)?;
    add_side(pair.low, symbols)
}

/// Adds the symbol of a side, if it has one.
fn add_side(side: Option<Sym>, symbols: &mut SymbolList) -> Result<(), AllocError>
    ensures { OnOk result ((s : Symbol) → Contains symbols.new s ↔ (Contains symbols.old s ⊎ (side ≡ Some s))) }
{
    if let Some(symbol) = side {
        symbols.add(symbol)?;
    }
    Ok(())
}

/// Adds the symbols on both sides of edges, but for conditions.
fn add_flagged(edges: &[Edge<Pair>], symbols: &mut SymbolList) -> Result<(), AllocError>
    ensures { OnOk result ((s : Symbol) → Contains symbols.new s ↔ (Contains symbols.old s ⊎ ((e : EdgeOf Letter) × Contains edges.now e × ((pair : Letter) × (e.letter ≡ Some pair) × IsLetterOn pair s)))) }
{
    'edges: for edge in edges {
        add_pair_letters(edge.letter, symbols)?;
    }
    Ok(())
}

/// Adds the symbols on both sides of a pair, if there is one, but for a condition.
fn add_pair_letters(letter: Option<Pair>, symbols: &mut SymbolList) -> Result<(), AllocError>
    ensures { OnOk result ((s : Symbol) → Contains symbols.new s ↔ (Contains symbols.old s ⊎ ((pair : Letter) × (letter ≡ Some pair) × IsLetterOn pair s))) }
{
    let Some(pair) = letter else {
        return Ok(());
    };
    add_upper_letter(pair.up, symbols)?;
    add_side(pair.low, symbols)
}

/// Adds the symbol of an upper side, if it has one that is no condition.
fn add_upper_letter(side: Option<Sym>, symbols: &mut SymbolList) -> Result<(), AllocError>
    ensures { OnOk result ((s : Symbol) → Contains symbols.new s ↔ (Contains symbols.old s ⊎ ((side ≡ Some s) × (s.0 < first)))) }
{
    let Some(symbol) = side else {
        return Ok(());
    };
    if symbol.0 < FIRST {
        symbols.add(symbol)?;
    }
    Ok(())
}
