ghost use Rattle.std.specs.Prelude.{◌≡◌, ◌<◌, ◌↔◌, ◌⊎◌, ℕ, List, Bool, true, Some, Contains, IfOk, OnOk, length, map, slice_get};
ghost use Rattle.fsa.specs.Automaton.{UsesLetter};
ghost use Rattle.fsa.specs.Language.{Accepts};
ghost use Rattle.fsa.specs.declared.automaton.Edge.{Edge};
ghost use Rattle.fsm_base.specs.declared.letters.Sym.{Sym};
ghost use Rattle.flag_diacritics.specs.declared.tape.Tape.{Tape};
ghost use Rattle.flag_runs.specs.Runs.{tape_of};
ghost use Rattle.fst_flagged.specs.Conditions.{is_letter};
ghost use Rattle.lookup.specs.Graph.{IsWithin, Writes};
ghost use Rattle.lookup.specs.Obeyed.{AreGraphOf, HasLetter, IsClosing, WritesObeyed, raised, swapped, tape_edge};

use crate::part::Part;
use crate::{END, START};
use flag_diacritics::{Tape, resolve};
use flag_runs::Rules;
use fsa::{Edge, Fsa};
use fsm_base::Sym;
use fst_algebra::upper;
use std::alloc::{AllocError, Global};

/// A graph of the words that a graph of symbols and conditions writes, where the conditions hold, and without these. They are made states:
/// a word reaches a small part of a network, in which features have few values.
pub(crate) fn obeyed(alloc: Global, part: &Part, rules: &Rules) -> Result<Part, AllocError>
    requires within { IsWithin part.now.edges.items part.now.count }
    requires start { 1 < part.now.count }
    ensures within { IfOk result (λ graph. IsWithin graph.edges.items graph.count) }
    ensures start { IfOk result (λ graph. 1 < graph.count) }
    ensures symbols { IfOk result (λ graph. (symbol : Sym) → HasLetter graph.edges.items symbol → HasLetter part.now.edges.items symbol × (is_letter symbol ≡ true)) }
    ensures words { IfOk result (λ graph. (word : List Sym) → Writes graph.edges.items word ↔ WritesObeyed rules.now.conditions part.now.edges.items word) }
{
    let tapes = tapes_of(alloc, part.edges.as_slice(), part.count, rules)?;
    let resolved = resolve(alloc, &tapes, rules.flags())?;
    let words = upper(alloc, &resolved)?;
    let graph = graph_of(alloc, &words)?;
    Ok(graph)
}

/// The automaton of what a graph writes, as tapes. The end of the graph is its final state.
fn tapes_of(
    alloc: Global,
    edges: &[Edge<Sym>],
    count: usize,
    rules: &Rules,
) -> Result<Fsa<Tape>, AllocError>
    requires within { IsWithin edges.now count }
    requires start { 1 < count }
    ensures letters { IfOk result (λ m. (x : Tape) → UsesLetter m x → (symbol : Sym) × HasLetter edges.now symbol × (tape_of rules.now.conditions symbol ≡ x)) }
    ensures language { IfOk result (λ m. (tape : List Tape) → Accepts m tape ↔ ((written : List Sym) × Writes edges.now written × (tape ≡ map (tape_of rules.now.conditions) written))) }
{
    let tapes = tape_edges(alloc, edges, rules)?;
    let finals = finals_of(alloc, count)?;
    Ok(Fsa::of(finals, tapes))
}

/// The edges of a graph as edges of the automaton of tapes.
fn tape_edges(
    alloc: Global,
    edges: &[Edge<Sym>],
    rules: &Rules,
) -> Result<Vec<Edge<Tape>>, AllocError>
    ensures { IfOk result (λ tapes. tapes.items ≡ map (tape_edge rules.now.conditions) edges.now) }
{
    edges
        .iter()
        .map(|edge| tape_edge(*edge, rules))
        .collect(alloc)
}

/// An edge of a graph as one of the automaton of tapes.
fn tape_edge(edge: Edge<Sym>, rules: &Rules) -> Edge<Tape>
    ensures { result ≡ tape_edge rules.now.conditions edge }
{
    Edge {
        from: state_of(edge.from),
        letter: edge.letter.map(|symbol| rules.tape_of(symbol)),
        to: state_of(edge.to),
    }
}

/// The state of a node: the start of a graph is [`START`], and that of an automaton the state 0.
fn state_of(node: usize) -> usize
    ensures { result ≡ swapped node }
{
    if node == START {
        END
    } else if node == END {
        START
    } else {
        node
    }
}

/// Which of so many states is final: the one of the end alone.
fn finals_of(alloc: Global, count: usize) -> Result<Vec<bool>, AllocError>
    requires { 1 < count }
    ensures count { IfOk result (λ finals. length finals.items ≡ count) }
    ensures finals { IfOk result (λ finals. (q : ℕ) → (slice_get finals.items q ≡ Some true) ↔ (q ≡ 1)) }
{
    let mut finals = vec![in alloc; false; count]?;
    finals[START] = true;
    Ok(finals)
}

/// The graph of the words of an automaton. The state q is the node q + 1, and an epsilon edge leads from each final one to the end.
fn graph_of(alloc: Global, words: &Fsa<Sym>) -> Result<Part, AllocError>
    ensures within { IfOk result (λ graph. IsWithin graph.edges.items graph.count) }
    ensures start { IfOk result (λ graph. 1 < graph.count) }
    ensures symbols { IfOk result (λ graph. (symbol : Sym) → HasLetter graph.edges.items symbol → UsesLetter words.now symbol) }
    ensures words { IfOk result (λ graph. (word : List Sym) → Writes graph.edges.items word ↔ Accepts words.now word) }
{
    let finals = words.finals();
    let mut edges = raised_edges(alloc, words.edges(), finals.len())?;
    add_closing(finals, &mut edges)?;
    Ok(Part {
        edges,
        count: finals.len() + 1,
    })
}

/// The edges of an automaton of so many states, as edges of a graph.
fn raised_edges(
    alloc: Global,
    edges: &[Edge<Sym>],
    states: usize,
) -> Result<Vec<Edge<Sym>>, AllocError>
    requires { IsWithin edges.now states }
    ensures { IfOk result (λ found. found.items ≡ map raised edges.now) }
{
    let mut found = Vec::with_capacity(alloc, edges.len())?;
    for edge in edges {
        found.push(Edge {
            from: edge.from + 1,
            letter: edge.letter,
            to: edge.to + 1,
        })?;
    }
    Ok(found)
}

/// Adds the edges to the end from the final states.
fn add_closing(finals: &[bool], edges: &mut Vec<Edge<Sym>>) -> Result<(), AllocError>
    ensures { OnOk result ((e : Edge Sym) → Contains edges.new.items e ↔ (Contains edges.old.items e ⊎ IsClosing finals.now e)) }
{
    'states: for (state, is_final) in finals.iter().enumerate() {
        if *is_final {
            edges.push(Edge {
                from: state + 1,
                letter: None,
                to: END,
            })?;
        }
    }
    Ok(())
}
