ghost use Rattle.std.specs.Prelude.{◌≡◌, ◌<◌, ◌≤◌, ℕ, List, Some, true, Contains, IfOk, OnOk, IsTrue, length, map, slice_get};
ghost use Rattle.fsa.specs.Automaton.{HasNoEpsilonEdge};
ghost use Rattle.fsa.specs.Language.{AcceptsFrom};
ghost use Rattle.fsa.specs.declared.automaton.Edge.{Edge};
ghost use Rattle.fsa_explore.specs.Marks.{Grows};
ghost use Rattle.fsa_partial.specs.Minimal.{Leads};
ghost use Rattle.fsa_partial.specs.Search.{bare, turned};

use fsa::{Edge, Fsa};
use fsa_explore::{EdgesByState, NumberSet, close};
use fsm_base::Letter;
use std::alloc::{AllocError, Global};

/// States to which the start leads: all of them.
pub fn reached_states<L: Letter>(alloc: Global, m: &Fsa<L>) -> Result<NumberSet, AllocError>
    ensures bound { IfOk result (λ reached. reached.bound ≡ length m.now.finals) }
    ensures led { IfOk result (λ reached. HasNoEpsilonEdge m.now → (s : ℕ) → Contains reached.found s → (w : List L) × Leads m.now 0 w s) }
{
    let rows = EdgesByState::of(alloc, &bare_edges(alloc, m.edges())?)?;
    let mut reached = NumberSet::new(alloc, m.states())?;
    reached.add(0)?;
    close(&rows, &mut reached)?;
    Ok(reached)
}

/// States that lead to a final one: all of them.
pub fn leading_states<L: Letter>(alloc: Global, m: &Fsa<L>) -> Result<NumberSet, AllocError>
    ensures bound { IfOk result (λ leading. leading.bound ≡ length m.now.finals) }
    ensures leads { IfOk result (λ leading. (s : ℕ) → Contains leading.found s → (w : List L) × AcceptsFrom m.now s w) }
{
    let rows = EdgesByState::of(alloc, &turned_edges(alloc, m.edges())?)?;
    let mut leading = NumberSet::new(alloc, m.states())?;
    add_finals(&mut leading, m.finals())?;
    close(&rows, &mut leading)?;
    Ok(leading)
}

/// The edges without their letters.
fn bare_edges<L: Letter>(alloc: Global, edges: &[Edge<L>]) -> Result<Vec<Edge<L>>, AllocError>
    ensures { IfOk result (λ bare_edges. bare_edges.items ≡ map bare edges.now) }
{
    let mut bare_edges = Vec::with_capacity(alloc, edges.len())?;
    for edge in edges {
        bare_edges.push(Edge {
            from: edge.from,
            letter: None,
            to: edge.to,
        })?;
    }
    Ok(bare_edges)
}

/// The edges in the other direction, without their letters.
fn turned_edges<L: Letter>(alloc: Global, edges: &[Edge<L>]) -> Result<Vec<Edge<L>>, AllocError>
    ensures { IfOk result (λ turned_edges. turned_edges.items ≡ map turned edges.now) }
{
    let mut turned_edges = Vec::with_capacity(alloc, edges.len())?;
    for edge in edges {
        turned_edges.push(Edge {
            from: edge.to,
            letter: None,
            to: edge.from,
        })?;
    }
    Ok(turned_edges)
}

/// Adds the final states.
fn add_finals(states: &mut NumberSet, finals: &[bool]) -> Result<(), AllocError>
    requires { length finals.now ≤ states.old.bound }
    ensures { OnOk result (Grows states.old states.new (λ s. slice_get finals.now s ≡ Some true)) }
{
    for (state, is_final) in finals.iter().enumerate() {
        if *is_final {
            states.add(state)?;
        }
    }
    Ok(())
}

/// Whether each of so many numbers is in the set.
pub fn has_all(set: &NumberSet, count: usize) -> bool
    requires { set.now.bound ≡ count }
    ensures { IsTrue result → (s : ℕ) → s < count → Contains set.now.found s }
{
    for number in 0..count {
        if !set.contains(number) {
            return false;
        }
    }
    true
}
