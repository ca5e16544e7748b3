ghost use Rattle.std.specs.Prelude.{◌≡◌, ◌<◌, ◌≤◌, ◌↔◌, ℕ, List, Some, true, false, All, Contains, IfOk, OnOk, MatchOption, length, map, slice_get, slice_index_or};
ghost use Rattle.fsa.specs.Automaton.{UsesLetter};
ghost use Rattle.fsa.specs.Language.{Accepts, AcceptsFrom};
ghost use Rattle.fsa.specs.declared.automaton.Edge.{Edge};
ghost use Rattle.fsa_explore.specs.Marks.{Adds};
ghost use Rattle.fsa_reduce.specs.Gains.{ForSome};
ghost use Rattle.fsa_reduce.specs.Trimmed.{IsNumbering, IsRenumbered, turned};

use fsa::{Edge, Fsa};
use fsa_explore::{EdgesByState, NumberSet, close};
use fsm_base::Letter;
use std::alloc::{AllocError, Global};

/// An automaton of the same language without the states from which no final state is reached. Where there is no word
/// at all, the start stays, and what leads back to it. Takes time in proportion to the edges, times the logarithm of
/// their number.
pub fn trim<L: Letter>(alloc: Global, a: &Fsa<L>) -> Result<Fsa<L>, AllocError>
    ensures letters { IfOk result (λ m. (x : L) → UsesLetter m x → UsesLetter a.now x) }
    ensures language { IfOk result (λ m. (w : List L) → Accepts m w ↔ Accepts a.now w) }
{
    let kept = kept_states(alloc, a)?;
    let numbers = numbers_of(alloc, a.states(), &kept)?;
    let finals = finals_of(alloc, a.finals(), kept.found())?;
    let edges = kept_edges(alloc, a.edges(), &numbers)?;
    Ok(Fsa::of(finals, edges))
}

/// The start, and each state from which a final state is reached.
fn kept_states<L: Letter>(alloc: Global, a: &Fsa<L>) -> Result<NumberSet, AllocError>
    ensures bound { IfOk result (λ kept. kept.bound ≡ length a.now.finals) }
    ensures start { IfOk result (λ kept. slice_get kept.found 0 ≡ Some 0) }
    ensures live { IfOk result (λ kept. (state : ℕ) (w : List L) → AcceptsFrom a.now state w → Contains kept.found state) }
{
    let backwards = EdgesByState::of(alloc, &turned_edges(alloc, a.edges())?)?;
    let mut kept = NumberSet::new(alloc, a.states())?;
    kept.add(0)?;
    add_finals(&mut kept, a.finals())?;
    close(&backwards, &mut kept)?;
    Ok(kept)
}

/// The edges in the other direction, without their letters.
fn turned_edges<L: Letter>(alloc: Global, edges: &[Edge<L>]) -> Result<Vec<Edge<L>>, AllocError>
    ensures { IfOk result (λ turned_edges. turned_edges.items ≡ map turned edges.now) }
{
    let mut turned_edges = Vec::with_capacity(alloc, edges.len())?;
    for edge in edges {
        turned_edges.push(Edge {
            from: edge.to,
            letter: None,
            to: edge.from,
        })?;
    }
    Ok(turned_edges)
}

/// Adds the final states.
fn add_finals(states: &mut NumberSet, finals: &[bool]) -> Result<(), AllocError>
    requires { length finals.now ≤ states.old.bound }
    ensures { OnOk result (Adds states.old states.new (λ k. slice_get finals.now k ≡ Some true)) }
{
    for (state, is_final) in finals.iter().enumerate() {
        if *is_final {
            states.add(state)?;
        }
    }
    Ok(())
}

/// For each state its new number, or None where it isn't kept.
fn numbers_of(
    alloc: Global,
    states: usize,
    kept: &NumberSet,
) -> Result<Vec<Option<usize>>, AllocError>
    requires states { states ≡ kept.now.bound }
    requires start { slice_get kept.now.found 0 ≡ Some 0 }
    ensures start { IfOk result (λ numbers. slice_get numbers.items 0 ≡ Some (Some 0)) }
    ensures count { IfOk result (λ numbers. length numbers.items ≡ states) }
    ensures numbering { IfOk result (λ numbers. IsNumbering kept.now.found numbers.items) }
{
    let mut numbers = vec![in alloc; None; states]?;
    for (number, state) in kept.found().iter().enumerate() {
        numbers[*state] = Some(number);
    }
    // The start stands first, and only there.
    numbers[0] = Some(0);
    Ok(numbers)
}

/// Which of the kept states are final, in the order of their new numbers.
fn finals_of(alloc: Global, finals: &[bool], kept: &[usize]) -> Result<Vec<bool>, AllocError>
    requires { All (λ state. state < length finals.now) kept.now }
    ensures { IfOk result (λ kept_finals. kept_finals.items ≡ map (λ state. slice_index_or finals.now state false) kept.now) }
{
    let mut kept_finals = Vec::with_capacity(alloc, kept.len())?;
    for state in kept {
        kept_finals.push(finals[*state])?;
    }
    Ok(kept_finals)
}

/// The edges between kept states, by their new numbers.
fn kept_edges<L: Letter>(
    alloc: Global,
    edges: &[Edge<L>],
    numbers: &[Option<usize>],
) -> Result<Vec<Edge<L>>, AllocError>
    requires { (e : Edge L) → Contains edges.now e → (e.from < length numbers.now) × (e.to < length numbers.now) }
    ensures { IfOk result (λ kept. (e : Edge L) → Contains kept.items e ↔ ForSome (IsRenumbered numbers.now) edges.now e) }
{
    let mut kept = Vec::with_capacity(alloc, edges.len())?;
    for edge in edges {
        if let Some(edge) = renumbered(edge, numbers) {
            kept.push(edge)?;
        }
    }
    Ok(kept)
}

/// The edge between the new numbers of its states, or None where one of them isn't kept.
fn renumbered<L: Letter>(edge: &Edge<L>, numbers: &[Option<usize>]) -> Option<Edge<L>>
    requires from { edge.now.from < length numbers.now }
    requires to { edge.now.to < length numbers.now }
    ensures { MatchOption result ((e : Edge L) → ¬ IsRenumbered numbers.now edge.now e) (λ e. IsRenumbered numbers.now edge.now e) }
{
    match (numbers[edge.from], numbers[edge.to]) {
        (Some(from), Some(to)) => Some(Edge {
            from,
            letter: edge.letter,
            to,
        }),
        _ => None,
    }
}
