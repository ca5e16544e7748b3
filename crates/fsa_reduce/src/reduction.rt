ghost use Rattle.std.specs.Prelude.{◌≡◌, ◌↔◌, IfOk, IfSome, List};
ghost use Rattle.fsa.specs.Automaton.{UsesLetter};
ghost use Rattle.fsa.specs.Language.{Accepts};

use crate::epsilon::is_cheap;
use crate::merging::{merged, wholly_merged};
use crate::order::lead_on;
use fsa::{Edge, Fsa};
use fsa_rational::without_empty;
use fsm_base::Letter;
use std::alloc::{AllocError, Global};

/// How often states are merged at most. A pass that takes away no more than a sixteenth of the states is the last
/// one in any case.
const PASSES: usize = 500;

/// How many edges are looked at, at most, by all passes that look for the fewest classes.
const STEPS: usize = 524_288;

/// With how few passes the fewest classes aren't looked for, since most would not end.
const FEW: usize = 6;

/// A smaller automaton of the same language: states that go on alike become one, and epsilon edges, where there are any, go
/// away if that is cheap. Takes time in proportion to the edges, which are sorted.
pub fn reduced<L: Letter>(alloc: Global, a: &Fsa<L>) -> Result<Fsa<L>, AllocError>
    ensures letters { IfOk result (λ m. (x : L) → UsesLetter m x → UsesLetter a.now x) }
    ensures language { IfOk result (λ m. (w : List L) → Accepts m w ↔ Accepts a.now w) }
{
    let m = merged_often(alloc, a)?;
    if has_epsilon(m.edges()) && is_cheap(alloc, &m)? {
        merged_often(alloc, &without_empty(alloc, &m)?)
    } else {
        Ok(m)
    }
}

/// A smaller automaton of the same language, in one pass over its edges: common ends become one, and states that go on alike into
/// the same states.
pub fn ends_merged<L: Letter>(alloc: Global, a: &Fsa<L>) -> Result<Fsa<L>, AllocError>
    ensures letters { IfOk result (λ m. (x : L) → UsesLetter m x → UsesLetter a.now x) }
    ensures language { IfOk result (λ m. (w : List L) → Accepts m w ↔ Accepts a.now w) }
{
    merged(alloc, a, true)
}

/// Whether one of the edges is an epsilon edge.
fn has_epsilon<L>(edges: &[Edge<L>]) -> bool {
    edges.iter().any(|edge| edge.letter.is_none())
}

/// Merges states: all that go on alike where there are no loops or few passes find them, and else as many as passes in turns find.
fn merged_often<L: Letter>(alloc: Global, a: &Fsa<L>) -> Result<Fsa<L>, AllocError>
    ensures letters { IfOk result (λ m. (x : L) → UsesLetter m x → UsesLetter a.now x) }
    ensures language { IfOk result (λ m. (w : List L) → Accepts m w ↔ Accepts a.now w) }
{
    if has_stay(a.edges()) {
        if let Some(few) = merged_in_few_passes(alloc, a)? {
            return Ok(few);
        }
    }
    let m = merged(alloc, a, true)?;
    if lead_on(m.edges()) {
        // There is no loop, so that all common ends were found at once.
        return Ok(m);
    }
    match merged_in_few_passes(alloc, &m)? {
        Some(few) => Ok(few),
        None => merged_in_turns(alloc, m),
    }
}

/// Whether an edge leads to the state that it leaves.
fn has_stay<L>(edges: &[Edge<L>]) -> bool {
    edges.iter().any(|edge| edge.from == edge.to)
}

/// Merges all states that go on alike, or None where there are so many edges, or the states are told apart so far behind, that it takes long.
fn merged_in_few_passes<L: Letter>(alloc: Global, a: &Fsa<L>) -> Result<Option<Fsa<L>>, AllocError>
    ensures letters { IfOk result (λ found. IfSome found (λ m. (x : L) → UsesLetter m x → UsesLetter a.now x)) }
    ensures language { IfOk result (λ found. IfSome found (λ m. (w : List L) → Accepts m w ↔ Accepts a.now w)) }
{
    let passes = STEPS / a.edges().len().saturating_add(1);
    if passes < FEW {
        return Ok(None);
    }
    wholly_merged(alloc, a, passes)
}

/// Merges states again and again, as long as that takes away more than a sixteenth of them.
fn merged_in_turns<L: Letter>(alloc: Global, a: Fsa<L>) -> Result<Fsa<L>, AllocError>
    ensures letters { IfOk result (λ m. (x : L) → UsesLetter m x → UsesLetter a x) }
    ensures language { IfOk result (λ m. (w : List L) → Accepts m w ↔ Accepts a w) }
{
    let mut m = a;
    for _pass in 0..PASSES {
        let next = merged_again(alloc, &m)?;
        let is_last = is_little(m.states(), next.states());
        m = next;
        if is_last {
            return Ok(m);
        }
    }
    Ok(m)
}

/// Merges the states that go on into the same states and, where there were more than a few, from the ends again.
fn merged_again<L: Letter>(alloc: Global, a: &Fsa<L>) -> Result<Fsa<L>, AllocError>
    ensures letters { IfOk result (λ m. (x : L) → UsesLetter m x → UsesLetter a.now x) }
    ensures language { IfOk result (λ m. (w : List L) → Accepts m w ↔ Accepts a.now w) }
{
    let m = merged(alloc, a, false)?;
    if is_little(a.states(), m.states()) {
        return Ok(m);
    }
    merged(alloc, &m, true)
}

/// Whether no more than a sixteenth of so many states was taken away.
fn is_little(before: usize, after: usize) -> bool {
    after >= before - before / 16
}
