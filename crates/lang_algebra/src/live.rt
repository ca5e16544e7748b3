ghost use Rattle.std.specs.Prelude.{◌≡◌, ◌<◌, ◌↔◌, ℕ, List, Contains, Some, true, IfOk, OnOk, slice_get, length, map};
ghost use Rattle.fsa.specs.Automaton.{UsesLetter};
ghost use Rattle.fsa.specs.Language.{Accepts};
ghost use Rattle.fsa.specs.declared.automaton.Edge.{Edge};
ghost use Rattle.fsa_rational.specs.Shapes.{Extends};
ghost use Rattle.lang_algebra.specs.Live.{IsLive, IsTrimmed, back};

use fsa::{Edge, Fsa};
use fsa_explore::{EdgesByState, NumberSet, close};
use fsm_base::Letter;
use std::alloc::{AllocError, Global};

/// An automaton of the same language, without the edges that enter a state from which no final state is reached.
/// Takes time in proportion to the edges, which are sorted.
pub fn trim<L: Letter>(alloc: Global, a: &Fsa<L>) -> Result<Fsa<L>, AllocError>
    ensures part { IfOk result (IsTrimmed a.now) }
    ensures letters { IfOk result (λ m. (x : L) → UsesLetter m x → UsesLetter a.now x) }
    ensures language { IfOk result (λ m. (w : List L) → Accepts m w ↔ Accepts a.now w) }
{
    let live = live_states(alloc, a)?;
    let mut m = Fsa::of_states(alloc, Vec::from_slice(alloc, a.finals())?);
    add_live(&mut m, a.edges(), &live)?;
    Ok(m)
}

/// Adds those of the edges that enter one of the states.
fn add_live<L: Letter>(
    m: &mut Fsa<L>,
    edges: &[Edge<L>],
    live: &NumberSet,
) -> Result<(), AllocError>
    requires within { (e : Edge L) → Contains edges.now e → (e.from < length m.old.finals) × (e.to < length m.old.finals) }
    requires bound { live.now.bound ≡ length m.old.finals }
    ensures { OnOk result (Extends m.old m.new (λ e. Contains edges.now e × Contains live.now.found e.to)) }
{
    for edge in edges {
        if live.contains(edge.to) {
            m.add_edge(*edge)?;
        }
    }
    Ok(())
}

/// The states from which a final state is reached.
fn live_states<L: Letter>(alloc: Global, a: &Fsa<L>) -> Result<NumberSet, AllocError>
    ensures bound { IfOk result (λ live. live.bound ≡ length a.now.finals) }
    ensures live { IfOk result (λ live. (state : ℕ) → Contains live.found state ↔ IsLive a.now state) }
{
    let rows = EdgesByState::of(alloc, &reversed_edges(alloc, a.edges())?)?;
    let mut states = final_states(alloc, a.finals())?;
    close(&rows, &mut states)?;
    Ok(states)
}

/// An epsilon edge in the other direction for each edge.
fn reversed_edges<L: Letter>(alloc: Global, edges: &[Edge<L>]) -> Result<Vec<Edge<L>>, AllocError>
    ensures { IfOk result (λ turned. turned.items ≡ map back edges.now) }
{
    let mut turned = Vec::new(alloc);
    for edge in edges {
        turned.push(Edge {
            from: edge.to,
            letter: None,
            to: edge.from,
        })?;
    }
    Ok(turned)
}

/// The set of the final states.
fn final_states(alloc: Global, finals: &[bool]) -> Result<NumberSet, AllocError>
    ensures bound { IfOk result (λ states. states.bound ≡ length finals.now) }
    ensures states { IfOk result (λ states. (state : ℕ) → Contains states.found state ↔ (slice_get finals.now state ≡ Some true)) }
{
    let mut states = NumberSet::new(alloc, finals.len())?;
    for (state, is_final) in finals.iter().enumerate() {
        if *is_final {
            states.add(state)?;
        }
    }
    Ok(states)
}
