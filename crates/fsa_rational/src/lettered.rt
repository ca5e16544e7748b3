ghost use Rattle.std.specs.Prelude.{◌≡◌, ◌↔◌, ◌<◌, ◌⊎◌, ℕ, [], false, Some, IfOk, OnOk, List, Contains, replicate, length, All};
ghost use Rattle.fsa.specs.Automaton.{UsesLetter, HasNoEpsilonEdge};
ghost use Rattle.fsa.specs.Language.{Accepts};
ghost use Rattle.fsa.specs.declared.automaton.Edge.{Edge};
ghost use Rattle.fsa_explore.specs.Reaches.{Reaches};
ghost use Rattle.fsa_explore.specs.Targets.{AreWithin};
ghost use Rattle.fsa_rational.specs.Shapes.{Extends, ForEach, IsLettered};
ghost use Rattle.fsa_rational.specs.Bypass.{TakesOver, IsBypassed};

use fsa::{Edge, Fsa};
use fsa_explore::{EdgesByState, NumberSet, close};
use fsm_base::Letter;
use std::alloc::{AllocError, Global};

/// An automaton of the same language with no epsilon edge, and with as many states. Takes time in proportion to
/// the states that epsilon edges reach from each state that a lettered edge enters, and to their edges.
pub fn without_empty<L: Letter>(alloc: Global, a: &Fsa<L>) -> Result<Fsa<L>, AllocError>
    ensures epsilon { IfOk result HasNoEpsilonEdge }
    ensures letters { IfOk result (λ m. (x : L) → UsesLetter m x → UsesLetter a.now x) }
    ensures language { IfOk result (λ m. (w : List L) → Accepts m w ↔ Accepts a.now w) }
{
    let rows = EdgesByState::of(alloc, a.edges())?;
    let entered = entered_states(alloc, a)?;
    let mut m = Fsa::of_states(alloc, vec![in alloc; false; a.states()]?);
    bypass(alloc, &mut m, a, &rows, entered.found())?;
    Ok(m)
}

/// Gives each of the states the lettered edges of the states that epsilon edges reach from it, and makes it final
/// where one of them is.
fn bypass<L: Letter>(
    alloc: Global,
    m: &mut Fsa<L>,
    a: &Fsa<L>,
    rows: &EdgesByState<L>,
    states: &[usize],
) -> Result<(), AllocError>
    requires edges { m.old.edges ≡ [] }
    requires finals { m.old.finals ≡ replicate (length a.now.finals) false }
    requires within { AreWithin rows.now (length a.now.finals) }
    requires states { All (λ q. q < length a.now.finals) states.now }
    ensures { OnOk result (IsBypassed rows.now a.now.finals (Contains states.now) m.new) }
{
    let mut reached = NumberSet::new(alloc, a.states())?;
    for state in states {
        reach(rows, *state, &mut reached)?;
        take_over(m, *state, a, rows, reached.found())?;
    }
    Ok(())
}

/// The start, and the states that an edge with a letter enters.
pub fn entered_states<L: Letter>(alloc: Global, a: &Fsa<L>) -> Result<NumberSet, AllocError>
    ensures bound { IfOk result (λ states. states.bound ≡ length a.now.finals) }
    ensures start { IfOk result (λ states. Contains states.found 0) }
    ensures targets { IfOk result (λ states. (e : Edge L) (x : L) → Contains a.now.edges e → e.letter ≡ Some x → Contains states.found e.to) }
{
    let mut states = NumberSet::new(alloc, a.states())?;
    states.add(0)?;
    for edge in a.edges() {
        if edge.letter.is_some() {
            states.add(edge.to)?;
        }
    }
    Ok(states)
}

/// Finds the states that epsilon edges reach from a state, itself among them.
fn reach<L: Letter>(
    rows: &EdgesByState<L>,
    state: usize,
    reached: &mut NumberSet,
) -> Result<(), AllocError>
    requires state { state < reached.old.bound }
    requires within { AreWithin rows.now reached.old.bound }
    ensures bound { OnOk result (reached.new.bound ≡ reached.old.bound) }
    ensures reached { OnOk result ((q : ℕ) → Contains reached.new.found q ↔ Reaches rows.now state q) }
{
    reached.clear();
    reached.add(state)?;
    close(rows, reached)
}

/// Gives a state the lettered edges of the states that it reaches, and makes it final where one of them is.
fn take_over<L: Letter>(
    m: &mut Fsa<L>,
    state: usize,
    a: &Fsa<L>,
    rows: &EdgesByState<L>,
    reached: &[usize],
) -> Result<(), AllocError>
    requires state { state < length m.old.finals }
    requires states { length m.old.finals ≡ length a.now.finals }
    requires within { AreWithin rows.now (length m.old.finals) }
    requires reached { All (λ q. q < length m.old.finals) reached.now }
    ensures { OnOk result (TakesOver rows.now a.now.finals state (Contains reached.now) m.old m.new) }
{
    for source in reached {
        if a.is_final(*source) {
            m.set_final(state);
        }
        add_lettered(m, state, rows.out(*source))?;
    }
    Ok(())
}

/// Adds the edges that have a letter, from another state.
fn add_lettered<L: Copy>(m: &mut Fsa<L>, from: usize, edges: &[Edge<L>]) -> Result<(), AllocError>
    requires from { from < length m.old.finals }
    requires within { AreWithin edges.now (length m.old.finals) }
    ensures { OnOk result (Extends m.old m.new (ForEach (IsLettered from) edges.now)) }
{
    for edge in edges {
        if edge.letter.is_some() {
            m.add_edge(Edge {
                from,
                letter: edge.letter,
                to: edge.to,
            })?;
        }
    }
    Ok(())
}
