ghost use Rattle.std.specs.Prelude.{◌≡◌, ◌<◌, OnOk};
ghost use Rattle.fsa_explore.specs.Targets.{AreWithin};

use fsa::Fsa;
use fsa_explore::{EdgesByState, NumberSet, close};
use fsa_rational::entered_states;
use fsm_base::Letter;
use std::alloc::{AllocError, Global};

/// Whether an automaton without epsilon edges has at most four times as many edges and a thousand. What is
/// counted is the edges of the states that epsilon edges reach from each state that a lettered edge enters, and
/// from the start: these are the edges that `without_empty` makes.
pub fn is_cheap<L: Letter>(alloc: Global, a: &Fsa<L>) -> Result<bool, AllocError> {
    let rows = EdgesByState::of(alloc, a.edges())?;
    let limit = a.edges().len().saturating_mul(4).saturating_add(1000);
    let entered = entered_states(alloc, a)?;
    let mut reached = NumberSet::new(alloc, a.states())?;
    let mut edges = 0usize;
    for state in entered.found() {
        edges = edges.saturating_add(edges_from(&rows, *state, &mut reached)?);
        if edges > limit {
            return Ok(false);
        }
    }
    Ok(true)
}

/// How many edges leave the states that epsilon edges reach from a state.
fn edges_from<L: Letter>(
    rows: &EdgesByState<L>,
    state: usize,
    reached: &mut NumberSet,
) -> Result<usize, AllocError>
    requires state { state < reached.old.bound }
    requires within { AreWithin rows.now reached.old.bound }
    ensures { OnOk result (reached.new.bound ≡ reached.old.bound) }
{
    reached.clear();
    reached.add(state)?;
    close(rows, reached)?;
    let mut edges = 0usize;
    for source in reached.found() {
        edges = edges.saturating_add(rows.out(*source).len());
    }
    Ok(edges)
}
