ghost use Rattle.std.specs.Prelude.{◌≡◌, ◌<◌, ◌↔◌, ℕ, Contains, IsTrue, OnOk, OnErr};
ghost use Rattle.fsa.specs.declared.automaton.Edge.{Edge};
ghost use Rattle.fsa_explore.specs.Marks.{Adds, Grows};
ghost use Rattle.fsa_explore.specs.Reaches.{IsReached};
ghost use Rattle.fsa_explore.specs.Targets.{IsTarget, AreWithin};

use crate::edges_by_state::EdgesByState;
use crate::number_set::NumberSet;
use fsa::Edge;
use fsm_base::Letter;
use std::alloc::AllocError;

/// Adds the states that those of the edges enter which carry the letter, or no letter where it is None.
pub fn add_targets<L: Letter>(
    edges: &[Edge<L>],
    letter: Option<L>,
    states: &mut NumberSet,
) -> Result<(), AllocError>
    requires { AreWithin edges.now states.old.bound }
    ensures ok { OnOk result (Adds states.old states.new (IsTarget edges.now letter)) }
    ensures err { OnErr result (Grows states.old states.new (IsTarget edges.now letter)) }
{
    for edge in edges {
        if is_same(edge.letter, letter) {
            states.add(edge.to)?;
        }
    }
    Ok(())
}

/// Whether two letters are the same, or both are none.
fn is_same<L: Letter>(a: Option<L>, b: Option<L>) -> bool
    ensures { IsTrue result ↔ (a ≡ b) }
{
    match (a, b) {
        (Some(x), Some(y)) => x == y,
        (None, None) => true,
        _ => false,
    }
}

/// Adds the states that a path of epsilon edges reaches from those that are there. Each state's epsilon edges are
/// looked at once, and no others.
pub fn close<L: Letter>(rows: &EdgesByState<L>, states: &mut NumberSet) -> Result<(), AllocError>
    requires { AreWithin rows.now states.old.bound }
    ensures ok { OnOk result (Adds states.old states.new (IsReached rows.now states.old.found)) }
    ensures err { OnErr result (Grows states.old states.new (IsReached rows.now states.old.found)) }
{
    let mut next = 0;
    while next < states.found().len() {
        let state = states.found()[next];
        add_targets(rows.epsilon_out(state), None, states)?;
        next += 1;
    }
    Ok(())
}
