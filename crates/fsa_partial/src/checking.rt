ghost use Rattle.std.specs.Prelude.{◌≡◌, ◌≢◌, ◌<◌, ◌⊎◌, ℕ, List, Contains, IfOk, IsTrue, length, map};
ghost use Rattle.std.specs.Prelude.{Vec};
ghost use Rattle.std.specs.Global.{Global};
ghost use Rattle.fsa.specs.Automaton.{HasNoEpsilonEdge};
ghost use Rattle.fsa_partial.specs.declared.grouping.Arc.{Arc};
ghost use Rattle.fsa_partial.specs.Groups.{AreGroups, LeaveApart};
ghost use Rattle.fsa_partial.specs.Minimal.{IsDeterministic, IsMinimal, Leads, AreApart};
ghost use Rattle.fsa_partial.specs.Splitting.{AreLive};

use crate::grouping::{Arc, by_letter};
use crate::refining::{are_distinct, refined};
use crate::search::{has_all, leading_states, reached_states};
use fsa::Fsa;
use fsm_base::Letter;
use std::alloc::{AllocError, Global};

/// Whether the automaton is minimal. So many passes are made over its edges at most, and where more would be needed
/// to tell its states apart, the answer is that it isn't.
pub fn is_minimal<L: Letter>(alloc: Global, m: &Fsa<L>, passes: usize) -> Result<bool, AllocError>
    ensures { IfOk result (λ is. IsTrue is → IsMinimal m.now) }
{
    let grouped = by_letter(alloc, m.edges())?;
    let Some(groups) = grouped else {
        return Ok(false);
    };
    let is_deterministic = leave_apart(alloc, &groups)?;
    let is_reached = are_reached(alloc, m)?;
    let leads_on = lead_on(alloc, m)?;
    if !is_deterministic {
        return Ok(false);
    }
    if !is_reached {
        return Ok(false);
    }
    if !leads_on {
        return Ok(false);
    }
    are_apart(alloc, m, &groups, passes)
}

/// Whether no letter leads from a state in two ways.
fn leave_apart(alloc: Global, groups: &[Vec<Arc>]) -> Result<bool, AllocError>
    ensures { IfOk result (λ leave. IsTrue leave → (arcs : Vec Arc Global) → Contains groups.now arcs → LeaveApart arcs.items) }
{
    for arcs in groups {
        let sources = sources_of(alloc, arcs)?;
        let are_apart = are_distinct(alloc, &sources)?;
        if !are_apart {
            return Ok(false);
        }
    }
    Ok(true)
}

/// The states that the edges leave.
fn sources_of(alloc: Global, arcs: &[Arc]) -> Result<Vec<usize>, AllocError>
    ensures { IfOk result (λ sources. sources.items ≡ map (λ arc. arc.from) arcs.now) }
{
    arcs.iter().map(|arc| arc.from).collect(alloc)
}

/// Whether the start leads to each state.
fn are_reached<L: Letter>(alloc: Global, m: &Fsa<L>) -> Result<bool, AllocError>
    ensures { IfOk result (λ are. IsTrue are → HasNoEpsilonEdge m.now → (s : ℕ) → s < length m.now.finals → (w : List L) × Leads m.now 0 w s) }
{
    let count = m.states();
    let reached = reached_states(alloc, m)?;
    Ok(has_all(&reached, count))
}

/// Whether each state leads to a final one, or there is but one state.
fn lead_on<L: Letter>(alloc: Global, m: &Fsa<L>) -> Result<bool, AllocError>
    ensures { IfOk result (λ lead. IsTrue lead → (length m.now.finals ≡ 1) ⊎ AreLive m.now) }
{
    let count = m.states();
    if count == 1 {
        return Ok(true);
    }
    let leading = leading_states(alloc, m)?;
    Ok(has_all(&leading, count))
}

/// Whether any two states are apart, as far as so many passes find it.
fn are_apart<L: Letter>(
    alloc: Global,
    m: &Fsa<L>,
    groups: &[Vec<Arc>],
    passes: usize,
) -> Result<bool, AllocError>
    requires { AreGroups m.now.edges groups.now }
    ensures { IfOk result (λ are. IsTrue are → IsDeterministic m.now → AreLive m.now → (s t : ℕ) → s < length m.now.finals → t < length m.now.finals → s ≢ t → AreApart m.now s t) }
{
    let found = refined(alloc, m, groups, passes)?;
    let Some(classes) = found else {
        return Ok(false);
    };
    are_distinct(alloc, &classes)
}
