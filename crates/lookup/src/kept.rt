ghost use Rattle.std.specs.Prelude.{◌<◌, ◌↔◌, List, Contains, IfOk};
ghost use Rattle.fsa.specs.declared.automaton.Edge.{Edge};
ghost use Rattle.lookup.specs.Graph.{AreUseful, IsWithin, Writes};

use crate::tree::{grow, reversed_rows};
use crate::{END, START};
use fsa::Edge;
use fsa_explore::{EdgesByState, NumberSet};
use fsm_base::Letter;
use std::alloc::{AllocError, Global};

/// The edges that stand on a path from the start to the end, in their order. `count` is the count of the nodes.
pub fn useful<L: Letter>(
    alloc: Global,
    edges: &[Edge<L>],
    count: usize,
) -> Result<Vec<Edge<L>>, AllocError>
    requires within { IsWithin edges.now count }
    requires start { 1 < count }
    ensures among { IfOk result (λ kept. (e : Edge L) → Contains kept.items e → Contains edges.now e) }
    ensures useful { IfOk result (λ kept. AreUseful kept.items) }
    ensures same { IfOk result (λ kept. (word : List L) → Writes kept.items word ↔ Writes edges.now word) }
{
    let rows = EdgesByState::of(alloc, edges)?;
    let from_start = grow(alloc, &rows, count, START)?;
    let reversed = reversed_rows(alloc, edges)?;
    let to_end = grow(alloc, &reversed, count, END)?;
    let kept = between(alloc, edges, &from_start.reached, &to_end.reached)?;
    Ok(kept)
}

/// The edges that leave one of some nodes and enter one of others, in their order.
fn between<L: Letter>(
    alloc: Global,
    edges: &[Edge<L>],
    left: &NumberSet,
    entered: &NumberSet,
) -> Result<Vec<Edge<L>>, AllocError>
    requires left { IsWithin edges.now left.now.bound }
    requires entered { IsWithin edges.now entered.now.bound }
    ensures { IfOk result (λ kept. (e : Edge L) → Contains kept.items e ↔ (Contains edges.now e × (Contains left.now.found e.from × Contains entered.now.found e.to))) }
{
    let mut kept = Vec::new(alloc);
    for edge in edges {
        if left.contains(edge.from) && entered.contains(edge.to) {
            kept.push(*edge)?;
        }
    }
    Ok(kept)
}
