ghost use Rattle.std.specs.Prelude.{◌≡◌, ◌<◌, ◌≤◌, Contains, Some, IfOk, IfSome, IfNone, IsSome, length};
ghost use Rattle.lookup.specs.Graph.{IsWithin};
ghost use Rattle.lookup.specs.Tree.{AreReversed, IsTree};
ghost use Rattle.lookup.specs.Turns.{AreLevels, HasNoTurn, IsOnTurn, IsTurn};

use crate::levels::levels;
use crate::tree::{Tree, grow, reversed_rows, word_from};
use crate::{END, START};
use fsa::Edge;
use fsa_explore::EdgesByState;
use fsm_base::Letter;
use std::alloc::{AllocError, Global};

/// A loop: the letters on a path to a node, on a round from that node to itself, and on a path from there to the
/// end.
#[derive(Debug, Drop)]
pub struct Turn<L> {
    /// The letters from the start to the node.
    pub before: Vec<L>,
    /// The letters on the round, of which there is at least one.
    pub round: Vec<L>,
    /// The letters from the node to the end.
    pub after: Vec<L>,
}

/// A loop that writes something on the way from the start to the end, or None where there is none. `count` is the
/// count of the nodes. Takes time in proportion to the edges where each of them is useful.
pub fn find_turn<L: Letter>(
    alloc: Global,
    edges: &[Edge<L>],
    count: usize,
) -> Result<Option<Turn<L>>, AllocError>
    requires within { IsWithin edges.now count }
    requires start { 1 < count }
    ensures found { IfOk result (λ found. IfSome found (λ turn. IsTurn edges.now turn.before.items turn.round.items turn.after.items)) }
    ensures none { IfOk result (λ found. IfNone found (HasNoTurn edges.now)) }
{
    let levels = levels(alloc, edges, count)?;
    let Some(suspect) = misplaced(edges, &levels) else {
        return Ok(None);
    };
    let rows = reversed_rows(alloc, edges)?;
    let to_end = grow(alloc, &rows, count, END)?;
    // Where the levels are those of the components, each suspect is on a loop.
    if let Some(turn) = turn_through(alloc, edges, &rows, count, &to_end, suspect)? {
        return Ok(Some(turn));
    }
    for edge in edges {
        if let Some(turn) = turn_through(alloc, edges, &rows, count, &to_end, *edge)? {
            return Ok(Some(turn));
        }
    }
    Ok(None)
}

/// The first edge along which the levels rise, or don't fall although it has a letter. There is a level for each
/// node.
fn misplaced<L: Letter>(edges: &[Edge<L>], levels: &[usize]) -> Option<Edge<L>>
    requires { IsWithin edges.now (length levels.now) }
    ensures some { IfSome result (Contains edges.now) }
    ensures none { IfNone result (AreLevels edges.now levels.now) }
{
    for edge in edges {
        let (above, below) = (levels[edge.from], levels[edge.to]);
        if above < below || above == below && edge.letter.is_some() {
            return Some(*edge);
        }
    }
    None
}

/// A loop that goes through the edge and begins with its letter, or None where there is none.
fn turn_through<L: Letter>(
    alloc: Global,
    edges: &[Edge<L>],
    rows: &EdgesByState<L>,
    count: usize,
    to_end: &Tree<L>,
    edge: Edge<L>,
) -> Result<Option<Turn<L>>, AllocError>
    requires within { IsWithin edges.now count }
    requires rows { AreReversed edges.now rows.now }
    requires to_end { IsTree rows.now 0 to_end.now }
    requires edge { Contains edges.now edge }
    ensures found { IfOk result (λ found. IfSome found (λ turn. IsTurn edges.now turn.before.items turn.round.items turn.after.items)) }
    ensures none { IfOk result (λ found. IfNone found (¬ IsOnTurn edges.now edge)) }
{
    let Some(letter) = edge.letter else {
        return Ok(None);
    };
    let to_edge = grow(alloc, rows, count, edge.from)?;
    let Some(before) = word_from(alloc, &to_edge, START)? else {
        return Ok(None);
    };
    let Some(mut round) = word_from(alloc, &to_edge, edge.to)? else {
        return Ok(None);
    };
    let Some(after) = word_from(alloc, to_end, edge.from)? else {
        return Ok(None);
    };
    round.insert(0, letter)?;
    Ok(Some(Turn {
        before,
        round,
        after,
    }))
}
