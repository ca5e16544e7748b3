ghost use Rattle.std.specs.Prelude.{◌≡◌, Some, IfOk, IfSome, OnOk, List};
ghost use Rattle.std.specs.BTreeMap.{get};
ghost use Rattle.fsa.specs.declared.automaton.Edge.{Edge};
ghost use Rattle.fsa_partial.specs.Groups.{AreGroups, IsGrouping};

use fsa::Edge;
use fsm_base::Letter;
use std::alloc::{AllocError, Global};
use std::collections::BTreeMap;

/// An edge among those of one letter.
#[derive(Clone, Copy, Debug, PartialEq, Eq)]
pub struct Arc {
    /// The state that the edge leaves.
    pub from: usize,
    /// The state that the edge enters.
    pub to: usize,
}

/// The edges of each letter, or None where an edge reads none. Takes time in proportion to the edges, times the
/// logarithm of the number of letters.
pub fn by_letter<L: Letter>(
    alloc: Global,
    edges: &[Edge<L>],
) -> Result<Option<Vec<Vec<Arc>>>, AllocError>
    ensures { IfOk result (λ found. IfSome found (λ groups. AreGroups edges.now groups.items)) }
{
    let mut places = BTreeMap::new(alloc);
    let mut groups = Vec::new(alloc);
    for edge in edges {
        let Some(letter) = edge.letter else {
            return Ok(None);
        };
        let place = place_of(alloc, &mut places, &mut groups, letter)?;
        groups[place].push(Arc {
            from: edge.from,
            to: edge.to,
        })?;
    }
    Ok(Some(groups))
}

/// The place of a letter's group, which is added where there is none.
fn place_of<L: Letter>(
    alloc: Global,
    places: &mut BTreeMap<L, usize>,
    groups: &mut Vec<Vec<Arc>>,
    letter: L,
) -> Result<usize, AllocError>
    ensures place { IfOk result (λ place. get L.cmp places.new letter ≡ Some place) }
    ensures groups { OnOk result ((edges : List (Edge L)) → IsGrouping edges (get L.cmp places.old) groups.old.items → IsGrouping edges (get L.cmp places.new) groups.new.items) }
{
    if let Some(place) = places.get(&letter) {
        return Ok(*place);
    }
    let place = groups.len();
    groups.push(Vec::new(alloc))?;
    places.insert(letter, place)?;
    Ok(place)
}
