ghost use Rattle.std.specs.Prelude.{◌≡◌, ◌++◌, ◌<◌, IfOk, OnOk};
ghost use Rattle.std.specs.List.{flat_map};
ghost use Rattle.fsa_subset.specs.Classes.{IsByClass, IsByLetter, at_class, by_letter};

use crate::places::LetterIndex;
use fsa::Edge;
use fsa_explore::{EdgesByState, epsilon_edges};
use std::alloc::{AllocError, Global};

/// The edges with a letter, found again by its place: each leaves the place, and carries the state that it left.
pub fn rows_by_letter(
    alloc: Global,
    edges: &[Edge<LetterIndex>],
) -> Result<EdgesByState<usize>, AllocError>
    ensures { IfOk result (IsByLetter edges.now) }
{
    let mut turned = Vec::new(alloc);
    for edge in edges {
        if let Some(LetterIndex(place)) = edge.letter {
            turned.push(Edge {
                from: place,
                letter: Some(edge.from),
                to: edge.to,
            })?;
        }
    }
    EdgesByState::of(alloc, &turned)
}

/// The edges with the classes of letters in place of the letters, those of a class being the edges of its first
/// letter.
pub fn rows_by_class(
    alloc: Global,
    edges: &[Edge<LetterIndex>],
    letters: &EdgesByState<usize>,
    firsts: &[usize],
) -> Result<EdgesByState<LetterIndex>, AllocError>
    requires { IsByLetter edges.now letters.now }
    ensures { IfOk result (IsByClass edges.now firsts.now) }
{
    let mut kept = epsilon_edges(alloc, edges)?;
    for (class, first) in firsts.iter().enumerate() {
        add_class(letters.out(*first), class, &mut kept)?;
    }
    EdgesByState::of(alloc, &kept)
}

/// Adds the edges of a letter, with the place of its class.
fn add_class(
    edges: &[Edge<usize>],
    class: usize,
    kept: &mut Vec<Edge<LetterIndex>>,
) -> Result<(), AllocError>
    ensures { OnOk result (kept.new.items ≡ kept.old.items ++ flat_map (at_class class) edges.now) }
{
    for edge in edges {
        if let Some(from) = edge.letter {
            kept.push(Edge {
                from,
                letter: Some(LetterIndex(class)),
                to: edge.to,
            })?;
        }
    }
    Ok(())
}
