ghost use Rattle.std.specs.Prelude.{◌≡◌, Some, IfOk, Contains, length};
ghost use Rattle.std.specs.BTreeMap.{get};
ghost use Rattle.word_relations.specs.Words.{IsDistinct};
ghost use Rattle.fsa.specs.declared.automaton.Edge.{Edge};
ghost use Rattle.fsa_subset.specs.Placed.{IsPlaced, FindsPlaces, at_place};

use crate::letters::note;
use fsa::Edge;
use fsa_explore::EdgesByState;
use fsm_base::{Hints, Letter};
use std::alloc::{AllocError, Global};
use std::collections::BTreeMap;

/// The place of a letter in a list of letters, counted from 0.
#[derive(Clone, Copy, Debug, PartialEq, Eq, PartialOrd, Ord)]
pub struct LetterIndex(pub usize);

impl Letter for LetterIndex {
    ghost use Rattle.std.proofs.Common.{rules};

    ghost equal_is_same = { Prim.search rules };

    fn mark(self) -> usize {
        self.0
    }
}

/// The edges with the places of their letters.
pub fn placed_edges<L: Letter>(
    alloc: Global,
    edges: &[Edge<L>],
    letters: &[L],
) -> Result<Vec<Edge<LetterIndex>>, AllocError>
    requires distinct { IsDistinct letters.now }
    requires all { (e : Edge L) (x : L) → Contains edges.now e → e.letter ≡ Some x → Contains letters.now x }
    ensures { IfOk result (λ placed. IsPlaced letters.now edges.now placed.items) }
{
    let places = places_of(alloc, letters)?;
    let hints = hints_of(alloc, edges.len(), letters);
    let mut placed = Vec::with_capacity(alloc, edges.len())?;
    for edge in edges {
        placed.push(at_place(&hints, letters, &places, *edge))?;
    }
    Ok(placed)
}

/// The edges with the places of their letters, found again by the state that they leave.
pub fn placed_rows<L: Letter>(
    alloc: Global,
    edges: &[Edge<L>],
    letters: &[L],
) -> Result<EdgesByState<LetterIndex>, AllocError>
    requires distinct { IsDistinct letters.now }
    requires all { (e : Edge L) (x : L) → Contains edges.now e → e.letter ≡ Some x → Contains letters.now x }
    ensures { IfOk result (λ rows. IsPlaced letters.now edges.now rows) }
{
    let placed = placed_edges(alloc, edges, letters)?;
    EdgesByState::of(alloc, &placed)
}

/// The place of each letter.
fn places_of<L: Letter>(
    alloc: Global,
    letters: &[L],
) -> Result<BTreeMap<L, LetterIndex>, AllocError>
    requires { IsDistinct letters.now }
    ensures { IfOk result (λ places. FindsPlaces letters.now (length letters.now) (get L.cmp places)) }
{
    let mut places = BTreeMap::new(alloc);
    for (place, letter) in letters.iter().enumerate() {
        places.insert(*letter, LetterIndex(place))?;
    }
    Ok(places)
}

/// A hint for the place of each letter of so many edges, if these are many.
fn hints_of<L: Letter>(alloc: Global, edges: usize, letters: &[L]) -> Hints {
    let mut hints = Hints::new(alloc);
    for (place, letter) in letters.iter().enumerate() {
        note(alloc, edges, &mut hints, *letter, place);
    }
    hints
}

/// The edge with the place of its letter.
fn at_place<L: Letter>(
    hints: &Hints,
    letters: &[L],
    places: &BTreeMap<L, LetterIndex>,
    edge: Edge<L>,
) -> Edge<LetterIndex>
    requires { FindsPlaces letters.now (length letters.now) (get L.cmp places.now) }
    ensures { result ≡ at_place (get L.cmp places.now) edge }
{
    let letter = match edge.letter {
        Some(letter) => place_of(hints, letters, places, letter),
        None => None,
    };
    Edge {
        from: edge.from,
        letter,
        to: edge.to,
    }
}

/// The place of a letter, which is looked for where its hint leads and then in order.
fn place_of<L: Letter>(
    hints: &Hints,
    letters: &[L],
    places: &BTreeMap<L, LetterIndex>,
    letter: L,
) -> Option<LetterIndex>
    requires { FindsPlaces letters.now (length letters.now) (get L.cmp places.now) }
    ensures { result ≡ get L.cmp places.now letter }
{
    match hints.place_of(letters, letter) {
        Some(place) => Some(LetterIndex(place)),
        None => places.get(&letter).copied(),
    }
}
