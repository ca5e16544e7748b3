ghost use Rattle.std.specs.Prelude.{◌≡◌, ◌↔◌, ◌⊎◌, Some, IfOk, OnOk, Contains};
ghost use Rattle.std.specs.BTreeMap.{get};
ghost use Rattle.word_relations.specs.Words.{IsDistinct};
ghost use Rattle.fsa.specs.declared.automaton.Edge.{Edge};
ghost use Rattle.fsa_subset.specs.Placed.{AreFound};

use fsa::Edge;
use fsm_base::{Hints, Letter};
use std::alloc::{AllocError, Global};
use std::collections::BTreeMap;

/// How many edges there are at least where hints save more than they take.
const MANY: usize = 256;

/// The letters that edges carry, each once, in the order in which they come.
pub fn letters_on<L: Letter>(alloc: Global, edges: &[Edge<L>]) -> Result<Vec<L>, AllocError>
    ensures distinct { IfOk result (λ letters. IsDistinct letters.items) }
    ensures all { IfOk result (λ letters. (e : Edge L) (x : L) → Contains edges.now e → e.letter ≡ Some x → Contains letters.items x) }
{
    let mut hints = Hints::new(alloc);
    let mut places = BTreeMap::new(alloc);
    let mut letters = Vec::new(alloc);
    for edge in edges {
        add_letter(
            alloc,
            edges.len(),
            &mut hints,
            &mut places,
            &mut letters,
            edge.letter,
        )?;
    }
    Ok(letters)
}

/// Adds a letter of so many edges and its place, where there is one and it's new.
fn add_letter<L: Letter>(
    alloc: Global,
    edges: usize,
    hints: &mut Hints,
    places: &mut BTreeMap<L, usize>,
    letters: &mut Vec<L>,
    letter: Option<L>,
) -> Result<(), AllocError>
    requires { AreFound letters.old.items (get L.cmp places.old) }
    ensures found { OnOk result (AreFound letters.new.items (get L.cmp places.new)) }
    ensures letters { OnOk result ((x : L) → Contains letters.old.items x ⊎ (letter ≡ Some x) → Contains letters.new.items x) }
{
    let Some(letter) = letter else {
        return Ok(());
    };
    if place_of(hints, letters, places, letter).is_some() {
        return Ok(());
    }
    let place = letters.len();
    note(alloc, edges, hints, letter, place);
    places.insert(letter, place)?;
    letters.push(letter)?;
    Ok(())
}

/// Notes the place of a letter of so many edges, if these are many.
pub fn note<L: Letter>(alloc: Global, edges: usize, hints: &mut Hints, letter: L, place: usize) {
    if edges >= MANY {
        hints.note(alloc, letter.mark(), place);
    }
}

/// The place of a letter, which is looked for where its hint leads and then in order.
fn place_of<L: Letter>(
    hints: &Hints,
    letters: &[L],
    places: &BTreeMap<L, usize>,
    letter: L,
) -> Option<usize>
    requires { AreFound letters.now (get L.cmp places.now) }
    ensures { result ≡ get L.cmp places.now letter }
{
    match hints.place_of(letters, letter) {
        Some(place) => Some(place),
        None => places.get(&letter).copied(),
    }
}
