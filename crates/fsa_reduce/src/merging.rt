ghost use Rattle.std.specs.Prelude.{◌≡◌, ◌<◌, ◌↔◌, ℕ, List, Bool, Some, true, IfOk, IfSome, IsTrue, OnOk, All, Contains, slice_get, length};
ghost use Rattle.fsa.specs.Automaton.{UsesLetter};
ghost use Rattle.fsa.specs.Language.{Accepts};
ghost use Rattle.fsa.specs.declared.automaton.Edge.{Edge};
ghost use Rattle.fsa_rational.specs.Shapes.{Extends, ForEach};
ghost use Rattle.fsa_reduce.specs.Numbering.{AreNumbered, StandsFor};
ghost use Rattle.fsa_reduce.specs.Classes.{AreAlike};
ghost use Rattle.fsa_reduce.specs.Merging.{IsMoved, AreWithinBoth, AreOfClasses, AreOwn, IsOwn};

use crate::classes::{Classes, classes_of, fewest_classes};
use crate::cutting::without_last;
use crate::numbering::{Numbered, lettered, number_letters};
use fsa::{Edge, Fsa};
use fsm_base::Letter;
use std::alloc::{AllocError, Global};

/// An automaton of the same language, with one state for each class of states that go on alike, as `classes_of`
/// finds them. Takes time in proportion to the edges, of which those of one state of each class are sorted.
pub fn merged<L: Letter>(alloc: Global, a: &Fsa<L>, ends_first: bool) -> Result<Fsa<L>, AllocError>
    ensures letters { IfOk result (λ m. (x : L) → UsesLetter m x → UsesLetter a.now x) }
    ensures language { IfOk result (λ m. (w : List L) → Accepts m w ↔ Accepts a.now w) }
{
    let with_numbers = number_letters(alloc, a.edges())?;
    let alike = classes_of(alloc, a.finals(), &with_numbers.edges, ends_first)?;
    merged_by(alloc, a, &with_numbers, &alike)
}

/// The same with the fewest classes of states that go on alike, also in loops, or None where more than so many passes over the edges are
/// needed to find them.
pub fn wholly_merged<L: Letter>(
    alloc: Global,
    a: &Fsa<L>,
    passes: usize,
) -> Result<Option<Fsa<L>>, AllocError>
    ensures letters { IfOk result (λ found. IfSome found (λ m. (x : L) → UsesLetter m x → UsesLetter a.now x)) }
    ensures language { IfOk result (λ found. IfSome found (λ m. (w : List L) → Accepts m w ↔ Accepts a.now w)) }
{
    let with_numbers = number_letters(alloc, a.edges())?;
    let Some(alike) = fewest_classes(alloc, a.finals(), &with_numbers.edges, passes)? else {
        return Ok(None);
    };
    let merged = merged_by(alloc, a, &with_numbers, &alike)?;
    Ok(Some(merged))
}

/// The automaton with one state for each of the classes, which are those of its edges with numbers in place of letters.
fn merged_by<L: Letter>(
    alloc: Global,
    a: &Fsa<L>,
    with_numbers: &Numbered<L>,
    alike: &Classes,
) -> Result<Fsa<L>, AllocError>
    requires numbers { AreNumbered a.now.edges with_numbers.now.letters.items with_numbers.now.edges.items }
    requires start { slice_get alike.now.of_states.items 0 ≡ Some 0 }
    requires alike { AreAlike a.now.finals with_numbers.now.edges.items alike.now.of_states.items alike.now.count }
    ensures letters { IfOk result (λ m. (x : L) → UsesLetter m x → UsesLetter a.now x) }
    ensures language { IfOk result (λ m. (w : List L) → Accepts m w ↔ Accepts a.now w) }
{
    let finals = merged_finals(alloc, a.finals(), &alike.of_states, alike.count)?;
    let edges = merged_edges(alloc, &with_numbers.edges, &alike.of_states, alike.count)?;
    let mut m = Fsa::of_states(alloc, finals);
    add_numbered(&mut m, &edges, &with_numbers.letters)?;
    without_last(alloc, m)
}

/// Which classes have a final state.
pub fn merged_finals(
    alloc: Global,
    finals: &[bool],
    classes: &[usize],
    count: usize,
) -> Result<Vec<bool>, AllocError>
    requires number { length classes.now ≡ length finals.now }
    requires within { All (λ k. k < count) classes.now }
    ensures count { IfOk result (λ v. length v.items ≡ count) }
    ensures finals { IfOk result (λ v. (k : ℕ) → slice_get v.items k ≡ Some true ↔ ((s : ℕ) × (slice_get classes.now s ≡ Some k) × (slice_get finals.now s ≡ Some true))) }
{
    let mut merged = vec![in alloc; false; count]?;
    for (state, is_final) in finals.iter().enumerate() {
        if *is_final {
            merged[classes[state]] = true;
        }
    }
    Ok(merged)
}

/// The edges between the classes, sorted, each once. Of each class the edges of one state are taken, since its other states have
/// edges that are alike.
fn merged_edges(
    alloc: Global,
    edges: &[Edge<usize>],
    classes: &[usize],
    count: usize,
) -> Result<Vec<Edge<usize>>, AllocError>
    requires within { AreWithinBoth edges.now (length classes.now) }
    requires alike { (finals : List Bool) × AreAlike finals edges.now classes.now count }
    ensures { IfOk result (λ v. (f : Edge ℕ) → Contains v.items f ↔ ((e : Edge ℕ) × Contains edges.now e × IsMoved classes.now e f)) }
{
    let states = states_of(alloc, classes, count)?;
    let own = own_edges(alloc, edges, classes, &states)?;
    let mut merged = moved_edges(alloc, &own, classes)?;
    merged.sort_unstable();
    merged.dedup();
    Ok(merged)
}

/// For each class a state of it, if there is one.
fn states_of(alloc: Global, classes: &[usize], count: usize) -> Result<Vec<usize>, AllocError>
    requires { All (λ k. k < count) classes.now }
    ensures { IfOk result (λ states. AreOfClasses classes.now states.items) }
{
    let mut states = vec![in alloc; 0usize; count]?;
    for (state, class) in classes.iter().enumerate() {
        states[*class] = state;
    }
    Ok(states)
}

/// The edges that leave these states of their classes.
fn own_edges(
    alloc: Global,
    edges: &[Edge<usize>],
    classes: &[usize],
    states: &[usize],
) -> Result<Vec<Edge<usize>>, AllocError>
    ensures { IfOk result (λ own. AreOwn classes.now states.now edges.now own.items) }
{
    let mut own = Vec::new(alloc);
    for edge in edges {
        if is_own(classes, states, edge.from) {
            own.push(*edge)?;
        }
    }
    Ok(own)
}

/// Whether a state is the one of its class.
fn is_own(classes: &[usize], states: &[usize], state: usize) -> bool
    ensures { IsTrue result ↔ IsOwn classes.now states.now state }
{
    let Some(class) = classes.get(state) else {
        return false;
    };
    states.get(*class) == Some(&state)
}

/// An edge between classes for each edge.
pub fn moved_edges(
    alloc: Global,
    edges: &[Edge<usize>],
    classes: &[usize],
) -> Result<Vec<Edge<usize>>, AllocError>
    requires { AreWithinBoth edges.now (length classes.now) }
    ensures { IfOk result (λ v. (f : Edge ℕ) → Contains v.items f ↔ ((e : Edge ℕ) × Contains edges.now e × IsMoved classes.now e f)) }
{
    let mut moved = Vec::with_capacity(alloc, edges.len())?;
    for edge in edges {
        moved.push(Edge {
            from: class_at(classes, edge.from),
            letter: edge.letter,
            to: class_at(classes, edge.to),
        })?;
    }
    Ok(moved)
}

/// The class of a state.
fn class_at(classes: &[usize], state: usize) -> usize
    requires { state < length classes.now }
    ensures { slice_get classes.now state ≡ Some result }
{
    classes[state]
}

/// Adds edges with letters in place of their numbers.
fn add_numbered<L: Copy>(
    m: &mut Fsa<L>,
    edges: &[Edge<usize>],
    letters: &[Option<L>],
) -> Result<(), AllocError>
    requires { AreWithinBoth edges.now (length m.old.finals) }
    ensures { OnOk result (Extends m.old m.new (ForEach (λ f e. StandsFor letters.now e f) edges.now)) }
{
    for edge in edges {
        if let Some(with_letter) = lettered(letters, *edge) {
            m.add_edge(with_letter)?;
        }
    }
    Ok(())
}
