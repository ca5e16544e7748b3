ghost use Rattle.std.specs.Prelude.{◌≡◌, ◌<◌, ◌↔◌, ℕ, List, IfOk, IfSome, OnOk, All, Contains, map, length};
ghost use Rattle.std.specs.List.Sorted.{IsNonDecreasingBy};
ghost use Rattle.fsa.specs.Automaton.{UsesLetter};
ghost use Rattle.fsa.specs.Language.{Accepts};
ghost use Rattle.fsa.specs.declared.automaton.Edge.{Edge};
ghost use Rattle.fsa_explore.specs.Targets.{AreWithin};
ghost use Rattle.fsa_subset.specs.Placed.{with_letter};
ghost use Rattle.fsa_subset.specs.Sets.{HasMove, IsSettled, IsTargetSet, LeadsBy};
ghost use Rattle.fsa_subset.specs.Partial.{AddsSteps, AreFinal, IsSpreadBy};
ghost use Rattle.fsa_subset.specs.declared.places.LetterIndex.{LetterIndex};

use crate::letters::letters_on;
use crate::partial::Partial;
use crate::places::{LetterIndex, placed_rows};
use crate::subsets::{any_final, moves_from, settled, target_set};
use fsa::{Edge, Fsa};
use fsa_explore::{EdgesByState, NumberSet, edges_from, sorted_by_state};
use fsm_base::Letter;
use std::alloc::{AllocError, Global};

/// A deterministic automaton of the same language, with edges for those letters alone that lead from a state, or None
/// where it would take more than so many steps: one for each of its states, for each state of their sets and for each
/// edge that leaves one of these.
pub fn determine_within<L: Letter>(
    alloc: Global,
    a: &Fsa<L>,
    steps: usize,
) -> Result<Option<Fsa<L>>, AllocError>
    ensures letters { IfOk result (λ found. IfSome found (λ m. (x : L) → UsesLetter m x → UsesLetter a.now x)) }
    ensures language { IfOk result (λ found. IfSome found (λ m. (w : List L) → Accepts m w ↔ Accepts a.now w)) }
{
    let letters = letters_on(alloc, a.edges())?;
    let rows = placed_rows(alloc, a.edges(), &letters)?;
    let Some(found) = spread(alloc, &rows, a.states(), steps)? else {
        return Ok(None);
    };
    let finals = finals_of(alloc, &found, a.finals())?;
    let edges = with_letters(alloc, found.edges(), &letters)?;
    Ok(Some(Fsa::of(finals, edges)))
}

/// The sets that the start reaches, and the edges between them, or None where that takes more steps.
fn spread(
    alloc: Global,
    rows: &EdgesByState<LetterIndex>,
    states: usize,
    steps: usize,
) -> Result<Option<Partial>, AllocError>
    requires start { 0 < states }
    requires within { AreWithin rows.now states }
    ensures { IfOk result (λ found. IfSome found (λ p. IsSpreadBy rows.now states (length p.sets) p)) }
{
    let mut reached = NumberSet::new(alloc, states)?;
    let mut found = first_set(alloc, rows, &mut reached)?;
    let mut left = steps;
    let mut next = 0;
    'sets: while next < found.len() {
        if left == 0 {
            return Ok(None);
        }
        let set = Vec::from_slice(alloc, found.set(next))?;
        let moves = leave(alloc, rows, &set, next, &mut reached, &mut found)?;
        left = (left - 1).saturating_sub(set.len()).saturating_sub(moves);
        next += 1;
    }
    Ok(Some(found))
}

/// The start, and what epsilon edges reach from it.
fn first_set(
    alloc: Global,
    rows: &EdgesByState<LetterIndex>,
    reached: &mut NumberSet,
) -> Result<Partial, AllocError>
    requires start { 0 < reached.old.bound }
    requires within { AreWithin rows.now reached.old.bound }
    ensures found { IfOk result (IsSpreadBy rows.now reached.old.bound 0) }
    ensures bound { OnOk result (reached.new.bound ≡ reached.old.bound) }
{
    reached.clear();
    reached.add(0)?;
    let set = settled(alloc, rows, reached)?;
    let found = Partial::start(alloc, set)?;
    Ok(found)
}

/// Adds the edges that leave a set, which has the number, and gives how many edges leave its states.
fn leave(
    alloc: Global,
    rows: &EdgesByState<LetterIndex>,
    set: &[usize],
    number: usize,
    reached: &mut NumberSet,
    found: &mut Partial,
) -> Result<usize, AllocError>
    requires { AreWithin rows.now reached.old.bound }
    ensures steps { OnOk result (AddsSteps (IsSettled rows.now reached.old.bound) (LeadsBy rows.now set.now) number (HasMove rows.now set.now) found.old found.new) }
    ensures bound { reached.new.bound ≡ reached.old.bound }
{
    let moves = sorted_by_state(alloc, moves_from(alloc, rows, set)?)?;
    let places = places_on(alloc, &moves)?;
    add_steps(alloc, rows, &moves, &places, number, reached, found)?;
    Ok(moves.len())
}

/// The states that edges leave, sorted, each once.
fn places_on(alloc: Global, moves: &[Edge<LetterIndex>]) -> Result<Vec<usize>, AllocError>
    ensures { IfOk result (λ places. (place : ℕ) → Contains places.items place ↔ ((e : Edge LetterIndex) × Contains moves.now e × (e.from ≡ place))) }
{
    let mut places = sources_of(alloc, moves)?;
    places.sort_unstable();
    places.dedup();
    Ok(places)
}

/// The state that each edge leaves.
fn sources_of(alloc: Global, edges: &[Edge<LetterIndex>]) -> Result<Vec<usize>, AllocError>
    ensures { IfOk result (λ sources. sources.items ≡ map (λ e. e.from) edges.now) }
{
    edges.iter().map(|edge| edge.from).collect(alloc)
}

/// Adds an edge for each of these places, from the set with the number. The moves are sorted by their places.
fn add_steps(
    alloc: Global,
    rows: &EdgesByState<LetterIndex>,
    moves: &[Edge<LetterIndex>],
    places: &[usize],
    number: usize,
    reached: &mut NumberSet,
    found: &mut Partial,
) -> Result<(), AllocError>
    requires edges { AreWithin rows.now reached.old.bound }
    requires moves { AreWithin moves.now reached.old.bound }
    requires sorted { IsNonDecreasingBy (λ e. e.from) moves.now }
    ensures steps { OnOk result (AddsSteps (IsSettled rows.now reached.old.bound) (IsTargetSet rows.now moves.now) number (Contains places.now) found.old found.new) }
    ensures bound { reached.new.bound ≡ reached.old.bound }
{
    'places: for place in places {
        let set = target_set(alloc, rows, edges_from(moves, *place), reached)?;
        found.add(number, *place, set)?;
    }
    Ok(())
}

/// Which of the sets have a final state.
fn finals_of(alloc: Global, found: &Partial, finals: &[bool]) -> Result<Vec<bool>, AllocError>
    requires { (set : List ℕ) → Contains found.now.sets set → All (λ p. p < length finals.now) set }
    ensures { IfOk result (λ marks. AreFinal finals.now found.now.sets marks.items) }
{
    let mut marks = Vec::with_capacity(alloc, found.len())?;
    'sets: for number in 0..found.len() {
        marks.push(any_final(finals, found.set(number)))?;
    }
    Ok(marks)
}

/// Edges with the letters at the places that they carry.
fn with_letters<L: Letter>(
    alloc: Global,
    edges: &[Edge<LetterIndex>],
    letters: &[L],
) -> Result<Vec<Edge<L>>, AllocError>
    ensures { IfOk result (λ lettered. lettered.items ≡ map (with_letter letters.now) edges.now) }
{
    edges
        .iter()
        .map(|edge| with_letter(letters, *edge))
        .collect(alloc)
}

/// The edge with the letter at the place that it carries.
fn with_letter<L: Copy>(letters: &[L], edge: Edge<LetterIndex>) -> Edge<L>
    ensures { result ≡ with_letter letters.now edge }
{
    let letter = match edge.letter {
        Some(LetterIndex(place)) => letters.get(place).copied(),
        None => None,
    };
    Edge {
        from: edge.from,
        letter,
        to: edge.to,
    }
}
