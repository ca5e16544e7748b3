ghost use Rattle.std.specs.Prelude.{◌≡◌, ◌<◌, ◌+◌, ◌↔◌, ◌++◌, ℕ, List, Some, None, true, IfOk, OnOk, IsTrue, All, Contains, length, slice_get};
ghost use Rattle.word_relations.specs.Words.{IsDistinct};
ghost use Rattle.fsa.specs.Automaton.{UsesLetter};
ghost use Rattle.fsa.specs.Complete as complete;
ghost use Rattle.fsa.specs.Language as language;
ghost use Rattle.fsa.specs.declared.automaton.Edge.{Edge};
ghost use Rattle.fsa_explore.specs.Reaches.{Reaches, IsReached};
ghost use Rattle.fsa_explore.specs.Targets.{IsTarget, AreWithin};
ghost use Rattle.fsa_explore.specs.Explored.{AddsRow};
ghost use Rattle.std.specs.List.{flat_map};
ghost use Rattle.fsa_subset.specs.Sets.{IsStateSet, LeadsTo, IsFinalSet, IsSettled, AreMoves, IsTargetSet, IsBuiltByClass, IsSubsetBuilt, from_place};

use crate::classes::{rows_by_class, rows_by_letter};
use crate::places::{LetterIndex, placed_edges};
use fsa::{Dfa, Edge, Fsa};
use fsa_explore::{
    EdgesByState, Explored, FoundLists, LazyAutomaton, LetterClasses, NumberSet, add_targets,
    close, explore_by_class, rows_alike,
};
use fsm_base::Letter;
use std::alloc::{AllocError, Global};
use std::marker::Model;

/// The sets of states of an automaton, as the states of a deterministic one. A set is the sorted list of its
/// states.
#[derive(Drop)]
struct Subsets<'a> {
    /// The edges, with places of letters.
    rows: EdgesByState<LetterIndex>,
    /// Whether each state is final.
    finals: &'a [bool],
    /// How many letters there are.
    letters: usize,
    /// The set that is being worked out.
    reached: NumberSet,
}

impl<'a> Model for Subsets<'a> {
    ghost use Rattle.std.specs.Prelude.{◌≡◌, length};
    ghost use Rattle.fsa_explore.specs.Targets.{AreWithin};
    ghost use Rattle.fsa_subset.specs.Sets.{Placed};

    ghost Value = { Placed };

    ghost view = { λ sets. record { edges = sets.rows; finals = sets.finals.now; letters = sets.letters } };

    ghost invariant = { λ sets. AreWithin sets.rows (length sets.finals.now) × (sets.reached.bound ≡ length sets.finals.now) };
}

impl<'a> LazyAutomaton for Subsets<'a> {
    ghost letters = { λ sets. sets.letters };

    ghost is_state = { IsStateSet };

    ghost leads = { LeadsTo };

    ghost is_final_state = { IsFinalSet };

    fn is_final(&self, set: &[usize]) -> bool {
        any_final(self.finals, set)
    }

    fn add_row(
        &mut self,
        alloc: Global,
        set: &[usize],
        found: &mut FoundLists,
    ) -> Result<(), AllocError> {
        let moves = moves_of(alloc, &self.rows, set)?;
        add_sets(
            alloc,
            &self.rows,
            self.letters,
            &moves,
            &mut self.reached,
            found,
        )
    }
}

/// Whether one of the states is final.
pub fn any_final(finals: &[bool], set: &[usize]) -> bool
    requires { All (λ p. p < length finals.now) set.now }
    ensures { IsTrue result ↔ ((p : ℕ) × Contains set.now p × (slice_get finals.now p ≡ Some true)) }
{
    for state in set {
        if finals[*state] {
            return true;
        }
    }
    false
}

/// Where the letters lead from a set, found again by the places of the letters.
fn moves_of(
    alloc: Global,
    rows: &EdgesByState<LetterIndex>,
    set: &[usize],
) -> Result<EdgesByState<LetterIndex>, AllocError>
    ensures { IfOk result (AreMoves rows.now set.now) }
{
    let moves = moves_from(alloc, rows, set)?;
    EdgesByState::of(alloc, &moves)
}

/// Where the letters lead from a set: for each edge that leaves one of its states by a letter, an epsilon edge from
/// the place of the letter.
pub fn moves_from(
    alloc: Global,
    rows: &EdgesByState<LetterIndex>,
    set: &[usize],
) -> Result<Vec<Edge<LetterIndex>>, AllocError>
    ensures { IfOk result (λ moves. AreMoves rows.now set.now moves.items) }
{
    let mut moves = Vec::new(alloc);
    for state in set {
        add_moves(rows.out(*state), &mut moves)?;
    }
    Ok(moves)
}

/// Adds an epsilon edge from the place of the letter, for each of the edges that has a letter.
fn add_moves(
    edges: &[Edge<LetterIndex>],
    moves: &mut Vec<Edge<LetterIndex>>,
) -> Result<(), AllocError>
    ensures { OnOk result (moves.new.items ≡ moves.old.items ++ flat_map from_place edges.now) }
{
    for edge in edges {
        if let Some(LetterIndex(place)) = edge.letter {
            moves.push(Edge {
                from: place,
                letter: None,
                to: edge.to,
            })?;
        }
    }
    Ok(())
}

/// Adds the set that each letter leads to, in the order of the letters' places.
fn add_sets(
    alloc: Global,
    rows: &EdgesByState<LetterIndex>,
    letters: usize,
    moves: &EdgesByState<LetterIndex>,
    states: &mut NumberSet,
    found: &mut FoundLists,
) -> Result<(), AllocError>
    requires edges { AreWithin rows.now states.old.bound }
    requires moves { AreWithin moves.now states.old.bound }
    ensures row { OnOk result (AddsRow (IsSettled rows.now states.old.bound) (IsTargetSet rows.now moves.now) letters found.old found.new) }
    ensures bound { states.new.bound ≡ states.old.bound }
{
    for place in 0..letters {
        let set = target_set(alloc, rows, moves.out(place), states)?;
        found.push(&set)?;
    }
    Ok(())
}

/// The states that the moves enter, and what epsilon edges reach from them.
pub fn target_set(
    alloc: Global,
    rows: &EdgesByState<LetterIndex>,
    moves: &[Edge<LetterIndex>],
    states: &mut NumberSet,
) -> Result<Vec<usize>, AllocError>
    requires edges { AreWithin rows.now states.old.bound }
    requires moves { AreWithin moves.now states.old.bound }
    ensures set { IfOk result (λ set. (q : ℕ) → Contains set.items q ↔ ((r : ℕ) × IsTarget moves.now None r × Reaches rows.now r q)) }
    ensures settled { IfOk result (λ set. IsSettled rows.now states.old.bound set.items) }
    ensures bound { states.new.bound ≡ states.old.bound }
{
    states.clear();
    add_targets(moves, None, states)?;
    settled(alloc, rows, states)
}

/// The states and what epsilon edges reach from them, as a sorted list.
pub fn settled(
    alloc: Global,
    rows: &EdgesByState<LetterIndex>,
    states: &mut NumberSet,
) -> Result<Vec<usize>, AllocError>
    requires { AreWithin rows.now states.old.bound }
    ensures set { IfOk result (λ set. (q : ℕ) → Contains set.items q ↔ IsReached rows.now states.old.found q) }
    ensures settled { IfOk result (λ set. IsSettled rows.now states.old.bound set.items) }
    ensures bound { states.new.bound ≡ states.old.bound }
{
    close(rows, states)?;
    let mut set = Vec::from_slice(alloc, states.found())?;
    set.sort_unstable();
    Ok(set)
}

/// Builds the deterministic automaton of an automaton whose edges have places of letters. What a set leads to is
/// worked out once for all letters that the same edges carry.
fn built_sets(
    alloc: Global,
    edges: &[Edge<LetterIndex>],
    finals: &[bool],
    letters: usize,
) -> Result<Explored, AllocError>
    requires start { 0 < length finals.now }
    requires edges { AreWithin edges.now (length finals.now) }
    ensures { IfOk result (λ built. IsSubsetBuilt (record { edges = edges.now; finals = finals.now; letters = letters }) built.next.items built.finals.items) }
{
    let by_letter = rows_by_letter(alloc, edges)?;
    let classes = rows_alike(alloc, &by_letter, letters)?;
    let rows = rows_by_class(alloc, edges, &by_letter, &classes.firsts)?;
    built_by_class(alloc, rows, finals, &classes)
}

/// Builds the deterministic automaton of an automaton whose edges have classes of letters.
fn built_by_class(
    alloc: Global,
    rows: EdgesByState<LetterIndex>,
    finals: &[bool],
    classes: &LetterClasses,
) -> Result<Explored, AllocError>
    requires start { 0 < length finals.now }
    requires edges { AreWithin rows (length finals.now) }
    requires within { All (λ class. class < length classes.now.firsts.items) classes.now.of_places.items }
    ensures { IfOk result (λ built. IsBuiltByClass (record { edges = rows; finals = finals.now; letters = length classes.now.firsts.items }) classes.now.of_places.items built.next.items built.finals.items) }
{
    let mut states = NumberSet::new(alloc, finals.len())?;
    states.add(0)?;
    let start = settled(alloc, &rows, &mut states)?;
    let mut sets = Subsets {
        rows,
        finals,
        letters: classes.firsts.len(),
        reached: states,
    };
    explore_by_class(alloc, &mut sets, &start, classes)
}

/// The complete deterministic automaton with the same language, over exactly these letters and in their order
/// (the subset construction: Hopcroft, Motwani and Ullman, Introduction to Automata Theory, section 2.5.5). It has
/// the sets of states that the start reaches: they are found again by a hash, the edges that leave a set are looked
/// at once, and what it leads to is worked out once for all letters that the same edges carry.
pub fn determine<L: Letter>(alloc: Global, a: &Fsa<L>, letters: &[L]) -> Result<Dfa<L>, AllocError>
    requires distinct { IsDistinct letters.now }
    requires all { (x : L) → UsesLetter a.now x → Contains letters.now x }
    ensures letters { IfOk result (λ d. d.letters ≡ letters.now) }
    ensures language { IfOk result (λ d. (w : List L) → complete.Accepts d w ↔ language.Accepts a.now w) }
{
    let edges = placed_edges(alloc, a.edges(), letters)?;
    let built = built_sets(alloc, &edges, a.finals(), letters.len())?;
    let letters = Vec::from_slice(alloc, letters)?;
    Ok(Dfa::of(letters, built.next, built.finals))
}
