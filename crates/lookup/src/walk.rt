ghost use Rattle.std.specs.Prelude.{◌≡◌, ◌≢◌, ◌<◌, ◌≤◌, ◌+◌, ◌↔◌, ◌++◌, [], ◌∷◌, ℕ, List, Contains, IfOk, OnOk, IsTrue, Some, MatchBool, length, slice_get, true};
ghost use Rattle.std.proofs.Common.{rules};
ghost use Rattle.fsa.specs.declared.automaton.Edge.{Edge};
ghost use Rattle.lookup.specs.declared.walk.Byte.{Byte};
ghost use Rattle.lookup.specs.declared.walk.Leaving.{Leaving};
ghost use Rattle.lookup.specs.declared.walk.Move.{Move};
ghost use Rattle.fsa_explore.specs.Targets.{AreWithin};
ghost use Rattle.lookup.specs.Walks.{AreFrom, AreInOrder, AreLearnt, AreMore, AreMoves, Follows, HasByte, HasMove, IsFront, IsKnown, IsLeast, IsLesser, IsWalk, LeadsOn, WritesText};

use crate::{END, START};
use fsa::Edge;
use fsa_explore::{EdgesByState, ListTable, NumberSet, add_targets, close};
use fsm_base::Letter;
use std::alloc::{AllocError, Global};

/// A letter of a text: a byte of its UTF-8.
#[derive(Clone, Copy, Debug, PartialEq, Eq, PartialOrd, Ord, Hash)]
pub(crate) struct Byte(pub(crate) u8);

impl Letter for Byte {
    ghost equal_is_same = { Prim.search rules };
}

/// A byte that leaves a set of nodes.
#[derive(Clone, Copy, Debug)]
pub(crate) struct Move {
    /// The byte.
    pub(crate) byte: u8,
    /// The number of the set that it leads to.
    pub(crate) to: usize,
}

/// The moves from a set of nodes.
#[derive(Debug, Drop)]
pub(crate) struct Leaving {
    /// Whether the moves were worked out.
    pub(crate) is_known: bool,
    /// The moves, in the order of their bytes.
    pub(crate) moves: Vec<Move>,
}

/// A walk over the texts that the paths of a graph begin with, in the order of bytes. What leaves a set of nodes is
/// worked out when a text leads to the set for the first time.
#[derive(Drop)]
pub(crate) struct Walk {
    /// The edges of the graph.
    pub(crate) rows: EdgesByState<Byte>,
    /// The nodes that are being gathered.
    pub(crate) marked: NumberSet,
    /// The sets of nodes that texts were seen to lead to, by their numbers.
    pub(crate) sets: ListTable,
    /// The moves from the sets, by their numbers: those of each set that a beginning of the text leads to are known.
    pub(crate) leaving: Vec<Leaving>,
    /// The text that the walk stands at.
    pub(crate) text: Vec<u8>,
    /// The number of the set that each beginning of the text leads to, from the empty one on.
    pub(crate) trail: Vec<usize>,
    /// The least byte that the walk may go on with.
    pub(crate) floor: usize,
}

impl Walk {
    /// A walk that stands at the empty text.
    pub(crate) fn new(alloc: Global, edges: &[Edge<Byte>], count: usize) -> Result<Walk, AllocError>
        requires within { AreWithin edges.now count }
        requires start { 1 < count }
        ensures rows { IfOk result (λ walk. (e : Edge Byte) → Contains walk.rows e ↔ Contains edges.now e) }
        ensures text { IfOk result (λ walk. walk.text.items ≡ []) }
        ensures floor { IfOk result (λ walk. walk.floor ≡ 0) }
        ensures bound { IfOk result (λ walk. walk.marked.bound ≡ count) }
        ensures walk { IfOk result IsWalk }
    {
        let rows = EdgesByState::of(alloc, edges)?;
        let mut marked = NumberSet::new(alloc, count)?;
        let front = first_front(alloc, &rows, &mut marked)?;
        let mut sets = ListTable::new(alloc);
        let start = sets.number_of(alloc, &front)?;
        let mut leaving = Vec::new(alloc);
        learn(alloc, &rows, &mut marked, &mut sets, &mut leaving, start)?;
        let mut trail = Vec::new(alloc);
        trail.push(start)?;
        Ok(Walk {
            rows,
            marked,
            sets,
            leaving,
            text: Vec::new(alloc),
            trail,
            floor: 0,
        })
    }

    /// Whether a path from the start to the end writes the text.
    pub(crate) fn is_at_end(&self) -> bool
        requires { IsWalk self.now }
        ensures { IsTrue result ↔ WritesText self.now.rows self.now.text.items }
    {
        has(self.sets.get(self.trail[self.text.len()]), END)
    }

    /// The least byte that may follow the text, from the floor on.
    pub(crate) fn next(&self) -> Option<u8>
        requires { IsWalk self.now }
        ensures { IsLeast (λ byte. (self.now.floor ≤ byte) × Follows self.now.rows self.now.text.items byte) result }
    {
        least_move(&self.leaving[self.trail[self.text.len()]].moves, self.floor)
    }

    /// Goes on with a byte that may follow the text.
    pub(crate) fn enter(&mut self, alloc: Global, byte: u8) -> Result<(), AllocError>
        requires walk { IsWalk self.old }
        requires follows { Follows self.old.rows self.old.text.items byte }
        ensures rows { OnOk result (self.new.rows ≡ self.old.rows) }
        ensures text { OnOk result (self.new.text.items ≡ self.old.text.items ++ byte ∷ []) }
        ensures floor { OnOk result (self.new.floor ≡ 0) }
        ensures bound { OnOk result (self.new.marked.bound ≡ self.old.marked.bound) }
        ensures walk { OnOk result (IsWalk self.new) }
    {
        let to = set_along(&self.leaving[self.trail[self.text.len()]].moves, byte);
        learn(
            alloc,
            &self.rows,
            &mut self.marked,
            &mut self.sets,
            &mut self.leaving,
            to,
        )?;
        self.text.push(byte)?;
        self.trail.push(to)?;
        self.floor = 0;
        Ok(())
    }

    /// Takes back the last byte, to go on with those behind it. At the empty text there is none.
    pub(crate) fn leave(&mut self) -> bool
        requires { IsWalk self.old }
        ensures rows { self.new.rows ≡ self.old.rows }
        ensures bound { self.new.marked.bound ≡ self.old.marked.bound }
        ensures left { MatchBool result ((byte : ℕ) × ((self.old.text.items ≡ self.new.text.items ++ byte ∷ []) × (self.new.floor ≡ byte + 1) × IsWalk self.new)) (self.old.text.items ≡ []) }
    {
        let Some(byte) = self.text.pop() else {
            return false;
        };
        self.trail.pop();
        self.floor = usize::from(byte) + 1;
        true
    }
}

/// The nodes that the empty text leads to.
fn first_front(
    alloc: Global,
    rows: &EdgesByState<Byte>,
    marked: &mut NumberSet,
) -> Result<Vec<usize>, AllocError>
    requires within { AreWithin rows.now marked.old.bound }
    requires start { 1 < marked.old.bound }
    ensures bound { OnOk result (marked.new.bound ≡ marked.old.bound) }
    ensures front { IfOk result (λ front. IsFront rows.now [] front.items) }
{
    marked.clear();
    marked.add(START)?;
    close(rows, marked)?;
    let front = Vec::from_slice(alloc, marked.found())?;
    Ok(front)
}

/// The edges that leave one of some nodes.
fn edges_from(
    alloc: Global,
    rows: &EdgesByState<Byte>,
    front: &[usize],
) -> Result<Vec<Edge<Byte>>, AllocError>
    ensures { IfOk result (λ edges. AreFrom rows.now front.now edges.items) }
{
    let mut edges = Vec::new(alloc);
    'nodes: for node in front {
        edges.extend_from_slice(rows.out(*node))?;
    }
    Ok(edges)
}

/// The nodes that a text leads to, from the edges that leave those that it leads to without its last byte.
fn next_front(
    alloc: Global,
    rows: &EdgesByState<Byte>,
    marked: &mut NumberSet,
    leaving: &[Edge<Byte>],
    byte: u8,
) -> Result<Vec<usize>, AllocError>
    requires within { AreWithin rows.now marked.old.bound }
    requires leaving { (e : Edge Byte) → Contains leaving.now e → Contains rows.now e }
    ensures bound { OnOk result (marked.new.bound ≡ marked.old.bound) }
    ensures front { IfOk result (λ next. (front : List ℕ) → AreFrom rows.now front leaving.now → LeadsOn rows.now front byte next.items) }
{
    marked.clear();
    add_targets(leaving, Some(Byte(byte)), marked)?;
    close(rows, marked)?;
    let next = Vec::from_slice(alloc, marked.found())?;
    Ok(next)
}

/// Works out the moves from a set, where they aren't known.
fn learn(
    alloc: Global,
    rows: &EdgesByState<Byte>,
    marked: &mut NumberSet,
    sets: &mut ListTable,
    leaving: &mut Vec<Leaving>,
    number: usize,
) -> Result<(), AllocError>
    requires within { AreWithin rows.now marked.old.bound }
    requires number { number < length sets.old }
    requires learnt { AreLearnt rows.now sets.old leaving.old.items }
    ensures bound { OnOk result (marked.new.bound ≡ marked.old.bound) }
    ensures more { OnOk result (AreMore sets.old sets.new) }
    ensures learnt { OnOk result (AreLearnt rows.now sets.new leaving.new.items) }
    ensures known { OnOk result (IsKnown leaving.new.items number) }
    ensures kept { OnOk result ((n : ℕ) → IsKnown leaving.old.items n → IsKnown leaving.new.items n) }
{
    if is_known(leaving, number) {
        return Ok(());
    }
    let front = Vec::from_slice(alloc, sets.get(number))?;
    let moves = moves_from(alloc, rows, marked, sets, front.as_slice())?;
    keep(alloc, leaving, number, moves)?;
    Ok(())
}

/// Whether the moves from a set are known.
fn is_known(leaving: &[Leaving], number: usize) -> bool
    ensures { IsTrue result → IsKnown leaving.now number }
{
    let count = leaving.len();
    if count <= number {
        return false;
    }
    leaving[number].is_known
}

/// Keeps the moves from a set.
fn keep(
    alloc: Global,
    leaving: &mut Vec<Leaving>,
    number: usize,
    moves: Vec<Move>,
) -> Result<(), AllocError>
    ensures own { OnOk result (slice_get leaving.new.items number ≡ Some (record { is_known = true; moves = moves })) }
    ensures others { OnOk result ((n : ℕ) (known : Leaving) → n ≢ number → known.is_known ≡ true → (slice_get leaving.new.items n ≡ Some known) ↔ (slice_get leaving.old.items n ≡ Some known)) }
{
    'unknown: while leaving.len() <= number {
        leaving.push(Leaving {
            is_known: false,
            moves: Vec::new(alloc),
        })?;
    }
    leaving[number] = Leaving {
        is_known: true,
        moves,
    };
    Ok(())
}

/// The moves from some nodes. The sets that they lead to are numbered.
fn moves_from(
    alloc: Global,
    rows: &EdgesByState<Byte>,
    marked: &mut NumberSet,
    sets: &mut ListTable,
    front: &[usize],
) -> Result<Vec<Move>, AllocError>
    requires { AreWithin rows.now marked.old.bound }
    ensures bound { OnOk result (marked.new.bound ≡ marked.old.bound) }
    ensures more { OnOk result (AreMore sets.old sets.new) }
    ensures moves { IfOk result (λ moves. AreMoves rows.now sets.new front.now moves.items) }
{
    let kept = edges_from(alloc, rows, front)?;
    let leaving = kept.as_slice();
    let mut moves = Vec::new(alloc);
    let mut floor = 0;
    'bytes: while let Some(byte) = least_on(leaving, floor) {
        let next = next_front(alloc, rows, marked, leaving, byte)?;
        let to = sets.number_of(alloc, &next)?;
        moves.push(Move { byte, to })?;
        floor = above(byte);
    }
    Ok(moves)
}

/// The floor above a byte.
fn above(byte: u8) -> usize
    ensures value { result ≡ byte + 1 }
    ensures within { result ≤ 256 }
{
    usize::from(byte) + 1
}

/// The least byte, from a floor on, of the moves.
fn least_move(moves: &[Move], floor: usize) -> Option<u8>
    requires { AreInOrder moves.now }
    ensures { IsLeast (λ byte. (floor ≤ byte) × HasMove moves.now byte) result }
{
    for other in moves {
        if floor <= usize::from(other.byte) {
            return Some(other.byte);
        }
    }
    None
}

/// The number of the set that the move with a byte leads to.
fn set_along(moves: &[Move], byte: u8) -> usize
    requires { HasMove moves.now byte }
    ensures { (m : Move) × Contains moves.now m × (m.byte ≡ byte) × (m.to ≡ result) }
{
    for other in moves {
        if other.byte == byte {
            return other.to;
        }
    }
    unreachable!()
}

/// Whether a node is among these.
fn has(nodes: &[usize], node: usize) -> bool
    ensures { IsTrue result ↔ Contains nodes.now node }
{
    for other in nodes {
        if *other == node {
            return true;
        }
    }
    false
}

/// The least byte, from a floor on, on the edges.
fn least_on(edges: &[Edge<Byte>], floor: usize) -> Option<u8>
    ensures { IsLeast (λ byte. (floor ≤ byte) × HasByte edges.now byte) result }
{
    let mut least = None;
    'edges: for edge in edges {
        least = lesser(least, byte_of(edge, floor));
    }
    least
}

/// The byte on an edge, if it isn't below the floor.
fn byte_of(edge: &Edge<Byte>, floor: usize) -> Option<u8>
    ensures { IsLeast (λ byte. (floor ≤ byte) × (edge.now.letter ≡ Some (record { 0 = byte }))) result }
{
    match edge.letter {
        Some(Byte(byte)) if floor <= usize::from(byte) => Some(byte),
        _ => None,
    }
}

/// The lesser of two bytes, where both are there.
fn lesser(a: Option<u8>, b: Option<u8>) -> Option<u8>
    ensures { IsLesser a b result }
{
    match (a, b) {
        (Some(x), Some(y)) => Some(x.min(y)),
        (None, other) | (other, None) => other,
    }
}
