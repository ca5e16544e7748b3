ghost use Rattle.std.specs.Prelude.{◌≡◌, ◌+◌, ◌≤◌, ◌-◌, ◌↔◌, true, false, None, Some, Contains, IfOk, IfSome, length, take, drop};
ghost use Rattle.std.specs.Bool.{OnTrue};
ghost use Rattle.std.specs.List.{AllWithin};
ghost use Rattle.std.specs.Ordering.{is_lt};
ghost use Rattle.lookup_walk.specs.declared.moves.Move.{Move};
ghost use Rattle.lookup_walk.specs.Moves.{AreMoves};
ghost use Rattle.lookup_walk.specs.Sorted.{AreRows, AreSorted, IsFirstFrom, IsOnly, IsRow, spot_cmp};

use crate::moves::{Move, Spot, take};
use crate::sorting::sort_moves;
use fsa::Edge;
use fsm_base::{Pair, Sym};
use lookup_answers::Direction;
use std::alloc::{AllocError, Global};
use std::marker::Model;

/// The symbol that no other one comes before.
const LEAST: Sym = Sym(0);

/// Where the moves of a state stand among sorted ones.
#[derive(Clone, Copy, Debug)]
pub(crate) struct Row {
    /// The first of those that read nothing.
    pub(crate) first: usize,
    /// The first of those that read a symbol.
    pub(crate) reads: usize,
    /// The first behind them.
    pub(crate) end: usize,
}

/// The moves of a network in one direction, found again by the state that they leave and the symbol that they read.
/// Contracts see the list of the moves.
#[derive(Debug, Drop)]
pub struct Table {
    /// The moves, sorted.
    moves: Vec<Move>,
    /// The row of each state, by its number.
    rows: Vec<Row>,
}

impl Model for Table {
    ghost use Rattle.std.specs.Prelude.{List};
    ghost use Rattle.lookup_walk.specs.declared.moves.Move.{Move};
    ghost use Rattle.lookup_walk.specs.Sorted.{AreRows, AreSorted};

    ghost Value = { List Move };

    ghost view = { λ table. table.moves.items };

    ghost invariant = { λ table. AreSorted table.moves.items × AreRows table.moves.items table.rows.items };
}

impl Table {
    /// The moves along these edges of an automaton of so many states.
    pub(crate) fn of(
        alloc: Global,
        direction: Direction,
        edges: &[Edge<Pair>],
        states: usize,
    ) -> Result<Table, AllocError>
        ensures { IfOk result (λ table. AreMoves direction edges.now table) }
    {
        let moves = sorted_along(alloc, direction, edges)?;
        let rows = rows_of(alloc, &moves, states)?;
        Ok(Table { moves, rows })
    }

    /// The moves at a spot.
    pub fn out(&self, spot: Spot) -> &[Move]
        ensures { (m : Move) → Contains result.now m ↔ (Contains self.now m × (m.at ≡ spot)) }
    {
        match spot.read {
            Some(symbol) => self.reading(spot.state, symbol),
            None => self.epsilon(spot.state),
        }
    }

    /// The moves of a state that read nothing. They stand together, and are found without a search.
    pub fn epsilon(&self, state: usize) -> &[Move]
        ensures { (m : Move) → Contains result.now m ↔ (Contains self.now m × (m.at ≡ record { state = state; read = None })) }
    {
        epsilon_in(self.moves.as_slice(), self.rows.as_slice(), state)
    }

    /// The moves of a state that read a symbol, found by halving among those of the state that read one.
    pub fn reading(&self, state: usize, symbol: Sym) -> &[Move]
        ensures { (m : Move) → Contains result.now m ↔ (Contains self.now m × (m.at ≡ record { state = state; read = Some symbol })) }
    {
        reading_in(self.moves.as_slice(), self.rows.as_slice(), state, symbol)
    }

    /// The move of a state that reads a symbol, where no other one reads it and none reads nothing.
    pub fn only(&self, state: usize, symbol: Sym) -> Option<Move>
        ensures { IfSome result (λ only. IsOnly self.now state symbol only) }
    {
        only_in(self.moves.as_slice(), self.rows.as_slice(), state, symbol)
    }
}

/// The move of a state that reads a symbol, where it is the only one and none reads nothing, among sorted moves with the
/// rows of the first states.
fn only_in(moves: &[Move], rows: &[Row], state: usize, symbol: Sym) -> Option<Move>
    requires sorted { AreSorted moves.now }
    requires rows { AreRows moves.now rows.now }
    ensures { IfSome result (λ only. IsOnly moves.now state symbol only) }
{
    if rows.len() <= state {
        return None;
    }
    let row = rows[state];
    if row.first < row.reads {
        return None;
    }
    let read = Some(symbol);
    only_at(part(moves, row.reads, row.end), Spot { state, read })
}

/// The move at a spot among sorted ones, where it is the only one there.
fn only_at(moves: &[Move], spot: Spot) -> Option<Move>
    requires { AreSorted moves.now }
    ensures { IfSome result (λ only. (m : Move) → (Contains moves.now m × (m.at ≡ spot)) ↔ (m ≡ only)) }
{
    let rest = &moves[moves.partition_point(|m| m.at.cmp(&spot).is_lt())..];
    let Some((first, others)) = rest.split_first() else {
        return None;
    };
    if first.at != spot {
        return None;
    }
    let Some(next) = others.first() else {
        return Some(*first);
    };
    if next.at == spot {
        return None;
    }
    Some(*first)
}

/// The moves of a state that read nothing, among sorted ones with the rows of the first states.
fn epsilon_in<'a>(moves: &'a [Move], rows: &[Row], state: usize) -> &'a [Move]
    requires sorted { AreSorted moves.now }
    requires rows { AreRows moves.now rows.now }
    ensures { (m : Move) → Contains result.now m ↔ (Contains moves.now m × (m.at ≡ record { state = state; read = None })) }
{
    if state < rows.len() {
        let row = rows[state];
        return part(moves, row.first, row.reads);
    }
    moves_at(moves, Spot { state, read: None })
}

/// The moves of a state that read a symbol, among sorted ones with the rows of the first states.
fn reading_in<'a>(moves: &'a [Move], rows: &[Row], state: usize, symbol: Sym) -> &'a [Move]
    requires sorted { AreSorted moves.now }
    requires rows { AreRows moves.now rows.now }
    ensures { (m : Move) → Contains result.now m ↔ (Contains moves.now m × (m.at ≡ record { state = state; read = Some symbol })) }
{
    let spot = Spot {
        state,
        read: Some(symbol),
    };
    if state < rows.len() {
        let row = rows[state];
        return moves_at(part(moves, row.reads, row.end), spot);
    }
    moves_at(moves, spot)
}

/// The moves from one place up to another.
fn part(moves: &[Move], from: usize, to: usize) -> &[Move]
    requires order { from ≤ to }
    requires within { to ≤ length moves.now }
    ensures { result.now ≡ take (to - from) (drop from moves.now) }
{
    &moves[from..to]
}

/// The moves at a spot among sorted ones, found by halving.
fn moves_at(moves: &[Move], spot: Spot) -> &[Move]
    requires { AreSorted moves.now }
    ensures { (m : Move) → Contains result.now m ↔ (Contains moves.now m × (m.at ≡ spot)) }
{
    let rest = &moves[moves.partition_point(|m| m.at.cmp(&spot).is_lt())..];
    &rest[..rest.partition_point(|m| m.at.cmp(&spot).is_le())]
}

/// The rows of the first states, so many, among sorted moves. Each is looked for from the end of the one before it.
fn rows_of(alloc: Global, moves: &[Move], states: usize) -> Result<Vec<Row>, AllocError>
    requires { AreSorted moves.now }
    ensures { IfOk result (λ rows. AreRows moves.now rows.items) }
{
    let mut rows = Vec::with_capacity(alloc, states)?;
    let mut near = 0;
    'states: for state in 0..states {
        let row = row_of(moves, state, near);
        near = row.end;
        rows.push(row)?;
    }
    Ok(rows)
}

/// The row of a state among sorted moves, looked for from a place on.
fn row_of(moves: &[Move], state: usize, near: usize) -> Row
    requires { AreSorted moves.now }
    ensures { IsRow moves.now state result }
{
    let epsilon = Spot { state, read: None };
    let reading = Spot {
        state,
        read: Some(LEAST),
    };
    let first = first_from(moves, epsilon, near);
    let reads = first_from(moves, reading, first);
    let end = first_behind(moves, state, reads);
    Row { first, reads, end }
}

/// How many of sorted moves leave this state or one before it, looked for from a place on.
fn first_behind(moves: &[Move], state: usize, near: usize) -> usize
    requires { AreSorted moves.now }
    ensures { IsFirstFrom (record { state = state + 1; read = None }) moves.now result }
{
    let Some(next) = state.checked_add(1) else {
        return moves.partition_point(|m| m.at.state <= state);
    };
    let epsilon = Spot {
        state: next,
        read: None,
    };
    first_from(moves, epsilon, near)
}

/// How many of sorted moves stand before a spot. They are counted on from a place, and found by halving where that isn't right.
fn first_from(moves: &[Move], spot: Spot, near: usize) -> usize
    requires { AreSorted moves.now }
    ensures { IsFirstFrom spot moves.now result }
{
    let place = counted_on(moves, spot, near);
    if is_first_from(moves, spot, place) {
        return place;
    }
    moves.partition_point(|m| m.at.cmp(&spot).is_lt())
}

/// The first place from this one on where no move stands before a spot.
fn counted_on(moves: &[Move], spot: Spot, near: usize) -> usize {
    let Some(rest) = moves.get(near..) else {
        return near;
    };
    let before = rest.iter().position(|m| m.at.cmp(&spot).is_ge());
    near.saturating_add(before.unwrap_or(rest.len()))
}

/// Whether so many of sorted moves stand before a spot, and the others don't.
fn is_first_from(moves: &[Move], spot: Spot, place: usize) -> bool
    requires { AreSorted moves.now }
    ensures { OnTrue result (IsFirstFrom spot moves.now place) }
{
    place <= moves.len() && stand_before(moves, spot, place) && stand_from(moves, spot, place)
}

/// Whether the sorted moves in front of a place stand before a spot.
fn stand_before(moves: &[Move], spot: Spot, place: usize) -> bool
    requires sorted { AreSorted moves.now }
    requires within { place ≤ length moves.now }
    ensures { OnTrue result (AllWithin (λ m. is_lt (spot_cmp m.at spot) ≡ true) moves.now 0 place) }
{
    match place.checked_sub(1) {
        Some(last) => moves[last].at.cmp(&spot).is_lt(),
        None => true,
    }
}

/// Whether none of the sorted moves from a place on stands before a spot.
fn stand_from(moves: &[Move], spot: Spot, place: usize) -> bool
    requires { AreSorted moves.now }
    ensures { OnTrue result (AllWithin (λ m. is_lt (spot_cmp m.at spot) ≡ false) moves.now place (length moves.now)) }
{
    place >= moves.len() || moves[place].at.cmp(&spot).is_ge()
}

/// The moves along these edges, sorted where they aren't already.
fn sorted_along(
    alloc: Global,
    direction: Direction,
    edges: &[Edge<Pair>],
) -> Result<Vec<Move>, AllocError>
    ensures moves { IfOk result (λ moves. AreMoves direction edges.now moves.items) }
    ensures sorted { IfOk result (λ moves. AreSorted moves.items) }
{
    let mut moves = moves_along(alloc, direction, edges)?;
    if !moves.is_sorted_by_key(|m| m.at) {
        sort_moves(&mut moves);
    }
    Ok(moves)
}

/// The moves along these edges, in their order.
fn moves_along(
    alloc: Global,
    direction: Direction,
    edges: &[Edge<Pair>],
) -> Result<Vec<Move>, AllocError>
    ensures { IfOk result (λ moves. AreMoves direction edges.now moves.items) }
{
    let mut moves = Vec::with_capacity(alloc, edges.len())?;
    for edge in edges {
        moves.push(take(direction, *edge))?;
    }
    Ok(moves)
}
