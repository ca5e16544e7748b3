ghost use Rattle.std.specs.Prelude.{◌≡◌, ◌↔◌, Some, IfOk, IfSome, IsTrue, length, slice_get};
ghost use Rattle.fsa_reduce.specs.Orders.{IsOrder, LeadOn, StandThere};

use fsa::Edge;
use fsa_explore::EdgesByState;
use std::alloc::{AllocError, Global};

/// A step of a walk in depth.
#[derive(Clone, Copy, Debug)]
enum Visit {
    /// A state is entered, if it wasn't before.
    Enter(usize),
    /// A state is left, behind all that it leads to.
    Leave(usize),
}

/// Whether each edge leads to a later state, so that there is no loop.
pub fn lead_on<L>(edges: &[Edge<L>]) -> bool
    ensures { IsTrue result ↔ LeadOn edges.now }
{
    for edge in edges {
        if edge.from >= edge.to {
            return false;
        }
    }
    true
}

/// A place for each of so many states, so that edges lead to later places but for those that close a loop, or come from states that
/// the start doesn't lead to. Takes time in proportion to the edges and states.
pub fn places_in_depth(
    alloc: Global,
    count: usize,
    edges: &[Edge<usize>],
) -> Result<Option<Vec<usize>>, AllocError>
    ensures { IfOk result (λ found. IfSome found (λ places. IsOrder count places.items)) }
{
    let states = states_in_depth(alloc, count, edges)?;
    let places = places_of(alloc, count, &states)?;
    if states.len() == count && are_places(&places, &states) {
        Ok(Some(places))
    } else {
        Ok(None)
    }
}

/// The states in the order in which a walk in depth leaves them, from the last one back, and then those that it doesn't come to.
fn states_in_depth(
    alloc: Global,
    count: usize,
    edges: &[Edge<usize>],
) -> Result<Vec<usize>, AllocError> {
    let rows = EdgesByState::of(alloc, edges)?;
    let mut entered = vec![in alloc; false; count]?;
    let mut states = Vec::with_capacity(alloc, count)?;
    let mut open = Vec::new(alloc);
    open.push(Visit::Enter(0))?;
    // An edge is followed once, and a state is left once.
    let most = edges.len().saturating_add(count).saturating_add(1);
    for _visit in 0..most {
        match open.pop() {
            Some(Visit::Enter(state)) => enter(&rows, state, &mut entered, &mut open)?,
            Some(Visit::Leave(state)) => states.push(state)?,
            None => break,
        }
    }
    states.reverse();
    for (state, was_entered) in entered.iter().enumerate() {
        if !*was_entered {
            states.push(state)?;
        }
    }
    Ok(states)
}

/// Enters a state, where that wasn't done: what its edges lead to is entered next, and then it is left.
fn enter(
    rows: &EdgesByState<usize>,
    state: usize,
    entered: &mut [bool],
    open: &mut Vec<Visit>,
) -> Result<(), AllocError> {
    let Some(was_entered) = entered.get_mut(state) else {
        return Ok(());
    };
    if *was_entered {
        return Ok(());
    }
    *was_entered = true;
    open.push(Visit::Leave(state))?;
    for edge in rows.out(state) {
        open.push(Visit::Enter(edge.to))?;
    }
    Ok(())
}

/// The place of each of so many states among these.
fn places_of(alloc: Global, count: usize, states: &[usize]) -> Result<Vec<usize>, AllocError> {
    let mut places = vec![in alloc; 0; count]?;
    for (place, state) in states.iter().enumerate() {
        if let Some(found) = places.get_mut(*state) {
            *found = place;
        }
    }
    Ok(places)
}

/// Whether each state stands at its place, and the start at the first one.
fn are_places(places: &[usize], states: &[usize]) -> bool
    ensures { IsTrue result ↔ ((length places.now ≡ length states.now) × (slice_get places.now 0 ≡ Some 0) × StandThere places.now states.now) }
{
    places.len() == states.len() && is_first(places) && stand_there(places, states)
}

/// Whether the start has the first place.
fn is_first(places: &[usize]) -> bool
    ensures { IsTrue result ↔ (slice_get places.now 0 ≡ Some 0) }
{
    match places.first() {
        Some(place) => *place == 0,
        None => false,
    }
}

/// Whether each state stands at its place.
fn stand_there(places: &[usize], states: &[usize]) -> bool
    ensures { IsTrue result ↔ StandThere places.now states.now }
{
    for (state, place) in places.iter().enumerate() {
        if !stands_at(states, *place, state) {
            return false;
        }
    }
    true
}

/// Whether a state stands at a place.
fn stands_at(states: &[usize], place: usize, state: usize) -> bool
    ensures { IsTrue result ↔ (slice_get states.now place ≡ Some state) }
{
    match states.get(place) {
        Some(found) => *found == state,
        None => false,
    }
}
