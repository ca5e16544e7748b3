ghost use Rattle.std.specs.Prelude.{◌≡◌, ◌<◌, ◌↔◌, ◌-◌, ◌^◌, ℕ, List, [], ◌∷◌, Option, Some, None, true, Contains, IfOk, IfSome, OnOk, IsTrue, length, slice_get, replicate};
ghost use Rattle.fsa.specs.declared.automaton.Edge.{Edge};
ghost use Rattle.flag_diacritics.specs.declared.tape.Tape.{Tape};
ghost use Rattle.flag_diacritics.specs.declared.setting.Setting.{Setting};
ghost use Rattle.flag_diacritics.specs.declared.setting.Setting.TheVariants as settings;
ghost use Rattle.flag_diacritics.specs.Numbers.{Features, Keeps, IsNumbered, behind_if};
ghost use Rattle.flag_diacritics.specs.Idle.{behind_edge, live_behind, masked};
ghost use Rattle.flag_diacritics.specs.Search.{Names, Shows, IsPlaceBehind, AddsEdges, IsResolved, letter_for};

use crate::actions::{Action, Actions, behind_action};
use crate::idle::{Idle, masked, row_at};
use crate::setting::Setting;
use crate::tables::{FeatureTable, Place, PlaceTable};
use crate::tape::Tape;
use fsa::{Edge, Fsa};
use fsa_explore::EdgesByState;
use fsm_base::Pair;
use std::alloc::{AllocError, Global};

/// The places that were found, and the edges from those that were looked at.
#[derive(Debug, Drop)]
struct Found {
    /// The places, which are the states of the result.
    places: PlaceTable,
    /// What the features are at these places.
    features: FeatureTable,
    /// The edges from the places that were looked at.
    edges: Vec<Edge<Pair>>,
}

/// The edges of an automaton, and which of its states are final.
#[derive(Debug, Drop)]
pub struct Explored {
    /// The edges, in the order in which they were found.
    pub edges: Vec<Edge<Pair>>,
    /// Whether each state is final.
    pub finals: Vec<bool>,
}

/// The automaton of the places that edges whose flags pass lead to, from the start with all features neutral. A place
/// is final where its state is. None where that takes more than so many steps, of which each place and each edge is one.
pub fn explore(
    alloc: Global,
    net: &Fsa<Tape>,
    actions: &Actions,
    idle: &Idle,
    steps: usize,
) -> Result<Option<Explored>, AllocError>
    ensures whole { IfOk result (λ found. found ≡ None → steps < 2 ^ 64 - 1) }
    ensures found { IfOk result (λ found. IfSome found (λ built. (names : Names) × IsResolved (live_behind actions.now.list.items idle.now) net.now (record { upper = replicate actions.now.features settings.Neutral; lower = replicate actions.now.features settings.Neutral }) names built.edges.items built.finals.items)) }
{
    let rows = EdgesByState::of(alloc, net.edges())?;
    let mut found = start(alloc, actions.features)?;
    let mut finals = Vec::new(alloc);
    'places: while finals.len() < found.places.len() {
        let number = finals.len();
        if found.edges.len().saturating_add(number) > steps {
            return Ok(None);
        }
        let place = found.places.get(number);
        finals.push(is_final(net.finals(), place.state))?;
        add_edges(
            alloc,
            &mut found,
            &actions.list,
            idle,
            number,
            place,
            rows.out(place.state),
        )?;
    }
    Ok(Some(Explored {
        edges: found.edges,
        finals,
    }))
}

/// The place of the start alone.
fn start(alloc: Global, features: usize) -> Result<Found, AllocError>
    ensures places { IfOk result (λ found. found.places ≡ record { state = 0; upper = 0; lower = 0 } ∷ []) }
    ensures features { IfOk result (λ found. found.features ≡ replicate features settings.Neutral ∷ []) }
    ensures edges { IfOk result (λ found. found.edges.items ≡ []) }
{
    let mut lists = FeatureTable::new(alloc);
    lists.number_of(vec![in alloc; Setting::Neutral; features]?)?;
    let mut places = PlaceTable::new(alloc);
    places.number_of(Place {
        state: 0,
        upper: 0,
        lower: 0,
    })?;
    Ok(Found {
        places,
        features: lists,
        edges: Vec::new(alloc),
    })
}

/// Whether the state is there and final.
fn is_final(finals: &[bool], state: usize) -> bool
    ensures { IsTrue result ↔ (slice_get finals.now state ≡ Some true) }
{
    state < finals.len() && finals[state]
}

/// Adds an edge from the place with the number for each edge of the network whose flag passes there.
fn add_edges(
    alloc: Global,
    found: &mut Found,
    actions: &[Action],
    idle: &Idle,
    number: usize,
    place: Place,
    edges: &[Edge<Tape>],
) -> Result<(), AllocError>
    requires upper { place.upper < length found.old.features }
    requires lower { place.lower < length found.old.features }
    ensures { OnOk result ((now : Features) → Shows found.old.features place now → AddsEdges (live_behind actions.now idle.now) number now (Contains edges.now) (record { places = found.old.places; features = found.old.features }) found.old.edges.items (record { places = found.new.places; features = found.new.features }) found.new.edges.items) }
{
    for edge in edges {
        add_edge(alloc, found, actions, idle, number, place, edge)?;
    }
    Ok(())
}

/// Adds an edge from the place with the number for an edge of the network, if its flag passes there.
fn add_edge(
    alloc: Global,
    found: &mut Found,
    actions: &[Action],
    idle: &Idle,
    number: usize,
    place: Place,
    edge: &Edge<Tape>,
) -> Result<(), AllocError>
    requires upper { place.upper < length found.old.features }
    requires lower { place.lower < length found.old.features }
    ensures { OnOk result ((now : Features) → Shows found.old.features place now → AddsEdges (live_behind actions.now idle.now) number now (λ e. e ≡ edge.now) (record { places = found.old.places; features = found.old.features }) found.old.edges.items (record { places = found.new.places; features = found.new.features }) found.new.edges.items) }
{
    let Some(next) = live_place(alloc, &mut found.features, actions, idle, place, edge)? else {
        return Ok(());
    };
    let to = found.places.number_of(next)?;
    found.edges.push(Edge {
        from: number,
        letter: letter_for(edge.letter),
        to,
    })?;
    Ok(())
}

/// The place that an edge leads to, with its idle features neutral, or None where its flag doesn't pass.
fn live_place(
    alloc: Global,
    features: &mut FeatureTable,
    actions: &[Action],
    idle: &Idle,
    place: Place,
    edge: &Edge<Tape>,
) -> Result<Option<Place>, AllocError>
    requires upper { place.upper < length features.old }
    requires lower { place.lower < length features.old }
    ensures kept { OnOk result (Keeps features.old features.new) }
    ensures place { IfOk result (λ next. (now : Features) → Shows features.old place now → IsPlaceBehind (live_behind actions.now idle.now) features.new edge.now now next) }
{
    let Some(next) = place_behind(alloc, features, actions, place, edge)? else {
        return Ok(None);
    };
    let upper = masked_number(alloc, features, row_at(&idle.upper, edge.to), next.upper)?;
    let lower = masked_number(alloc, features, row_at(&idle.lower, edge.to), next.lower)?;
    Ok(Some(Place {
        state: next.state,
        upper,
        lower,
    }))
}

/// The number of what the features with a number are, the idle ones being made neutral.
fn masked_number(
    alloc: Global,
    features: &mut FeatureTable,
    row: u64,
    number: usize,
) -> Result<usize, AllocError>
    ensures kept { OnOk result (Keeps features.old features.new) }
    ensures masked { IfOk result (λ k. (now : List Setting) → slice_get features.old number ≡ Some now → slice_get features.new k ≡ Some (masked row now)) }
{
    if features.is_masked(row, number) || number >= features.len() {
        return Ok(number);
    }
    let list = masked(alloc, row, features.get(number))?;
    features.number_of(list)
}

/// The place that an edge leads to, or None where its flag doesn't pass.
fn place_behind(
    alloc: Global,
    features: &mut FeatureTable,
    actions: &[Action],
    place: Place,
    edge: &Edge<Tape>,
) -> Result<Option<Place>, AllocError>
    requires upper { place.upper < length features.old }
    requires lower { place.lower < length features.old }
    ensures kept { OnOk result (Keeps features.old features.new) }
    ensures place { IfOk result (λ next. (now : Features) → Shows features.old place now → IsPlaceBehind (behind_edge actions.now) features.new edge.now now next) }
{
    let (upper, lower) = (place.upper, place.lower);
    let state = edge.to;
    let Some(letter) = edge.letter else {
        return Ok(Some(Place {
            state,
            upper,
            lower,
        }));
    };
    match letter {
        Tape::UpFlag(flag) => match number_behind(alloc, features, actions, upper, flag)? {
            Some(upper) => Ok(Some(Place {
                state,
                upper,
                lower,
            })),
            None => Ok(None),
        },
        Tape::LowFlag(flag) => match number_behind(alloc, features, actions, lower, flag)? {
            Some(lower) => Ok(Some(Place {
                state,
                upper,
                lower,
            })),
            None => Ok(None),
        },
        Tape::Pair(_) => Ok(Some(Place {
            state,
            upper,
            lower,
        })),
    }
}

/// The number of what the features are behind a flag, or None where it doesn't pass. A flag that isn't there changes
/// nothing.
fn number_behind(
    alloc: Global,
    features: &mut FeatureTable,
    actions: &[Action],
    number: usize,
    flag: u32,
) -> Result<Option<usize>, AllocError>
    requires { number < length features.old }
    ensures kept { OnOk result (Keeps features.old features.new) }
    ensures behind { IfOk result (λ k. (now : List Setting) → slice_get features.old number ≡ Some now → IsNumbered features.new k (behind_if now (slice_get actions.now flag))) }
{
    if flag as usize >= actions.len() {
        return Ok(Some(number));
    }
    let action = actions[flag as usize];
    match behind_action(alloc, features.get(number), &action)? {
        Some(behind) => Ok(Some(features.number_of(behind)?)),
        None => Ok(None),
    }
}

/// The letter of the result for one of the network: its pair. A flag is epsilon.
fn letter_for(letter: Option<Tape>) -> Option<Pair>
    ensures { result ≡ letter_for letter }
{
    match letter {
        Some(Tape::Pair(pair)) => Some(pair),
        _ => None,
    }
}
