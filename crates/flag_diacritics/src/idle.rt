ghost use Rattle.std.specs.Prelude.{◌≡◌, ◌<◌, ◌⊎◌, ℕ, false, true, IfOk, IsTrue, cond, slice_get, slice_index_or};
ghost use Rattle.std.specs.Int.{bit_at};
ghost use Rattle.flag_diacritics.specs.Idle.{AreIdle, HasSettled, IsIdleAlong, KeepsIdle, Sets, TestsNone, does_set, does_test, is_idle, lower_action, masked, upper_action};
ghost use Rattle.flag_diacritics.specs.declared.setting.Setting.TheVariants as settings;

use crate::actions::{Action, Actions};
use crate::setting::Setting;
use crate::tape::Tape;
use fsa::{Edge, Fsa};
use fsa_explore::EdgesByState;
use regex_ast::FlagKind;
use std::alloc::{AllocError, Global};

/// Which features are idle at each state, as bits by their numbers: each flag that tests one comes behind a flag that sets
/// it. A feature that has no bit is not idle, and neither is any at a state that has no row.
#[derive(Debug, Drop)]
pub struct Idle {
    /// A row for each state, for the flags of the upper side.
    pub upper: Vec<u64>,
    /// A row for each state, for those of the lower side.
    pub lower: Vec<u64>,
}

/// So many features have a bit. Those past them are counted as live everywhere.
const MASKED: usize = 64;

/// The features of each side that are live at a state, those that are not idle, as bits.
#[derive(Clone, Copy, Debug, Default)]
struct Live {
    upper: u64,
    lower: u64,
    /// Whether the state is listed, as one from which features are still to be followed back.
    is_listed: bool,
}

/// The features that are idle at each state of a network. They are sought from the flags that test them back over the edges,
/// and counted as none where the rows don't agree along each edge.
pub fn idle_features(alloc: Global, net: &Fsa<Tape>, actions: &Actions) -> Result<Idle, AllocError>
    ensures { IfOk result (λ idle. AreIdle actions.now.list.items idle net.now.edges) }
{
    let found = sought(alloc, net, actions)?;
    if are_idle(net.edges(), &actions.list, &found) {
        return Ok(found);
    }
    Ok(Idle {
        upper: Vec::new(alloc),
        lower: Vec::new(alloc),
    })
}

/// The features that no path from a state tests before it sets them.
fn sought(alloc: Global, net: &Fsa<Tape>, actions: &Actions) -> Result<Idle, AllocError> {
    let live = live_features(alloc, net, &actions.list)?;
    let upper = live.iter().map(|state| !state.upper).collect(alloc)?;
    let lower = live.iter().map(|state| !state.lower).collect(alloc)?;
    Ok(Idle { upper, lower })
}

/// The features that are live at each state: those that are tested there, followed back over the edges to where they are set.
fn live_features(
    alloc: Global,
    net: &Fsa<Tape>,
    actions: &[Action],
) -> Result<Vec<Live>, AllocError> {
    let states = net.states();
    let mut live = vec![in alloc; Live::default(); states]?;
    let mut grown = Vec::new(alloc);
    for edge in net.edges() {
        let (upper, lower) = actions_at(actions, edge.letter);
        wake(
            &mut live,
            &mut grown,
            edge.from,
            tested_by(upper),
            tested_by(lower),
        )?;
    }
    if grown.is_empty() {
        return Ok(live);
    }
    let back = backwards(alloc, net.edges())?;
    // Each round but the last adds a bit to one of the states.
    let most = states.saturating_mul(2 * MASKED);
    for _round in 0..most {
        if grown.is_empty() {
            break;
        }
        grown = followed_back(alloc, &back, actions, &mut live, &grown)?;
    }
    Ok(live)
}

/// Follows the live features of these states back over one edge, and gives the states that got new ones.
fn followed_back(
    alloc: Global,
    back: &EdgesByState<Tape>,
    actions: &[Action],
    live: &mut [Live],
    states: &[usize],
) -> Result<Vec<usize>, AllocError> {
    let mut grown = Vec::new(alloc);
    for state in states {
        let now = taken(live, *state);
        for edge in back.out(*state) {
            let (upper, lower) = actions_at(actions, edge.letter);
            wake(
                live,
                &mut grown,
                edge.to,
                now.upper & !set_by(upper),
                now.lower & !set_by(lower),
            )?;
        }
    }
    Ok(grown)
}

/// What is live at a state, which is listed no more.
fn taken(live: &mut [Live], state: usize) -> Live {
    match live.get_mut(state) {
        Some(now) => {
            now.is_listed = false;
            *now
        }
        None => Live::default(),
    }
}

/// Adds features to those that are live at a state, and lists it where one of them is new.
fn wake(
    live: &mut [Live],
    grown: &mut Vec<usize>,
    state: usize,
    upper: u64,
    lower: u64,
) -> Result<(), AllocError> {
    let Some(now) = live.get_mut(state) else {
        return Ok(());
    };
    if upper & !now.upper == 0 && lower & !now.lower == 0 {
        return Ok(());
    }
    now.upper |= upper;
    now.lower |= lower;
    if now.is_listed {
        return Ok(());
    }
    now.is_listed = true;
    grown.push(state)?;
    Ok(())
}

/// The bit of the feature that a flag tests.
fn tested_by(action: Option<Action>) -> u64 {
    match action {
        Some(action) if does_test(action.kind) => bit_of(action.feature),
        _ => 0,
    }
}

/// The bit of the feature that a flag sets whatever it was.
fn set_by(action: Option<Action>) -> u64
    ensures { (feature : ℕ) → is_idle result feature ≡ true → Sets action feature }
{
    match action {
        Some(action) if does_set(action.kind) => bit_of(action.feature),
        _ => 0,
    }
}

/// The bit of a feature, if it has one.
fn bit_of(feature: usize) -> u64
    ensures alone { (other : ℕ) → is_idle result other ≡ true → feature ≡ other }
    ensures there { feature < 64 → bit_at result feature ≡ 1 }
{
    if feature < MASKED { 1 << feature } else { 0 }
}

/// The edges, each turned round.
fn backwards(alloc: Global, edges: &[Edge<Tape>]) -> Result<EdgesByState<Tape>, AllocError> {
    let mut turned = Vec::with_capacity(alloc, edges.len())?;
    for edge in edges {
        turned.push(Edge {
            from: edge.to,
            letter: edge.letter,
            to: edge.from,
        })?;
    }
    EdgesByState::of(alloc, &turned)
}

/// Whether the rows agree along each edge.
fn are_idle(edges: &[Edge<Tape>], actions: &[Action], idle: &Idle) -> bool
    ensures { IsTrue result → AreIdle actions.now idle.now edges.now }
{
    'edges: for edge in edges {
        if !is_idle_along(edge, actions, idle) {
            return false;
        }
    }
    true
}

/// Whether the rows agree along an edge.
fn is_idle_along(edge: &Edge<Tape>, actions: &[Action], idle: &Idle) -> bool
    ensures { IsTrue result → IsIdleAlong actions.now idle.now edge.now }
{
    let (upper, lower) = actions_at(actions, edge.letter);
    keeps_idle(
        upper,
        row_at(&idle.upper, edge.from),
        row_at(&idle.upper, edge.to),
    ) && keeps_idle(
        lower,
        row_at(&idle.lower, edge.from),
        row_at(&idle.lower, edge.to),
    )
}

/// The flags of a letter on the upper and on the lower side, if it has one.
fn actions_at(actions: &[Action], letter: Option<Tape>) -> (Option<Action>, Option<Action>)
    ensures upper { result.0 ≡ upper_action actions.now letter }
    ensures lower { result.1 ≡ lower_action actions.now letter }
{
    match letter {
        Some(Tape::UpFlag(flag)) => (action_at(actions, flag), None),
        Some(Tape::LowFlag(flag)) => (None, action_at(actions, flag)),
        _ => (None, None),
    }
}

/// The flag with a number, if it is there.
fn action_at(actions: &[Action], flag: u32) -> Option<Action>
    ensures { result ≡ slice_get actions.now flag }
{
    actions.get(flag as usize).copied()
}

/// Whether a flag tests no idle feature, and what is idle before it is idle behind it or set by it.
fn keeps_idle(action: Option<Action>, before: u64, behind: u64) -> bool
    ensures { IsTrue result → KeepsIdle action before behind }
{
    !tests_idle(action, before) && stays_idle(action, before, behind)
}

/// Whether a flag tests an idle feature.
fn tests_idle(action: Option<Action>, before: u64) -> bool
    ensures { result ≡ false → TestsNone before action }
{
    match action {
        Some(action) => does_test(action.kind) && is_idle(before, action.feature),
        None => false,
    }
}

/// Whether each feature that is idle before a flag is idle behind it or set by it.
fn stays_idle(action: Option<Action>, before: u64, behind: u64) -> bool
    ensures { IsTrue result → (feature : ℕ) → is_idle before feature ≡ true → (is_idle behind feature ≡ true) ⊎ Sets action feature }
{
    before & !(behind | set_by(action)) == 0
}

/// Whether a kind of flag asks what its feature is.
fn does_test(kind: FlagKind) -> bool
    ensures { result ≡ does_test kind }
{
    match kind {
        FlagKind::P | FlagKind::N | FlagKind::C => false,
        FlagKind::R | FlagKind::D | FlagKind::U => true,
    }
}

/// Whether a kind of flag sets its feature whatever it was.
fn does_set(kind: FlagKind) -> bool
    ensures { result ≡ does_set kind }
{
    match kind {
        FlagKind::P | FlagKind::N | FlagKind::C | FlagKind::U => true,
        FlagKind::R | FlagKind::D => false,
    }
}

/// Whether a feature is idle by a row.
fn is_idle(row: u64, feature: usize) -> bool
    ensures { result ≡ is_idle row feature }
{
    feature < MASKED && row >> feature & 1 == 1
}

/// The row of a state; a state that has none has no idle features.
pub fn row_at(rows: &[u64], state: usize) -> u64
    ensures { result ≡ slice_index_or rows.now state 0 }
{
    if state < rows.len() { rows[state] } else { 0 }
}

/// What features are, the idle ones being made neutral.
pub fn masked(alloc: Global, row: u64, now: &[Setting]) -> Result<Vec<Setting>, AllocError>
    ensures { IfOk result (λ list. list.items ≡ masked row now.now) }
{
    now.iter()
        .enumerate()
        .map(|(feature, setting)| setting_if(is_idle(row, feature), *setting))
        .collect(alloc)
}

/// The features that aren't neutral, as bits.
pub fn settled(now: &[Setting]) -> u64
    ensures { HasSettled result now.now }
{
    let mut bits = 0;
    'features: for feature in 0..now.len() {
        bits = with_settled(bits, feature, now[feature]);
    }
    bits
}

/// These bits, with the one of a feature where it isn't neutral.
fn with_settled(bits: u64, feature: usize, setting: Setting) -> u64
    ensures kept { (other : ℕ) → bit_at result other ≡ 0 → bit_at bits other ≡ 0 }
    ensures added { feature < 64 → bit_at result feature ≡ 0 → setting ≡ settings.Neutral }
{
    match setting {
        Setting::Neutral => bits,
        Setting::Has(_) | Setting::Barred(_) => bits | bit_of(feature),
    }
}

/// What a feature is, or neutral where it is idle.
fn setting_if(is_idle: bool, setting: Setting) -> Setting
    ensures { result ≡ cond is_idle settings.Neutral setting }
{
    if is_idle { Setting::Neutral } else { setting }
}
