ghost use Rattle.std.specs.Prelude.{◌≡◌, ◌<◌, ◌-◌, ℕ, Some, All, IfOk, IfSome, OnOk, map, reverse, take, length, slice_get, slice_index};
ghost use Rattle.fsa_explore.specs.Targets.{AreWithin};
ghost use Rattle.fsa_reduce.specs.Numbering.{Keeps};
ghost use Rattle.fsa_reduce.specs.Classes.{AreAlike, AreClasses, renumbered};
ghost use Rattle.fsa_reduce.specs.Merging.{AreWithinBoth};
ghost use Rattle.fsa_reduce.specs.Orders.{IsOrder};

use crate::merging::{merged_finals, moved_edges};
use crate::order::{lead_on, places_in_depth};
use fsa::Edge;
use fsa_explore::{EdgesByState, ListTable, signature_of};
use std::alloc::{AllocError, Global};

/// Classes of states that go on alike.
#[derive(Drop)]
pub struct Classes {
    /// The class of each state.
    pub of_states: Vec<usize>,
    /// How many classes there are.
    pub count: usize,
}

/// Which states go on alike. The class of the start is 0. With `ends_first` a state that an edge enters counts by
/// its class where that was found already, and else by itself: then all common ends of an automaton without loops
/// become one, since a state is looked at behind those that its edges lead to. Without it each state counts by
/// itself, which finds a state that goes on like another into the same loop.
pub fn classes_of(
    alloc: Global,
    finals: &[bool],
    edges: &[Edge<usize>],
    ends_first: bool,
) -> Result<Classes, AllocError>
    requires start { 0 < length finals.now }
    requires within { AreWithinBoth edges.now (length finals.now) }
    ensures start { IfOk result (λ c. slice_get c.of_states.items 0 ≡ Some 0) }
    ensures alike { IfOk result (λ c. AreAlike finals.now edges.now c.of_states.items c.count) }
{
    if ends_first && !lead_on(edges) {
        if let Some(places) = places_in_depth(alloc, finals.len(), edges)? {
            return classes_by_place(alloc, finals, edges, &places);
        }
    }
    classes_from_end(alloc, finals, edges, ends_first)
}

/// The same, the states being looked at from the last place back.
fn classes_by_place(
    alloc: Global,
    finals: &[bool],
    edges: &[Edge<usize>],
    places: &[usize],
) -> Result<Classes, AllocError>
    requires start { 0 < length finals.now }
    requires within { AreWithinBoth edges.now (length finals.now) }
    requires order { IsOrder (length finals.now) places.now }
    ensures start { IfOk result (λ c. slice_get c.of_states.items 0 ≡ Some 0) }
    ensures alike { IfOk result (λ c. AreAlike finals.now edges.now c.of_states.items c.count) }
{
    let finals = merged_finals(alloc, finals, places, finals.len())?;
    let edges = moved_edges(alloc, edges, places)?;
    let found = classes_from_end(alloc, &finals, &edges, true)?;
    let of_states = classes_at(alloc, &found.of_states, places)?;
    Ok(Classes {
        of_states,
        count: found.count,
    })
}

/// The classes at places.
fn classes_at(alloc: Global, classes: &[usize], places: &[usize]) -> Result<Vec<usize>, AllocError>
    requires { All (λ place. place < length classes.now) places.now }
    ensures { IfOk result (λ v. v.items ≡ map (λ place. slice_index classes.now place) places.now) }
{
    places.iter().map(|place| classes[*place]).collect(alloc)
}

/// The same, the states being looked at from the last one back.
fn classes_from_end(
    alloc: Global,
    finals: &[bool],
    edges: &[Edge<usize>],
    ends_first: bool,
) -> Result<Classes, AllocError>
    requires start { 0 < length finals.now }
    requires within { AreWithin edges.now (length finals.now) }
    ensures start { IfOk result (λ c. slice_get c.of_states.items 0 ≡ Some 0) }
    ensures alike { IfOk result (λ c. AreAlike finals.now edges.now c.of_states.items c.count) }
{
    let found = classes_back(alloc, finals, &EdgesByState::of(alloc, edges)?, ends_first)?;
    let of_states = from_start(alloc, &found.of_states, found.count)?;
    Ok(Classes {
        of_states,
        count: found.count,
    })
}

/// Which states go on alike, the classes being those of the states from the last one back.
fn classes_back(
    alloc: Global,
    finals: &[bool],
    rows: &EdgesByState<usize>,
    ends_first: bool,
) -> Result<Classes, AllocError>
    requires { AreWithin rows.now (length finals.now) }
    ensures { IfOk result (λ c. AreClasses finals.now rows.now c.of_states.items c.count) }
{
    let mut signatures = ListTable::new(alloc);
    let mut classes = Vec::new(alloc);
    number_nowhere(alloc, &mut signatures)?;
    while classes.len() < finals.len() {
        let state = finals.len() - 1 - classes.len();
        let known = known_classes(&classes, ends_first);
        let signature = signature_of(alloc, finals[state], rows.out(state), known, finals.len())?;
        classes.push(number_of(&mut signatures, signature)?)?;
    }
    Ok(Classes {
        of_states: classes,
        count: signatures.len(),
    })
}

/// The fewest classes of states that go on alike, also in loops, or None where more than so many passes are needed to find them. All
/// states are one class at first, and each pass splits the classes by how their states go on into classes (Moore, Gedanken-experiments on
/// Sequential Machines, 1956). The class of the start is 0.
pub fn fewest_classes(
    alloc: Global,
    finals: &[bool],
    edges: &[Edge<usize>],
    passes: usize,
) -> Result<Option<Classes>, AllocError>
    requires start { 0 < length finals.now }
    requires within { AreWithinBoth edges.now (length finals.now) }
    ensures start { IfOk result (λ found. IfSome found (λ c. slice_get c.of_states.items 0 ≡ Some 0)) }
    ensures alike { IfOk result (λ found. IfSome found (λ c. AreAlike finals.now edges.now c.of_states.items c.count)) }
{
    let Some(found) = split(alloc, finals, &EdgesByState::of(alloc, edges)?, passes)? else {
        return Ok(None);
    };
    let of_states = from_start(alloc, &found.of_states, found.count)?;
    Ok(Some(Classes {
        of_states,
        count: found.count,
    }))
}

/// The classes that no pass splits, of the states from the last one back.
fn split(
    alloc: Global,
    finals: &[bool],
    rows: &EdgesByState<usize>,
    passes: usize,
) -> Result<Option<Classes>, AllocError>
    requires { AreWithin rows.now (length finals.now) }
    ensures { IfOk result (λ found. IfSome found (λ c. AreClasses finals.now rows.now c.of_states.items c.count)) }
{
    let mut known = vec![in alloc; 0usize; finals.len()]?;
    for _pass in 0..passes {
        let next = classes_beside(alloc, finals, rows, &known)?;
        if next.of_states == known {
            return Ok(Some(next));
        }
        known = next.of_states;
    }
    Ok(None)
}

/// The states from the last one back by how they go on into known classes: where the same classes come out, their states go on alike.
fn classes_beside(
    alloc: Global,
    finals: &[bool],
    rows: &EdgesByState<usize>,
    known: &[usize],
) -> Result<Classes, AllocError>
    requires { AreWithin rows.now (length finals.now) }
    ensures { IfOk result (λ c. c.of_states.items ≡ known.now → AreClasses finals.now rows.now c.of_states.items c.count) }
{
    let mut signatures = ListTable::new(alloc);
    let mut classes = Vec::with_capacity(alloc, finals.len())?;
    number_nowhere(alloc, &mut signatures)?;
    while classes.len() < finals.len() {
        let state = finals.len() - 1 - classes.len();
        let signature = signature_of(alloc, finals[state], rows.out(state), known, finals.len())?;
        classes.push(number_of(&mut signatures, signature)?)?;
    }
    Ok(Classes {
        of_states: classes,
        count: signatures.len(),
    })
}

/// Numbers the signature of a state that isn't final and that no edge leaves. Its class is the first one found, and
/// the last one of the new numbers, so that `without_last` finds it.
fn number_nowhere(alloc: Global, signatures: &mut ListTable) -> Result<(), AllocError> {
    let signature = signature_of(alloc, false, &[], &[], 0)?;
    number_of(signatures, signature)?;
    Ok(())
}

/// The number of a list, which is added where it isn't there.
fn number_of(table: &mut ListTable, list: Vec<usize>) -> Result<usize, AllocError>
    ensures number { IfOk result (λ k. slice_get table.new k ≡ Some list.items) }
    ensures kept { OnOk result (Keeps table.old table.new) }
{
    table.insert(list)
}

/// The classes that count, which are all or none.
fn known_classes(classes: &[usize], ends_first: bool) -> &[usize]
    ensures { Keeps result.now classes.now }
{
    if ends_first { classes } else { &classes[..0] }
}

/// The classes from the start on, numbered from the last one back, but the start's being 0.
fn from_start(alloc: Global, back: &[usize], count: usize) -> Result<Vec<usize>, AllocError>
    requires { 0 < length back.now }
    ensures { IfOk result (λ v. v.items ≡ map (renumbered (slice_index back.now (length back.now - 1)) (count - 1)) (reverse back.now)) }
{
    let start = back[back.len() - 1];
    let last = count.saturating_sub(1);
    back.iter()
        .rev()
        .map(|class| renumbered(start, last, *class))
        .collect(alloc)
}

/// The number of a class: the order is turned round, and then the start and the first class change places.
fn renumbered(start: usize, last: usize, class: usize) -> usize
    ensures { result ≡ renumbered start last class }
{
    if class == start {
        0
    } else if class == last {
        last.saturating_sub(start)
    } else {
        last.saturating_sub(class)
    }
}
