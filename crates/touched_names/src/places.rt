ghost use Rattle.std.specs.Prelude.{◌≡◌, ◌↔◌, ◌⊎◌, IfOk, IsTrue, length};
ghost use Rattle.name_order.specs.Orders.{IsOrder};
ghost use Rattle.project_definitions.specs.Plain.{body_of};
ghost use Rattle.project_definitions.specs.Referring.{body_places, references_of};
ghost use Rattle.touched_names.specs.Places.{AreMarked, ArePlaces, HasMarked, IsMarked, TouchedPlace};

use crate::bodies::refers_to_marked;
use project_definitions::Definition;
use std::alloc::{AllocError, Global};

/// Whether a definition is touched by itself, or refers to a marked place.
fn is_touched(
    alloc: Global,
    itself: bool,
    definition: &Definition,
    marks: &[bool],
) -> Result<bool, AllocError>
    ensures { IfOk result (λ touched. IsTrue touched ↔ (IsTrue itself ⊎ HasMarked marks.now (body_places (length marks.now) (body_of definition.now.body)))) }
{
    if itself {
        return Ok(true);
    }
    refers_to_marked(alloc, &definition.body, marks)
}

/// Marks for each place that is touched, by those that are touched by themselves.
fn marks_of(
    alloc: Global,
    definitions: &[Definition],
    itself: &[bool],
    order: &[usize],
) -> Result<Vec<bool>, AllocError>
    requires marks { length itself.now ≡ length definitions.now }
    requires order { IsOrder (references_of definitions.now) order.now }
    ensures { IfOk result (λ marks. AreMarked marks.items (TouchedPlace (references_of definitions.now) itself.now)) }
{
    let mut marks = vec![in alloc; false; definitions.len()]?;
    'order: for place in order {
        let place = *place;
        let touched = is_touched(alloc, itself[place], &definitions[place], &marks)?;
        marks[place] = touched;
    }
    Ok(marks)
}

/// The places that are marked, ascending.
fn marked_places(alloc: Global, marks: &[bool]) -> Result<Vec<usize>, AllocError>
    ensures { IfOk result (λ places. ArePlaces (IsMarked marks.now) places.items) }
{
    let mut places = Vec::new(alloc);
    'marks: for (place, mark) in marks.iter().enumerate() {
        if *mark {
            places.push(place)?;
        }
    }
    Ok(places)
}

/// The places of definitions that are touched by themselves, or that refer to a touched one, ascending. `order` has each place once,
/// behind those that it refers to.
pub(crate) fn touched_places(
    alloc: Global,
    definitions: &[Definition],
    itself: &[bool],
    order: &[usize],
) -> Result<Vec<usize>, AllocError>
    requires marks { length itself.now ≡ length definitions.now }
    requires order { IsOrder (references_of definitions.now) order.now }
    ensures { IfOk result (λ places. ArePlaces (TouchedPlace (references_of definitions.now) itself.now) places.items) }
{
    let marks = marks_of(alloc, definitions, itself, order)?;
    marked_places(alloc, &marks)
}
