ghost use Rattle.std.specs.Prelude.{◌≡◌, ◌↔◌, IfOk, IsTrue, Some, length, slice_get, ℕ};
ghost use Rattle.fsm_base.specs.Alphabet.{texts_of};
ghost use Rattle.name_order.specs.Orders.{IsOrder};
ghost use Rattle.project_meaning.specs.Touched.{AreSameSymbols};
ghost use Rattle.project_definitions.specs.Referring.{references_of};
ghost use Rattle.project_definitions.specs.declared.definition.Definition.{Definition};
ghost use Rattle.project_sources.specs.Sources.{Said, project_in};
ghost use Rattle.word_relations.specs.Words.{IsDistinct};
ghost use Rattle.touched_names.specs.Itself.{AreNumbers, IsKept, IsTouchedItself, names_in, number_there, places_among};
ghost use Rattle.touched_names.specs.Places.{IsMarked};
ghost use Rattle.touched_names.specs.Staying.{IsSameAt};
ghost use Rattle.touched_names.specs.Touched.{AreTouched, StandFor};

use crate::bodies::{body_uses, same_body};
use crate::places::touched_places;
use crate::stand::Stand;
use crate::texts::{are_below, names_in, places_among, texts_in};
use body_equality::Renumbering;
use fsm_base::{Alphabet, Text};
use project_definitions::Definition;
use std::alloc::{AllocError, Global};

/// Whether texts, each of which stands once in its list, are the same in another order.
fn same_symbols(alloc: Global, old: &[Text], new: &[Text]) -> Result<bool, AllocError>
    ensures { IsDistinct old.now → IsDistinct new.now → IfOk result (λ same. IsTrue same ↔ AreSameSymbols old.now new.now) }
{
    let among_old = places_among(alloc, old, new)?;
    let among_new = places_among(alloc, new, old)?;
    Ok(are_below(&among_old, old.len()) && are_below(&among_new, new.len()))
}

/// The numbers of the new symbols and names among the old ones.
fn numbers_of(
    alloc: Global,
    old_symbols: &[Text],
    new_symbols: &[Text],
    old: &[Definition],
    new: &[Definition],
) -> Result<Renumbering, AllocError>
    ensures { IfOk result (AreNumbers old_symbols.now new_symbols.now old.now new.now) }
{
    let symbols = places_among(alloc, old_symbols, new_symbols)?;
    let names = places_among(alloc, &names_in(alloc, old)?, &names_in(alloc, new)?)?;
    Ok(Renumbering { symbols, names })
}

/// Whether the old definition at a place is this one.
fn is_kept(
    alloc: Global,
    old: &[Definition],
    numbers: &Renumbering,
    place: usize,
    definition: &Definition,
) -> Result<bool, AllocError>
    ensures { IfOk result (λ kept. IsTrue kept ↔ IsKept old.now numbers.now place definition.now) }
{
    match old.get(place) {
        Some(before) => same_body(alloc, &before.body, &definition.body, numbers),
        None => Ok(false),
    }
}

/// Whether a definition is touched by itself: no old one is this one, or it uses the alphabet and that changed.
fn is_touched_itself(
    alloc: Global,
    old: &[Definition],
    numbers: &Renumbering,
    same_symbols: bool,
    place: usize,
    definition: &Definition,
) -> Result<bool, AllocError>
    ensures { IfOk result (λ touched. IsTrue touched ↔ IsTouchedItself old.now numbers.now (IsTrue same_symbols) place definition.now) }
{
    if !is_kept(alloc, old, numbers, place, definition)? {
        return Ok(true);
    }
    if same_symbols {
        return Ok(false);
    }
    body_uses(alloc, &definition.body)
}

/// Which definitions are touched by themselves, by their places.
fn touched_themselves(
    alloc: Global,
    old: &[Definition],
    new: &[Definition],
    numbers: &Renumbering,
    same_symbols: bool,
) -> Result<Vec<bool>, AllocError>
    requires { length numbers.now.names.items ≡ length new.now }
    ensures count { IfOk result (λ marks. length marks.items ≡ length new.now) }
    ensures marks { IfOk result (λ marks. (place : ℕ) (d : Definition) → slice_get new.now place ≡ Some d → IsMarked marks.items place ↔ IsTouchedItself old.now numbers.now (IsTrue same_symbols) (number_there numbers.now place) d) }
{
    let mut marks = Vec::new(alloc);
    'definitions: for (place, definition) in new.iter().enumerate() {
        let number = numbers.names[place];
        let mark = is_touched_itself(alloc, old, numbers, same_symbols, number, definition)?;
        marks.push(mark)?;
    }
    Ok(marks)
}

/// The places of the touched names among the new definitions, counted from 0 and ascending, where a project's definitions
/// `old` are changed to `new`. `order` has the places of the new definitions, each behind those that it refers to, as a plan
/// has them. Time and memory are linear in the sizes of both projects.
pub fn touched(
    alloc: Global,
    old: Stand<'_>,
    new: Stand<'_>,
    order: &[usize],
) -> Result<Vec<usize>, AllocError>
    requires { IsOrder (references_of new.definitions.now) order.now }
    ensures { (before after : Said) → StandFor before old.entry.definitions.now old.entry.alphabet.now → StandFor after new.entry.definitions.now new.entry.alphabet.now → IfOk result (λ places. AreTouched (project_in before) (project_in after) new.entry.definitions.now places.items) }
{
    let old_symbols = texts_in(alloc, old.alphabet)?;
    let new_symbols = texts_in(alloc, new.alphabet)?;
    let same_symbols = same_symbols(alloc, &old_symbols, &new_symbols)?;
    let numbers = numbers_of(
        alloc,
        &old_symbols,
        &new_symbols,
        old.definitions,
        new.definitions,
    )?;
    let itself = touched_themselves(
        alloc,
        old.definitions,
        new.definitions,
        &numbers,
        same_symbols,
    )?;
    touched_places(alloc, new.definitions, &itself, order)
}

/// The places of the names of new definitions among old ones, counted from 0, in the order of the new ones. A name that no old definition
/// has gets the number of the old ones.
pub fn places_before(
    alloc: Global,
    old: &[Definition],
    new: &[Definition],
) -> Result<Vec<usize>, AllocError>
    ensures places { IsDistinct (names_in old.now) → IfOk result (λ places. places.items ≡ places_among (names_in old.now) (names_in new.now)) }
    ensures count { IfOk result (λ places. length places.items ≡ length new.now) }
{
    places_among(alloc, &names_in(alloc, old)?, &names_in(alloc, new)?)
}

/// Marks for the places of an old alphabet, counted from 0, at which the new one has the same symbol.
pub fn same_places(alloc: Global, old: &Alphabet, new: &Alphabet) -> Result<Vec<bool>, AllocError>
    ensures { IfOk result (λ marks. (place : ℕ) → IsMarked marks.items place ↔ IsSameAt (texts_of old.now) (texts_of new.now) place) }
{
    same_texts(alloc, &texts_in(alloc, old)?, &texts_in(alloc, new)?)
}

/// Marks for the places of texts at which others have the same text.
fn same_texts(alloc: Global, texts: &[Text], others: &[Text]) -> Result<Vec<bool>, AllocError>
    ensures { IfOk result (λ marks. (place : ℕ) → IsMarked marks.items place ↔ IsSameAt texts.now others.now place) }
{
    let mut marks = Vec::new(alloc);
    'texts: for (place, text) in texts.iter().enumerate() {
        marks.push(is_at(others, place, text))?;
    }
    Ok(marks)
}

/// Whether this text stands at a place.
fn is_at(texts: &[Text], place: usize, text: &Text) -> bool
    ensures { IsTrue result ↔ (slice_get texts.now place ≡ Some text.now) }
{
    match texts.get(place) {
        Some(other) => other == text,
        None => false,
    }
}
