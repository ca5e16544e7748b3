ghost use Rattle.std.specs.Prelude.{◌≡◌, ◌<◌, ◌↔◌, [], ℕ, All, Contains, IsTrue, IfOk, OnOk, length};
ghost use Rattle.name_order.specs.Found.{Adds, AreFound};
ghost use Rattle.name_order.specs.Graph.{IsWhole, Reaches, graph_of};

use std::alloc::{AllocError, Global};

/// The places that were found.
#[derive(Drop)]
pub(crate) struct Found {
    /// Whether each place was found.
    marks: Vec<bool>,
    /// The places that were found, each once, in the order in which they were.
    places: Vec<usize>,
}

impl Found {
    /// None of so many places.
    fn new(alloc: Global, count: usize) -> Result<Found, AllocError>
        ensures found { IfOk result AreFound }
        ensures count { IfOk result (λ found. length found.marks.items ≡ count) }
        ensures places { IfOk result (λ found. found.places.items ≡ []) }
    {
        Ok(Found {
            marks: vec![in alloc; false; count]?,
            places: Vec::new(alloc),
        })
    }

    /// Adds a place, if it isn't there already.
    fn add(&mut self, place: usize) -> Result<(), AllocError>
        requires found { AreFound self.old }
        requires within { place < length self.old.marks.items }
        ensures { OnOk result (Adds self.old self.new (λ other. other ≡ place)) }
    {
        if self.marks[place] {
            return Ok(());
        }
        self.places.push(place)?;
        self.marks[place] = true;
        Ok(())
    }

    /// Adds places.
    fn add_all(&mut self, places: &[u32]) -> Result<(), AllocError>
        requires found { AreFound self.old }
        requires within { All (λ place. place < length self.old.marks.items) places.now }
        ensures { OnOk result (Adds self.old self.new (Contains places.now)) }
    {
        'places: for place in places {
            self.add(*place as usize)?;
        }
        Ok(())
    }
}

/// The places that a place reaches.
fn reached(alloc: Global, references: &[Vec<u32>], start: usize) -> Result<Found, AllocError>
    requires whole { IsWhole (graph_of references.now) }
    requires within { start < length references.now }
    ensures count { IfOk result (λ found. length found.marks.items ≡ length references.now) }
    ensures found { IfOk result AreFound }
    ensures reached { IfOk result (λ found. (place : ℕ) → Contains found.places.items place ↔ Reaches (graph_of references.now) start place) }
{
    let mut found = Found::new(alloc, references.len())?;
    found.add_all(&references[start])?;
    let mut number = 0;
    'numbers: while number < found.places.len() {
        let place = found.places[number];
        found.add_all(&references[place])?;
        number += 1;
    }
    Ok(found)
}

/// Whether a place reaches itself.
pub(crate) fn reaches_itself(
    alloc: Global,
    references: &[Vec<u32>],
    place: usize,
) -> Result<bool, AllocError>
    requires whole { IsWhole (graph_of references.now) }
    requires within { place < length references.now }
    ensures { IfOk result (λ reaches. IsTrue reaches ↔ Reaches (graph_of references.now) place place) }
{
    let found = reached(alloc, references, place)?;
    Ok(found.marks[place])
}
