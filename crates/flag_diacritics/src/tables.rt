ghost use Rattle.std.specs.Prelude.{◌≡◌, ◌<◌, ◌++◌, ◌⊎◌, ◌∷◌, ℕ, List, [], Option, Some, IfOk, OnOk, IsTrue, length, slice_get};
ghost use Rattle.std.specs.Cmp.Rules.{hashing};
ghost use Rattle.std.specs.Hash as fed;
ghost use Rattle.std.proofs.Common.{rules};
ghost use Rattle.flag_diacritics.specs.Idle.{masked};
ghost use Rattle.flag_diacritics.specs.declared.setting.Setting.{Setting};
ghost use Rattle.flag_diacritics.specs.Marks.{mark_of};

use crate::idle::settled;
use crate::setting::Setting;
use indexmap::IndexSet;
use std::alloc::{AllocError, Global};
use std::hash::{Hash, Hasher};
use std::marker::Model;

/// Odd, with its bits in no order, so that each number of a place moves the whole hash.
const MULTIPLIER: usize = 0x9e37_79b9_7f4a_7c15;

/// What each feature is at some place of a tape, numbered from 0 in the order in which they came, and found again by
/// a hash. Contracts see the list of these lists.
#[derive(Debug, Drop)]
pub struct FeatureTable {
    /// The lists, each once. The place of a list is its number.
    lists: IndexSet<Vec<Setting>>,
    /// The features that aren't neutral in each list, as bits. Lists for which there was no memory have no bits here.
    settled: Vec<u64>,
}

impl Model for FeatureTable {
    ghost use Rattle.std.specs.Prelude.{List, ℕ, Option, map};
    ghost use Rattle.flag_diacritics.specs.Idle.{AreSettled};
    ghost use Rattle.flag_diacritics.specs.declared.setting.Setting.{Setting};

    ghost Value = { List (List Setting) };

    ghost view = { λ table. map (λ list. list.items) table.lists.keys };

    ghost invariant = { λ table. AreSettled (map (λ list. list.items) table.lists.keys) table.settled.items };
}

impl FeatureTable {
    /// The table of no lists.
    pub fn new(alloc: Global) -> FeatureTable
        ensures { result ≡ [] }
    {
        FeatureTable {
            lists: IndexSet::new(alloc),
            settled: Vec::new(alloc),
        }
    }

    /// How many lists there are.
    pub fn len(&self) -> usize
        ensures { result ≡ length self.now }
    {
        self.lists.len()
    }

    /// The list with a number.
    pub fn get(&self, number: usize) -> &[Setting]
        requires { number < length self.now }
        ensures { slice_get self.now number ≡ Some result.now }
    {
        self.lists[number].as_slice()
    }

    /// The number of a list, which is added where it isn't there.
    pub fn number_of(&mut self, list: Vec<Setting>) -> Result<usize, AllocError>
        ensures number { IfOk result (λ k. slice_get self.new k ≡ Some list.items) }
        ensures kept { OnOk result ((self.new ≡ self.old) ⊎ (self.new ≡ self.old ++ list.items ∷ [])) }
    {
        let bits = settled(&list);
        let (number, _) = self.lists.insert_full(list)?;
        note(&mut self.settled, number, bits);
        Ok(number)
    }

    /// Whether the features of a row are neutral already in the list with a number, so that nothing need be made. For a list
    /// without bits the answer is no.
    pub fn is_masked(&self, row: u64, number: usize) -> bool
        ensures { IsTrue result → (now : List Setting) → slice_get self.now number ≡ Some now → masked row now ≡ now }
    {
        match self.settled.get(number) {
            Some(bits) => row & *bits == 0,
            None => false,
        }
    }
}

/// Notes the bits of the list with a number, if it is the next one that has none. Without memory for them it has none.
fn note(settled: &mut Vec<u64>, number: usize, bits: u64)
    ensures { (settled.new.items ≡ settled.old.items) ⊎ ((number ≡ length settled.old.items) × (settled.new.items ≡ settled.old.items ++ bits ∷ [])) }
{
    if number == settled.len() && settled.push(bits).is_err() {
        return;
    }
}

/// A state of the network, and what the features of each side are there, by numbers.
#[derive(Clone, Copy, Debug, PartialEq, Eq)]
pub struct Place {
    /// The state.
    pub state: usize,
    /// What the features are behind the upper flags so far.
    pub upper: usize,
    /// What they are behind the lower flags so far.
    pub lower: usize,
}

/// Hashed as one number, since a search looks up a place for each edge.
impl Hash for Place {
    ghost hash_input = { λ place. fed.usize (mark_of place) };

    ghost respects_eq = { Prim.search (hashing, rules) };

    fn hash<H: Hasher>(&self, state: &mut H) {
        mark_of(*self).hash(state);
    }
}

/// The number by which a place is hashed. Few others have the same.
fn mark_of(place: Place) -> usize
    ensures { result ≡ mark_of place }
{
    let sides = MULTIPLIER
        .wrapping_mul(place.upper)
        .wrapping_add(place.lower);
    MULTIPLIER.wrapping_mul(sides).wrapping_add(place.state)
}

/// Places, numbered from 0 in the order in which they came, and found again by a hash. Contracts see the list of the
/// places.
#[derive(Debug, Drop)]
pub struct PlaceTable {
    /// The places, each once. The place of one in this set is its number.
    places: IndexSet<Place>,
}

impl Model for PlaceTable {
    ghost use Rattle.std.specs.Prelude.{List};
    ghost use Rattle.flag_diacritics.specs.declared.tables.Place.{Place};

    ghost Value = { List Place };

    ghost view = { λ table. table.places.keys };
}

impl PlaceTable {
    /// The table of no places.
    pub fn new(alloc: Global) -> PlaceTable
        ensures { result ≡ [] }
    {
        PlaceTable {
            places: IndexSet::new(alloc),
        }
    }

    /// How many places there are.
    pub fn len(&self) -> usize
        ensures { result ≡ length self.now }
    {
        self.places.len()
    }

    /// The place with a number.
    pub fn get(&self, number: usize) -> Place
        requires { number < length self.now }
        ensures { slice_get self.now number ≡ Some result }
    {
        self.places[number]
    }

    /// The number of a place, which is added where it isn't there.
    pub fn number_of(&mut self, place: Place) -> Result<usize, AllocError>
        ensures number { IfOk result (λ k. slice_get self.new k ≡ Some place) }
        ensures kept { OnOk result ((self.new ≡ self.old) ⊎ (self.new ≡ self.old ++ place ∷ [])) }
    {
        let (number, _) = self.places.insert_full(place)?;
        Ok(number)
    }
}
