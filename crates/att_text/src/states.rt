ghost use Rattle.std.specs.Prelude.{◌≡◌, ◌<◌, ◌^◌, ◌++◌, ◌∷◌, ◌⊎◌, [], Some, IfOk, OnOk, OnErr, length, slice_get};
ghost use Rattle.word_relations.specs.Words.{IsDistinct};

use indexmap::IndexSet;
use std::alloc::{AllocError, Global};
use std::marker::Model;

/// The states of a text, which are any numbers, by their places in the order in which they came. They are found again by a hash.
/// Contracts see the list of them.
#[derive(Debug, Drop)]
pub(crate) struct StateTable {
    /// The states, each once.
    states: IndexSet<u64>,
}

impl Model for StateTable {
    ghost use Rattle.std.specs.Prelude.{List, ℕ};

    ghost Value = { List ℕ };

    ghost view = { λ table. table.states.keys };
}

impl StateTable {
    /// The table of no states.
    pub(crate) fn new(alloc: Global) -> StateTable
        ensures { result ≡ [] }
    {
        StateTable {
            states: IndexSet::new(alloc),
        }
    }

    /// How many states there are.
    pub(crate) fn len(&self) -> usize
        ensures { result ≡ length self.now }
    {
        self.states.len()
    }

    /// The state at a place.
    pub(crate) fn state_at(&self, place: usize) -> u64
        requires { place < length self.now }
        ensures { slice_get self.now place ≡ Some result }
    {
        self.states[place]
    }

    /// The place of a state, which is put behind the others where it isn't there.
    pub(crate) fn place_of(&mut self, state: u64) -> Result<usize, AllocError>
        ensures place { IfOk result (λ place. slice_get self.new place ≡ Some state) }
        ensures small { IfOk result (λ place. place < 2 ^ 64) }
        ensures kept { OnOk result ((self.new ≡ self.old) ⊎ (self.new ≡ self.old ++ state ∷ [])) }
        ensures once { OnOk result (IsDistinct self.new) }
    {
        let (place, _) = self.states.insert_full(state)?;
        Ok(place)
    }
}
