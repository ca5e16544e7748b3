ghost use Rattle.std.specs.Prelude.{◌≡◌, ◌<◌, ◌↔◌, ◌⊎◌, ◌++◌, ◌∷◌, [], Some, ℕ, List, IfOk, OnOk, IsTrue, length, slice_get};
ghost use Rattle.fsa_explore.specs.Explored.{AddsTarget, AddsRow, IsExplored, StartsAt};

use crate::table::ListTable;
use std::alloc::{AllocError, Global};
use std::marker::Model;

/// A complete automaton that isn't built yet: its states are lists of numbers, and where a list leads to is
/// worked out when it is met.
pub trait LazyAutomaton {
    /// How many letters there are.
    ghost letters: { Self → ℕ };

    /// Which lists are states.
    ghost is_state: { Self → List ℕ → Type 0 };

    /// Which list the letter at a place leads to from a list.
    ghost leads: { Self → List ℕ → ℕ → List ℕ → Type 0 };

    /// Which lists are final states.
    ghost is_final_state: { Self → List ℕ → Type 0 };

    /// Whether a state is final.
    fn is_final(&self, state: &[usize]) -> bool
        requires { is_state self.now state.now }
        ensures { IsTrue result ↔ is_final_state self.now state.now };

    /// Adds what a state leads to: a list for each letter, in the order of the places. What is left after an Err is
    /// not said.
    fn add_row(
        &mut self,
        alloc: Global,
        state: &[usize],
        found: &mut FoundLists,
    ) -> Result<(), AllocError>
        requires { is_state self.old state.now }
        ensures same { OnOk result (self.new ≡ self.old) }
        ensures row { OnOk result (AddsRow (is_state self.old) (leads self.old state.now) (letters self.old) found.old found.new) };
}

/// The lists that were found, numbered from 0 in that order, and the numbers that the letters lead to, a row for
/// each list that was looked at.
#[derive(Debug, Drop)]
pub struct FoundLists {
    /// The lists, each once.
    lists: ListTable,
    /// The numbers that the letters lead to, a row for each list that was looked at.
    next: Vec<usize>,
}

impl Model for FoundLists {
    ghost use Rattle.fsa_explore.specs.Explored.{Numbered};

    ghost Value = { Numbered };

    ghost view = { λ found. record { lists = found.lists; next = found.next.items } };
}

impl FoundLists {
    /// No list.
    pub fn none(alloc: Global) -> FoundLists
        ensures { result ≡ record { lists = []; next = [] } }
    {
        FoundLists {
            lists: ListTable::new(alloc),
            next: Vec::new(alloc),
        }
    }

    /// The start alone, which has the number 0.
    pub fn start(alloc: Global, start: &[usize]) -> Result<FoundLists, AllocError>
        ensures { IfOk result (λ found. StartsAt start.now found) }
    {
        let mut lists = ListTable::new(alloc);
        lists.number_of(alloc, start)?;
        Ok(FoundLists {
            lists,
            next: Vec::new(alloc),
        })
    }

    /// How many lists were found.
    pub fn len(&self) -> usize
        ensures { result ≡ length self.now.lists }
    {
        self.lists.len()
    }

    /// A copy of the list with a number.
    pub fn list(&self, alloc: Global, number: usize) -> Result<Vec<usize>, AllocError>
        requires { number < length self.now.lists }
        ensures { IfOk result (λ list. slice_get self.now.lists number ≡ Some list.items) }
    {
        Vec::from_slice(alloc, self.lists.get(number))
    }

    /// Adds the list that the next letter leads to. After an Err the list may have been found, and no letter leads to
    /// it.
    pub fn push(&mut self, list: &[usize]) -> Result<(), AllocError>
        ensures { OnOk result (AddsTarget self.old self.new list.now) }
    {
        let alloc = *self.next.allocator();
        let number = number_again(&mut self.lists, alloc, self.next.last().copied(), list)?;
        self.next.push(number)?;
        Ok(())
    }

    /// The numbers that the letters lead to.
    pub fn into_numbers(self) -> Vec<usize>
        ensures { result.items ≡ self.next }
    {
        self.next
    }
}

/// The number of a list, which is often the one that was given last.
fn number_again(
    lists: &mut ListTable,
    alloc: Global,
    last: Option<usize>,
    list: &[usize],
) -> Result<usize, AllocError>
    ensures number { IfOk result (λ k. slice_get lists.new k ≡ Some list.now) }
    ensures kept { OnOk result ((lists.new ≡ lists.old) ⊎ (lists.new ≡ lists.old ++ list.now ∷ [])) }
{
    match last {
        Some(number) if number < lists.len() && lists.get(number) == list => Ok(number),
        _ => lists.number_of(alloc, list),
    }
}

/// The table and the final states of the complete automaton that was built.
#[derive(Debug, Drop)]
pub struct Explored {
    /// The next state of each state at each letter: a row for each state, with an entry for each letter.
    pub next: Vec<usize>,
    /// Whether each state is final.
    pub finals: Vec<bool>,
}

/// Builds as much of the automaton as the start reaches. The states are numbered in the order in which they are
/// found, and the start has the number 0. What is left of the automaton after an Err is not said.
pub fn explore<A: LazyAutomaton>(
    alloc: Global,
    automaton: &mut A,
    start: &[usize],
) -> Result<Explored, AllocError>
    requires { A.is_state automaton.old start.now }
    ensures same { OnOk result (automaton.new ≡ automaton.old) }
    ensures built { IfOk result (λ built. IsExplored (A.is_state automaton.old) (A.leads automaton.old) (A.is_final_state automaton.old) (A.letters automaton.old) start.now built.next.items built.finals.items) }
{
    let mut found = FoundLists::start(alloc, start)?;
    let mut finals = Vec::new(alloc);
    while finals.len() < found.len() {
        let state = found.list(alloc, finals.len())?;
        finals.push(automaton.is_final(&state))?;
        automaton.add_row(alloc, &state, &mut found)?;
    }
    Ok(Explored {
        next: found.next,
        finals,
    })
}
