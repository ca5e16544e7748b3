ghost use Rattle.std.specs.Prelude.{◌≡◌, ◌<◌, ◌↔◌, ◌⊎◌, ℕ, All, IfOk, OnOk, Some, Contains, length};
ghost use Rattle.fsa.specs.Complete.{next_state};
ghost use Rattle.fsa_minimal.specs.Fewest.{ClassesAreApart, IsApartFromOthers};
ghost use Rattle.fsa_minimal.specs.Inverses.{IsInverse};
ghost use Rattle.fsa_minimal.specs.Splitting.{AreClasses};

use crate::inverse::{Inverse, inverses_of};
use crate::partition::Partition;
use fsa::Dfa;
use fsa_explore::NumberSet;
use fsm_base::Letter;
use std::alloc::{AllocError, Global};

/// Classes of states, so that two states are in one class where the same words are accepted from both. A class
/// splits the others once, when it is made: which of their states a letter leads into it, and which not. Of two
/// parts of a class the smaller one gets a new number, so that a state is looked at again only in a class of half
/// the size. Takes time in proportion to n log n for n states, times the classes of letters that act alike.
pub fn refined<L: Letter>(alloc: Global, a: &Dfa<L>) -> Result<Partition, AllocError>
    ensures count { IfOk result (λ p. length p.class_of.items ≡ length a.now.finals) }
    ensures apart { IfOk result (λ p. ClassesAreApart a.now p.class_of.items) }
    ensures classes { IfOk result (λ p. AreClasses p.members.items p.groups.items p.sizes.items p.class_of.items) }
{
    let inverses = inverses_of(alloc, a)?;
    let mut marked = NumberSet::new(alloc, a.states())?;
    let mut partition = split_by_finals(alloc, a)?;
    for splitter in 0..a.states() {
        let is_done = splitter >= partition.len() || partition.len() == a.states();
        if is_done {
            break;
        }
        let members = partition.members(alloc, splitter)?;
        for inverse in &inverses {
            split_by(alloc, a, &mut partition, &mut marked, inverse, &members)?;
        }
    }
    Ok(partition)
}

/// The final states, and the others.
fn split_by_finals<L: Letter>(alloc: Global, a: &Dfa<L>) -> Result<Partition, AllocError>
    ensures count { IfOk result (λ p. length p.class_of.items ≡ length a.now.finals) }
    ensures apart { IfOk result (λ p. ClassesAreApart a.now p.class_of.items) }
    ensures classes { IfOk result (λ p. AreClasses p.members.items p.groups.items p.sizes.items p.class_of.items) }
{
    let mut partition = Partition::new(alloc, a.states())?;
    let marked = final_states(alloc, a)?;
    partition.split(alloc, &marked)?;
    Ok(partition)
}

/// The final states.
fn final_states<L: Letter>(alloc: Global, a: &Dfa<L>) -> Result<NumberSet, AllocError>
    ensures bound { IfOk result (λ marked. marked.bound ≡ length a.now.finals) }
    ensures apart { IfOk result (λ marked. IsApartFromOthers a.now marked.found) }
{
    let mut marked = NumberSet::new(alloc, a.states())?;
    for state in 0..a.states() {
        if a.is_final(state) {
            marked.add(state)?;
        }
    }
    Ok(marked)
}

/// Splits each class into the states that a letter leads to one of these and those that it doesn't. The set is used
/// for the marks.
fn split_by<L: Letter>(
    alloc: Global,
    a: &Dfa<L>,
    partition: &mut Partition,
    marked: &mut NumberSet,
    inverse: &Inverse,
    states: &[usize],
) -> Result<(), AllocError>
    requires bound { marked.old.bound ≡ length a.now.finals }
    requires count { length partition.old.class_of.items ≡ length a.now.finals }
    requires apart { ClassesAreApart a.now partition.old.class_of.items }
    requires classes { AreClasses partition.old.members.items partition.old.groups.items partition.old.sizes.items partition.old.class_of.items }
    requires place { inverse.now.place < length a.now.letters }
    requires inverse { IsInverse a.now inverse.now.place (length a.now.finals) inverse.now.last.items inverse.now.before.items }
    requires there { All (λ state. state < length a.now.finals) states.now }
    requires states { IsApartFromOthers a.now states.now }
    ensures bound { OnOk result (marked.new.bound ≡ length a.now.finals) }
    ensures count { OnOk result (length partition.new.class_of.items ≡ length a.now.finals) }
    ensures apart { OnOk result (ClassesAreApart a.now partition.new.class_of.items) }
    ensures classes { OnOk result (AreClasses partition.new.members.items partition.new.groups.items partition.new.sizes.items partition.new.class_of.items) }
{
    mark_all(a, marked, inverse, states)?;
    partition.split(alloc, marked)?;
    Ok(())
}

/// Marks the states that a letter leads to one of these, and no others.
fn mark_all<L: Letter>(
    a: &Dfa<L>,
    marked: &mut NumberSet,
    inverse: &Inverse,
    states: &[usize],
) -> Result<(), AllocError>
    requires bound { marked.old.bound ≡ length a.now.finals }
    requires place { inverse.now.place < length a.now.letters }
    requires inverse { IsInverse a.now inverse.now.place (length a.now.finals) inverse.now.last.items inverse.now.before.items }
    requires there { All (λ state. state < length a.now.finals) states.now }
    ensures bound { OnOk result (marked.new.bound ≡ length a.now.finals) }
    ensures apart { OnOk result (IsApartFromOthers a.now states.now → IsApartFromOthers a.now marked.new.found) }
{
    prove!(a.states() > 0);
    marked.clear();
    for state in states {
        mark_sources(a, marked, inverse, *state)?;
    }
    Ok(())
}

/// Marks the states that a letter leads to a state.
fn mark_sources<L: Letter>(
    a: &Dfa<L>,
    marked: &mut NumberSet,
    inverse: &Inverse,
    state: usize,
) -> Result<(), AllocError>
    requires bound { marked.old.bound ≡ length a.now.finals }
    requires inverse { IsInverse a.now inverse.now.place (length a.now.finals) inverse.now.last.items inverse.now.before.items }
    requires state { state < length a.now.finals }
    ensures bound { OnOk result (marked.new.bound ≡ length a.now.finals) }
    ensures marked { OnOk result ((source : ℕ) → Contains marked.new.found source ↔ (Contains marked.old.found source ⊎ (next_state a.now source inverse.now.place ≡ Some state))) }
{
    prove!(a.states() > 0);
    let mut next = inverse.last[state];
    while let Some(source) = next {
        marked.add(source)?;
        next = inverse.before[source];
    }
    Ok(())
}
