ghost use Rattle.std.specs.Prelude.{◌≡◌, ◌<◌, ◌≤◌, ◌+◌, ◌*◌, ◌++◌, ◌⊎◌, ◌∷◌, [], ℕ, All, IfOk, OnOk, Some, length, slice_get};
ghost use Rattle.fsa_minimal.specs.Folding.{IsFolding, AreByClass};
ghost use Rattle.fsa_minimal.specs.Splitting.{AreClasses};

use crate::partition::Partition;
use fsa::Dfa;
use fsm_base::Letter;
use std::alloc::{AllocError, Global};

/// An automaton with a state for each class, and what becomes of the states.
#[derive(Drop)]
pub struct Small<L> {
    /// The automaton.
    pub automaton: Dfa<L>,
    /// Which state of it each state becomes, or None for a state of a class that the start doesn't reach.
    pub images: Vec<Option<usize>>,
}

/// Classes that are numbered from 0 in the order in which they are met.
#[derive(Drop)]
struct Met {
    /// The number of each class.
    numbers: Vec<Option<usize>>,
    /// The state at which each was met, by the numbers.
    states: Vec<usize>,
    ghost within: { (class number : ℕ) → slice_get numbers.items class ≡ Some (Some number) → number < length states.items },
}

impl Met {
    /// The number of a class, met at this state.
    fn number_of(&mut self, class: usize, state: usize) -> Result<usize, AllocError>
        requires { class < length self.old.numbers.items }
        ensures number { IfOk result (λ number. number < length self.new.states.items) }
        ensures count { OnOk result (length self.new.numbers.items ≡ length self.old.numbers.items) }
        ensures kept { OnOk result ((self.new.states.items ≡ self.old.states.items) ⊎ (self.new.states.items ≡ self.old.states.items ++ state ∷ [])) }
    {
        if let Some(number) = self.numbers[class] {
            return Ok(number);
        }
        let number = self.states.len();
        self.states.push(state)?;
        self.numbers[class] = Some(number);
        Ok(number)
    }
}

/// The automaton whose states are the classes that the start reaches, each leading where its first state leads.
pub fn folded<L: Letter>(
    alloc: Global,
    a: &Dfa<L>,
    partition: &Partition,
) -> Result<Small<L>, AllocError>
    requires count { length partition.now.class_of.items ≡ length a.now.finals }
    requires classes { AreClasses partition.now.members.items partition.now.groups.items partition.now.sizes.items partition.now.class_of.items }
    ensures letters { IfOk result (λ small. small.automaton.letters ≡ a.now.letters) }
    ensures images { IfOk result (λ small. AreByClass partition.now.class_of.items small.images.items) }
{
    let letters = Vec::from_slice(alloc, a.letters())?;
    let classes = partition.class_of();
    let mut met = Met {
        numbers: vec![in alloc; None; partition.len()]?,
        states: Vec::new(alloc),
    };
    met.number_of(classes[0], 0)?;
    let mut next = Vec::new(alloc);
    let mut finals = Vec::new(alloc);
    while finals.len() < met.states.len() {
        let state = met.states[finals.len()];
        finals.push(a.is_final(state))?;
        add_row(a, classes, state, &mut met, &mut next)?;
    }
    Ok(Small {
        automaton: Dfa::of(letters, next, finals),
        images: images_of(alloc, classes, &met.numbers)?,
    })
}

/// Adds the numbers of the classes to which the letters lead from a state.
fn add_row<L: Letter>(
    a: &Dfa<L>,
    classes: &[usize],
    state: usize,
    met: &mut Met,
    next: &mut Vec<usize>,
) -> Result<(), AllocError>
    requires state { state < length a.now.finals }
    requires classes { length classes.now ≡ length a.now.finals }
    requires within { All (λ class. class < length met.old.numbers.items) classes.now }
    requires before { IsFolding (length a.now.finals) met.old.states.items next.old.items }
    ensures count { OnOk result (length met.new.numbers.items ≡ length met.old.numbers.items) }
    ensures after { OnOk result (IsFolding (length a.now.finals) met.new.states.items next.new.items) }
    ensures row { OnOk result (length next.new.items ≡ length next.old.items + length a.now.letters) }
    ensures met { OnOk result (length met.old.states.items ≤ length met.new.states.items) }
{
    for place in 0..a.letters().len() {
        let to = a.next(state, place);
        next.push(met.number_of(classes[to], to)?)?;
    }
    Ok(())
}

/// The number of each state's class.
fn images_of(
    alloc: Global,
    classes: &[usize],
    numbers: &[Option<usize>],
) -> Result<Vec<Option<usize>>, AllocError>
    requires { All (λ class. class < length numbers.now) classes.now }
    ensures { IfOk result (λ images. AreByClass classes.now images.items) }
{
    let mut images = Vec::with_capacity(alloc, classes.len())?;
    for class in classes {
        images.push(numbers[*class])?;
    }
    Ok(images)
}
