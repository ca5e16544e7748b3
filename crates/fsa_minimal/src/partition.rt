ghost use Rattle.std.specs.Prelude.{◌≡◌, ◌<◌, ◌+◌, ◌↔◌, ℕ, All, IfOk, OnOk, IsTrue, Some, Contains, length, slice_get};
ghost use Rattle.fsa_minimal.specs.Splitting.{Holds, AreClasses, HoldThese, SplitsBy, IsMoved, IsSplit};

use fsa_explore::NumberSet;
use std::alloc::{AllocError, Global};

/// States in classes, which are numbered from 0.
#[derive(Debug, Drop)]
pub struct Partition {
    /// The class of each state.
    class_of: Vec<usize>,
    /// The states of each class. States that have left the class may still stand there: to take out each of them
    /// would take time in proportion to what stays.
    members: Vec<Vec<usize>>,
    /// The marked states of each class, while classes are split.
    groups: Vec<Vec<usize>>,
    /// How many states each class has. It decides only which part of a class gets a new number.
    sizes: Vec<usize>,
}

impl Partition {
    /// All the states below the bound in one class.
    pub fn new(alloc: Global, bound: usize) -> Result<Partition, AllocError>
        ensures count { IfOk result (λ p. length p.class_of.items ≡ bound) }
        ensures one { IfOk result (λ p. All (λ class. class ≡ 0) p.class_of.items) }
        ensures classes { IfOk result (λ p. AreClasses p.members.items p.groups.items p.sizes.items p.class_of.items) }
    {
        let class_of = vec![in alloc; 0; bound]?;
        let mut members = Vec::new(alloc);
        members.push(numbers_below(alloc, bound)?)?;
        let mut groups = Vec::new(alloc);
        groups.push(Vec::new(alloc))?;
        let mut sizes = Vec::new(alloc);
        sizes.push(bound)?;
        Ok(Partition {
            class_of,
            members,
            groups,
            sizes,
        })
    }

    /// How many classes there are.
    pub fn len(&self) -> usize
        ensures { result ≡ length self.now.members.items }
    {
        self.members.len()
    }

    /// The class of each state.
    pub fn class_of(&self) -> &[usize]
        ensures { result.now ≡ self.now.class_of.items }
    {
        self.class_of.as_slice()
    }

    /// The states of a class.
    pub fn members(&self, alloc: Global, class: usize) -> Result<Vec<usize>, AllocError>
        requires number { class < length self.now.members.items }
        requires classes { AreClasses self.now.members.items self.now.groups.items self.now.sizes.items self.now.class_of.items }
        ensures { IfOk result (λ members. (state : ℕ) → Contains members.items state ↔ (slice_get self.now.class_of.items state ≡ Some class)) }
    {
        members_of(alloc, &self.class_of, &self.members, class)
    }

    /// Splits each class of which some states are marked and some not.
    pub fn split(&mut self, alloc: Global, marked: &NumberSet) -> Result<(), AllocError>
        requires bound { marked.now.bound ≡ length self.old.class_of.items }
        requires classes { AreClasses self.old.members.items self.old.groups.items self.old.sizes.items self.old.class_of.items }
        ensures split { OnOk result (SplitsBy marked.now.found self.old.class_of.items self.new.class_of.items) }
        ensures count { OnOk result (length self.new.class_of.items ≡ length self.old.class_of.items) }
        ensures classes { OnOk result (AreClasses self.new.members.items self.new.groups.items self.new.sizes.items self.new.class_of.items) }
    {
        let touched = self.group(alloc, marked)?;
        self.split_touched(alloc, marked, &touched)?;
        self.clear(&touched);
        Ok(())
    }

    /// Puts each marked state into the group of its class, and gives the classes that have one.
    fn group(&mut self, alloc: Global, marked: &NumberSet) -> Result<Vec<usize>, AllocError>
        requires bound { marked.now.bound ≡ length self.old.class_of.items }
        requires classes { AreClasses self.old.members.items self.old.groups.items self.old.sizes.items self.old.class_of.items }
        ensures class_of { OnOk result (self.new.class_of ≡ self.old.class_of) }
        ensures count { OnOk result (length self.new.members.items ≡ length self.old.members.items) }
        ensures touched { IfOk result (λ touched. All (λ class. class < length self.old.members.items) touched.items) }
        ensures groups { OnOk result (HoldThese self.new.groups.items self.old.class_of.items marked.now.found (length self.old.members.items)) }
        ensures classes { OnOk result (AreClasses self.new.members.items self.new.groups.items self.new.sizes.items self.new.class_of.items) }
    {
        let mut touched = Vec::new(alloc);
        for state in marked.found() {
            let class = self.class_of[*state];
            if self.groups[class].is_empty() {
                touched.push(class)?;
            }
            self.groups[class].push(*state)?;
        }
        Ok(touched)
    }

    /// Splits each of these classes into its marked states and the others.
    fn split_touched(
        &mut self,
        alloc: Global,
        marked: &NumberSet,
        touched: &[usize],
    ) -> Result<(), AllocError>
        requires bound { marked.now.bound ≡ length self.old.class_of.items }
        requires classes { AreClasses self.old.members.items self.old.groups.items self.old.sizes.items self.old.class_of.items }
        requires touched { All (λ class. class < length self.old.members.items) touched.now }
        requires groups { HoldThese self.old.groups.items self.old.class_of.items marked.now.found (length self.old.members.items) }
        ensures split { OnOk result (IsSplit marked.now.found self.old.class_of.items self.new.class_of.items self.old.groups.items self.new.groups.items (length self.old.members.items) (length self.new.members.items)) }
        ensures classes { OnOk result (AreClasses self.new.members.items self.new.groups.items self.new.sizes.items self.new.class_of.items) }
    {
        for number in touched {
            self.split_class(alloc, marked, *number)?;
        }
        Ok(())
    }

    /// Empties the groups of these classes.
    fn clear(&mut self, touched: &[usize])
        requires classes { AreClasses self.old.members.items self.old.groups.items self.old.sizes.items self.old.class_of.items }
        requires touched { All (λ class. class < length self.old.members.items) touched.now }
        ensures class_of { self.new.class_of ≡ self.old.class_of }
        ensures classes { AreClasses self.new.members.items self.new.groups.items self.new.sizes.items self.new.class_of.items }
    {
        for number in touched {
            self.groups[*number].clear();
        }
    }

    /// Splits a class into its marked states and the others. The smaller part gets a new number, and the other one
    /// keeps the class's. A class without marked states, or without others, stays one.
    fn split_class(
        &mut self,
        alloc: Global,
        marked: &NumberSet,
        number: usize,
    ) -> Result<(), AllocError>
        requires bound { marked.now.bound ≡ length self.old.class_of.items }
        requires classes { AreClasses self.old.members.items self.old.groups.items self.old.sizes.items self.old.class_of.items }
        requires number { number < length self.old.members.items }
        requires group { (state : ℕ) → Contains marked.now.found state → slice_get self.old.class_of.items state ≡ Some number → Holds self.old.groups.items number state }
        ensures split { OnOk result (IsSplit marked.now.found self.old.class_of.items self.new.class_of.items self.old.groups.items self.new.groups.items (length self.old.members.items) (length self.new.members.items)) }
        ensures classes { OnOk result (AreClasses self.new.members.items self.new.groups.items self.new.sizes.items self.new.class_of.items) }
    {
        let size = self.sizes[number];
        let part = part_of(alloc, &self.class_of, &self.groups, number, marked, true)?;
        if part.is_empty() || part.len() >= size {
            return Ok(());
        }
        if part.len() <= size / 2 {
            self.add_class(alloc, number, part)?;
            return Ok(());
        }
        let rest = part_of(alloc, &self.class_of, &self.members, number, marked, false)?;
        self.members[number] = part;
        self.add_class(alloc, number, rest)?;
        Ok(())
    }

    /// Makes these states of a class one of their own.
    fn add_class(
        &mut self,
        alloc: Global,
        number: usize,
        part: Vec<usize>,
    ) -> Result<(), AllocError>
        requires number { number < length self.old.members.items }
        requires groups { length self.old.groups.items ≡ length self.old.members.items }
        requires sizes { length self.old.sizes.items ≡ length self.old.members.items }
        requires there { All (λ state. state < length self.old.class_of.items) part.items }
        requires held { (state class : ℕ) → ¬ Contains part.items state → slice_get self.old.class_of.items state ≡ Some class → Holds self.old.members.items class state }
        ensures moved { OnOk result (IsMoved part.items (length self.old.members.items) self.old.class_of.items self.new.class_of.items) }
        ensures groups { OnOk result ((class state : ℕ) → Holds self.old.groups.items class state → Holds self.new.groups.items class state) }
        ensures more { OnOk result (length self.new.members.items ≡ length self.old.members.items + 1) }
        ensures classes { OnOk result (AreClasses self.new.members.items self.new.groups.items self.new.sizes.items self.new.class_of.items) }
    {
        let class = self.members.len();
        move_all(&mut self.class_of, &part, class);
        self.sizes[number] = self.sizes[number].saturating_sub(part.len());
        self.sizes.push(part.len())?;
        self.groups.push(Vec::new(alloc))?;
        self.members.push(part)?;
        Ok(())
    }
}

/// Gives a class to these states.
fn move_all(class_of: &mut Vec<usize>, part: &[usize], class: usize)
    requires { All (λ state. state < length class_of.old.items) part.now }
    ensures { IsMoved part.now class class_of.old.items class_of.new.items }
{
    for state in part {
        class_of[*state] = class;
    }
}

/// Whether a state is in the class.
fn is_in(class_of: &[usize], state: usize, class: usize) -> bool
    ensures { IsTrue result ↔ (slice_get class_of.now state ≡ Some class) }
{
    match class_of.get(state) {
        Some(found) => *found == class,
        None => false,
    }
}

/// Those of the states that are in the class.
fn those_in(
    alloc: Global,
    class_of: &[usize],
    states: &[usize],
    class: usize,
) -> Result<Vec<usize>, AllocError>
    ensures { IfOk result (λ members. (state : ℕ) → Contains members.items state ↔ (Contains states.now state × (slice_get class_of.now state ≡ Some class))) }
{
    let mut members = Vec::new(alloc);
    for state in states {
        if is_in(class_of, *state, class) {
            members.push(*state)?;
        }
    }
    Ok(members)
}

/// The states of the class that stand in its list.
fn members_of(
    alloc: Global,
    class_of: &[usize],
    lists: &[Vec<usize>],
    class: usize,
) -> Result<Vec<usize>, AllocError>
    requires { class < length lists.now }
    ensures { IfOk result (λ members. (state : ℕ) → Contains members.items state ↔ (Holds lists.now class state × (slice_get class_of.now state ≡ Some class))) }
{
    those_in(alloc, class_of, &lists[class], class)
}

/// The states of the class that stand in its list, and are marked or not.
fn part_of(
    alloc: Global,
    class_of: &[usize],
    lists: &[Vec<usize>],
    class: usize,
    marked: &NumberSet,
    are_marked: bool,
) -> Result<Vec<usize>, AllocError>
    requires class { class < length lists.now }
    requires bound { marked.now.bound ≡ length class_of.now }
    ensures { IfOk result (λ part. (state : ℕ) → Contains part.items state ↔ (Holds lists.now class state × ((slice_get class_of.now state ≡ Some class) × (IsTrue are_marked ↔ Contains marked.now.found state)))) }
{
    let members = members_of(alloc, class_of, lists, class)?;
    those_with(alloc, &members, marked, are_marked)
}

/// Those of the states that are marked, or those that aren't.
fn those_with(
    alloc: Global,
    states: &[usize],
    marked: &NumberSet,
    are_marked: bool,
) -> Result<Vec<usize>, AllocError>
    requires { All (λ state. state < marked.now.bound) states.now }
    ensures { IfOk result (λ part. (state : ℕ) → Contains part.items state ↔ (Contains states.now state × (IsTrue are_marked ↔ Contains marked.now.found state))) }
{
    let mut part = Vec::new(alloc);
    for state in states {
        if is_as(marked, *state, are_marked) {
            part.push(*state)?;
        }
    }
    Ok(part)
}

/// Whether a state is marked, or whether it isn't.
fn is_as(marked: &NumberSet, state: usize, is_marked: bool) -> bool
    requires { state < marked.now.bound }
    ensures { IsTrue result ↔ (IsTrue is_marked ↔ Contains marked.now.found state) }
{
    marked.contains(state) == is_marked
}

/// The numbers below a bound.
fn numbers_below(alloc: Global, bound: usize) -> Result<Vec<usize>, AllocError>
    ensures { IfOk result (λ numbers. (number : ℕ) → number < bound → Contains numbers.items number) }
{
    let mut numbers = Vec::with_capacity(alloc, bound)?;
    for number in 0..bound {
        numbers.push(number)?;
    }
    Ok(numbers)
}
