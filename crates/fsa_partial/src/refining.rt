ghost use Rattle.std.specs.Prelude.{◌≡◌, ◌<◌, ℕ, List, [], Some, slice_get, IfOk, IfSome, OnOk, Contains, length, map};
ghost use Rattle.std.specs.Prelude.{if◌then◌else◌, IsTrue};
ghost use Rattle.word_relations.specs.Words.{IsDistinct};
ghost use Rattle.std.specs.Prelude.{Vec};
ghost use Rattle.std.specs.Global.{Global};
ghost use Rattle.fsa_partial.specs.declared.grouping.Arc.{Arc};
ghost use Rattle.fsa_partial.specs.Groups.{AreGroups};
ghost use Rattle.fsa_partial.specs.Minimal.{IsDeterministic};
ghost use Rattle.fsa_partial.specs.Splitting.{AreBelow, AreByClasses, IsMoved, IsSplit, AreLive, ClassesAreApart};

use crate::grouping::Arc;
use crate::pairs::{ClassPair, PairTable};
use fsa::Fsa;
use fsm_base::Letter;
use indexmap::IndexSet;
use std::alloc::{AllocError, Global};

/// Classes of states that go on alike, or None where more than so many passes are needed to find them. The final
/// states are one class at first and the others another one, and each pass splits the classes by the letters of
/// the edges that leave a state and the classes that these lead to (Moore, Gedanken-experiments on Sequential Machines,
/// 1956), until no class is split any more.
pub fn refined<L: Letter>(
    alloc: Global,
    m: &Fsa<L>,
    groups: &[Vec<Arc>],
    passes: usize,
) -> Result<Option<Vec<usize>>, AllocError>
    requires { AreGroups m.now.edges groups.now }
    ensures count { IfOk result (λ found. IfSome found (λ classes. length classes.items ≡ length m.now.finals)) }
    ensures apart { IfOk result (λ found. IfSome found (λ classes. IsDeterministic m.now → AreLive m.now → ClassesAreApart m.now classes.items)) }
{
    let mut classes = classes_by_end(alloc, m.finals())?;
    let mut count = count_of(alloc, &classes)?;
    let mut first = 2;
    for _pass in 0..passes {
        let (next, next_first) = split(alloc, &classes, &classes, groups, first)?;
        let next_count = count_of(alloc, &next)?;
        let is_last = next_count == count || next_count == m.states();
        classes = next;
        count = next_count;
        first = next_first;
        if is_last {
            return Ok(Some(classes));
        }
    }
    Ok(None)
}

/// The final states in class 1, and the others in class 0.
pub fn classes_by_end(alloc: Global, finals: &[bool]) -> Result<Vec<usize>, AllocError>
    ensures { IfOk result (λ classes. classes.items ≡ map (λ is_final. if is_final then 1 else 0) finals.now) }
{
    let mut classes = Vec::with_capacity(alloc, finals.len())?;
    for is_final in finals {
        classes.push(if *is_final { 1 } else { 0 })?;
    }
    Ok(classes)
}

/// How many numbers there are, each counted once.
fn count_of(alloc: Global, numbers: &[usize]) -> Result<usize, AllocError> {
    let mut met = IndexSet::new(alloc);
    for number in numbers {
        met.insert(*number)?;
    }
    Ok(met.len())
}

/// Whether each number stands there once.
pub fn are_distinct(alloc: Global, numbers: &[usize]) -> Result<bool, AllocError>
    ensures { IfOk result (λ are. IsTrue are → IsDistinct numbers.now) }
{
    let mut met = IndexSet::new(alloc);
    for number in numbers {
        if !met.insert(*number)? {
            return Ok(false);
        }
    }
    Ok(true)
}

/// The classes, split by the edges of each letter and the targets' classes that these lead to, and the number from which on
/// none is used.
pub fn split(
    alloc: Global,
    start: &[usize],
    targets: &[usize],
    groups: &[Vec<Arc>],
    first: usize,
) -> Result<(Vec<usize>, usize), AllocError>
    requires count { length targets.now ≡ length start.now }
    requires below { (arcs : Vec Arc Global) → Contains groups.now arcs → AreBelow arcs.items (length start.now) }
    ensures count { IfOk result (λ r. length r.0.items ≡ length start.now) }
    ensures split { IfOk result (λ r. IsSplit targets.now groups.now start.now r.0.items) }
{
    let mut classes = Vec::from_slice(alloc, start)?;
    let mut next = first;
    for arcs in groups {
        next = split_by(alloc, &mut classes, targets, arcs, next)?;
    }
    Ok((classes, next))
}

/// Splits the classes by the edges of one letter. Gives the number from which on none is used.
fn split_by(
    alloc: Global,
    classes: &mut Vec<usize>,
    targets: &[usize],
    arcs: &[Arc],
    first: usize,
) -> Result<usize, AllocError>
    requires count { length targets.now ≡ length classes.old.items }
    requires below { AreBelow arcs.now (length classes.old.items) }
    ensures numbers { OnOk result ((numbers : List ℕ) × AreByClasses classes.old.items targets.now arcs.now numbers × IsMoved arcs.now numbers classes.old.items classes.new.items) }
{
    let mut pairs = PairTable::new(alloc);
    let numbers = numbers_of(alloc, &mut pairs, classes, targets, arcs, first)?;
    move_all(classes, arcs, &numbers);
    Ok(first.wrapping_add(pairs.len()))
}

/// A number for each edge, from the first one on: the same for edges that lead between the same classes.
fn numbers_of(
    alloc: Global,
    pairs: &mut PairTable,
    classes: &[usize],
    targets: &[usize],
    arcs: &[Arc],
    first: usize,
) -> Result<Vec<usize>, AllocError>
    requires empty { pairs.old ≡ [] }
    requires count { length targets.now ≡ length classes.now }
    requires below { AreBelow arcs.now (length classes.now) }
    ensures { IfOk result (λ numbers. AreByClasses classes.now targets.now arcs.now numbers.items) }
{
    let mut numbers = Vec::with_capacity(alloc, arcs.len())?;
    for arc in arcs {
        let number = pairs.number_of(pair_of(classes, targets, *arc))?;
        numbers.push(first.wrapping_add(number))?;
    }
    Ok(numbers)
}

/// The classes between which an edge leads.
fn pair_of(classes: &[usize], targets: &[usize], arc: Arc) -> ClassPair
    requires from { arc.from < length classes.now }
    requires to { arc.to < length targets.now }
    ensures from { slice_get classes.now arc.from ≡ Some result.from }
    ensures to { slice_get targets.now arc.to ≡ Some result.to }
{
    ClassPair {
        from: classes[arc.from],
        to: targets[arc.to],
    }
}

/// Gives the states that the edges leave the numbers of these as classes.
fn move_all(classes: &mut Vec<usize>, arcs: &[Arc], numbers: &[usize])
    requires below { AreBelow arcs.now (length classes.old.items) }
    requires count { length numbers.now ≡ length arcs.now }
    ensures { IsMoved arcs.now numbers.now classes.old.items classes.new.items }
{
    for (place, arc) in arcs.iter().enumerate() {
        classes[arc.from] = numbers[place];
    }
}
