ghost use Rattle.std.specs.Prelude.{◌≡◌, ◌⊎◌, ◌&&◌, ◌+◌, ◌-◌, ◌<◌, ◌≤◌, true, Contains, IfOk, OnOk, if◌then◌else◌, length, set};
ghost use Rattle.std.specs.Vec.{vec_len};
ghost use Rattle.pair_test.specs.Marks.{AreMarks, IsLeastFound, IsMarked};
ghost use Rattle.pair_test.specs.Tests.{Fits, HoldsRound, IsBrokenBy, IsMarkedOr};
ghost use Rattle.pair_test.specs.declared.ready.ContextTest.{ContextTest};

use crate::marks::beginnings;
use crate::ready::{ContextTest, RuleTest};
use crate::spelled::Spelled;
use crate::splits::{earlier, first_gap, first_pair, is_barred};
use std::alloc::{AllocError, Global};

/// Marks a place where both hold.
fn mark_where(marks: &mut Vec<bool>, place: usize, first: bool, second: bool)
    requires { place < vec_len marks.old }
    ensures { marks.new.items ≡ (if first && second then set marks.old.items place true else marks.old.items) }
{
    if first && second {
        marks[place] = true;
    }
}

/// Marks the places at which a context holds: where its left part is marked, counted from the beginning, and its right part,
/// counted from the end.
fn mark_both(before: &[bool], behind: &[bool], count: usize, marks: &mut Vec<bool>)
    requires count { vec_len marks.old ≡ count }
    requires before { count ≤ length before.now }
    requires behind { count ≤ length behind.now }
    ensures { AreMarks (λ k. IsMarked marks.old.items k ⊎ (IsMarked before.now k × IsMarked behind.now (count - 1 - k))) count marks.new.items }
{
    'places: for place in 0..count {
        mark_where(marks, place, before[place], behind[count - 1 - place]);
    }
}

/// Marks the fillings of a width, 1 for a pair and 0 for a gap, round which a context holds.
fn mark_context(
    alloc: Global,
    context: &ContextTest,
    spelled: &Spelled,
    width: usize,
    marks: &mut Vec<bool>,
) -> Result<(), AllocError>
    requires fits { Fits spelled.now context.now }
    requires count { length marks.old.items + width ≡ length spelled.now.word.now + 1 }
    ensures { OnOk result (AreMarks (IsMarkedOr spelled.now.word.now width marks.old.items context.now) (length marks.old.items) marks.new.items) }
{
    let before = beginnings(alloc, &context.before, &spelled.forwards)?;
    let behind = beginnings(alloc, &context.behind, &spelled.backwards)?;
    let count = marks.len();
    mark_both(&before, &behind, count, marks);
    Ok(())
}

/// So many places, none of them marked.
fn unmarked(alloc: Global, count: usize) -> Result<Vec<bool>, AllocError>
    ensures { IfOk result (λ marks. AreMarks (λ k. ⊥) count marks.items) }
{
    vec![in alloc; false; count]
}

/// Of each filling of a width, by how many pairs stand before it, whether one of the contexts holds round it.
fn holding(
    alloc: Global,
    contexts: &[ContextTest],
    spelled: &Spelled,
    width: usize,
) -> Result<Vec<bool>, AllocError>
    requires fits { (t : ContextTest) → Contains contexts.now t → Fits spelled.now t }
    requires width { width ≤ 1 }
    requires letters { length spelled.now.forwards.items ≡ length spelled.now.word.now + 1 }
    ensures { IfOk result (λ marks. AreMarks (HoldsRound contexts.now spelled.now.word.now width) (length spelled.now.word.now + 1 - width) marks.items) }
{
    let mut marks = unmarked(alloc, spelled.forwards.len() - width)?;
    'contexts: for context in contexts {
        mark_context(alloc, context, spelled, width, &mut marks)?;
    }
    Ok(marks)
}

/// How many pairs stand before the first place at which a string breaks a rule, if it breaks it.
pub fn first_broken(
    alloc: Global,
    rule: &RuleTest,
    spelled: &Spelled,
) -> Result<Option<usize>, AllocError>
    requires fits { (t : ContextTest) → Contains rule.now.contexts.items t → Fits spelled.now t }
    requires letters { length spelled.now.forwards.items ≡ length spelled.now.word.now + 1 }
    ensures { IfOk result (IsLeastFound (λ k. IsBrokenBy spelled.now.word.now rule.now (k + 1))) }
{
    let over_pairs = holding(alloc, &rule.contexts, spelled, 1)?;
    let pair = first_pair(rule, spelled.word, &over_pairs);
    if !is_barred(rule, None) {
        return Ok(pair);
    }
    let over_gaps = holding(alloc, &rule.contexts, spelled, 0)?;
    Ok(earlier(pair, first_gap(rule, &over_gaps)))
}
