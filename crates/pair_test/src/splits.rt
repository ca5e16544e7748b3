ghost use Rattle.std.specs.Prelude.{◌≡◌, ◌↔◌, ◌<◌, IsTrue, Some, None, length, slice_get};
ghost use Rattle.fsm_base.specs.declared.letters.Pair.{Pair};
ghost use Rattle.pair_test.specs.Marks.{IsLeastFound, IsMarked, earliest};
ghost use Rattle.pair_test.specs.Splits.{IsBarred, IsOther, NeedsContext};
ghost use Rattle.pair_test.specs.Tests.{IsBadFor};

use crate::ready::RuleTest;
use fsm_base::Pair;
use regex_ast::RuleKind;

/// Whether a rule asks that a filling has a context.
fn needs_context(rule: &RuleTest, filling: Option<Pair>) -> bool
    ensures { IsTrue result ↔ NeedsContext rule.now.kind rule.now.pair filling }
{
    match rule.kind {
        RuleKind::Only | RuleKind::Both => filling == Some(rule.pair),
        RuleKind::Must | RuleKind::Never => false,
    }
}

/// Whether a filling is another pair with the same upper symbol, or nothing where a pair inserts.
fn is_other(centre: Pair, filling: Option<Pair>) -> bool
    ensures { IsTrue result ↔ IsOther (λ x. x.up) (λ x. x.low) centre filling }
{
    match filling {
        Some(other) => other.up == centre.up && other.low != centre.low,
        None => centre.up.is_none(),
    }
}

/// Whether a rule bars a filling from its contexts.
pub fn is_barred(rule: &RuleTest, filling: Option<Pair>) -> bool
    ensures { IsTrue result ↔ IsBarred (λ x. x.up) (λ x. x.low) rule.now.kind rule.now.pair filling }
{
    match rule.kind {
        RuleKind::Only => false,
        RuleKind::Must | RuleKind::Both => is_other(rule.pair, filling),
        RuleKind::Never => filling == Some(rule.pair),
    }
}

/// Whether a filling is bad for a rule, where one of its contexts holds or none.
fn is_bad(rule: &RuleTest, filling: Option<Pair>, in_context: bool) -> bool
    ensures { IsTrue result ↔ IsBadFor rule.now filling (IsTrue in_context) }
{
    if in_context {
        is_barred(rule, filling)
    } else {
        needs_context(rule, filling)
    }
}

/// How many pairs stand before the first pair of a string that is bad for a rule. Of each pair it is marked whether a context holds
/// round it.
pub fn first_pair(rule: &RuleTest, word: &[Pair], holding: &[bool]) -> Option<usize>
    requires { length holding.now ≡ length word.now }
    ensures { IsLeastFound (λ k. (x : Pair) × (slice_get word.now k ≡ Some x) × IsBadFor rule.now (Some x) (IsMarked holding.now k)) result }
{
    'pairs: for (place, pair) in word.iter().enumerate() {
        if is_bad(rule, Some(*pair), holding[place]) {
            return Some(place);
        }
    }
    None
}

/// How many pairs stand before the first gap that is bad for a rule. Of each gap it is marked whether a context holds round it.
pub fn first_gap(rule: &RuleTest, holding: &[bool]) -> Option<usize>
    ensures { IsLeastFound (λ k. (k < length holding.now) × IsBadFor rule.now None (IsMarked holding.now k)) result }
{
    'gaps: for (place, holds) in holding.iter().enumerate() {
        if is_bad(rule, None, *holds) {
            return Some(place);
        }
    }
    None
}

/// The lesser of two numbers, where there are any.
pub fn earlier(first: Option<usize>, second: Option<usize>) -> Option<usize>
    ensures { result ≡ earliest first second }
{
    match (first, second) {
        (Some(a), Some(b)) => Some(a.min(b)),
        (Some(a), None) => Some(a),
        (None, b) => b,
    }
}
