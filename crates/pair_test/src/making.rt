ghost use Rattle.std.specs.Prelude.{◌≡◌, Contains, IfOk};
ghost use Rattle.fsm_base.specs.declared.letters.Bound.{Bound};
ghost use Rattle.fsm_base.specs.declared.letters.Pair.{Pair};
ghost use Rattle.word_relations.specs.Words.{IsDistinct};
ghost use Rattle.two_level.specs.declared.rule.LangRule.{LangRule};
ghost use Rattle.two_level.specs.declared.rule.PairContext.{PairContext};
ghost use Rattle.pair_test.specs.Ready.{IsContextTest, IsRuleTest, IsWithin, Pairwise};

use crate::ending::ends_in;
use crate::ready::{ContextTest, RuleTest};
use fsa_rational::reverse;
use fsm_base::{Bound, Pair};
use std::alloc::{AllocError, Global};
use two_level::{LangRule, PairContext};

/// The test of a context, by automata over these letters.
fn context_test(
    alloc: Global,
    letters: &[Bound<Pair>],
    context: &PairContext,
) -> Result<ContextTest, AllocError>
    requires distinct { IsDistinct letters.now }
    requires within { IsWithin letters.now context.now }
    ensures { IfOk result (IsContextTest letters.now context.now) }
{
    let left = context.left.to_fsa(alloc)?;
    let right = context.right.to_fsa(alloc)?;
    let turned = reverse(alloc, &right)?;
    let before = ends_in(alloc, letters, &left)?;
    let behind = ends_in(alloc, letters, &turned)?;
    Ok(ContextTest { before, behind })
}

/// The tests of contexts.
fn context_tests(
    alloc: Global,
    letters: &[Bound<Pair>],
    contexts: &[PairContext],
) -> Result<Vec<ContextTest>, AllocError>
    requires distinct { IsDistinct letters.now }
    requires within { (c : PairContext) → Contains contexts.now c → IsWithin letters.now c }
    ensures { IfOk result (λ tests. Pairwise (IsContextTest letters.now) contexts.now tests.items) }
{
    let mut tests = Vec::new(alloc);
    'contexts: for context in contexts {
        tests.push(context_test(alloc, letters, context)?)?;
    }
    Ok(tests)
}

/// The tests of rules.
pub fn rule_tests(
    alloc: Global,
    letters: &[Bound<Pair>],
    rules: &[LangRule],
) -> Result<Vec<RuleTest>, AllocError>
    requires distinct { IsDistinct letters.now }
    requires within { (r : LangRule) → Contains rules.now r → (c : PairContext) → Contains r.contexts.items c → IsWithin letters.now c }
    ensures { IfOk result (λ tests. Pairwise (IsRuleTest letters.now) rules.now tests.items) }
{
    let mut tests = Vec::new(alloc);
    'rules: for rule in rules {
        tests.push(RuleTest {
            pair: rule.pair,
            kind: rule.kind,
            contexts: context_tests(alloc, letters, &rule.contexts)?,
        })?;
    }
    Ok(tests)
}
