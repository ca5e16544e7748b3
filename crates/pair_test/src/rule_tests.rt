ghost use Rattle.std.specs.Prelude.{◌+◌, ◌<◌, ◌^◌, Contains, IfOk, List, length};
ghost use Rattle.fsm_base.specs.declared.letters.Pair.{Pair};
ghost use Rattle.word_relations.specs.Words.{IsOver};
ghost use Rattle.two_level.specs.Rules.{IsRuleOver};
ghost use Rattle.two_level.specs.declared.rule.LangRule.{LangRule};
ghost use Rattle.pair_test.specs.Ready.{AreTests};
ghost use Rattle.pair_test.specs.Rules.{IsVerdictOn};

use crate::letters::letters_of;
use crate::making::rule_tests;
use crate::ready::RuleTest;
use crate::spelling::{set_of, spelled_by};
use crate::testing::first_of;
use crate::verdict::Verdict;
use fsm_base::Pair;
use indexmap::IndexSet;
use std::alloc::{AllocError, Global};
use std::marker::Model;
use two_level::LangRule;

/// The rules of a grammar, ready to be tried on many strings. Contracts see the feasible pairs, each once, and the tests of the
/// rules in their order.
#[derive(Drop)]
pub struct RuleTests {
    /// The feasible pairs.
    pairs: IndexSet<Pair>,
    /// The tests of the rules.
    rules: Vec<RuleTest>,
}

impl Model for RuleTests {
    ghost use Rattle.pair_test.specs.Ready.{AreOverPairs, TestsView};

    ghost Value = { TestsView };

    ghost view = { λ tests. record { pairs = tests.pairs.keys; rules = tests.rules.items } };

    ghost invariant = { λ tests. AreOverPairs (record { pairs = tests.pairs.keys; rules = tests.rules.items }) };
}

impl RuleTests {
    /// The tests of rules on strings of these pairs. Each context is made into two automata, once.
    pub fn of(alloc: Global, pairs: &[Pair], rules: &[LangRule]) -> Result<RuleTests, AllocError>
        requires { (r : LangRule) → Contains rules.now r → IsRuleOver pairs.now r }
        ensures { IfOk result (AreTests pairs.now rules.now) }
    {
        let set = set_of(alloc, pairs)?;
        let letters = letters_of(alloc, set.as_slice())?;
        let tests = rule_tests(alloc, &letters, rules)?;
        Ok(RuleTests {
            pairs: set,
            rules: tests,
        })
    }

    /// What becomes of a string of the pairs: the first rule that it breaks with the first place at which it does, or that it
    /// passes. Takes time in proportion to the string's length times the number of contexts.
    pub fn verdict(&self, alloc: Global, word: &[Pair]) -> Result<Verdict, AllocError>
        requires over { IsOver self.now.pairs word.now }
        requires few_rules { length self.now.rules < 2 ^ 32 }
        requires few_pairs { length word.now + 1 < 2 ^ 32 }
        ensures { IfOk result (λ verdict. (pairs : List Pair) (rules : List LangRule) → AreTests pairs rules self.now → IsVerdictOn rules word.now verdict) }
    {
        let spelled = spelled_by(alloc, &self.pairs, word)?;
        first_of(alloc, &self.rules, &spelled)
    }
}

/// What becomes of one string of these pairs. Rules and places are counted from 1. For many strings the rules are made ready once,
/// as [`RuleTests`].
///
/// # Errors
///
/// Where there was no memory.
pub fn test(
    alloc: Global,
    pairs: &[Pair],
    rules: &[LangRule],
    word: &[Pair],
) -> Result<Verdict, AllocError>
    requires rules { (r : LangRule) → Contains rules.now r → IsRuleOver pairs.now r }
    requires word { IsOver pairs.now word.now }
    requires few_rules { length rules.now < 2 ^ 32 }
    requires few_pairs { length word.now + 1 < 2 ^ 32 }
    ensures { IfOk result (IsVerdictOn rules.now word.now) }
{
    let tests = RuleTests::of(alloc, pairs, rules)?;
    tests.verdict(alloc, word)
}
