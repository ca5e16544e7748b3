ghost use Rattle.std.specs.Prelude.{◌↔◌, IfOk, List, Contains};
ghost use Rattle.fsm_base.specs.declared.letters.Pair.{Pair};
ghost use Rattle.word_relations.specs.Words.{IsDistinct, IsOver};
ghost use Rattle.word_relations.specs.Relations.{AreSame};
ghost use Rattle.fsa.specs.Language.{Accepts};
ghost use Rattle.fst_algebra.specs.Relation.{IsRelated};
ghost use Rattle.lang_algebra.specs.Languages.{IsLang};
ghost use Rattle.network_algebra.specs.Networks.{UsesOnly};
ghost use Rattle.two_level.specs.Rules.{GrammarRelates, IsRuleOver, KeepsAll};
ghost use Rattle.two_level.specs.declared.rule.LangRule.{LangRule};

use crate::places::{any_of, every_place};
use crate::rule::LangRule;
use crate::rules::kept;
use fsa::Fsa;
use fsm_base::Pair;
use lang_algebra::Lang;
use std::alloc::{AllocError, Global};

/// The transducer of a grammar over its feasible pairs. Its strings of pairs are those that keep each rule, so that it relates
/// the two sides of each, without zeros. The letters of the rules' contexts are some or all of [`every_letter`](crate::every_letter)
/// of the pairs. The rules are taken one after another, and what is left is made small after each.
pub fn grammar(alloc: Global, pairs: &[Pair], rules: &[LangRule]) -> Result<Fsa<Pair>, AllocError>
    requires distinct { IsDistinct pairs.now }
    requires rules { (r : LangRule) → Contains rules.now r → IsRuleOver pairs.now r }
    ensures pairs { IfOk result (UsesOnly pairs.now) }
    ensures strings { IfOk result (λ m. (p : List Pair) → Accepts m p ↔ KeepsAll pairs.now rules.now p) }
    ensures relation { IfOk result (λ m. AreSame (IsRelated m) (GrammarRelates pairs.now rules.now)) }
{
    let every = every_place(alloc, pairs)?;
    let mut strings = every_string(alloc, pairs)?;
    for rule in rules {
        strings = strings.both(alloc, &kept(alloc, pairs, &every, rule)?)?;
    }
    strings.to_fsa(alloc)
}

/// All strings of these pairs.
fn every_string(alloc: Global, pairs: &[Pair]) -> Result<Lang<Pair>, AllocError>
    requires { IsDistinct pairs.now }
    ensures { IfOk result (IsLang pairs.now (IsOver pairs.now)) }
{
    Lang::of(alloc, pairs, &any_of(alloc, pairs)?)
}
