ghost use Rattle.std.specs.Prelude.{◌≡◌, IfOk, IfSome, Contains};
ghost use Rattle.fsm_base.specs.declared.letters.Pair.{Pair};
ghost use Rattle.word_relations.specs.Words.{IsDistinct};
ghost use Rattle.two_level.specs.Rules.{IsContextOver, IsRuleOver};
ghost use Rattle.two_level.specs.declared.rule.LangRule.{LangRule};
ghost use Rattle.two_level.specs.declared.rule.PairContext.{PairContext};

use crate::grammar_atoms::part_of;
use crate::grammar_symbols::pair_of;
use crate::symbols::Symbols;
use fsa::place_of;
use fsm_base::Pair;
use lang_algebra::Lang;
use std::alloc::{AllocError, Global};
use two_level::{LangRule, PairContext, RuleKind, every_letter};

/// The rules of a text. One that is about another pair than these is left out.
pub fn rules_of(
    alloc: Global,
    symbols: &Symbols,
    pairs: &[Pair],
    text: &str,
) -> Result<Vec<LangRule>, AllocError>
    requires { IsDistinct pairs.now }
    ensures { IfOk result (λ rules. (r : LangRule) → Contains rules.items r → IsRuleOver pairs.now r) }
{
    let mut rules = Vec::new(alloc);
    'rules: for text in text.split(';') {
        if let Some(rule) = rule_of(alloc, symbols, pairs, text)? {
            rules.push(rule)?;
        }
    }
    Ok(rules)
}

/// The kind of rule that an arrow is, if it is one.
fn kind_of(arrow: &str) -> Option<RuleKind> {
    match arrow {
        "=>" => Some(RuleKind::Only),
        "<=" => Some(RuleKind::Must),
        "<=>" => Some(RuleKind::Both),
        "/<=" => Some(RuleKind::Never),
        _ => None,
    }
}

/// The rule of a text, if it is one about one of these pairs.
fn rule_of(
    alloc: Global,
    symbols: &Symbols,
    pairs: &[Pair],
    text: &str,
) -> Result<Option<LangRule>, AllocError>
    requires { IsDistinct pairs.now }
    ensures { IfOk result (λ found. IfSome found (IsRuleOver pairs.now)) }
{
    let (centre, rest) = text.trim_ascii().split_once(' ').unwrap_or((text, ""));
    let (arrow, contexts) = rest.split_once(' ').unwrap_or((rest, ""));
    let pair = pair_of(symbols, centre);
    let Some(kind) = kind_of(arrow) else {
        return Ok(None);
    };
    if place_of(pairs, pair).is_none() {
        return Ok(None);
    }
    let contexts = contexts_of(alloc, symbols, pairs, contexts)?;
    Ok(Some(LangRule {
        pair,
        kind,
        contexts,
    }))
}

/// The contexts of a text.
fn contexts_of(
    alloc: Global,
    symbols: &Symbols,
    pairs: &[Pair],
    text: &str,
) -> Result<Vec<PairContext>, AllocError>
    requires { IsDistinct pairs.now }
    ensures { IfOk result (λ contexts. (c : PairContext) → Contains contexts.items c → IsContextOver pairs.now c) }
{
    let mut contexts = Vec::new(alloc);
    'contexts: for text in text.split(',') {
        contexts.push(context_of(alloc, symbols, pairs, text)?)?;
    }
    Ok(contexts)
}

/// The context of a text.
fn context_of(
    alloc: Global,
    symbols: &Symbols,
    pairs: &[Pair],
    text: &str,
) -> Result<PairContext, AllocError>
    requires { IsDistinct pairs.now }
    ensures { IfOk result (IsContextOver pairs.now) }
{
    let (left, right) = text.split_once('_').unwrap_or((text, ""));
    let letters = every_letter(alloc, pairs)?;
    let left = Lang::of(alloc, &letters, &part_of(alloc, symbols, &letters, left)?)?;
    let right = Lang::of(alloc, &letters, &part_of(alloc, symbols, &letters, right)?)?;
    Ok(PairContext { left, right })
}
