ghost use Rattle.std.specs.Prelude.{◌≡◌, ◌≢◌, ◌↔◌, IfOk, IsTrue, List, [], ◌∷◌, Option, Some, Contains};
ghost use Rattle.fsm_base.specs.declared.letters.Pair.{Pair};
ghost use Rattle.word_relations.specs.Words.{IsDistinct, IsOver};
ghost use Rattle.fsa.specs.Complete.{Accepts};
ghost use Rattle.lang_algebra.specs.Languages.{IsLang};
ghost use Rattle.regex_ast.specs.declared.twolc.RuleKind.{RuleKind};
ghost use Rattle.two_level.specs.Marks.{IsPlaceWhere, marked_letters, place_between};
ghost use Rattle.two_level.specs.Rules.{Holds, IsOther, IsRuleOver, Keeps, KeepsPair, StandsNowhere};

use crate::marks::{MarkedLetter, filled_rows};
use crate::places::places_in;
use crate::rule::LangRule;
use fsa_rational::image;
use fsm_base::Pair;
use lang_algebra::Lang;
use regex_ast::RuleKind;
use std::alloc::{AllocError, Global};

/// The strings of these pairs that keep a rule. Every place in such strings is given.
pub fn kept(
    alloc: Global,
    pairs: &[Pair],
    every: &Lang<MarkedLetter>,
    rule: &LangRule,
) -> Result<Lang<Pair>, AllocError>
    requires distinct { IsDistinct pairs.now }
    requires every { IsLang (marked_letters pairs.now) (IsPlaceWhere pairs.now (λ x z. Unit {0})) every.now }
    requires rule { IsRuleOver pairs.now rule.now }
    ensures { IfOk result (IsLang pairs.now (λ p. IsOver pairs.now p × Keeps p rule.now)) }
{
    let holding = places_in(alloc, pairs, every, &rule.contexts)?;
    match rule.kind {
        RuleKind::Only => kept_only(alloc, pairs, every, &holding, rule),
        RuleKind::Must => kept_must(alloc, pairs, &holding, rule),
        RuleKind::Both => {
            let only = kept_only(alloc, pairs, every, &holding, rule)?;
            let must = kept_must(alloc, pairs, &holding, rule)?;
            only.both(alloc, &must)
        }
        RuleKind::Never => kept_never(alloc, pairs, &holding, rule),
    }
}

/// The strings of these pairs in which the pair of a rule stands only where one of its contexts holds.
fn kept_only(
    alloc: Global,
    pairs: &[Pair],
    every: &Lang<MarkedLetter>,
    holding: &Lang<MarkedLetter>,
    rule: &LangRule,
) -> Result<Lang<Pair>, AllocError>
    requires distinct { IsDistinct pairs.now }
    requires every { IsLang (marked_letters pairs.now) (IsPlaceWhere pairs.now (λ x z. Unit {0})) every.now }
    requires holding { IsLang (marked_letters pairs.now) (IsPlaceWhere pairs.now (Holds rule.now.contexts.items)) holding.now }
    requires pair { Contains pairs.now rule.now.pair }
    ensures { IfOk result (IsLang pairs.now (λ p. IsOver pairs.now p × KeepsPair RuleKind.Only rule.now.pair rule.now.contexts.items p)) }
{
    let lacking = every.minus(alloc, holding)?;
    standing_nowhere(alloc, pairs, &lacking, &[Some(rule.pair)])
}

/// The strings of these pairs in which, where a context of a rule holds, no other pair with the upper symbol of its pair stands,
/// and not nothing where that pair inserts.
fn kept_must(
    alloc: Global,
    pairs: &[Pair],
    holding: &Lang<MarkedLetter>,
    rule: &LangRule,
) -> Result<Lang<Pair>, AllocError>
    requires distinct { IsDistinct pairs.now }
    requires holding { IsLang (marked_letters pairs.now) (IsPlaceWhere pairs.now (Holds rule.now.contexts.items)) holding.now }
    ensures { IfOk result (IsLang pairs.now (λ p. IsOver pairs.now p × KeepsPair RuleKind.Must rule.now.pair rule.now.contexts.items p)) }
{
    let others = others_than(alloc, pairs, rule.pair)?;
    standing_nowhere(alloc, pairs, holding, &others)
}

/// The strings of these pairs in which the pair of a rule stands where none of its contexts holds.
fn kept_never(
    alloc: Global,
    pairs: &[Pair],
    holding: &Lang<MarkedLetter>,
    rule: &LangRule,
) -> Result<Lang<Pair>, AllocError>
    requires distinct { IsDistinct pairs.now }
    requires holding { IsLang (marked_letters pairs.now) (IsPlaceWhere pairs.now (Holds rule.now.contexts.items)) holding.now }
    requires pair { Contains pairs.now rule.now.pair }
    ensures { IfOk result (IsLang pairs.now (λ p. IsOver pairs.now p × KeepsPair RuleKind.Never rule.now.pair rule.now.contexts.items p)) }
{
    standing_nowhere(alloc, pairs, holding, &[Some(rule.pair)])
}

/// Whether a pair has the upper symbol of another, and not its lower one.
fn is_other(other: Pair, pair: Pair) -> bool
    ensures { IsTrue result ↔ ((other.up ≡ pair.up) × (other.low ≢ pair.low)) }
{
    other.up == pair.up && other.low != pair.low
}

/// The other pairs with the upper symbol of a pair, and nothing where the pair inserts.
fn others_than(alloc: Global, pairs: &[Pair], pair: Pair) -> Result<Vec<Option<Pair>>, AllocError>
    ensures { IfOk result (λ others. (filling : Option Pair) → Contains others.items filling ↔ IsOther pairs.now pair filling) }
{
    let mut others = Vec::new(alloc);
    for other in pairs {
        if is_other(*other, pair) {
            others.push(Some(*other))?;
        }
    }
    if pair.up.is_none() {
        others.push(None)?;
    }
    Ok(others)
}

/// The strings of these pairs in which none of the fillings stands at one of the places.
fn standing_nowhere(
    alloc: Global,
    pairs: &[Pair],
    places: &Lang<MarkedLetter>,
    fillings: &[Option<Pair>],
) -> Result<Lang<Pair>, AllocError>
    requires distinct { IsDistinct pairs.now }
    requires letters { places.now.letters ≡ marked_letters pairs.now }
    requires places { (v : List MarkedLetter) → Accepts places.now v → IsPlaceWhere pairs.now (λ x z. Unit {0}) v }
    requires fillings { (x : Pair) → Contains fillings.now (Some x) → Contains pairs.now x }
    ensures { IfOk result (IsLang pairs.now (λ p. IsOver pairs.now p × StandsNowhere (Contains fillings.now) (λ x z. Accepts places.now (place_between x z)) p)) }
{
    let rows = filled_rows(alloc, pairs, fillings)?;
    let wrong = image(alloc, &places.to_fsa(alloc)?, &rows)?;
    Lang::of(alloc, pairs, &wrong)?.complement(alloc)
}
