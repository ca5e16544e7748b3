ghost use Rattle.std.specs.Prelude.{◌≡◌, ◌↔◌, IfOk, List, [], ◌∷◌, ◌++◌, Contains};
ghost use Rattle.fsm_base.specs.declared.letters.Pair.{Pair};
ghost use Rattle.fsm_base.specs.declared.letters.Bound.{Bound};
ghost use Rattle.word_relations.specs.Words.{IsDistinct, IsOver};
ghost use Rattle.fsa.specs.Complete as complete;
ghost use Rattle.fsa.specs.Language.{Accepts};
ghost use Rattle.lang_algebra.specs.Languages.{IsLang};
ghost use Rattle.expr_meaning.specs.Operators.{HasPrefix, HasSuffix};
ghost use Rattle.network_algebra.specs.Networks.{UsesOnly, all_letters};
ghost use Rattle.two_level.specs.Marks.{IsPlaceWhere, marked, marked_letters, place_between};
ghost use Rattle.two_level.specs.Rules.{Holds, IsContextOver};
ghost use Rattle.two_level.specs.declared.rule.PairContext.{PairContext};

use crate::marks::{
    MarkedLetter, every_letter, every_marked_letter, inner_letters, marked_strings,
};
use crate::rule::PairContext;
use fsa::Fsa;
use fsa_rational::{concat, star, union};
use fsm_base::{Bound, Letter, Pair};
use lang_algebra::{Lang, one_letter};
use network_algebra::word;
use std::alloc::{AllocError, Global};

/// All words over these letters.
pub fn any_of<L: Letter>(alloc: Global, letters: &[L]) -> Result<Fsa<L>, AllocError>
    ensures letters { IfOk result (UsesOnly letters.now) }
    ensures words { IfOk result (λ m. (w : List L) → Accepts m w ↔ IsOver letters.now w) }
{
    star(alloc, &one_letter(alloc, letters)?)
}

/// Every place in a string of these pairs.
fn places(alloc: Global, pairs: &[Pair]) -> Result<Fsa<MarkedLetter>, AllocError>
    ensures letters { IfOk result (UsesOnly (marked_letters pairs.now)) }
    ensures words { IfOk result (λ m. (v : List MarkedLetter) → Accepts m v ↔ IsPlaceWhere pairs.now (λ x z. Unit {0}) v) }
{
    let any = any_of(alloc, &inner_letters(alloc, pairs)?)?;
    let edge = word(alloc, &[Bound::Edge])?;
    let before = concat(alloc, &edge, &any)?;
    let behind = concat(alloc, &any, &edge)?;
    marked_strings(alloc, &before, &behind)
}

/// The marked strings in which a context holds at the place.
fn in_context(
    alloc: Global,
    pairs: &[Pair],
    context: &PairContext,
) -> Result<Fsa<MarkedLetter>, AllocError>
    requires { IsContextOver pairs.now context.now }
    ensures letters { IfOk result (UsesOnly (marked_letters pairs.now)) }
    ensures words { IfOk result (λ m. (x z : List (Bound Pair)) → IsOver (all_letters pairs.now) x → IsOver (all_letters pairs.now) z
        → Accepts m (marked x z) ↔ (HasSuffix (complete.Accepts context.now.left) x × HasPrefix (complete.Accepts context.now.right) z)) }
{
    let any = any_of(alloc, &every_letter(alloc, pairs)?)?;
    let before = concat(alloc, &any, &context.left.to_fsa(alloc)?)?;
    let behind = concat(alloc, &context.right.to_fsa(alloc)?, &any)?;
    marked_strings(alloc, &before, &behind)
}

/// The marked strings in which one of the contexts holds at the place. They are taken by halves, so that a long row of them is
/// copied few times.
#[cycle(in_contexts)]
fn in_contexts(
    alloc: Global,
    pairs: &[Pair],
    contexts: &[PairContext],
) -> Result<Fsa<MarkedLetter>, AllocError>
    requires { (c : PairContext) → Contains contexts.now c → IsContextOver pairs.now c }
    ensures letters { IfOk result (UsesOnly (marked_letters pairs.now)) }
    ensures words { IfOk result (λ m. (x z : List Pair) → IsOver pairs.now x → IsOver pairs.now z → Accepts m (place_between x z) ↔ Holds contexts.now x z) }
{
    match contexts {
        [] => Fsa::new(alloc),
        [context] => in_context(alloc, pairs, context),
        _ => {
            let (front, back) = contexts.split_at(contexts.len() / 2);
            let first = in_contexts(alloc, pairs, front)?;
            let second = in_contexts(alloc, pairs, back)?;
            union(alloc, &first, &second)
        }
    }
}

/// Every place in a string of these pairs, as a language.
pub fn every_place(alloc: Global, pairs: &[Pair]) -> Result<Lang<MarkedLetter>, AllocError>
    requires { IsDistinct pairs.now }
    ensures { IfOk result (IsLang (marked_letters pairs.now) (IsPlaceWhere pairs.now (λ x z. Unit {0}))) }
{
    let letters = every_marked_letter(alloc, pairs)?;
    Lang::of(alloc, &letters, &places(alloc, pairs)?)
}

/// The places in strings of these pairs at which one of the contexts holds.
pub fn places_in(
    alloc: Global,
    pairs: &[Pair],
    every: &Lang<MarkedLetter>,
    contexts: &[PairContext],
) -> Result<Lang<MarkedLetter>, AllocError>
    requires distinct { IsDistinct pairs.now }
    requires every { IsLang (marked_letters pairs.now) (IsPlaceWhere pairs.now (λ x z. Unit {0})) every.now }
    requires contexts { (c : PairContext) → Contains contexts.now c → IsContextOver pairs.now c }
    ensures { IfOk result (IsLang (marked_letters pairs.now) (IsPlaceWhere pairs.now (Holds contexts.now))) }
{
    let letters = every_marked_letter(alloc, pairs)?;
    let holding = Lang::of(alloc, &letters, &in_contexts(alloc, pairs, contexts)?)?;
    every.both(alloc, &holding)
}
