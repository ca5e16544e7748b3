ghost use Rattle.std.specs.Prelude.{◌≡◌, ◌↔◌, ◌++◌, ◌∷◌, [], IfOk, IfSome, IsTrue, List, Some};
ghost use Rattle.fsm_base.specs.declared.letters.Bound.{Bound};
ghost use Rattle.fsm_base.specs.declared.letters.Sym.{Sym};
ghost use Rattle.word_relations.specs.Words.{IsDistinct};
ghost use Rattle.fsa.specs.Language.{Accepts};
ghost use Rattle.expr_meaning.specs.Operators.{ArePrefixed, IsNotOne};
ghost use Rattle.network_sets.specs.Few.{IsFewOf};
ghost use Rattle.network_algebra.specs.Networks.{UsesOnly, all_letters};

use crate::sets::{apply_prefix, not_one};
use fsa::Fsa;
use fsm_base::{Bound, Sym};
use regex_ast::Prefix;
use std::alloc::{AllocError, Global};

/// Whether a prefix makes nothing new before the last one: `$` before `$`.
fn makes_nothing_new(prefix: Prefix, last: Option<Prefix>) -> bool
    ensures { IsTrue result → (prefix ≡ Prefix.Contains) × (last ≡ Some Prefix.Contains) }
{
    matches!((prefix, last), (Prefix::Contains, Some(Prefix::Contains)))
}

/// What stands before two `~` that stand before a third one: these two turn each other back.
fn before_two_nots(prefix: Prefix, front: &[Prefix], last: Option<Prefix>) -> Option<&[Prefix]>
    ensures { IfSome result (λ before. (last ≡ Some Prefix.Not) × (prefix ≡ Prefix.Not) × (front.now ≡ before.now ++ Prefix.Not ∷ [])) }
{
    match (prefix, last, front.split_last()) {
        (Prefix::Not, Some(Prefix::Not), Some((Prefix::Not, before))) => Some(before),
        _ => None,
    }
}

/// A language with prefixes, of which the last stands at it.
pub fn apply_prefixes(
    alloc: Global,
    alphabet: &[Sym],
    prefixes: &[Prefix],
    mut words: Fsa<Bound<Sym>>,
) -> Result<Fsa<Bound<Sym>>, AllocError>
    requires distinct { IsDistinct alphabet.now }
    requires only { UsesOnly (all_letters alphabet.now) words }
    ensures letters { IfOk result (UsesOnly (all_letters alphabet.now)) }
    ensures words { IfOk result (λ m. (w : List (Bound Sym)) → Accepts m w ↔ ArePrefixed alphabet.now prefixes.now (Accepts words) w) }
{
    let mut rest = prefixes;
    let mut last = None;
    'prefixes: while let Some((prefix, front)) = rest.split_last() {
        rest = front;
        if makes_nothing_new(*prefix, last) {
            continue;
        }
        if let Some(before) = before_two_nots(*prefix, front, last) {
            rest = before;
            continue;
        }
        words = apply_prefix(alloc, alphabet, *prefix, &words)?;
        last = Some(*prefix);
    }
    Ok(words)
}

/// One backslash or two that make the same as more of them: the third one turns back what the second one did.
fn few_of(count: u32) -> u32
    ensures { IsFewOf result count }
{
    if count > 2 { 2 - count % 2 } else { count }
}

/// A language with so many backslashes.
pub fn not_one_times(
    alloc: Global,
    alphabet: &[Sym],
    count: u32,
    mut words: Fsa<Bound<Sym>>,
) -> Result<Fsa<Bound<Sym>>, AllocError>
    requires distinct { IsDistinct alphabet.now }
    requires only { UsesOnly (all_letters alphabet.now) words }
    ensures letters { IfOk result (UsesOnly (all_letters alphabet.now)) }
    ensures words { IfOk result (λ m. (w : List (Bound Sym)) → Accepts m w ↔ IsNotOne alphabet.now count (Accepts words) w) }
{
    'times: for _ in 0..few_of(count) {
        words = not_one(alloc, alphabet, &words)?;
    }
    Ok(words)
}
