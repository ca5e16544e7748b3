ghost use Rattle.std.specs.Prelude.{◌↔◌, IfOk, List};
ghost use Rattle.fsm_base.specs.declared.letters.Sym.{Sym};
ghost use Rattle.word_relations.specs.Relations.{AreSame, IsCross, IsLower, IsUpper};
ghost use Rattle.fsa.specs.Automaton.{UsesLetter};
ghost use Rattle.fsa.specs.Language.{Accepts};
ghost use Rattle.fst_algebra.specs.Relation.{IsRelated};
ghost use Rattle.fst_algebra.specs.Relations.{UsesLower, UsesUpper};

use crate::crossing::{crossed_letters, has_few_pairs, letters_alone};
use fsa::Fsa;
use fsa_reduce::reduced;
use fsm_base::{Pair, Sym};
use std::alloc::{AllocError, Global};

/// The reduced automaton of the words that `r` relates to some lower word.
pub fn upper(alloc: Global, r: &Fsa<Pair>) -> Result<Fsa<Sym>, AllocError>
    ensures letters { IfOk result (λ m. (x : Sym) → UsesLetter m x → UsesUpper r.now x) }
    ensures language { IfOk result (λ m. (w : List Sym) → Accepts m w ↔ IsUpper (IsRelated r.now) w) }
{
    reduced(alloc, &fst_algebra::upper(alloc, r)?)
}

/// The reduced automaton of the words to which `r` relates some upper word.
pub fn lower(alloc: Global, r: &Fsa<Pair>) -> Result<Fsa<Sym>, AllocError>
    ensures letters { IfOk result (λ m. (x : Sym) → UsesLetter m x → UsesLower r.now x) }
    ensures language { IfOk result (λ m. (w : List Sym) → Accepts m w ↔ IsLower (IsRelated r.now) w) }
{
    reduced(alloc, &fst_algebra::lower(alloc, r)?)
}

/// The transducer that relates each word of the first to each of the second. It is reduced, or has an edge for each
/// pair of letters, where all words have one letter.
pub fn cross(alloc: Global, a: &Fsa<Sym>, b: &Fsa<Sym>) -> Result<Fsa<Pair>, AllocError>
    ensures upper { IfOk result (λ m. (x : Sym) → UsesUpper m x → UsesLetter a.now x) }
    ensures lower { IfOk result (λ m. (x : Sym) → UsesLower m x → UsesLetter b.now x) }
    ensures relation { IfOk result (λ m. AreSame (IsRelated m) (IsCross (Accepts a.now) (Accepts b.now))) }
{
    if let Some(xs) = letters_alone(alloc, a)? {
        if let Some(ys) = letters_alone(alloc, b)? {
            if has_few_pairs(&xs, &ys) {
                return crossed_letters(alloc, &xs, &ys);
            }
        }
    }
    crossed_words(alloc, a, b)
}

/// The reduced transducer that relates each word of the first to each of the second.
fn crossed_words(alloc: Global, a: &Fsa<Sym>, b: &Fsa<Sym>) -> Result<Fsa<Pair>, AllocError>
    ensures upper { IfOk result (λ m. (x : Sym) → UsesUpper m x → UsesLetter a.now x) }
    ensures lower { IfOk result (λ m. (x : Sym) → UsesLower m x → UsesLetter b.now x) }
    ensures relation { IfOk result (λ m. AreSame (IsRelated m) (IsCross (Accepts a.now) (Accepts b.now))) }
{
    reduced(alloc, &fst_algebra::cross(alloc, a, b)?)
}
