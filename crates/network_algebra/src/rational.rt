ghost use Rattle.std.specs.Prelude.{◌↔◌, ◌⊎◌, IfOk, List, reverse};
ghost use Rattle.word_relations.specs.Words.{IsConcatenation, IsRepetition};
ghost use Rattle.fsa.specs.Automaton.{UsesLetter};
ghost use Rattle.fsa.specs.Language.{Accepts};

use fsa::Fsa;
use fsa_reduce::reduced;
use fsm_base::Letter;
use std::alloc::{AllocError, Global};

/// The reduced automaton of the words of either.
pub fn union<L: Letter>(alloc: Global, a: &Fsa<L>, b: &Fsa<L>) -> Result<Fsa<L>, AllocError>
    ensures letters { IfOk result (λ m. (x : L) → UsesLetter m x → UsesLetter a.now x ⊎ UsesLetter b.now x) }
    ensures language { IfOk result (λ m. (w : List L) → Accepts m w ↔ (Accepts a.now w ⊎ Accepts b.now w)) }
{
    reduced(alloc, &fsa_rational::union(alloc, a, b)?)
}

/// The reduced automaton of a word of the first and then one of the second.
pub fn concat<L: Letter>(alloc: Global, a: &Fsa<L>, b: &Fsa<L>) -> Result<Fsa<L>, AllocError>
    ensures letters { IfOk result (λ m. (x : L) → UsesLetter m x → UsesLetter a.now x ⊎ UsesLetter b.now x) }
    ensures language { IfOk result (λ m. (w : List L) → Accepts m w ↔ IsConcatenation (Accepts a.now) (Accepts b.now) w) }
{
    reduced(alloc, &fsa_rational::concat(alloc, a, b)?)
}

/// The reduced automaton of any number of words, joined.
pub fn star<L: Letter>(alloc: Global, a: &Fsa<L>) -> Result<Fsa<L>, AllocError>
    ensures letters { IfOk result (λ m. (x : L) → UsesLetter m x → UsesLetter a.now x) }
    ensures language { IfOk result (λ m. (w : List L) → Accepts m w ↔ IsRepetition (Accepts a.now) w) }
{
    reduced(alloc, &fsa_rational::star(alloc, a)?)
}

/// The reduced automaton of the words read backwards.
pub fn reverse<L: Letter>(alloc: Global, a: &Fsa<L>) -> Result<Fsa<L>, AllocError>
    ensures letters { IfOk result (λ m. (x : L) → UsesLetter m x → UsesLetter a.now x) }
    ensures language { IfOk result (λ m. (w : List L) → Accepts m w ↔ Accepts a.now (reverse w)) }
{
    reduced(alloc, &fsa_rational::reverse(alloc, a)?)
}
