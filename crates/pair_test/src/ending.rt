ghost use Rattle.std.specs.Prelude.{◌≡◌, ◌↔◌, Contains, IfOk, List};
ghost use Rattle.fsm_base.specs.declared.letters.Bound.{Bound};
ghost use Rattle.fsm_base.specs.declared.letters.Pair.{Pair};
ghost use Rattle.word_relations.specs.Words.{IsDistinct, IsOver};
ghost use Rattle.fsa.specs.Automaton.{UsesLetter};
ghost use Rattle.fsa.specs.Complete.{Accepts};
ghost use Rattle.fsa.specs.Language as language;
ghost use Rattle.expr_meaning.specs.Operators.{HasSuffix};

use fsa::{Dfa, Fsa};
use fsa_rational::{concat, star};
use fsa_subset::determine;
use fsm_base::{Bound, Pair};
use lang_algebra::one_letter;
use std::alloc::{AllocError, Global};

/// The words over these letters that have an end in a language.
pub fn ends_in(
    alloc: Global,
    letters: &[Bound<Pair>],
    end: &Fsa<Bound<Pair>>,
) -> Result<Dfa<Bound<Pair>>, AllocError>
    requires distinct { IsDistinct letters.now }
    requires only { (x : Bound Pair) → UsesLetter end.now x → Contains letters.now x }
    ensures letters { IfOk result (λ d. d.letters ≡ letters.now) }
    ensures words { IfOk result (λ d. (w : List (Bound Pair)) → IsOver letters.now w → Accepts d w ↔ HasSuffix (language.Accepts end.now) w) }
{
    let any = star(alloc, &one_letter(alloc, letters)?)?;
    let ending = concat(alloc, &any, end)?;
    determine(alloc, &ending, letters)
}
