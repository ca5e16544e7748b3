ghost use Rattle.std.specs.Prelude.{IfOk, List};
ghost use Rattle.fsm_base.specs.declared.letters.Sym.{Sym};
ghost use Rattle.word_relations.specs.Words.{IsDistinct};
ghost use Rattle.fsa.specs.Language.{Accepts};
ghost use Rattle.lang_algebra.specs.Languages.{IsLang};
ghost use Rattle.expr_meaning.specs.Operators.{inner};
ghost use Rattle.network_algebra.specs.Networks.{UsesOnly, all_letters};

use fsa::Fsa;
use fsm_base::{Bound, Sym};
use lang_algebra::Lang;
use network_algebra::inside;
use std::alloc::{AllocError, Global};

/// The words without the edge of an automaton, as a language over the symbols of an alphabet.
pub fn inner_language(
    alloc: Global,
    alphabet: &[Sym],
    words: &Fsa<Bound<Sym>>,
) -> Result<Lang<Sym>, AllocError>
    requires distinct { IsDistinct alphabet.now }
    requires only { UsesOnly (all_letters alphabet.now) words.now }
    ensures { IfOk result (IsLang alphabet.now (λ u. Accepts words.now (inner u))) }
{
    Lang::of(alloc, alphabet, &inside(alloc, words)?)
}
