ghost use Rattle.std.specs.Prelude.{IfOk};
ghost use Rattle.fsm_base.specs.declared.letters.Sym.{Sym};
ghost use Rattle.word_relations.specs.Relations.{AreSame, IsComposition};
ghost use Rattle.fst_algebra.specs.Relation.{IsRelated};
ghost use Rattle.fst_algebra.specs.Relations.{UsesLower, UsesUpper};

use fsa::Fsa;
use fsa_reduce::reduced;
use fsm_base::Pair;
use network_algebra::straightened;
use std::alloc::{AllocError, Global};

/// The reduced transducer that relates the words between which a word of both relations stands. Each list of pairs has one path in it, where
/// that takes few steps and no more edges: what a row of compositions makes grows else with each of them.
pub fn compose_reduced(alloc: Global, r: &Fsa<Pair>, s: &Fsa<Pair>) -> Result<Fsa<Pair>, AllocError>
    ensures upper { IfOk result (λ m. (x : Sym) → UsesUpper m x → UsesUpper r.now x) }
    ensures lower { IfOk result (λ m. (x : Sym) → UsesLower m x → UsesLower s.now x) }
    ensures relation { IfOk result (λ m. AreSame (IsRelated m) (IsComposition (IsRelated r.now) (IsRelated s.now))) }
{
    let composed = reduced(alloc, &fst_compose::compose(alloc, r, s)?)?;
    let edges = composed.edges().len();
    straightened(alloc, composed, edges)
}
