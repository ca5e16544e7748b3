ghost use Rattle.std.specs.Prelude.{◌<◌, IfOk};
ghost use Rattle.word_relations.specs.Relations.{AreSame, IsComposition, IsInverse};
ghost use Rattle.fsm_base.specs.declared.letters.Sym.{Sym};
ghost use Rattle.fst_algebra.specs.Relation.{IsRelated};
ghost use Rattle.fst_algebra.specs.Relations.{UsesLower, UsesUpper};
ghost use Rattle.fst_flagged.specs.Conditions.{first};
ghost use Rattle.fst_flagged.specs.Flagged.{FlaggedRelates, HasNoConditions};

use crate::condition::copied;
use crate::flagged::Flagged;
use crate::images::Turned;
use fsa::Fsa;
use fsm_base::Pair;
use fst_algebra::{inverse, substituted};
use fst_compose::compose;
use std::alloc::{AllocError, Global};

/// The composition of a transducer with conditions and a plain one below it: u is related to w where the first relates u to a word that the second
/// relates to w. The conditions of the first are those of the result.
pub fn compose_below(alloc: Global, f: &Flagged, s: &Fsa<Pair>) -> Result<Flagged, AllocError>
    requires { HasNoConditions s.now }
    ensures upper { IfOk result (λ g. (x : Sym) → UsesUpper g.net x → x.0 < first → UsesUpper f.now.net x) }
    ensures lower { IfOk result (λ g. (x : Sym) → UsesLower g.net x → UsesLower s.now x) }
    ensures relation { IfOk result (λ g. AreSame (FlaggedRelates g) (IsComposition (FlaggedRelates f.now) (IsRelated s.now))) }
{
    let net = compose(alloc, &f.net, s)?;
    let conditions = copied(alloc, f.conditions.as_slice())?;
    Ok(Flagged { net, conditions })
}

/// The composition of a plain transducer and one with conditions below it. With the sides of both exchanged, the conditions stand on the side
/// that a composition leaves as it is.
pub fn compose_above(alloc: Global, r: &Fsa<Pair>, f: &Flagged) -> Result<Flagged, AllocError>
    requires { HasNoConditions r.now }
    ensures upper { IfOk result (λ g. (x : Sym) → UsesUpper g.net x → x.0 < first → UsesUpper r.now x) }
    ensures lower { IfOk result (λ g. (x : Sym) → UsesLower g.net x → UsesLower f.now.net x) }
    ensures relation { IfOk result (λ g. AreSame (FlaggedRelates g) (IsComposition (IsRelated r.now) (FlaggedRelates f.now))) }
{
    let above = turned(alloc, f)?;
    let below = inverse(alloc, r)?;
    let composed = compose_below(alloc, &above, &below)?;
    turned(alloc, &composed)
}

/// The same with the sides exchanged. Conditions stay where they are.
pub fn turned(alloc: Global, f: &Flagged) -> Result<Flagged, AllocError>
    ensures upper { IfOk result (λ g. (x : Sym) → UsesUpper g.net x → x.0 < first → UsesLower f.now.net x) }
    ensures lower { IfOk result (λ g. (x : Sym) → UsesLower g.net x → UsesUpper f.now.net x × (x.0 < first)) }
    ensures relation { IfOk result (λ g. AreSame (FlaggedRelates g) (IsInverse (FlaggedRelates f.now))) }
{
    let net = substituted(alloc, &f.net, &Turned)?;
    let conditions = copied(alloc, f.conditions.as_slice())?;
    Ok(Flagged { net, conditions })
}
