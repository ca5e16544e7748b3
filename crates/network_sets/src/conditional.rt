ghost use Rattle.std.specs.Prelude.{IfOk, List};
ghost use Rattle.fsm_base.specs.declared.letters.Sym.{Sym};
ghost use Rattle.word_relations.specs.Relations.{IsComposition};
ghost use Rattle.fst_algebra.specs.Relation.{IsRelated};
ghost use Rattle.fst_flagged.specs.Flagged.{FlaggedRelates, UsesLetters};
ghost use Rattle.network_algebra.specs.Networks.{IsNetwork, RelatesOnly, UsesSymbols};

use crate::relations::compose_reduced;
use fsa::Fsa;
use fsm_base::Pair;
use fst_flagged::{Flagged, compose_above, compose_below, has_no_conditions};
use network_algebra::Network;
use std::alloc::{AllocError, Global};

/// The composition of two relations on whose paths conditions may stand. Where one has none, those of the other stay. Of two that have
/// conditions the one with fewer states is rid of them first: they are made states.
pub fn compose_flagged(alloc: Global, x: &Flagged, y: &Flagged) -> Result<Network, AllocError>
    ensures letters { IfOk result (λ n. (symbols : List Sym) → UsesLetters symbols x.now → UsesLetters symbols y.now → IsNetwork symbols n) }
    ensures meaning { IfOk result (RelatesOnly (IsComposition (FlaggedRelates x.now) (FlaggedRelates y.now))) }
{
    let above = x.net();
    let below = y.net();
    if has_no_conditions(below) {
        return with_plain_below(alloc, x, below);
    }
    if has_no_conditions(above) {
        return with_plain_above(alloc, above, y);
    }
    if below.states() <= above.states() {
        with_plain_below(alloc, x, &y.resolve(alloc)?)
    } else {
        with_plain_above(alloc, &x.resolve(alloc)?, y)
    }
}

/// The reduced composition of a relation with conditions and one below it that has none. Its own stay, unless a symbol of the other has
/// the number of a condition.
fn with_plain_below(alloc: Global, x: &Flagged, y: &Fsa<Pair>) -> Result<Network, AllocError>
    ensures letters { IfOk result (λ n. (symbols : List Sym) → UsesLetters symbols x.now → UsesSymbols symbols y.now → IsNetwork symbols n) }
    ensures meaning { IfOk result (RelatesOnly (IsComposition (FlaggedRelates x.now) (IsRelated y.now))) }
{
    if has_no_conditions(y) {
        let composed = compose_below(alloc, x, y)?;
        return Ok(Network::Flagged(composed.reduced(alloc)?));
    }
    let above = x.resolve(alloc)?;
    Ok(Network::Pairs(compose_reduced(alloc, &above, y)?))
}

/// The reduced composition of a relation without conditions and one below it that has them. These stay, unless a symbol of the first has
/// the number of a condition.
fn with_plain_above(alloc: Global, x: &Fsa<Pair>, y: &Flagged) -> Result<Network, AllocError>
    ensures letters { IfOk result (λ n. (symbols : List Sym) → UsesSymbols symbols x.now → UsesLetters symbols y.now → IsNetwork symbols n) }
    ensures meaning { IfOk result (RelatesOnly (IsComposition (IsRelated x.now) (FlaggedRelates y.now))) }
{
    if has_no_conditions(x) {
        let composed = compose_above(alloc, x, y)?;
        return Ok(Network::Flagged(composed.reduced(alloc)?));
    }
    let below = y.resolve(alloc)?;
    Ok(Network::Pairs(compose_reduced(alloc, x, &below)?))
}
