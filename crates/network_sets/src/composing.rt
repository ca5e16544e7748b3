ghost use Rattle.std.specs.Prelude.{IfOk};
ghost use Rattle.word_relations.specs.Words.{IsDistinct};
ghost use Rattle.word_relations.specs.Relations.{IsComposition};
ghost use Rattle.expr_kinds.specs.Kinds.{both};
ghost use Rattle.network_algebra.specs.Networks.{IsFor, IsNetwork, PairsOf, WordsOf, kind_of_network};

use crate::conditional::compose_flagged;
use crate::relations::compose_reduced;
use crate::sets::both;
use fsm_base::Sym;
use network_algebra::{Network, Operands, alike};
use std::alloc::{AllocError, Global};

/// The composition of two networks: of two languages the words of both.
pub fn compose(
    alloc: Global,
    symbols: &[Sym],
    a: Network,
    b: Network,
) -> Result<Network, AllocError>
    requires distinct { IsDistinct symbols.now }
    requires first { IsNetwork symbols.now a }
    requires second { IsNetwork symbols.now b }
    ensures letters { IfOk result (IsNetwork symbols.now) }
    ensures meaning { IfOk result (IsFor (both (kind_of_network a) (kind_of_network b)) (λ w. WordsOf a w × WordsOf b w) (IsComposition (PairsOf a) (PairsOf b))) }
{
    match alike(alloc, a, b)? {
        Operands::Words(x, y) => Ok(Network::Words(both(alloc, symbols, &x, &y)?)),
        Operands::Pairs(x, y) => Ok(Network::Pairs(compose_reduced(alloc, &x, &y)?)),
        Operands::Flagged(x, y) => compose_flagged(alloc, &x, &y),
    }
}
