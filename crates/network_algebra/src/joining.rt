ghost use Rattle.std.specs.Prelude.{◌≡◌, ◌⊎◌, IfOk, List};
ghost use Rattle.fsm_base.specs.declared.letters.Sym.{Sym};
ghost use Rattle.word_relations.specs.Words.{IsConcatenation};
ghost use Rattle.word_relations.specs.Relations.{IsConcatenationOfPairs};
ghost use Rattle.expr_kinds.specs.Kinds.{both};
ghost use Rattle.fst_flagged.specs.Flagged.{FlaggedRelates, UsesLetters};
ghost use Rattle.network_algebra.specs.Networks.{IsFor, IsNetwork, PairsOf, RelatesOnly, WordsOf, kind_of_network};

use crate::network::Network;
use crate::operands::{Operands, alike};
use fst_flagged::Flagged;
use std::alloc::{AllocError, Global};

/// What one network and then another is. It isn't reduced, so that a long row is joined first and reduced once.
/// Conditions are made states.
pub fn concat(alloc: Global, a: Network, b: Network) -> Result<Network, AllocError>
    ensures letters { IfOk result (λ n. (symbols : List Sym) → IsNetwork symbols a → IsNetwork symbols b → IsNetwork symbols n) }
    ensures meaning { IfOk result (IsFor (both (kind_of_network a) (kind_of_network b)) (IsConcatenation (WordsOf a) (WordsOf b)) (IsConcatenationOfPairs (PairsOf a) (PairsOf b))) }
{
    match alike(alloc, a, b)? {
        Operands::Words(x, y) => Ok(Network::Words(fsa_rational::concat(alloc, &x, &y)?)),
        Operands::Pairs(x, y) => Ok(Network::Pairs(fsa_rational::concat(alloc, &x, &y)?)),
        Operands::Flagged(x, y) => {
            let front = x.resolve(alloc)?;
            let back = y.resolve(alloc)?;
            Ok(Network::Pairs(fsa_rational::concat(alloc, &front, &back)?))
        }
    }
}

/// What either of two networks is. It isn't reduced, as what `concat` gives.
pub fn union(alloc: Global, a: Network, b: Network) -> Result<Network, AllocError>
    ensures letters { IfOk result (λ n. (symbols : List Sym) → IsNetwork symbols a → IsNetwork symbols b → IsNetwork symbols n) }
    ensures meaning { IfOk result (IsFor (both (kind_of_network a) (kind_of_network b)) (λ w. WordsOf a w ⊎ WordsOf b w) (λ u w. PairsOf a u w ⊎ PairsOf b u w)) }
{
    match alike(alloc, a, b)? {
        Operands::Words(x, y) => Ok(Network::Words(fsa_rational::union(alloc, &x, &y)?)),
        Operands::Pairs(x, y) => Ok(Network::Pairs(fsa_rational::union(alloc, &x, &y)?)),
        Operands::Flagged(x, y) => union_of_flagged(alloc, &x, &y),
    }
}

/// What either of two transducers with conditions relates. Conditions stay, where there are numbers for all of them.
fn union_of_flagged(alloc: Global, x: &Flagged, y: &Flagged) -> Result<Network, AllocError>
    ensures letters { IfOk result (λ n. (symbols : List Sym) → UsesLetters symbols x.now → UsesLetters symbols y.now → IsNetwork symbols n) }
    ensures meaning { IfOk result (RelatesOnly (λ u w. FlaggedRelates x.now u w ⊎ FlaggedRelates y.now u w)) }
{
    match fst_flagged::union(alloc, x, y)? {
        Some(either) => Ok(Network::Flagged(either)),
        None => {
            let first = x.resolve(alloc)?;
            let second = y.resolve(alloc)?;
            Ok(Network::Pairs(fsa_rational::union(alloc, &first, &second)?))
        }
    }
}

/// A smaller network that is the same. Takes time in proportion to its edges, which are sorted.
pub fn reduced(alloc: Global, network: &Network) -> Result<Network, AllocError>
    ensures letters { IfOk result (λ n. (symbols : List Sym) → IsNetwork symbols network.now → IsNetwork symbols n) }
    ensures meaning { IfOk result (IsFor (kind_of_network network.now) (WordsOf network.now) (PairsOf network.now)) }
{
    match network {
        Network::Words(m) => Ok(Network::Words(fsa_reduce::reduced(alloc, m)?)),
        Network::Pairs(m) => Ok(Network::Pairs(fsa_reduce::reduced(alloc, m)?)),
        Network::Flagged(f) => Ok(Network::Flagged(f.reduced(alloc)?)),
    }
}
