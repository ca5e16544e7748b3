ghost use Rattle.std.specs.Prelude.{◌≡◌, IfOk, List, reverse};
ghost use Rattle.fsm_base.specs.declared.letters.Sym.{Sym};
ghost use Rattle.fsa.specs.Language.{Accepts};
ghost use Rattle.word_relations.specs.Relations.{IsUpper, IsLower, IsInverse};
ghost use Rattle.expr_kinds.specs.declared.form.Kind.{Kind};
ghost use Rattle.expr_meaning.specs.Operators.{inner, WithEdge};
ghost use Rattle.network_algebra.specs.Networks.{IsFor, IsNetwork, PairsOf, UsesOnly, WordsOf, all_letters, kind_of_network};

use crate::letters::{inside, with_edge};
use crate::network::Network;
use crate::{rational, relations};
use fsa::Fsa;
use fsm_base::{Bound, Sym};
use std::alloc::{AllocError, Global};

/// The language on the upper side.
pub fn upper(alloc: Global, network: Network) -> Result<Network, AllocError>
    ensures letters { IfOk result (λ n. (symbols : List Sym) → IsNetwork symbols network → IsNetwork symbols n) }
    ensures meaning { IfOk result (IsFor Kind.Language (WithEdge (IsUpper (PairsOf network))) (λ u w. IsUpper (PairsOf network) u × (u ≡ w))) }
{
    let side = relations::upper(alloc, &network.into_pairs(alloc)?)?;
    Ok(Network::Words(with_edge(alloc, &side)?))
}

/// The language on the lower side.
pub fn lower(alloc: Global, network: Network) -> Result<Network, AllocError>
    ensures letters { IfOk result (λ n. (symbols : List Sym) → IsNetwork symbols network → IsNetwork symbols n) }
    ensures meaning { IfOk result (IsFor Kind.Language (WithEdge (IsLower (PairsOf network))) (λ u w. IsLower (PairsOf network) u × (u ≡ w))) }
{
    let side = relations::lower(alloc, &network.into_pairs(alloc)?)?;
    Ok(Network::Words(with_edge(alloc, &side)?))
}

/// The network with its sides exchanged; a language stays as it is.
pub fn inverse(alloc: Global, network: Network) -> Result<Network, AllocError>
    ensures letters { IfOk result (λ n. (symbols : List Sym) → IsNetwork symbols network → IsNetwork symbols n) }
    ensures meaning { IfOk result (IsFor (kind_of_network network) (WordsOf network) (IsInverse (PairsOf network))) }
{
    match network {
        Network::Words(m) => Ok(Network::Words(m)),
        Network::Pairs(m) => Ok(Network::Pairs(fst_algebra::inverse(alloc, &m)?)),
        Network::Flagged(f) => Ok(Network::Flagged(f.inverse(alloc)?)),
    }
}

/// The network read backwards. Conditions are made states.
pub fn reverse(alloc: Global, network: Network) -> Result<Network, AllocError>
    ensures letters { IfOk result (λ n. (symbols : List Sym) → IsNetwork symbols network → IsNetwork symbols n) }
    ensures meaning { IfOk result (IsFor (kind_of_network network) (λ w. WordsOf network (reverse w)) (λ u w. PairsOf network (reverse u) (reverse w))) }
{
    match network {
        Network::Words(m) => Ok(Network::Words(rational::reverse(alloc, &m)?)),
        Network::Pairs(m) => Ok(Network::Pairs(rational::reverse(alloc, &m)?)),
        Network::Flagged(f) => {
            let m = f.resolve(alloc)?;
            Ok(Network::Pairs(rational::reverse(alloc, &m)?))
        }
    }
}

/// The relation of each word of one language, as far as they are without the edge, to each of another.
pub fn cross(alloc: Global, a: &Fsa<Bound<Sym>>, b: &Fsa<Bound<Sym>>) -> Result<Network, AllocError>
    ensures letters { IfOk result (λ n. (symbols : List Sym) → UsesOnly (all_letters symbols) a.now → UsesOnly (all_letters symbols) b.now → IsNetwork symbols n) }
    ensures meaning { IfOk result (IsFor Kind.Relation (λ w. Accepts a.now w × Accepts b.now w) (λ u w. Accepts a.now (inner u) × Accepts b.now (inner w))) }
{
    let pairs = relations::cross(alloc, &inside(alloc, a)?, &inside(alloc, b)?)?;
    Ok(Network::Pairs(pairs))
}
