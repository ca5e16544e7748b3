ghost use Rattle.std.specs.Prelude.{◌≡◌, ◌<◌, AllPairs, IfOk, List};
ghost use Rattle.fsm_base.specs.declared.letters.Sym.{Sym};
ghost use Rattle.expr_meaning.specs.Operators.{WithEdge};
ghost use Rattle.network_algebra.specs.Networks.{IsFor, IsNetwork, PairsOf, kind_of_network};
ghost use Rattle.network_expr.specs.Parts.{part_of};

use network_algebra::{Network, inside, reduced, with_edge};
use std::alloc::{AllocError, Global};

/// The network of what a name stands for.
#[derive(Clone, Copy, Debug)]
pub struct Part<'a> {
    /// The number of the name, as leaves have it.
    pub name: u32,
    /// The network of its definition.
    pub network: &'a Network,
}

/// The part of a name, where it has one.
pub fn part_of<'a>(parts: &[Part<'a>], name: u32) -> Option<Part<'a>>
    requires { AllPairs (λ one next. one.name < next.name) parts.now }
    ensures { result ≡ part_of parts.now name }
{
    match parts.binary_search_by_key(&name, |part| part.name) {
        Ok(place) => Some(parts[place]),
        Err(_) => None,
    }
}

/// The network of a name whose part has this one. A name relates words of symbols, so that of a language it has the words
/// without the edge.
pub fn without_edge(alloc: Global, network: &Network) -> Result<Network, AllocError>
    ensures letters { IfOk result (λ n. (symbols : List Sym) → IsNetwork symbols network.now → IsNetwork symbols n) }
    ensures meaning { IfOk result (IsFor (kind_of_network network.now) (WithEdge (λ u. PairsOf network.now u u)) (PairsOf network.now)) }
{
    match network {
        Network::Words(words) => Ok(Network::Words(with_edge(alloc, &inside(alloc, words)?)?)),
        Network::Pairs(_) | Network::Flagged(_) => reduced(alloc, network),
    }
}
