ghost use Rattle.std.specs.Prelude.{◌≡◌, IfOk};
ghost use Rattle.project_store.specs.Sharing.{IsLike};

use fsa::Fsa;
use network_build::Network;
use std::alloc::{AllocError, Global};
use std::marker::Model;
use std::sync::Arc;

/// A network with several owners, as the versions of a project that all have it. Contracts see the network.
#[derive(Drop)]
pub struct Shared {
    /// The network.
    network: Arc<Network>,
}

impl Model for Shared {
    ghost use Rattle.std.specs.Arc.{arc_value};
    ghost use Rattle.network_algebra.specs.declared.network.Network.{Network};

    ghost Value = { Network };

    ghost view = { λ shared. arc_value shared.network };
}

impl Shared {
    /// The network, of which this is the one owner so far.
    pub fn of(alloc: Global, network: Network) -> Result<Shared, AllocError>
        ensures { IfOk result (λ shared. shared ≡ network) }
    {
        let network = Arc::new(alloc, network)?;
        Ok(Shared { network })
    }

    /// The network.
    pub fn network(&self) -> &Network
        ensures { result.now ≡ self.now }
    {
        &self.network
    }

    /// One more owner of the same network. Nothing is copied.
    pub fn share(&self) -> Result<Shared, AllocError>
        ensures { IfOk result (λ shared. shared ≡ self.now) }
    {
        let network = Arc::try_clone(&self.network)?;
        Ok(Shared { network })
    }

    /// The network by itself. It is copied only where it has other owners.
    pub fn into_network(self, alloc: Global) -> Result<Network, AllocError>
        ensures { IfOk result (IsLike self) }
    {
        match Arc::try_unwrap(self.network) {
            Ok(network) => Ok(network),
            Err(shared) => copied(alloc, &shared),
        }
    }
}

/// The same automaton once more.
fn copied_fsa<L: Copy>(alloc: Global, fsa: &Fsa<L>) -> Result<Fsa<L>, AllocError>
    ensures { IfOk result (λ m. m ≡ fsa.now) }
{
    let finals = Vec::from_slice(alloc, fsa.finals())?;
    let edges = Vec::from_slice(alloc, fsa.edges())?;
    Ok(Fsa::of(finals, edges))
}

/// A network of the same kind that relates the same, over the same symbols. Of a transducer with conditions it is a smaller one.
pub fn copied(alloc: Global, network: &Network) -> Result<Network, AllocError>
    ensures { IfOk result (IsLike network.now) }
{
    match network {
        Network::Words(words) => Ok(Network::Words(copied_fsa(alloc, words)?)),
        Network::Pairs(pairs) => Ok(Network::Pairs(copied_fsa(alloc, pairs)?)),
        Network::Flagged(flagged) => Ok(Network::Flagged(flagged.reduced(alloc)?)),
    }
}
