ghost use Rattle.std.specs.Prelude.{◌≡◌, ◌<◌, ℕ, Some, IfOk, MatchOption, length, slice_get};
ghost use Rattle.project_store.specs.Building.{IsThere};
ghost use Rattle.project_store.specs.Centres.{CentresAreBuilt};
ghost use Rattle.project_store.specs.Sharing.{StayThere};
ghost use Rattle.project_versions.specs.Networks.{AreAllBuilt, AreKeptIn, AreReady, IsKeptBy, IsReady, IsReadyAt, IsSame, net_in};

use lookup::Net;
use network_build::Compiled;
use project_store::{Project, Shared, copied, fill};
use std::alloc::{AllocError, Global};
use std::sync::Arc;

/// The network of a definition: by itself, of which others are made, and ready for look-ups. Versions share both.
#[derive(Drop)]
pub struct Built {
    /// The network.
    pub network: Shared,
    /// The same, ready for look-ups.
    pub compiled: Arc<Compiled>,
}

impl Built {
    /// A network, which is made ready for look-ups.
    fn of(alloc: Global, network: Shared) -> Result<Built, AllocError>
        ensures network { IfOk result (λ built. built.network ≡ network) }
        ensures ready { IfOk result (λ built. IsReady network (net_in built)) }
    {
        let copy = copied(alloc, network.network())?;
        let compiled = Compiled::of(alloc, copy)?;
        let compiled = Arc::new(alloc, compiled)?;
        Ok(Built { network, compiled })
    }

    /// One more owner of the same networks. Nothing is copied.
    pub fn share(&self) -> Result<Built, AllocError>
        ensures { IfOk result (IsSame self.now) }
    {
        let network = self.network.share()?;
        let compiled = Arc::try_clone(&self.compiled)?;
        Ok(Built { network, compiled })
    }

    /// The network, ready for look-ups.
    pub fn net(&self) -> &Net
        ensures { result.now ≡ net_in self.now }
    {
        self.compiled.net()
    }
}

/// The network of each definition, at its place. Those that are built already are kept.
fn all_built(
    alloc: Global,
    project: &Project,
    mut built: Vec<Option<Shared>>,
) -> Result<Vec<Option<Shared>>, AllocError>
    requires { CentresAreBuilt project.now built.items }
    ensures all { IfOk result (λ all. AreAllBuilt project.now all.items) }
    ensures stay { IfOk result (λ all. StayThere built.items all.items) }
{
    let plan = project.plan();
    let order = plan.order();
    'order: for next in order {
        fill(alloc, project, *next, &mut built)?;
    }
    Ok(built)
}

/// What is kept at a place.
fn kept_one(kept: &[Option<Built>], place: usize) -> Option<&Built>
    ensures { MatchOption result ((one : Built) → slice_get kept.now place ≡ Some (Some one) → ⊥) (λ one. slice_get kept.now place ≡ Some (Some one.now)) }
{
    match kept.get(place) {
        Some(Some(built)) => Some(built),
        _ => None,
    }
}

/// Makes the network at a place ready for look-ups.
fn ready_at(alloc: Global, all: &[Option<Shared>], place: usize) -> Result<Built, AllocError>
    requires { IsThere all.now place }
    ensures { IfOk result (IsReadyAt all.now place) }
{
    let Some(network) = &all[place] else {
        unreachable!()
    };
    let network = network.share()?;
    Built::of(alloc, network)
}

/// The network at a place, ready for look-ups: where it is kept, it is so already.
fn built_at(
    alloc: Global,
    all: &[Option<Shared>],
    kept: &[Option<Built>],
    place: usize,
) -> Result<Built, AllocError>
    requires there { IsThere all.now place }
    requires kept { AreKeptIn kept.now all.now }
    ensures ready { IfOk result (IsReadyAt all.now place) }
    ensures kept { IfOk result (IsKeptBy kept.now place) }
{
    match kept_one(kept, place) {
        Some(built) => built.share(),
        None => ready_at(alloc, all, place),
    }
}

/// The network of each definition of a project, ready for look-ups, at the definition's place. `built` has networks that are built
/// already, and `kept` those among them that are ready for look-ups, too.
pub fn networks_of(
    alloc: Global,
    project: &Project,
    built: Vec<Option<Shared>>,
    kept: &[Option<Built>],
) -> Result<Vec<Built>, AllocError>
    requires built { CentresAreBuilt project.now built.items }
    requires kept { AreKeptIn kept.now built.items }
    ensures ready { IfOk result (λ networks. AreReady project.now networks.items) }
    ensures kept { IfOk result (λ networks. (place : ℕ) (b : Built) → slice_get networks.items place ≡ Some b → IsKeptBy kept.now place b) }
{
    let all = all_built(alloc, project, built)?;
    let mut networks = Vec::new(alloc);
    'places: for place in 0..all.len() {
        networks.push(built_at(alloc, &all, kept, place)?)?;
    }
    Ok(networks)
}
