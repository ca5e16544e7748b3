ghost use Rattle.std.specs.Prelude.{◌≡◌, ◌≢◌, ◌<◌, ℕ, IfOk, OnOk, Some, length, slice_get};
ghost use Rattle.project_store.specs.Building.{IsBuiltAt, IsThere};
ghost use Rattle.project_store.specs.Centres.{CentresAreBuilt, HasFilled};

use network_build::Network;
use project_store::{Project, Shared, fill};
use std::alloc::{AllocError, Global};

/// Builds the network of the definition at a place, and before it those of the definitions that the project puts before it, each where it
/// isn't built already.
fn fill_up_to(
    alloc: Global,
    project: &Project,
    place: usize,
    built: &mut Vec<Option<Shared>>,
) -> Result<(), AllocError>
    requires place { place < length project.now.definitions }
    requires built { CentresAreBuilt project.now built.old.items }
    ensures { OnOk result (HasFilled project.now place built.old.items built.new.items) }
{
    let plan = project.plan();
    let order = plan.order();
    'order: for next in order {
        fill(alloc, project, *next, built)?;
        if *next == place {
            return Ok(());
        }
    }
    unreachable!()
}

/// Takes the network at a place.
fn taken(built: &mut [Option<Shared>], place: usize) -> Shared
    requires { IsThere built.old place }
    ensures value { slice_get built.old place ≡ Some (Some result) }
    ensures others { (other : ℕ) → other ≢ place → slice_get built.new other ≡ slice_get built.old other }
{
    let Some(network) = built[place].take() else {
        unreachable!()
    };
    network
}

/// Takes the networks at two places.
fn both_taken(built: &mut [Option<Shared>], first: usize, second: usize) -> (Shared, Shared)
    requires first { IsThere built.old first }
    requires second { IsThere built.old second }
    requires apart { first ≢ second }
    ensures first { slice_get built.old first ≡ Some (Some result.0) }
    ensures second { slice_get built.old second ≡ Some (Some result.1) }
{
    let one = taken(built, first);
    let other = taken(built, second);
    (one, other)
}

/// The networks of the definitions at two places. What both are made of is built once.
pub(crate) fn two_networks(
    alloc: Global,
    project: &Project,
    mut built: Vec<Option<Shared>>,
    first: usize,
    second: usize,
) -> Result<(Network, Network), AllocError>
    requires first { first < length project.now.definitions }
    requires second { second < length project.now.definitions }
    requires apart { first ≢ second }
    requires built { CentresAreBuilt project.now built.items }
    ensures first { IfOk result (λ networks. IsBuiltAt project.now first networks.0) }
    ensures second { IfOk result (λ networks. IsBuiltAt project.now second networks.1) }
{
    fill_up_to(alloc, project, first, &mut built)?;
    fill_up_to(alloc, project, second, &mut built)?;
    let (one, other) = both_taken(&mut built, first, second);
    Ok((one.into_network(alloc)?, other.into_network(alloc)?))
}
