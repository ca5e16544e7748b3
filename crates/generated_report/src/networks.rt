ghost use Rattle.std.specs.Prelude.{IfOk};
ghost use Rattle.lookup.specs.Answering.{IsOverAlphabet};
ghost use Rattle.project_sources.specs.Sources.{Said, project_in};
ghost use Rattle.project_store.specs.Centres.{CentresAreBuilt};
ghost use Rattle.project_store.specs.Loaded.{IsLoadedFrom};
ghost use Rattle.generated_report.specs.Told.{FindsUpper};

use fsa::Fsa;
use network_build::{Compiled, Network};
use project_store::{Project, Shared, network_at};
use std::alloc::{AllocError, Global};

/// The network of a name, ready for look-ups. That of a name that the project doesn't define relates nothing.
pub fn net_of(
    alloc: Global,
    project: &Project,
    built: Vec<Option<Shared>>,
    name: &str,
) -> Result<Compiled, AllocError>
    requires { CentresAreBuilt project.now built.items }
    ensures over { IfOk result (λ compiled. IsOverAlphabet project.now.alphabet compiled.net) }
    ensures finds { (said : Said) → IsLoadedFrom said project.now → IfOk result (λ compiled. FindsUpper project.now.alphabet compiled.net (project_in said) name.now) }
{
    let network = match project.find(name) {
        Some(place) => network_at(alloc, project, built, place)?,
        None => Network::Pairs(Fsa::new(alloc)?),
    };
    let compiled = Compiled::of(alloc, network)?;
    Ok(compiled)
}
