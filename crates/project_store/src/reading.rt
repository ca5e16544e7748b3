ghost use Rattle.std.specs.Prelude.{◌≡◌, IfOk, IfErr, OnOk};
ghost use Rattle.regex_ast.specs.declared.fault.Why.TheVariants as why;
ghost use Rattle.project_sources.specs.Faults.{fault};
ghost use Rattle.project_store.specs.Centres.{AreFree, CentresAreBuilt, HasNoEmptyCentre, IsCentreError};
ghost use Rattle.project_store.specs.Projects.{IsOfSources, IsRead, IsWhyNot};
ghost use Rattle.project_store.specs.Sharing.{StayThere};

use crate::building::none_built;
use crate::centres::try_centres;
use crate::project::Project;
use crate::ready::Ready;
use crate::shared::Shared;
use crate::store_error::StoreError;
use fsm_base::SymbolTable;
use project_definitions::Definition;
use project_model::read_project;
use project_sources::{PlanError, Sources};
use regex_ast::{Fault, Why};
use std::alloc::{AllocError, Global};

/// The fault of a definition with an empty centre.
fn empty_centre(definition: &Definition) -> Result<Fault, AllocError>
    ensures { IfOk result (λ found. found ≡ fault definition.now.file definition.now.line why.EmptyCentre) }
{
    Ok(Fault {
        file: definition.file.clone()?,
        line: definition.line,
        why: Why::EmptyCentre,
    })
}

/// The networks that tell that no definition of a project has an empty centre, at the places of their definitions, or the fault of the
/// first definition that has one. Networks that were built before stay, and aren't built again: they are those of definitions that
/// neither have nor reach an empty centre.
pub fn with_centres(
    alloc: Global,
    project: &Project,
    built: Vec<Option<Shared>>,
) -> Result<Vec<Option<Shared>>, StoreError>
    requires { AreFree project.now built.items }
    ensures built { IfOk result (λ all. CentresAreBuilt project.now all.items) }
    ensures stay { IfOk result (λ all. StayThere built.items all.items) }
    ensures filled { OnOk result (HasNoEmptyCentre project.now) }
    ensures error { IfErr result (IsCentreError project.now) }
{
    let tried = try_centres(alloc, project, built)?;
    let Some(place) = tried.first_empty() else {
        return Ok(tried.built);
    };
    let fault = empty_centre(&project.plan().definitions()[place])?;
    Err(StoreError::Refused(fault))
}

/// The project that sources say, before it is seen whether one of its definitions has an empty centre; or their first fault.
pub fn read(alloc: Global, sources: &Sources) -> Result<Project, StoreError>
    ensures project { IfOk result (IsRead sources.now) }
    ensures error { IfErr result (IsWhyNot sources.now) }
{
    let mut table = SymbolTable::new(alloc);
    match read_project(alloc, sources, &mut table) {
        Ok(plan) => Ok(Project::of(alloc, plan, &table)?),
        Err(PlanError::Refused(fault)) => Err(StoreError::Refused(fault)),
        Err(PlanError::Memory(error)) => Err(StoreError::Memory(error)),
    }
}

/// The project of sources, or their first fault.
pub fn project_of(alloc: Global, sources: &Sources) -> Result<Ready, StoreError>
    ensures project { IfOk result (IsOfSources sources.now) }
    ensures error { IfErr result (IsWhyNot sources.now) }
{
    let project = read(alloc, sources)?;
    let none = none_built(alloc, project.plan().definitions().len())?;
    let built = with_centres(alloc, &project, none)?;
    Ok(Ready::of(project, built))
}
