ghost use Rattle.std.specs.Prelude.{◌≡◌, ◌≤◌, ◌+◌, Ok, IfOk, IfErr};
ghost use Rattle.editor_meaning.specs.Editing.{AreNames, IsLoaded, most_edits};
ghost use Rattle.project_edits.specs.Applied.{edits_of};
ghost use Rattle.project_meaning.specs.Touched.{Touched};
ghost use Rattle.project_sources.specs.Edits.{Changes, Version as Meant};
ghost use Rattle.project_sources.specs.Faults.{rows};
ghost use Rattle.project_sources.specs.Laws.{all_readers};
ghost use Rattle.project_store.specs.Projects.{IsWhyNot};
ghost use Rattle.project_versions.specs.Errors.{IsWhyNotEdited};
ghost use Rattle.project_versions.specs.Versions.{Stands};

use crate::edit_error::EditError;
use crate::keeping::{kept_networks, parts_of};
use crate::rebuilt::{names_at, touched_places};
use crate::version::Version;
use fsm_base::Text;
use project_edits::{Edit, apply};
use project_sources::Sources;
use project_store::{StoreError, project_of, read, with_centres};
use std::alloc::Global;

/// The number of the version that is loaded.
const FIRST_VERSION: u64 = 1;

/// The most changes that are accepted. `specs/Editing.antt` of editor_meaning has this as a number of definitions.
const MOST_EDITS: u64 = 10_000;

/// The first version of sources. Its number is 1.
///
/// # Errors
///
/// `Refused` with the first fault of the sources, and `Memory` where there was no memory.
pub fn load(alloc: Global, sources: Sources) -> Result<Version, StoreError>
    ensures loaded { IfOk result (λ version. (meant : Meant) × Stands version meant × IsLoaded all_readers rows sources meant) }
    ensures error { IfErr result (IsWhyNot sources) }
{
    let ready = project_of(alloc, &sources)?;
    let (project, built) = ready.into_parts();
    let version = Version::of(alloc, FIRST_VERSION, sources, project, built, &[])?;
    Ok(version)
}

/// What an accepted change makes.
#[derive(Drop)]
pub struct Edited {
    /// The next version.
    pub version: Version,
    /// The names that the change touches, in the order of their bytes: those whose definition is new or has another body, those whose
    /// definition uses an alphabet that has changed, and those that refer to a touched name.
    pub rebuilt: Vec<Text>,
}

/// The next version, which a change makes of one: its edits, one after another, accepted or refused as one. An edit by itself is a
/// change of one edit. The old version stays as it is, whatever comes of the change. Networks of names that aren't touched are handed on
/// where each old symbol has its number in the new alphabet, too, and only the others are built.
///
/// # Errors
///
/// - `Full`, where 10,000 changes were accepted.
/// - `Refused` with the first fault of the change, as `apply` of project_edits says, or else of the files that it makes, as
///   `project_of` of project_store says. Between two edits of a change the files may have a fault.
/// - `Memory`, where there was no memory.
pub fn edit(alloc: Global, old: &Version, change: &[Edit]) -> Result<Edited, EditError>
    ensures edited { (meant : Meant) → Stands old.now meant → IfOk result (λ edited. (next : Meant) × Stands edited.version next
        × Changes all_readers rows meant (edits_of change.now) (Ok next) × AreNames (Touched meant.project next.project) edited.rebuilt.items) }
    ensures number { IfOk result (λ edited. edited.version.number ≡ old.now.number + 1) }
    ensures few { (meant : Meant) → Stands old.now meant → IfOk result (λ edited. meant.number ≤ most_edits) }
    ensures error { (meant : Meant) → Stands old.now meant → IfErr result (IsWhyNotEdited meant change.now) }
{
    let number = old.number();
    if number > MOST_EDITS {
        return Err(EditError::Full);
    }
    let sources = apply(alloc, change, old.sources())?;
    let next = read(alloc, &sources)?;
    let before = old.project();
    let places = touched_places(alloc, before, &next)?;
    let kept = kept_networks(alloc, before, old.networks(), &next, &places)?;
    let parts = parts_of(alloc, &kept)?;
    let built = with_centres(alloc, &next, parts)?;
    let rebuilt = names_at(alloc, next.plan().definitions(), &places)?;
    let version = Version::of(alloc, number + 1, sources, next, built, &kept)?;
    Ok(Edited { version, rebuilt })
}
