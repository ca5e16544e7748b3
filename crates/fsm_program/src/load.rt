ghost use Rattle.std.specs.Prelude.{◌≡◌, ◌≤◌, ℕ, List, All, Contains, None, Ok, MatchOption, IfOk, IfErr, OnOk};
ghost use Rattle.fsm_io.specs.Causes.{Rose};
ghost use Rattle.fsm_io.specs.Folders.{Finds, HasAsked, Told, file_of};
ghost use Rattle.fsm_program.specs.Files.{AskedForFiles, AsksForFront, IsLoadError, IsLoaded, IsReadError, most_read};
ghost use Rattle.fsm_program.specs.Gathered.{HasAdded, IsGathered, IsSeen, SourcesDeclare};
ghost use Rattle.fsm_program.specs.Serving.{IsFirstVersion};
ghost use Rattle.project_manifest.specs.Lines.{Placed};
ghost use Rattle.project_model.specs.Answers.{IsManifestFile};
ghost use Rattle.project_sources.specs.Edits.{Version as Meant};
ghost use Rattle.project_store.specs.Projects.{Reads};
ghost use Rattle.project_versions.specs.Versions.{Stands};
ghost use Rattle.reply_meaning.specs.Transcripts.{first_version};
ghost use Rattle.word_relations.specs.Words.{IsDistinct};

use fsm_base::Text;
use fsm_io::{Folder, FolderError, Found, rose};
use project_model::{Manifest, manifest_of};
use project_sources::{MOST_BYTES, PlanError, Sources};
use project_store::{Ready, StoreError, project_of};
use project_versions::Version;
use regex_ast::Fault;
use std::alloc::{AllocError, Global};
use thiserror::Error;

/// The most bytes that are read of a file: one more than a file may have.
pub const MOST_READ: usize = MOST_BYTES + 1;

/// Why a project isn't loaded.
#[derive(Debug, Drop, Error)]
pub enum LoadError {
    /// Its folder failed.
    #[error("the folder failed")]
    Failed,
    /// There was no memory.
    #[error(transparent)]
    Memory(AllocError),
    /// It has this first fault.
    #[error("the project has a fault")]
    Refused(Fault),
}

impl From<AllocError> for LoadError {
    ghost use Rattle.std.specs.Prelude.{◌≡◌};
    ghost use Rattle.fsm_program.specs.declared.load.LoadError.TheVariants.{Memory};

    ghost from_gives = { λ refused error. error ≡ Memory refused };

    fn from(refused: AllocError) -> LoadError {
        LoadError::Memory(refused)
    }
}

impl From<StoreError> for LoadError {
    ghost use Rattle.std.specs.Prelude.{◌≡◌};
    ghost use Rattle.fsm_program.specs.Files.{load_error};

    ghost from_gives = { λ refused error. error ≡ load_error refused };

    fn from(refused: StoreError) -> LoadError {
        match refused {
            StoreError::Refused(fault) => LoadError::Refused(fault),
            StoreError::Memory(error) => LoadError::Memory(error),
        }
    }
}

/// The manifest of this content, or `None` where it has a fault.
fn readable(alloc: Global, content: &[u8]) -> Result<Option<Manifest>, AllocError>
    ensures { IfOk result (λ manifest. MatchOption manifest ((lines : List Placed) → IsManifestFile content.now lines → ⊥) (IsManifestFile content.now)) }
{
    match manifest_of(alloc, content) {
        Ok(manifest) => Ok(Some(manifest)),
        Err(PlanError::Refused(_fault)) => Ok(None),
        Err(PlanError::Memory(error)) => Err(error),
    }
}

/// The first bytes of a file of the folder, `most` at most.
fn read_file<F: Folder>(
    alloc: Global,
    folder: &mut F,
    name: &str,
    most: usize,
) -> Result<Found, LoadError>
    ensures found { IfOk result (λ found. Told (F.files folder.old) (Finds name.now most found)) }
    ensures error { IfErr result (λ error. IsReadError error (F.faults folder.old) (F.faults folder.new)) }
    ensures files { F.files folder.new ≡ F.files folder.old }
    ensures asked { HasAsked (F.asked folder.old) (F.asked folder.new) name.now most result }
    ensures later { F.faults folder.old ≤ F.faults folder.new }
{
    match folder.read(alloc, name, most) {
        Ok(found) => Ok(found),
        Err(FolderError::Failed) => Err(LoadError::Failed),
        Err(FolderError::Memory(error)) => Err(LoadError::Memory(error)),
    }
}

/// The sources with the first bytes of a file of the folder, `most` at most, if it is there.
fn with_file<F: Folder>(
    alloc: Global,
    folder: &mut F,
    mut sources: Sources,
    name: &str,
    most: usize,
) -> Result<Sources, LoadError>
    requires { file_of name.now sources ≡ None }
    ensures added { IfOk result (λ new. Told (F.files folder.old) (HasAdded name.now most sources new)) }
    ensures others { IfOk result (λ new. (other : List ℕ) → (name.now ≡ other → ⊥) → file_of other new ≡ file_of other sources) }
    ensures error { IfErr result (λ error. IsReadError error (F.faults folder.old) (F.faults folder.new)) }
    ensures files { F.files folder.new ≡ F.files folder.old }
    ensures asked { HasAsked (F.asked folder.old) (F.asked folder.new) name.now most result }
    ensures later { F.faults folder.old ≤ F.faults folder.new }
{
    match read_file(alloc, folder, name, most) {
        Ok(Found::Bytes(bytes)) => {
            sources.put(name, bytes)?;
            Ok(sources)
        }
        Ok(Found::Missing) => Ok(sources),
        Err(error) => Err(error),
    }
}

/// The sources with the first bytes of these files of the folder, `most` at most of each that is there.
fn with_files<F: Folder>(
    alloc: Global,
    folder: &mut F,
    mut sources: Sources,
    names: &[Text],
    most: usize,
) -> Result<Sources, LoadError>
    requires most { most ≡ most_read }
    requires apart { IsDistinct names.now }
    requires new { All (λ name. file_of name sources ≡ None) names.now }
    ensures seen { IfOk result (λ new. Told (F.files folder.old) (λ files. All (IsSeen new files) names.now)) }
    ensures others { IfOk result (λ new. (other : List ℕ) → (Contains names.now other → ⊥) → file_of other new ≡ file_of other sources) }
    ensures error { IfErr result (λ error. IsReadError error (F.faults folder.old) (F.faults folder.new)) }
    ensures files { F.files folder.new ≡ F.files folder.old }
    ensures asked { AsksForFront (F.asked folder.old) (F.asked folder.new) names.now }
    ensures later { F.faults folder.old ≤ F.faults folder.new }
{
    'names: for name in names {
        sources = with_file(alloc, folder, sources, name.as_str(), most)?;
    }
    Ok(sources)
}

/// The manifest of sources, or `None` where it is missing or has a fault.
fn manifest_in(alloc: Global, sources: &Sources) -> Result<Option<Manifest>, AllocError>
    ensures { IfOk result (λ manifest. MatchOption manifest ((lines : List Placed) → SourcesDeclare sources.now lines → ⊥) (SourcesDeclare sources.now)) }
{
    match sources.get("project") {
        Some(content) => readable(alloc, content),
        None => Ok(None),
    }
}

/// The sources of a folder's project: its manifest, and the files that this names where it has no fault. At most `most` bytes of
/// each are read.
fn gather<F: Folder>(alloc: Global, folder: &mut F, most: usize) -> Result<Sources, LoadError>
    requires { most ≡ most_read }
    ensures gathered { IfOk result (λ sources. Told (F.files folder.old) (IsGathered sources)) }
    ensures error { IfErr result (λ error. IsReadError error (F.faults folder.old) (F.faults folder.new)) }
    ensures asked { AskedForFiles (F.files folder.old) (F.asked folder.old) (F.asked folder.new) }
    ensures later { F.faults folder.old ≤ F.faults folder.new }
{
    let sources = with_file(alloc, folder, Sources::new(alloc), "project", most)?;
    match manifest_in(alloc, &sources)? {
        Some(manifest) => with_files(alloc, folder, sources, manifest.files(), most),
        None => Ok(sources),
    }
}

/// The sources of a folder's project. It has failed too where its count of faults rose and they were read, or there was no memory.
fn whole_sources<F: Folder>(
    alloc: Global,
    folder: &mut F,
    most: usize,
) -> Result<Sources, LoadError>
    requires { most ≡ most_read }
    ensures gathered { IfOk result (λ sources. Told (F.files folder.old) (IsGathered sources)) }
    ensures whole { OnOk result (¬ (Rose (F.faults folder.old) (F.faults folder.new))) }
    ensures error { IfErr result (λ error. IsLoadError error (F.files folder.old) (F.faults folder.old) (F.faults folder.new)) }
    ensures asked { AskedForFiles (F.files folder.old) (F.asked folder.old) (F.asked folder.new) }
    ensures later { F.faults folder.old ≤ F.faults folder.new }
{
    let before = folder.faults();
    let sources = gather(alloc, folder, most);
    if rose(before, folder.faults()) {
        return Err(LoadError::Failed);
    }
    sources
}

/// Loads the project of a folder. At most `most` bytes of each of its files are read.
pub fn load<F: Folder>(alloc: Global, folder: &mut F, most: usize) -> Result<Ready, LoadError>
    requires { most ≡ most_read }
    ensures loaded { IfOk result (λ project. IsLoaded project (F.files folder.old)) }
    ensures whole { OnOk result (¬ (Rose (F.faults folder.old) (F.faults folder.new))) }
    ensures error { IfErr result (λ error. IsLoadError error (F.files folder.old) (F.faults folder.old) (F.faults folder.new)) }
    ensures asked { AskedForFiles (F.files folder.old) (F.asked folder.old) (F.asked folder.new) }
    ensures later { F.faults folder.old ≤ F.faults folder.new }
{
    let sources = whole_sources(alloc, folder, most)?;
    Ok(project_of(alloc, &sources)?)
}

/// Loads the first version of a folder's project, as [`load`] loads the project.
pub fn load_version<F: Folder>(
    alloc: Global,
    folder: &mut F,
    most: usize,
) -> Result<Version, LoadError>
    requires { most ≡ most_read }
    ensures loaded { IfOk result (λ version. (meant : Meant) × Stands version meant × (Told (F.files folder.old) (λ files. Reads files (Ok meant.project)) × Told (F.files folder.old) (IsFirstVersion meant))) }
    ensures first { IfOk result (λ version. version.number ≡ first_version) }
    ensures whole { OnOk result (¬ (Rose (F.faults folder.old) (F.faults folder.new))) }
    ensures error { IfErr result (λ error. IsLoadError error (F.files folder.old) (F.faults folder.old) (F.faults folder.new)) }
    ensures asked { AskedForFiles (F.files folder.old) (F.asked folder.old) (F.asked folder.new) }
    ensures later { F.faults folder.old ≤ F.faults folder.new }
{
    let sources = whole_sources(alloc, folder, most)?;
    Ok(project_versions::load(alloc, sources)?)
}
