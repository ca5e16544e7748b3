ghost use Rattle.std.specs.Prelude.{◌≡◌, ◌⊎◌, [], Err, IfErr, IfOk, None, Ok, Some};
ghost use Rattle.std.specs.Option.{option_map};
ghost use Rattle.fsm_io.specs.Folders.{file_of};
ghost use Rattle.project_store.specs.Projects.{IsWhyNot};
ghost use Rattle.saved_networks.specs.Faults.{IsWhyRefused, file_fault};
ghost use Rattle.morph_c.specs.Filling.{AreGathered, Becomes, IsFirstOf, IsLate, IsNoPut, HasSaved, IsNotOpened, IsNotShared, IsOpenedFrom, IsSameOpen, IsSavedIn, IsSavedNotOpened, IsSavedOpenedFrom, IsWithFile, status_in};
ghost use Rattle.morph_c.specs.Statuses.{status_of};
ghost use Rattle.morph_c.specs.declared.held.Held.TheVariants.{Gathered};
ghost use Rattle.morph_c.specs.declared.trouble.Trouble.TheVariants.{Memory, State};

use crate::held::{Held, Opened, SavedOwner, SavedRefusal};
use crate::project::{MorphProject, put_back, taken};
use crate::replies::line_of;
use crate::trouble::{OK, Trouble, number_of};
use fsm_base::Text;
use project_sources::Sources;
use project_store::{StoreError, read};
use project_versions::load;
use saved_networks::{SavedError, SavedWhy, open};
use std::alloc::Global;

/// The files that were put so far, none before the first. Their contents are shared.
fn files_in(alloc: Global, held: &Option<Box<Held>>) -> Result<Sources, Trouble>
    ensures files { IfOk result (AreGathered (option_map (λ b. b.value) held.now)) }
    ensures trouble { IfErr result (λ why. (why ≡ Memory) ⊎ ((why ≡ State) × IsLate (option_map (λ b. b.value) held.now))) }
{
    let Some(held) = held else {
        return Ok(Sources::new(alloc));
    };
    match held.as_ref() {
        Held::Gathered(sources) => {
            let files = sources.clone()?;
            Ok(files)
        }
        Held::Faulty(_) | Held::Open(_) | Held::Saved(_) | Held::Unreadable(_) => {
            Err(Trouble::State)
        }
    }
}

/// The files that were put so far, with one more.
fn with_file(
    alloc: Global,
    held: &Option<Box<Held>>,
    name: &[u8],
    content: &[u8],
) -> Result<Held, Trouble>
    ensures next { IfOk result (IsWithFile (option_map (λ b. b.value) held.now) name.now content.now) }
    ensures trouble { IfErr result (IsNoPut (option_map (λ b. b.value) held.now) name.now) }
{
    let mut files = files_in(alloc, held)?;
    let name = line_of(name)?;
    let bytes = Vec::from_slice(alloc, content)?;
    files.put(name, bytes)?;
    Ok(Held::Gathered(files))
}

/// The first version of files, or why there is none.
fn loaded(alloc: Global, files: &Sources) -> Result<Opened, StoreError>
    ensures version { IfOk result (IsFirstOf files.now) }
    ensures error { IfErr result (IsWhyNot files.now) }
{
    let project = read(alloc, files)?;
    let copy = files.clone()?;
    let version = load(alloc, copy)?;
    let opened = Opened::of(alloc, version, project)?;
    Ok(opened)
}

/// The project that the files that were put say, or their first fault.
fn opened_from(alloc: Global, held: &Option<Box<Held>>) -> Result<Held, Trouble>
    ensures next { IfOk result (IsOpenedFrom (option_map (λ b. b.value) held.now)) }
    ensures trouble { IfErr result (IsNotOpened (option_map (λ b. b.value) held.now)) }
{
    let Some(held) = held else {
        return Err(Trouble::State);
    };
    match held.as_ref() {
        Held::Gathered(files) => match loaded(alloc, files) {
            Ok(opened) => Ok(Held::Open(opened)),
            Err(StoreError::Refused(fault)) => Ok(Held::Faulty(fault)),
            Err(StoreError::Memory(_)) => Err(Trouble::Memory),
        },
        Held::Faulty(_) | Held::Open(_) | Held::Saved(_) | Held::Unreadable(_) => {
            Err(Trouble::State)
        }
    }
}

/// The network of a file that is an AT&T text, or why it is none.
fn network_in(alloc: Global, files: &Sources, name: &str) -> Result<SavedOwner, SavedError>
    ensures network { IfOk result (HasSaved files.now name.now) }
    ensures error { IfErr result (IsWhyRefused (file_fault (file_of name.now files.now))) }
{
    let Some(bytes) = files.get(name) else {
        return Err(SavedError::Refused {
            line: 0,
            why: SavedWhy::NoFile,
        });
    };
    let network = open(alloc, bytes)?;
    let owner = SavedOwner::of(alloc, network)?;
    Ok(owner)
}

/// The network of a file that is an AT&T text, or its first fault.
fn saved_in(alloc: Global, files: &Sources, name: &str) -> Result<Held, Trouble>
    ensures next { IfOk result (IsSavedIn files.now name.now) }
    ensures trouble { IfErr result (λ why. why ≡ Memory) }
{
    match network_in(alloc, files, name) {
        Ok(owner) => Ok(Held::Saved(owner)),
        Err(SavedError::Refused { line, why }) => {
            let file = Text::of(alloc, name)?;
            Ok(Held::Unreadable(SavedRefusal { file, line, why }))
        }
        Err(SavedError::Memory(_)) => Err(Trouble::Memory),
    }
}

/// The network of a file that was put and is an AT&T text, or its first fault.
fn saved_from(alloc: Global, held: &Option<Box<Held>>, name: &[u8]) -> Result<Held, Trouble>
    ensures next { IfOk result (IsSavedOpenedFrom (option_map (λ b. b.value) held.now) name.now) }
    ensures trouble { IfErr result (IsSavedNotOpened (option_map (λ b. b.value) held.now) name.now) }
{
    let Some(held) = held else {
        return Err(Trouble::State);
    };
    match held.as_ref() {
        Held::Gathered(files) => {
            let name = line_of(name)?;
            saved_in(alloc, files, name)
        }
        Held::Faulty(_) | Held::Open(_) | Held::Saved(_) | Held::Unreadable(_) => {
            Err(Trouble::State)
        }
    }
}

/// One more owner of what is open.
fn shared(held: &Option<Box<Held>>) -> Result<Held, Trouble>
    ensures next { IfOk result (IsSameOpen (option_map (λ b. b.value) held.now)) }
    ensures trouble { IfErr result (IsNotShared (option_map (λ b. b.value) held.now)) }
{
    let Some(held) = held else {
        return Err(Trouble::State);
    };
    match held.as_ref() {
        Held::Open(opened) => {
            let other = opened.share()?;
            Ok(Held::Open(other))
        }
        Held::Saved(owner) => {
            let other = owner.share()?;
            Ok(Held::Saved(other))
        }
        Held::Gathered(_) | Held::Faulty(_) | Held::Unreadable(_) => Err(Trouble::State),
    }
}

/// The number that tells what a project has become.
fn number_in(held: &Held) -> u32
    ensures { result ≡ status_in held.now }
{
    match held {
        Held::Faulty(_) | Held::Unreadable(_) => number_of(&Trouble::Refused),
        Held::Gathered(_) | Held::Open(_) | Held::Saved(_) => OK,
    }
}

/// The same in memory of its own.
fn boxed(alloc: Global, next: Result<Held, Trouble>) -> Result<Box<Held>, Trouble>
    ensures next { IfOk result (λ b. next ≡ Ok b.value) }
    ensures trouble { IfErr result (λ why. (next ≡ Err why) ⊎ (why ≡ Memory)) }
{
    let held = next?;
    match Box::new(alloc, held) {
        Ok(held) => Ok(held),
        Err(_) => Err(Trouble::Memory),
    }
}

/// Gives a project what it becomes, or else what it had.
fn become_next(
    alloc: Global,
    project: &mut MorphProject,
    held: Option<Box<Held>>,
    next: Result<Box<Held>, Trouble>,
) -> u32
    ensures became { IfOk next (λ b. project.new.slot.value ≡ Some b.value) }
    ensures number { IfOk next (λ b. result ≡ status_in b.value) }
    ensures kept { IfErr next (λ _. project.new.slot.value ≡ option_map (λ b. b.value) held) }
    ensures trouble { IfErr next (λ why. result ≡ status_of why) }
{
    match next {
        Ok(next) => {
            let number = number_in(&next);
            put_back(alloc, project, Some(next));
            drop(held);
            number
        }
        Err(why) => {
            put_back(alloc, project, held);
            number_of(&why)
        }
    }
}

/// Puts a file among those of a project that isn't open yet.
#[unsafe(no_mangle)]
pub extern "C" fn morph_put(
    alloc: Global,
    project: &mut MorphProject,
    name: &[u8],
    content: &[u8],
) -> u32
    ensures { Becomes (IsWithFile project.old.slot.value name.now content.now) (IsNoPut project.old.slot.value name.now) project.old.slot.value project.new.slot.value result }
{
    let held = taken(alloc, project);
    let next = with_file(alloc, &held, name, content);
    let next = boxed(alloc, next);
    become_next(alloc, project, held, next)
}

/// Opens the project that the files say, or keeps their first fault.
#[unsafe(no_mangle)]
pub extern "C" fn morph_open(alloc: Global, project: &mut MorphProject) -> u32
    ensures { Becomes (IsOpenedFrom project.old.slot.value) (IsNotOpened project.old.slot.value) project.old.slot.value project.new.slot.value result }
{
    let held = taken(alloc, project);
    let next = opened_from(alloc, &held);
    let next = boxed(alloc, next);
    become_next(alloc, project, held, next)
}

/// Opens the file of this name, of those that were put, as an AT&T text, or keeps its first fault.
#[unsafe(no_mangle)]
pub extern "C" fn morph_open_att(alloc: Global, project: &mut MorphProject, name: &[u8]) -> u32
    ensures { Becomes (IsSavedOpenedFrom project.old.slot.value name.now) (IsSavedNotOpened project.old.slot.value name.now) project.old.slot.value project.new.slot.value result }
{
    let held = taken(alloc, project);
    let next = saved_from(alloc, &held, name);
    let next = boxed(alloc, next);
    become_next(alloc, project, held, next)
}

/// Gives another owner what is open. What the other has is let go.
#[unsafe(no_mangle)]
pub extern "C" fn morph_share(
    alloc: Global,
    project: &mut MorphProject,
    other: &mut MorphProject,
) -> u32
    ensures shared { Becomes (IsSameOpen project.old.slot.value) (IsNotShared project.old.slot.value) other.old.slot.value other.new.slot.value result }
    ensures kept { project.new.slot.value ≡ project.old.slot.value }
{
    let held = taken(alloc, project);
    let next = shared(&held);
    let next = boxed(alloc, next);
    put_back(alloc, project, held);
    let before = taken(alloc, other);
    become_next(alloc, other, before, next)
}

/// Lets go of all that a project has.
#[unsafe(no_mangle)]
pub extern "C" fn morph_close(alloc: Global, project: &mut MorphProject)
    ensures { project.new.slot.value ≡ None }
{
    let held = taken(alloc, project);
    drop(held);
}
