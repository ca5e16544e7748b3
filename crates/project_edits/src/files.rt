ghost use Rattle.std.specs.Prelude.{◌≡◌, ◌≢◌, ◌↔◌, None, Some, IfOk, IsTrue, List, ℕ, cond};
ghost use Rattle.std.specs.Str.{bytes_eq};
ghost use Rattle.fsm_io.specs.Folders.{file_of};
ghost use Rattle.project_manifest.specs.Manifests.{project_name};
ghost use Rattle.project_sources.specs.Edits.{HoldsMost, held_in};

use project_manifest::is_manifest_name;
use project_sources::Sources;
use std::alloc::AllocError;

/// The most files besides the manifest.
const MOST_FILES: usize = 64;

/// Whether so many files are held besides the manifest as may be.
#[tactic(auto, unfolding(project_manifest::specs::Lines::most_files))]
fn is_full(sources: &Sources) -> bool
    ensures { IsTrue result ↔ HoldsMost (held_in sources.now) }
{
    match sources.get("project") {
        Some(_) => sources.len() > MOST_FILES,
        None => sources.len() >= MOST_FILES,
    }
}

/// Whether a file of this name would be one more than may be held.
pub fn is_one_too_many(sources: &Sources, file: &str) -> bool
    ensures { IsTrue result ↔ ((file.now ≢ project_name) × (held_in sources.now file.now ≡ None) × HoldsMost (held_in sources.now)) }
{
    !is_manifest_name(file.as_bytes()) && sources.get(file).is_none() && is_full(sources)
}

/// The files with another content of one of them, or with one more.
pub fn with_file(sources: &Sources, file: &str, bytes: Vec<u8>) -> Result<Sources, AllocError>
    ensures { IfOk result (λ new. (name : List ℕ) → file_of name new ≡ cond (bytes_eq file.now name) (Some bytes.items) (file_of name sources.now)) }
{
    let mut new = sources.clone()?;
    new.put(file, bytes)?;
    Ok(new)
}

/// The files without one of them.
pub fn without_file(sources: &Sources, file: &str) -> Result<Sources, AllocError>
    ensures { IfOk result (λ new. (name : List ℕ) → file_of name new ≡ cond (bytes_eq file.now name) None (file_of name sources.now)) }
{
    let mut new = sources.clone()?;
    new.remove(file);
    Ok(new)
}
