ghost use Rattle.std.specs.Prelude.{◌∷◌, []};
ghost use Rattle.project_sources.specs.Edits.{drops, put, splice};
ghost use Rattle.project_edits.specs.Applied.{IsApplied, edit_of, edits_of};

use crate::edit::Edit;
use crate::files::{is_one_too_many, with_file, without_file};
use crate::lines::spliced;
use project_sources::{MOST_BYTES, PlanError, Sources, refused};
use regex_ast::Why;
use std::alloc::Global;

/// The files with a whole file.
#[tactic(auto, unfolding(project_sources::specs::Limits::most_bytes))]
fn put_file(
    alloc: Global,
    sources: &Sources,
    file: &str,
    bytes: &[u8],
) -> Result<Sources, PlanError>
    ensures { IsApplied (put file.now bytes.now ∷ []) sources.now result }
{
    if is_one_too_many(sources, file) {
        return Err(refused(alloc, file, 0, Why::LimitFiles));
    }
    if bytes.len() > MOST_BYTES {
        return Err(refused(alloc, file, 0, Why::LimitFile));
    }
    let bytes = Vec::from_slice(alloc, bytes)?;
    Ok(with_file(sources, file, bytes)?)
}

/// The files with lines of one of them in the place of others.
#[tactic(auto, unfolding(project_sources::specs::Limits::most_bytes))]
fn splice_file(
    alloc: Global,
    sources: &Sources,
    file: &str,
    from: u32,
    count: u32,
    bytes: &[u8],
) -> Result<Sources, PlanError>
    ensures { IsApplied (splice file.now from count bytes.now ∷ []) sources.now result }
{
    let Some(content) = sources.get(file) else {
        return Err(refused(alloc, file, 0, Why::NoFile));
    };
    let Some(new) = spliced(alloc, content, from, count, bytes)? else {
        return Err(refused(alloc, file, from, Why::BadSplice));
    };
    if new.len() > MOST_BYTES {
        return Err(refused(alloc, file, 0, Why::LimitFile));
    }
    Ok(with_file(sources, file, new)?)
}

/// The files without one of them.
fn drop_file(alloc: Global, sources: &Sources, file: &str) -> Result<Sources, PlanError>
    ensures { IsApplied (drops file.now ∷ []) sources.now result }
{
    if sources.get(file).is_none() {
        return Err(refused(alloc, file, 0, Why::NoFile));
    }
    Ok(without_file(sources, file)?)
}

/// The files after one edit.
fn edited(alloc: Global, edit: &Edit, sources: &Sources) -> Result<Sources, PlanError>
    ensures { IsApplied (edit_of edit.now ∷ []) sources.now result }
{
    match edit {
        Edit::Put { file, bytes } => put_file(alloc, sources, file.as_str(), bytes),
        Edit::Splice {
            file,
            from,
            count,
            bytes,
        } => splice_file(alloc, sources, file.as_str(), *from, *count, bytes),
        Edit::Drop { file } => drop_file(alloc, sources, file.as_str()),
    }
}

/// The files after a change: its edits, one after another, each of what the one before has made. The contents of the others are
/// shared with those before, so that the time is linear in the files that are edited, and for each edit in the number of files.
///
/// # Errors
///
/// `Refused` with the first fault of the first edit that has one, of these in their order, each at the edit's file:
///
/// - `NoFile`, where a file that is spliced or dropped isn't there;
/// - `BadSplice` at the line `from`, where that is 0 or beyond the line behind the last, or lines are replaced that aren't there;
/// - `LimitFiles`, where a file is put beside 64 others, the manifest not counted;
/// - `LimitFile`, where the file has more than 1,048,576 bytes then.
///
/// `Memory` where there was no memory.
pub fn apply(alloc: Global, change: &[Edit], sources: &Sources) -> Result<Sources, PlanError>
    ensures { IsApplied (edits_of change.now) sources.now result }
{
    let mut new = sources.clone()?;
    'edits: for edit in change {
        new = edited(alloc, edit, &new)?;
    }
    Ok(new)
}
