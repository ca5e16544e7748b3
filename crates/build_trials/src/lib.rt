//! Makes permits and runs levels of jobs by rows, then two jobs that go beside each other, and tells what came of it. The program
//! worked_rows runs it on the rows of data/trials/builds.
//!
//! A row is `forge NAME VERSION, .. ; ..`, where each group is reserved and then permitted, or `level RESULT ..`, a job for each result.
//! An empty line, and one that begins with `#`, says nothing; a row in another form is told.
#![tactic(auto)]

mod level_rows;
mod meeting;
mod permit_rows;
mod watch;

use row_texts::{add_line, add_row};
use std::alloc::{AllocError, Global};
use std::thread::Threads;

/// What came of a row, or None where it is none.
fn said_of_row<R: Threads + Sync>(
    rt: &R,
    alloc: Global,
    row: &str,
) -> Result<Option<String>, AllocError> {
    let (kind, rest) = row.split_once(' ').unwrap_or((row, ""));
    match kind {
        "forge" => permit_rows::said_of_groups(alloc, rest),
        "level" => level_rows::said_of_level(rt, alloc, rest),
        _ => Ok(None),
    }
}

/// What came of the rows of a text, each with what came of it below, and of the two jobs.
///
/// # Errors
///
/// Where there was no memory.
pub fn said_of_rows<R: Threads + Sync>(
    rt: &R,
    alloc: Global,
    rows: &str,
) -> Result<String, AllocError> {
    let mut told = String::new(alloc);
    'rows: for row in rows.lines() {
        if row.is_empty() || row.starts_with('#') {
            continue;
        }
        match said_of_row(rt, alloc, row)? {
            Some(said) => add_row(
                &mut told,
                row,
                format!(in alloc; "    {}", said.as_str())?.as_str(),
            )?,
            None => add_row(&mut told, row, "    no such row")?,
        }
    }
    add_line(&mut told, permit_rows::said_of_refused(alloc)?.as_str())?;
    let beside = meeting::builds_go_beside(rt, alloc)?;
    add_line(
        &mut told,
        format!(in alloc; "builds_go_beside: {}", beside.as_str())?.as_str(),
    )?;
    Ok(told)
}
