//! Reads the texts of rows, and tells each row and below it what came of it. The program worked_rows runs it on the rows of
//! data/trials/definitions.
//!
//! A line is a field and its value, a text with the escapes of `row_texts`:
//!
//! - `text TEXT` reads definitions: each with its line and its tree, or the line and the reason of their fault;
//! - `entry TEXT` reads an expression as an entry of a lexicon has one, here in line 7;
//! - `again TEXT` reads an expression, prints its tree and reads that again. Such a row is only told where the tree
//!   isn't the same then; how many are is told at the end. `bench/expressions.py` writes these rows.
//!
//! An empty line, and one that begins with `#`, says nothing; a line with another field is told.
#![tactic(auto)]

mod again;
mod print;
mod reading;

use crate::again::is_same_again;
use crate::reading::{said_of_entry, said_of_text};
use row_texts::{add_line, add_row, undone};
use std::alloc::{AllocError, Global};

/// The most bytes of a text that is read.
const MOST_READ: usize = 1_000_000;

/// How many rows `again` there were, and how many of their trees stayed the same.
#[derive(Drop)]
struct Trees {
    /// How many were read.
    read: u64,
    /// How many were the same again.
    same: u64,
}

/// Does what a row says. Returns what came of it, if that is to be told.
fn obey(alloc: Global, trees: &mut Trees, row: &str) -> Result<Option<String>, AllocError> {
    let (field, value) = row.split_once(' ').unwrap_or((row, ""));
    let bytes = undone(alloc, value)?;
    let Ok(text) = std::str::from_utf8(&bytes) else {
        return Ok(Some(String::from_str(alloc, "no text")?));
    };
    match field {
        "text" => Ok(Some(said_of_text(alloc, text)?)),
        "entry" => Ok(Some(said_of_entry(alloc, text)?)),
        "again" => print_again(alloc, trees, text),
        "" | "#" => Ok(None),
        _ => Ok(Some(String::from_str(alloc, "no such field")?)),
    }
}

/// Counts an expression. Returns a message where its tree doesn't stay the same.
fn print_again(alloc: Global, trees: &mut Trees, text: &str) -> Result<Option<String>, AllocError> {
    trees.read = trees.read.saturating_add(1);
    if is_same_again(alloc, text)? {
        trees.same = trees.same.saturating_add(1);
        return Ok(None);
    }
    Ok(Some(String::from_str(alloc, "not the same tree again")?))
}

/// What came of the rows of a text: each row with what came of it below, and how many trees stayed the same.
///
/// # Errors
///
/// Where there was no memory.
pub fn said_of_rows(alloc: Global, rows: &str) -> Result<String, AllocError> {
    let mut told = String::new(alloc);
    let mut trees = Trees { read: 0, same: 0 };
    'rows: for row in rows.lines() {
        if let Some(outcome) = obey(alloc, &mut trees, row)? {
            add_row(
                &mut told,
                row,
                format!(in alloc; "    {}", outcome.as_str())?.as_str(),
            )?;
        }
    }
    let counts = format!(in alloc;
        "{} of {} trees are the same when they are printed and read again",
        trees.same, trees.read
    )?;
    add_line(&mut told, counts.as_str())?;
    Ok(told)
}
