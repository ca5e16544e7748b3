//! Reads the AT&T texts of rows, and tells each row and below it what came of it. The program worked_rows runs it on the rows of
//! data/trials/att_texts.
//!
//! A row is a field and its value. A value's text has the escapes of `row_texts`.
//!
//! - `read TEXT`: the network of a text, or its first fault. A network is told by its number of states, its edges `FROM UP:LOW TO`, where
//!   `0` is no symbol, and its final states.
//! - `symbols COUNT`: the number of edges of the network of a text with so many lines, each with a symbol of its own, or its first fault.
//!   `again COUNT`: the same of a text with one line more, whose symbol is that of the first one.
//!
//! A row with another field, as `#`, does nothing.
#![tactic(auto)]

mod reading;

use row_texts::{add_row, undone};
use std::alloc::{AllocError, Global};

/// What came of a row, if anything is to be told.
fn said_of_row(alloc: Global, row: &str) -> Result<Option<String>, AllocError> {
    let (field, value) = row.split_once(' ').unwrap_or((row, ""));
    let said = match field {
        "read" => reading::said_of_text(alloc, &undone(alloc, value)?),
        "symbols" => reading::said_of_symbols(alloc, value, false),
        "again" => reading::said_of_symbols(alloc, value, true),
        _ => return Ok(None),
    }?;
    Ok(Some(said))
}

/// What came of the rows of a text: each row with what came of it below.
///
/// # Errors
///
/// Where there was no memory.
pub fn said_of_rows(alloc: Global, rows: &str) -> Result<String, AllocError> {
    let mut told = String::new(alloc);
    'rows: for row in rows.lines() {
        if let Some(said) = said_of_row(alloc, row)? {
            add_row(
                &mut told,
                row,
                format!(in alloc; "    {}", said.as_str())?.as_str(),
            )?;
        }
    }
    Ok(told)
}
