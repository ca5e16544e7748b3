//! Makes the calls that rows name, of the crates that read and write texts, streams, commands, events and glosses, and tells each row and
//! below it what came of it. The program worked_rows runs it on the rows of data/trials/texts.
//!
//! A line `## NAME` is a heading, which is told too: the rows below it, up to the next one, are of the section of that
//! name. An empty line, and another one that begins with `#`, says nothing; a row in another form is told. A row is a
//! field and its value, save in the section `live`. A value's text has the escapes of `row_texts`, and so has what is
//! told.
//!
//! `## text`, calls of fsm_base, fsm_io and regex_tokens:
//!
//! - `source TEXT`: the text of a source, or its first fault. `nfc TEXT`: the text in Normalization Form C.
//! - `order TEXT TEXT`: how two texts compare. `intern TEXT ..`: the numbers of symbols. `cut TEXT`: the symbols of a
//!   text over `a`, which has the number 0, and `ab`, which has 1.
//! - `tokens TEXT`: the tokens of an xfst text in line 1.
//! - `lines PIECE BUDGET COUNT FAILING .. | TEXT`: the first events of a source that gives so many bytes at once, and
//!   some of whose calls fail, counted from 1. `reader COUNT | TEXT` and `no_reader COUNT`: the same of a reader.
//! - `write ROOM PIECE FAILING .. | TEXT`: writes piece by piece. `write_all`: writes all in one call. `writer | TEXT`
//!   and `no_writer | TEXT`: writes all to a writer.
//! - `outbox ROOM FAILING .. | STEP ..`: puts each step into an outbox, and flushes it at `!`.
//! - `read FAILING .. | NAME:MOST ..`: reads of a folder with the files `e`, `f` and `f` again. `directory NAME:MOST ..`:
//!   reads of the folder that the program runs in.
//!
//! `## twolc`, calls of twolc_tokens and twolc_expressions:
//!
//! - `tokens TEXT`: the tokens of a twolc text, each with its line, and at the end whether the text ended, or in which
//!   line no token begins.
//! - `atom ATOM`, without escapes: what the atom is where `V` is a set and `D` a definition, as a part of an expression, in
//!   the alphabet, as the centre of a rule, and in the list of a set.
//!
//! `## live`, events of live_core: `READERS ROOM | EVENT, ..` says how many readers there are, how many values may be
//! published after the first, which is `a`, and what happens then. An event is `publish VALUE`, where a value is a letter,
//! `enter READER` or `learn READER UPTO`. The events are taken once one by one and once as a list; where these differ,
//! both are told.
//!
//! `## command`, calls of edit_script:
//!
//! - `command TEXT`: the editor's command of a line. `lines TEXT`: how many lines follow a line.
//! - `look TEXT`: what a lane's line asks for.
//!
//! `## gloss`, calls of interlinear:
//!
//! - `words LINE`: the words of a line.
//! - `gloss TEXT|WORD`: a word in the glosses of the table of a text, or the table's first fault.
//! - `block WORD ANALYSIS GLOSS ..`: the block of cells at version 1.
#![tactic(auto)]

mod atoms;
mod command_rows;
mod endings;
mod files;
mod gloss_rows;
mod live_rows;
mod sinks;
mod sources;
mod text_rows;
mod texts;
mod tokens;
mod twolc_rows;

use edit_script::{one_command, one_look};
use row_texts::{add_line, add_row};
use std::alloc::{AllocError, Global};
use std::rt::Files;

/// The most bytes of a text that is read.
const MOST_READ: usize = 1000;

/// What the rows below a heading ask for.
#[derive(Clone, Copy, Debug)]
enum Section {
    Text,
    Twolc,
    Live,
    Command,
    Gloss,
    Other,
}

/// The section of a heading's name.
fn section_of(name: &str) -> Section {
    match name {
        "text" => Section::Text,
        "twolc" => Section::Twolc,
        "live" => Section::Live,
        "command" => Section::Command,
        "gloss" => Section::Gloss,
        _ => Section::Other,
    }
}

/// What came of a row of a section, or None where it is no such row.
fn said_of_row(
    rt: &impl Files,
    alloc: Global,
    section: Section,
    row: &str,
) -> Result<Option<String>, AllocError> {
    let (field, value) = row.split_once(' ').unwrap_or((row, ""));
    match section {
        Section::Text => text_rows::said_of_row(rt, alloc, field, value),
        Section::Twolc => twolc_rows::said_of_row(alloc, field, value),
        Section::Live => live_rows::said_of_row(alloc, row),
        Section::Command => command_rows::said_of_row(alloc, field, value),
        Section::Gloss => gloss_rows::said_of_row(alloc, field, value),
        Section::Other => Ok(None),
    }
}

/// What came of the rows of a text: each heading, and each row with what came of it below.
///
/// # Errors
///
/// Where there was no memory.
pub fn said_of_rows(rt: &impl Files, alloc: Global, rows: &str) -> Result<String, AllocError> {
    one_command();
    one_look();
    let mut told = String::new(alloc);
    let mut section = Section::Other;
    'rows: for row in rows.lines() {
        if let Some(name) = row.strip_prefix("## ") {
            section = section_of(name);
            add_line(&mut told, row)?;
        } else if !row.is_empty() && !row.starts_with('#') {
            add_row(
                &mut told,
                row,
                line_of(alloc, said_of_row(rt, alloc, section, row)?)?.as_str(),
            )?;
        }
    }
    Ok(told)
}

/// The line of what came of a row, or that it is no such row.
fn line_of(alloc: Global, said: Option<String>) -> Result<String, AllocError> {
    match said {
        Some(said) => format!(in alloc; "    {}", said.as_str()),
        None => String::from_str(alloc, "    no such row"),
    }
}
