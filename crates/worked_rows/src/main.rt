//! Runs the program on the rows of the standard input, each a folder, words and streams in memory, and prints each row whose
//! outcome isn't the one that it wants, and how many there are. The gate compares that with the file `stdout`.
//!
//! A line is a field and its value. `row NAME` begins a row; `file NAME TEXT`, `words WORD ..`, `input TEXT`,
//! `fails FOLDER INPUT OUTPUT` (which call of each fails, counted from 1, where 0 is none) and `sizes READ WRITE ROOM`
//! (how many bytes the input gives and the output takes at once, and how many the output takes at all) describe it;
//! `run STATUS TEXT` runs it and says which status and what output is wanted, as `row_texts` shows it, `last STATUS TEXT` the same
//! with the last line of the output alone, `loop` runs one whose answer must be a lawful loop, and `spoiled TIMES` one that checks its project, so many
//! times with a front of each file in its place, and as many with a byte of it changed: each answer must accept the project or refuse it for a fault.
//!
//! `lane TEXT` adds a lane with this input. Behind it `gets TEXT` says what its output is to get, one such line for each lawful outcome, and nothing where there is
//! none; `enters N` how often its seat enters at least; `lane_fails INPUT OUTPUT` and `lane_sizes READ WRITE ROOM` are as for the row. A text has the
//! escapes of `row_texts`. An empty line, and one that begins with `#`, says nothing; a line with another field is told.
//!
//! `document FILE` runs the commands that a document shows, over the examples that lie where the program runs, and prints each and whether its answer is as the
//! document has it. A command is an indented line that begins with `$`; the indented lines below it, up to the next command, are its answer. Commands are
//! `./morph WORD ..` or `./try WORD ..`, behind `printf 'TEXT' |` or alone, and `cat FILE`. Those with lanes aren't run.
//!
//! `trials NAME` makes the calls of the crates that are tried on rows of their own, by the library of this name (`groups`): its rows stand in the file
//! trials/NAME, where the program runs.
//!
//! `waits TRIAL` runs the program with sources and sinks that wait for what others do (`trials`), and prints what came of it.
#![tactic(auto)]

mod commands;
mod documents;
mod groups;
mod lane;
mod numbers;
mod row;
mod sign;
mod sink;
mod source;
mod spoiled;
mod trials;

use crate::commands::answer_to;
use crate::documents::{Shown, shown_in};
use crate::groups::said_of_trials;
use crate::lane::RowLane;
use crate::numbers::{numbers, size};
use crate::row::Row;
use crate::trials::waited;
use row_texts::shown;
use std::alloc::{AllocError, Global};
use std::io::{self, Read};
use std::sync::Wait;
use std::thread::Threads;

/// How many rows were run, and how many of them had the outcome that they want.
#[derive(Drop)]
struct Count {
    /// How many rows were run.
    run: u64,
    /// How many of them had the outcome that they want.
    right: u64,
}

impl Count {
    /// Counts a row. Returns what is told of it, if it hasn't the outcome that it wants.
    fn judge(
        &mut self,
        alloc: Global,
        row: &Row,
        outcome: &str,
        wanted: &str,
    ) -> Result<Option<String>, AllocError> {
        self.run = self.run.saturating_add(1);
        if outcome.trim_ascii() == wanted.trim_ascii() {
            self.right = self.right.saturating_add(1);
            return Ok(None);
        }
        let name = row.name();
        Ok(Some(format!(in alloc; "{name}\n    wants {wanted}\n    gives {outcome}")?))
    }
}

/// Adds what a line says to a lane. Returns whether it has such a field.
fn obey_of_lane(
    alloc: Global,
    lane: &mut RowLane,
    field: &str,
    value: &str,
) -> Result<bool, AllocError> {
    match field {
        "gets" => lane.add_wanted(alloc, value)?,
        "enters" => lane.set_enters(value),
        "lane_fails" => lane.set_fails(value),
        "lane_sizes" => lane.set_sizes(value),
        _ => return Ok(false),
    }
    Ok(true)
}

/// What is told of a line of another field than those of a row: nothing where it is one of the last lane.
fn told_of_lane(
    alloc: Global,
    row: &mut Row,
    field: &str,
    value: &str,
) -> Result<Option<String>, AllocError> {
    if let Some(lane) = row.last_lane() {
        if obey_of_lane(alloc, lane, field, value)? {
            return Ok(None);
        }
    }
    Ok(Some(format!(in alloc; "no such field: {field} {value}")?))
}

/// Adds what a line says to the row, or runs it. Returns what is told of the line, if it isn't as it should be.
fn obey<R: Threads + Wait + Sync>(
    rt: &R,
    alloc: Global,
    count: &mut Count,
    row: &mut Row,
    line: &str,
) -> Result<Option<String>, AllocError> {
    let (field, value) = line.split_once(' ').unwrap_or((line, ""));
    match field {
        "" | "#" => {}
        "row" => *row = Row::named(alloc, value)?,
        "file" => row.add_file(alloc, value)?,
        "words" => row.set_words(alloc, value)?,
        "input" => row.set_input(alloc, value)?,
        "fails" => row.set_fails(value),
        "sizes" => row.set_sizes(value),
        "lane" => row.add_lane(alloc, value)?,
        "run" => return count.judge(alloc, row, row.outcome(rt, alloc)?.as_str(), value),
        "last" => return count.judge(alloc, row, row.last_outcome(rt, alloc)?.as_str(), value),
        "spoiled" => {
            let outcome = row.spoiled_outcome(rt, alloc, size(numbers(value)[0]))?;
            return count.judge(alloc, row, outcome.as_str(), "");
        }
        "loop" => return count.judge(alloc, row, row.loop_outcome(rt, alloc)?, ""),
        _ => return told_of_lane(alloc, row, field, value),
    }
    Ok(None)
}

/// Prints a command, and whether its answer is as it is shown.
fn tell<T: Threads + Wait + Sync>(
    threads: &T,
    rt: &HostRuntime,
    example: &Shown,
) -> io::Result<()> {
    let command = example.command.as_str();
    let answer = answer_to(threads, rt, command)?;
    if answer.as_slice() == example.answer.as_bytes() {
        println!(rt; "{command}\n    as written")
    } else {
        println!(rt;
            "{command}\n    gives {}",
            shown(rt.alloc(), &answer)?.as_str()
        )
    }
}

/// Runs the commands of a document.
fn tell_document<T: Threads + Wait + Sync>(
    threads: &T,
    rt: &HostRuntime,
    document: &str,
) -> io::Result<()> {
    let alloc = rt.alloc();
    println!(rt; "{document}")?;
    let text = answer_to(threads, rt, format!(in alloc; "cat {document}")?.as_str())?;
    let text = std::str::from_utf8(&text).unwrap_or("");
    'examples: for example in &shown_in(alloc, text)? {
        tell(threads, rt, example)?;
    }
    Ok(())
}

fn main(rt: HostRuntime) -> io::Result<()> {
    let alloc = rt.alloc();
    let mut text = String::new(alloc);
    rt.stdin().read_to_string(&mut text)?;
    let mut count = Count { run: 0, right: 0 };
    let mut row = Row::named(alloc, "")?;
    'lines: for line in text.as_str().lines() {
        if let Some(document) = line.strip_prefix("document ") {
            tell_document(&rt, &rt, document)?;
        } else if let Some(name) = line.strip_prefix("trials ") {
            print!(rt; "{line}\n{}", said_of_trials(&rt, &rt, name)?.as_str())?;
        } else if let Some(trial) = line.strip_prefix("waits ") {
            println!(rt; "{trial}: {}", waited(&rt, alloc, trial)?.as_str())?;
        } else if let Some(told) = obey(&rt, alloc, &mut count, &mut row, line)? {
            println!(rt; "{}", told.as_str())?;
        }
    }
    println!(rt;
        "{} of {} rows are as they want to be",
        count.right, count.run
    )?;
    Ok(())
}
