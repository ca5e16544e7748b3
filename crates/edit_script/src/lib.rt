//! An editor's commands and a lane's lines, each read from its line. Read `specs/Commands.antt` first: a keyword, and
//! behind it words that one space separates.
//!
//! - [`read_command`]: the [`EditCommand`] of a line; [`command_lines`]: how many lines follow it; [`command_kind`]: whether it
//!   is an edit, a look-up or a word alone.
//! - [`read_look`]: the [`Look`] of a lane's line.
//! - [`one_command`], [`one_look`]: the laws that a line is one command, and one look-up, only.
//!
//! A `Put` with the lines behind its own, each with its newline, is an edit `put` of project_sources (`specs/Edits.antt`), a
//! `Splice` an edit `splice`, and a `Drop` alone an edit `drops`.
#![tactic(auto)]

mod commands;
mod errors;
mod laws;
mod looks;
mod words;

pub use commands::{CommandKind, EditCommand, command_kind, command_lines, read_command};
pub use errors::CommandError;
pub use laws::{one_command, one_look};
pub use looks::{Look, read_look};
