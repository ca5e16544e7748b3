//! Where bytes come from and go to, and the lines of a source.
//!
//! - [`Source`], [`Sink`], [`Folder`]: the traits that the crates above read and write through. Each
//!   tells its content where it is known, and counts its faults.
//! - [`MemorySource`], [`MemorySink`], [`MemoryFolder`]: in memory, with calls that fail as listed.
//! - [`ReadSource`], [`WriteSink`], [`DirFolder`]: over std's readers, writers and files.
//! - [`Lines`]: the lines of a source, each at most [`MOST_LINE`] bytes or told to be long.
//! - [`write_all`], [`Outbox`]: whole texts to a sink, and small pieces gathered before they go there.
//!
//! The laws for loops over a source are in `proofs/Streams.antt`.
#![tactic(auto)]

mod buffer;
mod causes;
mod dir_folder;
mod folder;
mod held;
mod lines;
mod memory_folder;
mod memory_sink;
mod memory_source;
mod outbox;
mod read_source;
mod sink;
mod source;
mod write_sink;

pub use causes::rose;
pub use dir_folder::DirFolder;
pub use folder::{Folder, FolderError, Found};
pub use lines::{LineEvent, Lines, MOST_LINE};
pub use memory_folder::{MemoryFolder, Request};
pub use memory_sink::MemorySink;
pub use memory_source::MemorySource;
pub use outbox::{MOST_GATHERED, Outbox};
pub use read_source::ReadSource;
pub use sink::{Sink, write_all};
pub use source::{Failed, Source};
pub use write_sink::WriteSink;
