ghost use Rattle.std.specs.Prelude.{◌≡◌, ◌<◌, IfOk, List, None, Option, length, ℕ};
ghost use Rattle.std.specs.Io.KnownBytes.{WriteAppends};
ghost use Rattle.fsm_io.specs.Causes.{HasCause};
ghost use Rattle.fsm_io.specs.Sinks.{WritesSome};

use crate::sign::Sign;
use fsm_io::{Failed, Sink};
use std::alloc::{AllocError, Global};
use std::sync::Arc;

/// A sink that waits for a count at each write, and counts the lines that it took. Where the count doesn't come so far within the turns the write fails.
#[derive(Drop)]
pub struct WaitingSink {
    /// What it took.
    written: Vec<u8>,
    /// The count that is raised when a write begins.
    begins: Arc<Sign>,
    /// The count that is waited for.
    awaits: Arc<Sign>,
    /// How far that has to come.
    after: u64,
    /// The count of lines.
    lines: Arc<Sign>,
    /// How many writes failed.
    faults: u64,
}

/// How many lines end in bytes.
fn lines_in(bytes: &[u8]) -> u64 {
    let mut lines = 0u64;
    for byte in bytes {
        if *byte == b'\n' {
            lines = lines.saturating_add(1);
        }
    }
    lines
}

impl WaitingSink {
    /// A sink that took nothing.
    pub fn new(
        alloc: Global,
        begins: &Arc<Sign>,
        awaits: &Arc<Sign>,
        after: u64,
        lines: &Arc<Sign>,
    ) -> Result<WaitingSink, AllocError> {
        Ok(WaitingSink {
            written: Vec::new(alloc),
            begins: Arc::try_clone(begins)?,
            awaits: Arc::try_clone(awaits)?,
            after,
            lines: Arc::try_clone(lines)?,
            faults: 0,
        })
    }

    /// What it took.
    pub fn bytes(&self) -> &[u8] {
        &self.written
    }

    /// Takes a piece, if there is memory for it.
    fn take(&mut self, piece: &[u8]) -> bool
        ensures { self.new.faults ≡ self.old.faults }
    {
        if self.written.extend_from_slice(piece).is_err() {
            return false;
        }
        self.lines.raise(lines_in(piece));
        true
    }
}

impl Sink for WaitingSink {
    ghost held = { λ _. None };

    ghost faults = { λ s. s.faults };

    fn write(&mut self, piece: &[u8]) -> Result<usize, Failed> {
        self.begins.raise(1);
        if self.awaits.has_come_to(self.after) && self.take(piece) {
            return Ok(piece.len());
        }
        self.faults = self.faults.saturating_add(1);
        Err(Failed)
    }

    fn faults(&self) -> u64 {
        self.faults
    }
}
