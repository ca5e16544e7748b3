ghost use Rattle.std.specs.Prelude.{◌≡◌, ◌<◌, ◌≤◌, IfSome, List, None, Option, length, ℕ};
ghost use Rattle.std.specs.Io.{ReadsAtMost};
ghost use Rattle.std.specs.Io.KnownBytes.{ReadConsumes};
ghost use Rattle.fsm_io.specs.Causes.{HasCause};

use crate::sign::Sign;
use fsm_io::{Failed, Source};
use std::alloc::AllocError;
use std::sync::Arc;

/// A text that is given in one read, when a count has come so far.
#[derive(Clone, Copy)]
pub struct Piece {
    /// The text.
    pub text: &'static str,
    /// The count.
    pub after: u64,
}

/// A source of texts, each of which waits for a count. Where that doesn't come so far within the turns the read fails.
#[derive(Drop)]
pub struct WaitingSource {
    /// The texts.
    pieces: &'static [Piece],
    /// How many of them were given.
    given: usize,
    /// The count that is raised when a read begins.
    begins: Arc<Sign>,
    /// The count that is waited for.
    awaits: Arc<Sign>,
    /// How many reads failed.
    faults: u64,
}

impl WaitingSource {
    /// A source that has given nothing.
    pub fn new(
        pieces: &'static [Piece],
        begins: &Arc<Sign>,
        awaits: &Arc<Sign>,
    ) -> Result<WaitingSource, AllocError> {
        Ok(WaitingSource {
            pieces,
            given: 0,
            begins: Arc::try_clone(begins)?,
            awaits: Arc::try_clone(awaits)?,
            faults: 0,
        })
    }
}

/// Copies a text into the buffer, if it has room and is no empty one.
fn give(text: &str, buf: &mut [u8]) -> Option<usize>
    ensures { IfSome result (λ count. count ≤ length buf.new) }
{
    let bytes = text.as_bytes();
    if bytes.is_empty() || bytes.len() > buf.len() {
        return None;
    }
    buf[..bytes.len()].copy_from_slice(bytes);
    Some(bytes.len())
}

impl Source for WaitingSource {
    ghost left = { λ _. None };

    ghost faults = { λ s. s.faults };

    fn read(&mut self, buf: &mut [u8]) -> Result<usize, Failed> {
        self.begins.raise(1);
        let Some(piece) = self.pieces.get(self.given) else {
            return Ok(0);
        };
        if self.awaits.has_come_to(piece.after) {
            if let Some(count) = give(piece.text, buf) {
                self.given = self.given.saturating_add(1);
                return Ok(count);
            }
        }
        self.faults = self.faults.saturating_add(1);
        Err(Failed)
    }

    fn faults(&self) -> u64 {
        self.faults
    }
}
