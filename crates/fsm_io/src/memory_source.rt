ghost use Rattle.std.specs.Prelude.{◌≡◌, ℕ, ◌<◌, ◌≤◌, Some, length, min, take};
ghost use Rattle.std.specs.Io.{ReadsAtMost};
ghost use Rattle.std.specs.Io.KnownBytes.{ReadConsumes};
ghost use Rattle.fsm_io.specs.Causes.{HasCause};

use crate::source::{Failed, Source};
use std::marker::Model;

/// A source in memory, which gives its bytes in pieces and fails at listed calls.
#[derive(Drop)]
pub struct MemorySource {
    /// All its bytes.
    bytes: Vec<u8>,
    /// How many of the bytes were given.
    given: usize,
    /// How many it gives at once, at least one.
    piece: usize,
    /// The calls that fail, counted from 1.
    failing: Vec<u64>,
    /// How many calls there were.
    calls: u64,
    /// How many of them failed.
    faults: u64,
}

impl Model for MemorySource {
    ghost use Rattle.std.specs.Prelude.{◌<◌, ◌≤◌, drop, length};
    ghost use Rattle.fsm_io.specs.Objects.{SourceView};

    ghost Value = { SourceView };

    ghost view = { λ s. record { left = drop s.given s.bytes.items; piece = s.piece; failing = s.failing.items; calls = s.calls; faults = s.faults } };

    ghost invariant = { λ s. (1 ≤ s.piece) × (s.given ≤ length s.bytes.items) };
}

impl MemorySource {
    ghost use Rattle.fsm_io.specs.Objects.{SourceView};

    /// A source of these bytes, which gives at most `piece` of them in a read, and fails at the calls
    /// listed in `failing`, counted from 1.
    pub fn new(bytes: Vec<u8>, piece: usize, failing: Vec<u64>) -> MemorySource
        requires { 1 ≤ piece }
        ensures { result ≡ record { left = bytes.items; piece = piece; failing = failing.items; calls = 0; faults = 0 } }
    {
        MemorySource {
            bytes,
            given: 0,
            piece,
            failing,
            calls: 0,
            faults: 0,
        }
    }
}

impl Source for MemorySource {
    ghost use Rattle.fsm_io.specs.Objects.{ReadsPiece};

    ghost left = { λ s. Some s.left };

    ghost faults = { λ s. s.faults };

    fn read(&mut self, buf: &mut [u8]) -> Result<usize, Failed>
        requires { 0 < length buf.old }
        ensures bound { ReadsAtMost result buf.new }
        ensures bytes { ReadConsumes (Some self.old.left) (Some self.new.left) result buf.new }
        ensures cause { HasCause self.old.faults self.new.faults result }
        ensures exact { ReadsPiece self.old self.new (length buf.old) result }
    {
        self.calls = self.calls.saturating_add(1);
        if self.failing.contains(&self.calls) {
            self.faults = self.faults.saturating_add(1);
            return Err(Failed);
        }
        let count = give(&self.bytes[self.given..], self.piece, buf);
        self.given += count;
        Ok(count)
    }

    fn faults(&self) -> u64 {
        self.faults
    }
}

/// Copies the next bytes into the buffer: a piece, as far as there is room.
fn give(left: &[u8], piece: usize, buf: &mut [u8]) -> usize
    ensures count { result ≡ min (min piece (length buf.old)) (length left.now) }
    ensures copied { take result buf.new ≡ take result left.now }
{
    let count = piece.min(buf.len()).min(left.len());
    buf[..count].copy_from_slice(&left[..count]);
    count
}
