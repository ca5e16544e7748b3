ghost use Rattle.std.specs.Prelude.{◌≡◌, ℕ, ◌<◌, ◌≤◌, Some, [], length, IfOk};
ghost use Rattle.std.specs.Io.KnownBytes.{WriteAppends};
ghost use Rattle.fsm_io.specs.Causes.{HasCause};
ghost use Rattle.fsm_io.specs.Sinks.{WritesSome};

use crate::buffer::Buffer;
use crate::sink::Sink;
use crate::source::Failed;
use std::alloc::{AllocError, Global};
use std::marker::Model;

/// A sink in memory, which takes bytes in pieces, fails at listed calls and where its room is used up.
#[derive(Drop)]
pub struct MemorySink {
    /// What it took, and its room.
    written: Buffer,
    /// How many bytes it takes at once, at least one.
    piece: usize,
    /// The calls that fail, counted from 1.
    failing: Vec<u64>,
    /// How many calls there were.
    calls: u64,
    /// How many of them failed.
    faults: u64,
}

impl Model for MemorySink {
    ghost use Rattle.std.specs.Prelude.{◌<◌, ◌≤◌, length};
    ghost use Rattle.fsm_io.specs.Objects.{SinkView};

    ghost Value = { SinkView };

    ghost view = { λ s. record { held = s.written.held; room = s.written.room; piece = s.piece; failing = s.failing.items; calls = s.calls; faults = s.faults } };

    ghost invariant = { λ s. (1 ≤ s.piece) × (length s.written.held ≤ s.written.room) };
}

impl MemorySink {
    ghost use Rattle.fsm_io.specs.Objects.{SinkView};

    /// An empty sink with memory for `room` bytes, which takes at most `piece` of them in a write, and
    /// fails at the calls listed in `failing`, counted from 1, and where `room` bytes are held.
    pub fn new(
        alloc: Global,
        room: usize,
        piece: usize,
        failing: Vec<u64>,
    ) -> Result<MemorySink, AllocError>
        requires { 1 ≤ piece }
        ensures { IfOk result (λ sink. sink ≡ record { held = []; room = room; piece = piece; failing = failing.items; calls = 0; faults = 0 }) }
    {
        Ok(MemorySink {
            written: Buffer::new(alloc, room)?,
            piece,
            failing,
            calls: 0,
            faults: 0,
        })
    }

    /// What was written.
    pub fn bytes(&self) -> &[u8]
        ensures { result.now ≡ self.now.held }
    {
        self.written.as_slice()
    }
}

impl Sink for MemorySink {
    ghost use Rattle.fsm_io.specs.Objects.{WritesPiece};

    ghost held = { λ s. Some s.held };

    ghost faults = { λ s. s.faults };

    fn write(&mut self, piece: &[u8]) -> Result<usize, Failed>
        requires { 0 < length piece.now }
        ensures bound { IfOk result (WritesSome piece.now) }
        ensures bytes { WriteAppends (Some self.old.held) (Some self.new.held) result piece.now }
        ensures cause { HasCause self.old.faults self.new.faults result }
        ensures exact { WritesPiece self.old self.new piece.now result }
    {
        self.calls = self.calls.saturating_add(1);
        if self.failing.contains(&self.calls) || self.written.left() == 0 {
            self.faults = self.faults.saturating_add(1);
            return Err(Failed);
        }
        let most = self.piece.min(piece.len());
        Ok(self.written.fill(&piece[..most]))
    }

    fn faults(&self) -> u64 {
        self.faults
    }
}
