ghost use Rattle.std.specs.Prelude.{◌≡◌, ◌+◌, ◌-◌, ◌≤◌, ◌<◌, [], ◌++◌, IfOk, IsTrue, ◌↔◌, length, min, take};

use std::alloc::{AllocError, Global};
use std::marker::Model;

/// Bytes up to a fixed number. It takes its memory when it is made, and none later.
#[derive(Drop)]
pub struct Buffer {
    /// The bytes that it holds, no more than its room.
    bytes: Vec<u8>,
    /// How many it has memory for.
    room: usize,
}

impl Model for Buffer {
    ghost use Rattle.std.specs.Prelude.{◌≤◌, length, vec_capacity};
    ghost use Rattle.fsm_io.specs.Buffers.{BufferView};

    ghost Value = { BufferView };

    ghost view = { λ b. record { held = b.bytes.items; room = b.room } };

    ghost invariant = { λ b. (length b.bytes.items ≤ b.room) × (b.room ≤ vec_capacity b.bytes) };
}

impl Buffer {
    /// An empty buffer for `room` bytes.
    pub fn new(alloc: Global, room: usize) -> Result<Buffer, AllocError>
        ensures { IfOk result (λ buffer. buffer ≡ record { held = []; room = room }) }
    {
        Ok(Buffer {
            bytes: Vec::with_capacity(alloc, room)?,
            room,
        })
    }

    /// The bytes that are held.
    pub fn as_slice(&self) -> &[u8]
        ensures bytes { result.now ≡ self.now.held }
        ensures bound { length self.now.held ≤ self.now.room }
    {
        self.bytes.as_slice()
    }

    /// How many bytes more it can hold.
    pub fn left(&self) -> usize
        ensures left { result ≡ self.now.room - length self.now.held }
        ensures bound { length self.now.held ≤ self.now.room }
    {
        self.room - self.bytes.len()
    }

    /// Appends the bytes as far as there is room, and answers how many.
    pub fn fill(&mut self, bytes: &[u8]) -> usize
        ensures count { result ≡ min (self.old.room - length self.old.held) (length bytes.now) }
        ensures held { self.new ≡ record self.old { held = self.old.held ++ take result bytes.now } }
        ensures bound { length self.old.held ≤ self.old.room }
    {
        let count = bytes.len().min(self.room - self.bytes.len());
        // The capacity suffices, so that this takes no memory and does not fail.
        let _ = self.bytes.extend_from_slice(&bytes[..count]);
        count
    }

    /// Lets go of all bytes.
    pub fn clear(&mut self)
        ensures { self.new ≡ record self.old { held = [] } }
    {
        self.bytes.clear();
    }
}
