ghost use Rattle.std.specs.Prelude.{◌≡◌, ◌≤◌, ℕ, ◌↔◌, [], IfOk, IsTrue, length};
ghost use Rattle.fsm_io.specs.Buffers.{most_gathered};
ghost use Rattle.fsm_io.specs.Causes.{HasCause};
ghost use Rattle.fsm_io.specs.Sinks.{Gathers};

use crate::buffer::Buffer;
use crate::sink::{Sink, write_all};
use crate::source::Failed;
use std::alloc::{AllocError, Global};
use std::marker::Model;

/// The most bytes that an outbox gathers.
pub const MOST_GATHERED: usize = 65_536;

/// Gathers small pieces before they go to a sink. Contracts see it as the bytes that are gathered and
/// not yet written.
#[derive(Drop)]
pub struct Outbox {
    /// What is gathered and not yet written.
    gathered: Buffer,
}

impl Model for Outbox {
    ghost use Rattle.std.specs.Prelude.{◌≤◌, List, ℕ};
    ghost use Rattle.fsm_io.specs.Buffers.{most_gathered};

    ghost Value = { List ℕ };

    ghost view = { λ b. b.gathered.held };

    ghost invariant = { λ b. b.gathered.room ≤ most_gathered };
}

impl Outbox {
    /// An empty outbox with memory for `room` bytes, but no more than [`MOST_GATHERED`]. It takes none later.
    pub fn open(alloc: Global, room: usize) -> Result<Outbox, AllocError>
        ensures { IfOk result (λ outbox. outbox ≡ []) }
    {
        Ok(Outbox {
            gathered: Buffer::new(alloc, room.min(MOST_GATHERED))?,
        })
    }

    /// Whether nothing is gathered.
    pub fn is_empty(&self) -> bool
        ensures { IsTrue result ↔ (self.now ≡ []) }
    {
        self.gathered.as_slice().is_empty()
    }

    /// Gathers the bytes. Where they don't fit, what was gathered before is written first, and bytes
    /// that don't fit even then are written too. After a failure nothing is gathered, and the sink has
    /// a front of all these bytes.
    pub fn put<K: Sink>(&mut self, sink: &mut K, bytes: &[u8]) -> Result<(), Failed>
        ensures bytes { Gathers (K.held sink.old) (K.held sink.new) self.old bytes.now self.new result }
        ensures few { length self.new ≤ most_gathered }
        ensures cause { HasCause (K.faults sink.old) (K.faults sink.new) result }
    {
        if bytes.len() <= self.gathered.left() {
            self.gathered.fill(bytes);
            return Ok(());
        }
        match self.flush(sink) {
            Ok(()) => self.put_first(sink, bytes),
            Err(Failed) => Err(Failed),
        }
    }

    /// Writes what is gathered. Nothing is gathered then, also after a failure, where the sink has a
    /// front of it.
    pub fn flush<K: Sink>(&mut self, sink: &mut K) -> Result<(), Failed>
        ensures bytes { Gathers (K.held sink.old) (K.held sink.new) self.old [] self.new result }
        ensures empty { self.new ≡ [] }
        ensures cause { HasCause (K.faults sink.old) (K.faults sink.new) result }
    {
        let written = write_all(sink, self.gathered.as_slice());
        self.gathered.clear();
        written
    }

    /// Gathers the bytes where nothing is gathered, or writes them where they don't fit.
    fn put_first<K: Sink>(&mut self, sink: &mut K, bytes: &[u8]) -> Result<(), Failed>
        requires { self.old ≡ [] }
        ensures bytes { Gathers (K.held sink.old) (K.held sink.new) [] bytes.now self.new result }
        ensures few { length self.new ≤ most_gathered }
        ensures cause { HasCause (K.faults sink.old) (K.faults sink.new) result }
    {
        if bytes.len() <= self.gathered.left() {
            self.gathered.fill(bytes);
            return Ok(());
        }
        write_all(sink, bytes)
    }
}
