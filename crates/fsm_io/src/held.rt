ghost use Rattle.std.specs.Prelude.{◌≡◌, ℕ, ◌<◌, ◌≤◌, ◌≢◌, [], drop, length, IfOk, Option};
ghost use Rattle.std.specs.Io.{ReadsAtMost};
ghost use Rattle.std.specs.Io.KnownBytes.{ReadConsumes};
ghost use Rattle.fsm_io.specs.Buffers.{most_ahead};
ghost use Rattle.fsm_io.specs.Causes.{HasCause};
ghost use Rattle.fsm_io.specs.Held.{Refills};

use crate::source::{Failed, Source};
use std::alloc::{AllocError, Global};
use std::marker::Model;

/// How many bytes a read of the source asks for at most.
const READ: usize = 64 * 1024;

/// Bytes that were read from a source in one call and are used from the front. Contracts see it as
/// the list of those that are left.
#[derive(Drop)]
pub struct Held {
    /// Memory for one read, and what the last one gave.
    bytes: Vec<u8>,
    /// Where the bytes that are left begin, no further than `end`.
    start: usize,
    /// Where they end, within `bytes`.
    end: usize,
}

impl Model for Held {
    ghost use Rattle.std.specs.Prelude.{◌-◌, ◌<◌, ◌≤◌, List, ℕ, drop, length, take};
    ghost use Rattle.fsm_io.specs.Buffers.{most_ahead};

    ghost Value = { List ℕ };

    ghost view = { λ h. take (h.end - h.start) (drop h.start h.bytes.items) };

    ghost invariant = { λ h. (h.start ≤ h.end) × (h.end ≤ length h.bytes.items) × (0 < length h.bytes.items) × (length h.bytes.items ≤ most_ahead) };
}

impl Held {
    /// An empty buffer.
    pub fn new(alloc: Global) -> Result<Held, AllocError>
        ensures { IfOk result (λ held. held ≡ []) }
    {
        Ok(Held {
            bytes: vec![in alloc; 0; READ]?,
            start: 0,
            end: 0,
        })
    }

    /// The bytes that are left.
    pub fn as_slice(&self) -> &[u8]
        ensures { result.now ≡ self.now }
    {
        &self.bytes[self.start..self.end]
    }

    /// Lets go of the first `count` bytes.
    pub fn skip(&mut self, count: usize)
        requires { count ≤ length self.old }
        ensures { self.new ≡ drop count self.old }
    {
        self.start += count;
    }

    /// Lets go of all bytes.
    pub fn clear(&mut self)
        ensures { self.new ≡ [] }
    {
        self.start = 0;
        self.end = 0;
    }

    /// Reads the next bytes from the source, at most `most` and at most as many as the buffer has room for, where none
    /// are left.
    pub fn refill<S: Source>(&mut self, source: &mut S, most: u64) -> Result<usize, Failed>
        requires empty { self.old ≡ [] }
        requires some { 0 < most }
        ensures bytes { Refills (S.left source.old) (S.left source.new) most self.new result }
        ensures few { length self.new ≤ most_ahead }
        ensures cause { HasCause (S.faults source.old) (S.faults source.new) result }
    {
        let count = read_front(source, &mut self.bytes, most)?;
        self.start = 0;
        self.end = count;
        Ok(count)
    }
}

/// One read into the front of a buffer, of at most `most` bytes.
fn read_front<S: Source>(source: &mut S, buf: &mut [u8], most: u64) -> Result<usize, Failed>
    requires room { 0 < length buf.old }
    requires some { 0 < most }
    ensures bound { ReadsAtMost result buf.new }
    ensures most { IfOk result (λ count. count ≤ most) }
    ensures bytes { ReadConsumes (S.left source.old) (S.left source.new) result buf.new }
    ensures cause { HasCause (S.faults source.old) (S.faults source.new) result }
{
    let room = most.min(buf.len() as u64) as usize;
    source.read(&mut buf[..room])
}
