ghost use Rattle.std.specs.Prelude.{◌≡◌, ℕ, ◌<◌, List, Option, length, IfOk};
ghost use Rattle.std.specs.Io.KnownBytes.{WriteAppends};
ghost use Rattle.fsm_io.specs.Causes.{HasCause};
ghost use Rattle.fsm_io.specs.Sinks.{WritesSome, WritesAll};

use crate::source::Failed;

/// Where bytes go to.
pub trait Sink {
    /// The bytes that were written, or `None` where they aren't told.
    ghost held: { Self → Option (List ℕ) };

    /// The failed calls so far, which [`Sink::faults`] answers.
    ghost faults: { Self → ℕ };

    /// Takes a front of `piece`, which isn't empty, and answers how many bytes, at least one. A failed
    /// call takes none.
    fn write(&mut self, piece: &[u8]) -> Result<usize, Failed>
        requires { 0 < length piece.now }
        ensures bound { IfOk result (WritesSome piece.now) }
        ensures bytes { WriteAppends (held self.old) (held self.new) result piece.now }
        ensures cause { HasCause (faults self.old) (faults self.new) result };

    /// How many calls failed so far, as far as 64 bits count.
    fn faults(&self) -> u64
        ensures { result ≡ faults self.now };
}

/// Writes all the bytes. After a failure the sink has a front of them.
pub fn write_all<K: Sink>(sink: &mut K, bytes: &[u8]) -> Result<(), Failed>
    ensures bytes { WritesAll (K.held sink.old) (K.held sink.new) bytes.now result }
    ensures cause { HasCause (K.faults sink.old) (K.faults sink.new) result }
{
    let mut rest = bytes;
    'pieces: while !rest.is_empty() {
        match sink.write(rest) {
            Ok(count) => rest = &rest[count..],
            Err(Failed) => return Err(Failed),
        }
    }
    Ok(())
}
