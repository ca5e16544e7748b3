ghost use Rattle.std.specs.Prelude.{◌≡◌, ℕ, ◌<◌, IfOk, Option, option_and_then, length};
ghost use Rattle.std.specs.Io.KnownBytes.{WriteAppends};
ghost use Rattle.fsm_io.specs.Adapters.{PassesOn, faults_of_sink, writer_of};
ghost use Rattle.fsm_io.specs.Causes.{HasCause};
ghost use Rattle.fsm_io.specs.Sinks.{WritesSome};

use crate::sink::Sink;
use crate::source::Failed;
use std::io::Write;

/// A sink over a writer of std. It tells what the writer tells: nothing, of a file.
#[derive(Drop)]
pub struct WriteSink<T> {
    /// The writer; without one each write fails.
    inner: Option<T>,
    /// How many writes failed, as far as 64 bits count.
    faults: u64,
}

impl<T: Write> WriteSink<T> {
    /// A sink over the writer. With none, each write fails.
    pub fn new(inner: Option<T>) -> WriteSink<T>
        ensures writer { writer_of result ≡ inner }
        ensures faults { faults_of_sink result ≡ 0 }
    {
        WriteSink { inner, faults: 0 }
    }
}

impl<T: Write> Sink for WriteSink<T> {
    ghost held = { λ s. option_and_then T.contents (writer_of s) };

    ghost faults = { λ s. faults_of_sink s };

    /// A writer that takes nothing has failed.
    fn write(&mut self, piece: &[u8]) -> Result<usize, Failed>
        requires { 0 < length piece.now }
        ensures bound { IfOk result (WritesSome piece.now) }
        ensures bytes { WriteAppends (option_and_then T.contents (writer_of self.old)) (option_and_then T.contents (writer_of self.new)) result piece.now }
        ensures cause { HasCause (faults_of_sink self.old) (faults_of_sink self.new) result }
        ensures passes { PassesOn (writer_of self.old) (writer_of self.new) (faults_of_sink self.old) (faults_of_sink self.new) result }
    {
        if let Some(inner) = &mut self.inner {
            if let Ok(count) = inner.write(piece) {
                if count > 0 {
                    return Ok(count);
                }
            }
        }
        self.faults = self.faults.saturating_add(1);
        Err(Failed)
    }

    fn faults(&self) -> u64 {
        self.faults
    }
}
