ghost use Rattle.std.specs.Prelude.{◌≡◌, ℕ, ◌<◌, Option, option_and_then, length};
ghost use Rattle.std.specs.Io.{ReadsAtMost};
ghost use Rattle.std.specs.Io.KnownBytes.{ReadConsumes};
ghost use Rattle.fsm_io.specs.Adapters.{PassesOn, faults_of_source, reader_of};
ghost use Rattle.fsm_io.specs.Causes.{HasCause};

use crate::source::{Failed, Source};
use std::io::Read;

/// A source over a reader of std. It tells what the reader tells: nothing, of a file.
#[derive(Drop)]
pub struct ReadSource<T> {
    /// The reader; without one each read fails.
    inner: Option<T>,
    /// How many reads failed, as far as 64 bits count.
    faults: u64,
}

impl<T: Read> ReadSource<T> {
    /// A source over the reader. With none, each read fails.
    pub fn new(inner: Option<T>) -> ReadSource<T>
        ensures reader { reader_of result ≡ inner }
        ensures faults { faults_of_source result ≡ 0 }
    {
        ReadSource { inner, faults: 0 }
    }
}

impl<T: Read> Source for ReadSource<T> {
    ghost left = { λ s. option_and_then T.remaining (reader_of s) };

    ghost faults = { λ s. faults_of_source s };

    fn read(&mut self, buf: &mut [u8]) -> Result<usize, Failed>
        requires { 0 < length buf.old }
        ensures bound { ReadsAtMost result buf.new }
        ensures bytes { ReadConsumes (option_and_then T.remaining (reader_of self.old)) (option_and_then T.remaining (reader_of self.new)) result buf.new }
        ensures cause { HasCause (faults_of_source self.old) (faults_of_source self.new) result }
        ensures passes { PassesOn (reader_of self.old) (reader_of self.new) (faults_of_source self.old) (faults_of_source self.new) result }
    {
        if let Some(inner) = &mut self.inner {
            if let Ok(count) = inner.read(buf) {
                return Ok(count);
            }
        }
        self.faults = self.faults.saturating_add(1);
        Err(Failed)
    }

    fn faults(&self) -> u64 {
        self.faults
    }
}
