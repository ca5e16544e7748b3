ghost use Rattle.std.specs.Prelude.{◌≡◌, ℕ, ◌<◌, List, Option, length};
ghost use Rattle.std.specs.Io.{ReadsAtMost};
ghost use Rattle.std.specs.Io.KnownBytes.{ReadConsumes};
ghost use Rattle.fsm_io.specs.Causes.{HasCause};

/// A call failed, and its object's count of faults rose.
#[derive(Clone, Copy, Debug, PartialEq, Eq)]
pub struct Failed;

/// Where bytes come from.
pub trait Source {
    /// The bytes that are left, or `None` where they aren't told.
    ghost left: { Self → Option (List ℕ) };

    /// The failed calls so far, which [`Source::faults`] answers.
    ghost faults: { Self → ℕ };

    /// Fills a front of `buf`, which has room, with the next bytes, and answers how many: 0 exactly
    /// where none is left. A failed call takes none.
    fn read(&mut self, buf: &mut [u8]) -> Result<usize, Failed>
        requires { 0 < length buf.old }
        ensures bound { ReadsAtMost result buf.new }
        ensures bytes { ReadConsumes (left self.old) (left self.new) result buf.new }
        ensures cause { HasCause (faults self.old) (faults self.new) result };

    /// How many calls failed so far, as far as 64 bits count.
    fn faults(&self) -> u64
        ensures { result ≡ faults self.now };
}
