ghost use Rattle.std.specs.Prelude.{◌≡◌, ℕ};

/// Work that is done once, in some thread.
pub trait Job: Drop + Send {
    /// Its result.
    type Out: Drop + Send;

    ghost name_of: { Self → ℕ };

    /// What the work of this job promises of its result. What the work needs is a fact that the job's type keeps, in a ghost field.
    ghost gives: { Self → Self.Out → Type 0 };

    /// The number of its name, which a gate is told.
    fn name(&self) -> u32
        ensures { result ≡ name_of self.now };

    /// Does the work. A job that wants memory has an allocator of its own, and its result says whether there was any.
    fn work(self) -> Self::Out
        ensures { gives self result };
}
