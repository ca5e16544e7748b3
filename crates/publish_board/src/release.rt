ghost use Rattle.std.specs.Prelude.{◌≡◌, ℕ};

/// A value that can be published. Where threads share it, it has to be `Send` and `Sync` besides.
pub trait Release: Drop {
    ghost number_of: { Self → ℕ };

    /// The number of this value among those that are published, the first of which has 1.
    fn number(&self) -> u64
        ensures { result ≡ number_of self.now };
}
