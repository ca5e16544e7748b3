ghost use Rattle.std.specs.Prelude.{◌≡◌, ◌+◌, ◌<◌, ◌≤◌, ◌++◌, ◌∷◌, [], ℕ, List, IfOk, OnErr};
ghost use Rattle.parallel_build.specs.declared.issue.Issue.{Issue as Issued};
ghost use Rattle.parallel_build.specs.Forges.{issue};

use crate::issue::Issue;
use std::alloc::AllocError;

/// What whoever builds a network has to hold: a permit for the network of one name in one version. The permits that a [`Forge`]
/// makes are `Send` and `Sync` besides, so that jobs may hold them.
pub trait Permit: Drop {
    ghost name_of: { Self → ℕ };

    ghost version_of: { Self → ℕ };

    /// The number of the name.
    fn name(&self) -> u32
        ensures { result ≡ name_of self.now };

    /// The number of the version.
    fn version(&self) -> u64
        ensures { result ≡ version_of self.now };
}

/// Makes permits, and keeps an issue of each. Code that is generic in its forge can make a permit only by asking the forge for it.
pub trait Forge {
    /// What it makes.
    type Permit: Permit + Send + Sync;

    /// How many permits it can make before it asks for memory again.
    ghost room: { Self → ℕ };

    /// An issue of each permit that it made, in their order.
    ghost issues: { Self → List Issued };

    /// Makes room for at least `more` permits, if there is memory for it.
    fn reserve(&mut self, more: usize) -> Result<(), AllocError>
        ensures room { IfOk result (λ _. more ≤ room self.new) }
        ensures memory { OnErr result (room self.new ≡ room self.old) }
        ensures issues { issues self.new ≡ issues self.old };

    /// Makes a permit for this name in this version. It takes no memory.
    fn permit(&mut self, name: u32, version: u64) -> Self::Permit
        requires { 0 < room self.old }
        ensures name { Self.Permit.name_of result ≡ name }
        ensures version { Self.Permit.version_of result ≡ version }
        ensures room { room self.new + 1 ≡ room self.old }
        ensures issues { issues self.new ≡ issues self.old ++ issue name version ∷ [] };

    /// The issues.
    fn issued(&self) -> &[Issue]
        ensures { result.now ≡ issues self.now };
}
