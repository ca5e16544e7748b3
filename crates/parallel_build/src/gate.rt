ghost use Rattle.std.specs.Prelude.{ℕ};

/// What jobs go through, before they work and afterwards, each in its own thread.
pub trait Gate: Sync {
    /// What is known once a job of this name entered.
    ghost entered: { Self → ℕ → Type 0 } = { λ _ _. Unit {0} };

    /// What is known once a job of this name left.
    ghost left: { Self → ℕ → Type 0 } = { λ _ _. Unit {0} };

    /// The job of this name is about to work.
    fn enter_job(&self, name: u32)
        ensures { entered self.now name };

    /// The job of this name has worked.
    fn leave_job(&self, name: u32)
        requires { entered self.now name }
        ensures { left self.now name };
}

/// A gate that does nothing.
#[derive(Clone, Copy, Debug, PartialEq, Eq)]
pub struct OpenGate;

impl Gate for OpenGate {
    fn enter_job(&self, _name: u32) {}

    fn leave_job(&self, _name: u32) {}
}
