ghost use Rattle.std.specs.Prelude.{◌≡◌, ◌↔◌, Some, true, IsTrue, slice_get};

/// Whether a state is final.
pub fn is_final(finals: &[bool], state: usize) -> bool
    ensures { IsTrue result ↔ (slice_get finals.now state ≡ Some true) }
{
    finals.get(state).copied().unwrap_or(false)
}
