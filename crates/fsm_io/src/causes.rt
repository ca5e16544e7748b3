ghost use Rattle.std.specs.Prelude.{◌↔◌, IsTrue};
ghost use Rattle.fsm_io.specs.Causes.{Rose};

/// Whether a count of faults rose between two moments, or stands at its last value.
pub fn rose(before: u64, now: u64) -> bool
    ensures { IsTrue result ↔ Rose before now }
{
    before.saturating_add(1) <= now
}
