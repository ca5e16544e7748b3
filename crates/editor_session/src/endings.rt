ghost use Rattle.std.specs.Prelude.{◌≡◌};
ghost use Rattle.editor_session.specs.Endings.{worse};

use reply_meaning::Ending;

/// Which of two endings is told: a failed write goes before a failed read, and that before a spent budget.
pub fn worse(one: Ending, other: Ending) -> Ending
    ensures { result ≡ worse one other }
{
    match (one, other) {
        (Ending::WriteFailed, _) | (_, Ending::WriteFailed) => Ending::WriteFailed,
        (Ending::ReadFailed, _) | (_, Ending::ReadFailed) => Ending::ReadFailed,
        (Ending::Spent, _) | (_, Ending::Spent) => Ending::Spent,
        (Ending::Finished, Ending::Finished) => Ending::Finished,
    }
}
