ghost use Rattle.std.specs.Prelude.{◌≡◌};
ghost use Rattle.directed_words.specs.Kinds.{is_of};

use fsm_base::Bound;
use replace_words::Mark;

/// Which marks are looked at.
#[derive(Clone, Copy, Debug, PartialEq, Eq)]
pub enum MarkKind {
    /// Symbols that are copied.
    Copied,
    /// Brackets with which a replacement begins.
    Opening,
    /// Brackets with which one ends.
    Closing,
    /// All others.
    NotClosing,
    /// Symbols of a centre that is replaced.
    Inside,
    /// All symbols of the upper side.
    Upper,
}

impl MarkKind {
    /// Whether a mark is of this kind.
    pub fn has(self, mark: Bound<Mark>) -> bool
        ensures { result ≡ is_of self mark }
    {
        let Bound::Inner(mark) = mark else {
            return matches!(self, MarkKind::NotClosing);
        };
        match mark {
            Mark::Copy(_) => matches!(
                self,
                MarkKind::Copied | MarkKind::Upper | MarkKind::NotClosing
            ),
            Mark::Up(_) | Mark::Same(_) => matches!(
                self,
                MarkKind::Inside | MarkKind::Upper | MarkKind::NotClosing
            ),
            Mark::Low(_) => matches!(self, MarkKind::NotClosing),
            Mark::Open(_) => matches!(self, MarkKind::Opening | MarkKind::NotClosing),
            Mark::Close(_) => matches!(self, MarkKind::Closing),
        }
    }
}
