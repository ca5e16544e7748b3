ghost use Rattle.std.specs.Prelude.{◌≡◌};
ghost use Rattle.morph_c.specs.Statuses.{status_of};

use std::alloc::{AllocError, AllocFailed};
use thiserror::Error;

/// All is told.
pub(crate) const OK: u32 = 0;

/// The caller's buffer is too short.
pub(crate) const NO_ROOM: u32 = 1;

/// Why there is no answer.
#[derive(Debug, Drop, Error)]
pub enum Trouble {
    /// There was no memory.
    #[error("no memory")]
    Memory,
    /// The project isn't in the state that the call is for.
    #[error("not in this state")]
    State,
    /// The bytes are no UTF-8.
    #[error("not UTF-8")]
    NotUtf8,
    /// There are more than 4,096 bytes.
    #[error("too long")]
    Long,
    /// They have a newline.
    #[error("more than a line")]
    Newline,
    /// The files have a fault.
    #[error("refused")]
    Refused,
    /// No symbol begins at the character of this number, counted from 1.
    #[error("no symbol begins at character {0}")]
    NoSymbol(u32),
}

impl From<AllocError> for Trouble {
    ghost use Rattle.std.specs.Prelude.{◌≡◌};
    ghost use Rattle.morph_c.specs.declared.trouble.Trouble.TheVariants.{Memory};

    ghost from_gives = { λ _ trouble. trouble ≡ Memory };

    fn from(_: AllocError) -> Trouble {
        Trouble::Memory
    }
}

impl<T: Drop> From<AllocFailed<T>> for Trouble {
    ghost use Rattle.std.specs.Prelude.{◌≡◌};
    ghost use Rattle.morph_c.specs.declared.trouble.Trouble.TheVariants.{Memory};

    ghost from_gives = { λ _ trouble. trouble ≡ Memory };

    fn from(_: AllocFailed<T>) -> Trouble {
        Trouble::Memory
    }
}

/// The number of a trouble.
pub(crate) fn number_of(trouble: &Trouble) -> u32
    ensures { result ≡ status_of trouble.now }
{
    match trouble {
        Trouble::Memory => 2,
        Trouble::State => 3,
        Trouble::NotUtf8 => 4,
        Trouble::Long => 5,
        Trouble::Newline => 6,
        Trouble::Refused => 7,
        Trouble::NoSymbol(_) => 8,
    }
}
