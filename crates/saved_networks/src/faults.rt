use att_text::AttWhy;
use std::alloc::{AllocError, AllocFailed};
use thiserror::Error;

/// Why a file is refused, in the order in which the reasons are tried.
#[derive(Clone, Copy, Debug, PartialEq, Eq)]
pub enum SavedWhy {
    /// It isn't there.
    NoFile,
    /// It has more than 67,108,864 bytes.
    LimitFile,
    /// Its bytes are no UTF-8.
    NotUtf8,
    /// It has a control character.
    Control,
    /// A line of its text has a fault.
    Line(AttWhy),
}

/// Why there is no network of a file's bytes.
#[derive(Debug, Drop, Error)]
pub enum SavedError {
    /// They have a fault. It is the first one.
    #[error("line {line} is refused: {why:?}")]
    Refused {
        /// The line that has it, counted from 1; 0 for the file as a whole.
        line: u32,
        /// The fault.
        why: SavedWhy,
    },
    /// There is no memory.
    #[error(transparent)]
    Memory(AllocError),
}

impl From<AllocError> for SavedError {
    ghost use Rattle.std.specs.Prelude.{◌≡◌};
    ghost use Rattle.saved_networks.specs.declared.faults.SavedError.TheVariants.{Memory};

    ghost from_gives = { λ refused error. error ≡ Memory refused };

    fn from(refused: AllocError) -> SavedError {
        SavedError::Memory(refused)
    }
}

impl<T: Drop> From<AllocFailed<T>> for SavedError {
    ghost use Rattle.std.specs.Prelude.{◌≡◌, alloc_error};
    ghost use Rattle.saved_networks.specs.declared.faults.SavedError.TheVariants.{Memory};

    ghost from_gives = { λ _ error. error ≡ Memory alloc_error };

    fn from(_: AllocFailed<T>) -> SavedError {
        SavedError::Memory(AllocError)
    }
}
