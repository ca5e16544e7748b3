use std::alloc::AllocError;
use thiserror::Error;

/// Why a line is no command and no look-up.
#[derive(Debug, Drop, Error)]
pub enum CommandError {
    /// The line is in no form.
    #[error("the line is in no form")]
    Bad,
    /// There was no memory.
    #[error(transparent)]
    Memory(AllocError),
}

impl From<AllocError> for CommandError {
    ghost use Rattle.std.specs.Prelude.{◌≡◌};
    ghost use Rattle.edit_script.specs.declared.errors.CommandError.TheVariants.{Memory};

    ghost from_gives = { λ refused error. error ≡ Memory refused };

    fn from(refused: AllocError) -> CommandError {
        CommandError::Memory(refused)
    }
}
