use regex_ast::Fault;
use std::alloc::AllocError;
use thiserror::Error;

/// Why there is no project.
#[derive(Debug, Drop, Error)]
pub enum StoreError {
    /// Its sources have this first fault.
    #[error("the project has a fault")]
    Refused(Fault),
    /// There was no memory.
    #[error(transparent)]
    Memory(AllocError),
}

impl From<AllocError> for StoreError {
    ghost use Rattle.std.specs.Prelude.{◌≡◌};
    ghost use Rattle.project_store.specs.declared.store_error.StoreError.TheVariants.{Memory};

    ghost from_gives = { λ refused error. error ≡ Memory refused };

    fn from(refused: AllocError) -> StoreError {
        StoreError::Memory(refused)
    }
}
