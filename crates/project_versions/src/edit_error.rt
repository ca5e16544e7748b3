use project_sources::PlanError;
use project_store::StoreError;
use regex_ast::Fault;
use std::alloc::AllocError;
use thiserror::Error;

/// Why a change makes no version.
#[derive(Debug, Drop, Error)]
pub enum EditError {
    /// As many changes were accepted as may be.
    #[error("no more changes are accepted")]
    Full,
    /// The change, or the files that it makes, have this first fault.
    #[error("the change has a fault")]
    Refused(Fault),
    /// There was no memory.
    #[error(transparent)]
    Memory(AllocError),
}

impl From<AllocError> for EditError {
    ghost use Rattle.std.specs.Prelude.{◌≡◌};
    ghost use Rattle.project_versions.specs.declared.edit_error.EditError.TheVariants.{Memory};

    ghost from_gives = { λ refused error. error ≡ Memory refused };

    fn from(refused: AllocError) -> EditError {
        EditError::Memory(refused)
    }
}

impl From<PlanError> for EditError {
    ghost use Rattle.std.specs.Prelude.{◌≡◌};
    ghost use Rattle.project_versions.specs.Errors.{of_plan_error};

    ghost from_gives = { λ refused error. error ≡ of_plan_error refused };

    fn from(refused: PlanError) -> EditError {
        match refused {
            PlanError::Refused(fault) => EditError::Refused(fault),
            PlanError::Memory(error) => EditError::Memory(error),
        }
    }
}

impl From<StoreError> for EditError {
    ghost use Rattle.std.specs.Prelude.{◌≡◌};
    ghost use Rattle.project_versions.specs.Errors.{of_store_error};

    ghost from_gives = { λ refused error. error ≡ of_store_error refused };

    fn from(refused: StoreError) -> EditError {
        match refused {
            StoreError::Refused(fault) => EditError::Refused(fault),
            StoreError::Memory(error) => EditError::Memory(error),
        }
    }
}
