ghost use Rattle.project_sources.specs.Refusals.{IsRefusal};

use fsm_base::Text;
use regex_ast::{Fault, Why};
use std::alloc::{AllocError, Global};
use thiserror::Error;

/// Why there is no plan of sources, or why an edit of them is refused.
#[derive(Debug, Drop, Error)]
pub enum PlanError {
    /// The definitions, or the edit, have this first fault.
    #[error("the definitions have a fault")]
    Refused(Fault),
    /// There was no memory.
    #[error(transparent)]
    Memory(AllocError),
}

impl From<AllocError> for PlanError {
    ghost use Rattle.std.specs.Prelude.{◌≡◌};
    ghost use Rattle.project_sources.specs.declared.plan_error.PlanError.TheVariants.{Memory};

    ghost from_gives = { λ refused error. error ≡ Memory refused };

    fn from(refused: AllocError) -> PlanError {
        PlanError::Memory(refused)
    }
}

/// That sources are refused for this fault, or that there was no memory for its text.
pub fn refused(alloc: Global, file: &str, line: u32, why: Why) -> PlanError
    ensures { IsRefusal (record { file = file.now; line = line; why = why }) result }
{
    match Text::of(alloc, file) {
        Ok(file) => PlanError::Refused(Fault { file, line, why }),
        Err(error) => PlanError::Memory(error),
    }
}
