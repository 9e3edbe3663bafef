//! Why no decision is made.

ghost use Rattle.std.specs.Prelude.{◌≡◌};
ghost use Rattle.lb_strategy.specs.declared.error.PlanError.TheVariants.{OutOfMemory};

use block_assignment::NameError;
use std::alloc::{AllocError, AllocFailed};
use thiserror::Error;

/// Why no decision was made. The number is stable.
#[derive(Clone, Copy, Debug, PartialEq, Eq, Error)]
pub enum PlanError {
    /// Memory was refused.
    #[error("out of memory")]
    OutOfMemory = 2,
}

impl From<AllocError> for PlanError {
    ghost from_gives = { λ _ e. e ≡ OutOfMemory };

    fn from(_: AllocError) -> PlanError {
        PlanError::OutOfMemory
    }
}

impl From<NameError> for PlanError {
    ghost from_gives = { λ _ e. e ≡ OutOfMemory };

    fn from(error: NameError) -> PlanError {
        match error {
            NameError::OutOfMemory => PlanError::OutOfMemory,
        }
    }
}
