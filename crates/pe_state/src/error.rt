//! Why a step of a PE is refused.

ghost use Rattle.std.specs.Prelude.{◌≡◌};
ghost use Rattle.pe_state.specs.Refusals.{step_error_of};
ghost use Rattle.pe_state.specs.declared.error.StepError.TheVariants.{OutOfMemory};

use chares::SendError;
use std::alloc::{AllocError, AllocFailed};
use thiserror::Error;

/// Why a step was refused. The numbers are stable; 6 is not used.
#[derive(Clone, Copy, Debug, PartialEq, Eq, Error)]
pub enum StepError {
    /// No memory was left.
    #[error("out of memory")]
    OutOfMemory = 1,
    /// The bytes of an element are no state. This never comes, since a state that was packed is unpacked again.
    #[error("the bytes are no state")]
    Unpack = 2,
    /// A handler was refused a letter to an element that is not there, and passed the refusal on.
    #[error("there is no such element")]
    Stranger = 3,
    /// A handler was refused a letter with too long a body, and passed the refusal on.
    #[error("the body is too long")]
    TooLong = 4,
    /// A handler was refused a letter since its PE has posted as many as it may, and passed the refusal on; or the last
    /// round was to be decided.
    #[error("no number is left")]
    Worn = 5,
}

impl From<AllocError> for StepError {
    ghost from_gives = { λ _ e. e ≡ OutOfMemory };

    fn from(_: AllocError) -> StepError {
        StepError::OutOfMemory
    }
}

impl<T: Drop> From<AllocFailed<T>> for StepError {
    ghost from_gives = { λ _ e. e ≡ OutOfMemory };

    fn from(_: AllocFailed<T>) -> StepError {
        StepError::OutOfMemory
    }
}

/// The reason of a handler.
impl From<SendError> for StepError {
    ghost from_gives = { λ error e. e ≡ step_error_of error };

    fn from(error: SendError) -> StepError {
        match error {
            SendError::Stranger => StepError::Stranger,
            SendError::TooLong => StepError::TooLong,
            SendError::Worn => StepError::Worn,
            SendError::OutOfMemory => StepError::OutOfMemory,
        }
    }
}
