//! Why a call on plain lists is refused.

ghost use Rattle.std.specs.Prelude.{◌≡◌};
ghost use Rattle.speed_lists.specs.Lists.{speed_error};
ghost use Rattle.speed_lists.specs.declared.error.SpeedError.TheVariants.{OutOfMemory};

use chain_partition::ChainError;
use std::alloc::AllocError;
use thiserror::Error;

/// Why a call was refused, in the order in which the reasons are looked for.
#[derive(Clone, Copy, Debug, PartialEq, Eq, Error)]
pub enum SpeedError {
    /// A number of PEs or of elements, or the length of a list, is not what the call needs.
    #[error("bad input")]
    BadInput,
    /// A speed is not 1 to 1,000,000, or a background is above 2^47.
    #[error("a speed or a background is out of range")]
    BadSpeed,
    /// The loads add up to 2^63 or more.
    #[error("the loads add up to more than 9223372036854775807")]
    BadLoad,
    /// Memory was refused.
    #[error("out of memory")]
    OutOfMemory,
}

impl From<AllocError> for SpeedError {
    ghost from_gives = { λ _ e. e ≡ OutOfMemory };

    fn from(_: AllocError) -> SpeedError {
        SpeedError::OutOfMemory
    }
}

impl From<ChainError> for SpeedError {
    ghost from_gives = { λ error e. e ≡ speed_error error };

    fn from(error: ChainError) -> SpeedError {
        match error {
            ChainError::TooLong => SpeedError::BadInput,
            ChainError::TooHeavy => SpeedError::BadLoad,
            ChainError::OutOfMemory => SpeedError::OutOfMemory,
        }
    }
}
