//! Why queues are not made, or not settled.

ghost use Rattle.std.specs.Prelude.{◌≡◌};
ghost use Rattle.pe_queues.specs.declared.error.PostError.TheVariants.{OutOfMemory};

use std::alloc::AllocError;
use thiserror::Error;

/// Why no post was made, or one was not settled. Where several reasons apply, the one with the lowest number is reported.
/// The numbers are stable.
#[derive(Clone, Copy, Debug, PartialEq, Eq, Error)]
pub enum PostError {
    /// The number of PEs or of seats, or the capacity, is 0.
    #[error("a number is zero")]
    Zero = 1,
    /// There are more than 256 PEs or 256 seats, or the capacity is above 4,096.
    #[error("a number is past its limit")]
    TooMany = 2,
    /// The seat is not all seats joined.
    #[error("a seat is still out")]
    SeatsOut = 3,
    /// No memory was left.
    #[error("out of memory")]
    OutOfMemory = 4,
}

impl From<AllocError> for PostError {
    ghost from_gives = { λ _ e. e ≡ OutOfMemory };

    fn from(_: AllocError) -> PostError {
        PostError::OutOfMemory
    }
}
