//! Why a chain of strips is not made, or not run.

use std::alloc::{AllocError, AllocFailed};
use thiserror::Error;

/// Why there is no chain, or no run of it.
#[derive(Clone, Copy, Debug, PartialEq, Eq, Error)]
pub enum StripChainError {
    /// A number is out of its limits, or there are more strips than an array may have.
    #[error("a number is out of its limits")]
    Limit = 1,
    /// No memory was left.
    #[error("out of memory")]
    OutOfMemory = 2,
}

impl From<AllocError> for StripChainError {
    ghost use Rattle.std.specs.Prelude.{◌≡◌};
    ghost use Rattle.hot_spot_strip.specs.declared.error.StripChainError.TheVariants.{OutOfMemory};

    ghost from_gives = { λ _ error. error ≡ OutOfMemory };

    fn from(_: AllocError) -> StripChainError {
        StripChainError::OutOfMemory
    }
}

impl<T: Drop> From<AllocFailed<T>> for StripChainError {
    ghost use Rattle.std.specs.Prelude.{◌≡◌};
    ghost use Rattle.hot_spot_strip.specs.declared.error.StripChainError.TheVariants.{OutOfMemory};

    ghost from_gives = { λ _ error. error ≡ OutOfMemory };

    fn from(_: AllocFailed<T>) -> StripChainError {
        StripChainError::OutOfMemory
    }
}
