//! Why a value is not packed, or bytes are not unpacked.

ghost use Rattle.std.specs.Prelude.{◌≡◌};
ghost use Rattle.pup_pack.specs.declared.error.PupError.TheVariants.{OutOfMemory};

use std::alloc::{AllocError, AllocFailed};
use thiserror::Error;

/// Why a value is not packed, or bytes are not unpacked. The numbers are stable.
#[derive(Clone, Copy, Debug, PartialEq, Eq, Error)]
pub enum PupError {
    /// The bytes end before the value does.
    #[error("the packed bytes are too short")]
    Short = 1,
    /// The bytes are not a value of the type: a truth value or an option that begins with another byte than 0 or 1, or
    /// a text that is not UTF-8.
    #[error("the packed bytes are no value")]
    Bad = 2,
    /// The pack is longer than 1,048,576 bytes, or a list in it has more than 1,048,576 items.
    #[error("the packed value is too long")]
    TooLong = 3,
    /// Memory was refused.
    #[error("out of memory")]
    OutOfMemory = 4,
}

impl From<AllocError> for PupError {
    ghost from_gives = { λ _ e. e ≡ OutOfMemory };

    fn from(_: AllocError) -> PupError {
        PupError::OutOfMemory
    }
}

impl<T: Drop> From<AllocFailed<T>> for PupError {
    ghost from_gives = { λ _ e. e ≡ OutOfMemory };

    fn from(_: AllocFailed<T>) -> PupError {
        PupError::OutOfMemory
    }
}
