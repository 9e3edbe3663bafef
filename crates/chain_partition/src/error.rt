//! Why loads are not accepted as a chain.

ghost use Rattle.std.specs.Prelude.{◌≡◌};
ghost use Rattle.chain_partition.specs.declared.error.ChainError.TheVariants.{OutOfMemory};

use std::alloc::AllocError;
use thiserror::Error;

/// Why loads are no [`Chain`](crate::Chain), in the order in which the reasons are looked for.
#[derive(Clone, Copy, Debug, PartialEq, Eq, Error)]
pub enum ChainError {
    /// There are 2^32 loads or more.
    #[error("more than 4294967295 elements")]
    TooLong,
    /// The sum of the loads is 2^63 or more.
    #[error("the loads add up to more than 9223372036854775807")]
    TooHeavy,
    /// Memory was refused.
    #[error("out of memory")]
    OutOfMemory,
}

impl From<AllocError> for ChainError {
    ghost from_gives = { λ _ e. e ≡ OutOfMemory };

    fn from(_: AllocError) -> ChainError {
        ChainError::OutOfMemory
    }
}
