//! Why blocks are not named, and why a table of costs is refused.

ghost use Rattle.std.specs.Prelude.{◌≡◌};

use std::alloc::AllocError;
use thiserror::Error;

/// Why the blocks were not named. The number is stable.
#[derive(Clone, Copy, Debug, PartialEq, Eq, Error)]
pub enum NameError {
    /// No memory was left.
    #[error("out of memory")]
    OutOfMemory = 2,
}

impl From<AllocError> for NameError {
    ghost use Rattle.block_assignment.specs.declared.error.NameError.TheVariants.{OutOfMemory};

    ghost from_gives = { λ _ e. e ≡ OutOfMemory };

    fn from(_: AllocError) -> NameError {
        NameError::OutOfMemory
    }
}

/// Why no [`CostMatrix`](crate::CostMatrix) was made. The variants stand in the order in which they are looked for.
#[derive(Clone, Copy, Debug, PartialEq, Eq, Error)]
pub enum CostError {
    /// There are not as many places as sizes, or in a table not a number for each block and each PE.
    #[error("not as many places as sizes")]
    Unpaired,
    /// The number of blocks is not 1 to [`MatrixLimits::BLOCKS`](crate::MatrixLimits::BLOCKS).
    #[error("not 1 to 4,096 blocks")]
    BlockCount,
    /// The cuts do not divide the elements into consecutive blocks.
    #[error("the cuts do not divide the elements")]
    Undivided,
    /// The sizes, or the numbers of a table, add up to more than [`MatrixLimits::BYTES`](crate::MatrixLimits::BYTES).
    #[error("more than 128 TiB in all")]
    TooManyBytes,
    /// No memory was left.
    #[error("out of memory")]
    OutOfMemory,
}

impl From<AllocError> for CostError {
    ghost use Rattle.block_assignment.specs.declared.error.CostError.TheVariants.{OutOfMemory};

    ghost from_gives = { λ _ e. e ≡ OutOfMemory };

    fn from(_: AllocError) -> CostError {
        CostError::OutOfMemory
    }
}
