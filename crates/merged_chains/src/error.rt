//! Why a call on plain lists is refused.

ghost use Rattle.std.specs.Prelude.{◌≡◌};
ghost use Rattle.merged_chains.specs.Lists.{part_error, table_error};
ghost use Rattle.merged_chains.specs.declared.error.PartError.TheVariants.{OutOfMemory};

use block_assignment::{CostError, NameError};
use chain_partition::ChainError;
use std::alloc::AllocError;
use thiserror::Error;

/// Why a call on plain lists was refused, in the order in which the reasons are looked for.
#[derive(Clone, Copy, Debug, PartialEq, Eq, Error)]
pub enum PartError {
    /// A number of blocks, of elements or of bytes, or the length of a list, is not what the call needs.
    #[error("bad input")]
    BadInput,
    /// The loads add up to 2^63 or more.
    #[error("the loads add up to more than 9223372036854775807")]
    BadLoad,
    /// Memory was refused.
    #[error("out of memory")]
    OutOfMemory,
}

impl From<AllocError> for PartError {
    ghost from_gives = { λ _ e. e ≡ OutOfMemory };

    fn from(_: AllocError) -> PartError {
        PartError::OutOfMemory
    }
}

impl From<NameError> for PartError {
    ghost from_gives = { λ _ e. e ≡ OutOfMemory };

    fn from(error: NameError) -> PartError {
        match error {
            NameError::OutOfMemory => PartError::OutOfMemory,
        }
    }
}

impl From<CostError> for PartError {
    ghost from_gives = { λ error e. e ≡ table_error error };

    fn from(error: CostError) -> PartError {
        match error {
            CostError::OutOfMemory => PartError::OutOfMemory,
            CostError::Unpaired
            | CostError::BlockCount
            | CostError::Undivided
            | CostError::TooManyBytes => PartError::BadInput,
        }
    }
}

impl From<ChainError> for PartError {
    ghost from_gives = { λ error e. e ≡ part_error error };

    fn from(error: ChainError) -> PartError {
        match error {
            ChainError::TooLong => PartError::BadInput,
            ChainError::TooHeavy => PartError::BadLoad,
            ChainError::OutOfMemory => PartError::OutOfMemory,
        }
    }
}
