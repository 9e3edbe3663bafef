//! Why a checkpoint is not read.

ghost use Rattle.std.specs.Prelude.{◌≡◌};
ghost use Rattle.run_checkpoint.specs.Faults.{error_number};
ghost use Rattle.run_checkpoint.specs.declared.error.CheckpointError.TheVariants.{OutOfMemory};

use std::alloc::{AllocError, AllocFailed};
use thiserror::Error;

/// Why a checkpoint was not read. Lines are numbered from 1, over the whole text.
#[derive(Clone, Copy, Debug, PartialEq, Eq, Error)]
pub enum CheckpointError {
    /// This line does not have the form of a line at its place, is missing, is not ended, or follows the last line.
    #[error("line {0} of the checkpoint is not of its form")]
    Form(u32),
    /// This line has its form, and a number in it is out of its range, or the line has too few or too many numbers.
    #[error("a number in line {0} of the checkpoint is out of its range")]
    Limit(u32),
    /// The text has more than 68,157,440 bytes, or the text of its workload more than 67,108,864.
    #[error("the checkpoint is too long")]
    Long,
    /// The reader failed.
    #[error("reading the checkpoint failed")]
    Read,
    /// Memory was refused.
    #[error("out of memory")]
    OutOfMemory,
}

impl CheckpointError {
    /// The number of this kind of fault, 1 to 5 in the order above. It stays the same in later versions.
    pub fn number(self) -> u8
        ensures value { result ≡ error_number self }
    {
        match self {
            CheckpointError::Form(_) => 1,
            CheckpointError::Limit(_) => 2,
            CheckpointError::Long => 3,
            CheckpointError::Read => 4,
            CheckpointError::OutOfMemory => 5,
        }
    }
}

impl From<AllocError> for CheckpointError {
    ghost from_gives = { λ _ e. e ≡ OutOfMemory };

    fn from(_: AllocError) -> CheckpointError {
        CheckpointError::OutOfMemory
    }
}
