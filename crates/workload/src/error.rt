//! Why a workload is not read.

ghost use Rattle.std.specs.Prelude.{◌≡◌};
ghost use Rattle.workload.specs.Faults.{error_number};
ghost use Rattle.workload.specs.declared.error.WorkError.TheVariants.{OutOfMemory};

use std::alloc::{AllocError, AllocFailed};
use thiserror::Error;

/// Why a workload was not read. Lines are numbered from 1, and of several faulty lines the first is reported.
#[derive(Clone, Copy, Debug, PartialEq, Eq, Error)]
pub enum WorkError {
    /// This line does not have the form of a line at its place, is missing, is not ended, or follows the last line.
    #[error("line {0} of the workload is not of its form")]
    Form(u32),
    /// This line has its form, and a number in it is out of its range.
    #[error("a number in line {0} of the workload is out of its range")]
    Limit(u32),
    /// The text has more than 67,108,864 bytes.
    #[error("the workload is too long")]
    Long,
    /// The reader failed.
    #[error("reading the workload failed")]
    Read,
    /// Memory was refused.
    #[error("out of memory")]
    OutOfMemory,
}

impl WorkError {
    /// The number of this kind of fault, 1 to 5 in the order above. It stays the same in later versions.
    pub fn number(self) -> u8
        ensures value { result ≡ error_number self }
    {
        match self {
            WorkError::Form(_) => 1,
            WorkError::Limit(_) => 2,
            WorkError::Long => 3,
            WorkError::Read => 4,
            WorkError::OutOfMemory => 5,
        }
    }
}

impl From<AllocError> for WorkError {
    ghost from_gives = { λ _ e. e ≡ OutOfMemory };

    fn from(_: AllocError) -> WorkError {
        WorkError::OutOfMemory
    }
}
