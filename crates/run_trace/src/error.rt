//! Why a trace is missing or incomplete.

use std::alloc::AllocError;
use thiserror::Error;

/// Why there is no trace, or only a part of one.
#[derive(Clone, Copy, Debug, PartialEq, Eq, Error)]
pub enum TraceError {
    /// The clock could not be read as the run began.
    #[error("the clock cannot be read")]
    Clock,
    /// Memory was refused. Nothing was written.
    #[error("out of memory")]
    OutOfMemory,
    /// Writing failed, perhaps after a part of the trace.
    #[error("the trace could not be written")]
    Write,
}

impl From<AllocError> for TraceError {
    fn from(_error: AllocError) -> Self {
        TraceError::OutOfMemory
    }
}
