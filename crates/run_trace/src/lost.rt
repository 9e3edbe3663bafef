//! A trace that could not be kept, with the reason.

use crate::error::TraceError;
use std::alloc::AllocError;
use std::fmt::{self, Display, Formatter};
use std::io;

/// A trace that was not kept. It is shown as the system's reason, where there is one, and otherwise as what was wrong.
#[derive(Clone, Copy, Debug, Drop)]
pub struct LostTrace {
    /// What was wrong.
    pub error: TraceError,
    /// The system's reason, where it gave one.
    pub reason: Option<io::Error>,
}

impl Display for LostTrace {
    fn fmt<W: fmt::Write>(&self, f: &mut Formatter<W>) -> fmt::Result {
        match self.reason {
            Some(reason) => write!(f, "{reason}"),
            None => write!(f, "{}", self.error),
        }
    }
}

impl From<TraceError> for LostTrace {
    fn from(error: TraceError) -> Self {
        LostTrace {
            error,
            reason: None,
        }
    }
}

impl From<AllocError> for LostTrace {
    fn from(error: AllocError) -> Self {
        LostTrace::from(TraceError::from(error))
    }
}
