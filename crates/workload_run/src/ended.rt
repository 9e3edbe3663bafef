//! How the run of a workload ends, with the exit status.

ghost use Rattle.std.specs.Prelude.{◌≡◌};
ghost use Rattle.workload_run.specs.Statuses.{status_of};

use pe_worker::Fault;
use workload::WorkError;

/// How the run of a workload ended.
#[derive(Clone, Copy, Debug, PartialEq, Eq)]
pub enum RunEnd {
    /// The whole text of what the run left was written. The run has this fault, if one ended it early.
    Ran(Option<Fault>),
    /// The line of this fault of the workload was written; it is never that memory was refused.
    Refused(WorkError),
    /// The line for refused memory was written. There is an outcome where the run had ended before.
    OutOfMemory,
    /// The writer failed, or took nothing. A prefix of the text or line has been written.
    WriteFailed,
}

impl RunEnd {
    /// The status that a program exits with: 0 where the run ended well, 3 for a fault of the workload, 4 for a fault of
    /// the run, and 5 where memory or the output failed.
    pub fn status(self) -> u8
        ensures value { result ≡ status_of self }
    {
        match self {
            RunEnd::Ran(None) => 0,
            RunEnd::Refused(_) => 3,
            RunEnd::Ran(Some(_)) => 4,
            RunEnd::OutOfMemory | RunEnd::WriteFailed => 5,
        }
    }
}
