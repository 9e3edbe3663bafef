//! Why a run does not begin.

ghost use Rattle.std.specs.Prelude.{◌≡◌};
ghost use Rattle.rts_run.specs.Configs.{error_number};

use std::alloc::AllocError;
use std::fmt::{self, Display, Formatter, Write};
use thiserror::Error;

/// A number of a run that has limits, in the order in which they are checked.
#[derive(Clone, Copy, Debug, PartialEq, Eq)]
pub enum Setting {
    /// [`Config::pes`](crate::Config::pes).
    Pes,
    /// [`Config::capacity`](crate::Config::capacity).
    Capacity,
    /// [`Config::turns`](crate::Config::turns).
    Turns,
    /// [`Config::probe_workers`](crate::Config::probe_workers).
    ProbeWorkers,
    /// How many chares there are.
    Elements,
}

impl Display for Setting {
    fn fmt<W: Write>(&self, f: &mut Formatter<W>) -> fmt::Result {
        f.write_str(match self {
            Setting::Pes => "the number of PEs",
            Setting::Capacity => "the capacity of a queue",
            Setting::Turns => "the number of idle turns",
            Setting::ProbeWorkers => "the number of probe workers",
            Setting::Elements => "the number of chares",
        })
    }
}

/// Why a run did not begin. In that case no worker was started, and the chares are dropped.
#[derive(Clone, Copy, Debug, PartialEq, Eq, Error)]
pub enum RunError {
    /// A number is out of its limits: [`Config::first_outside`](crate::Config::first_outside) says which is the first.
    #[error("a number is out of its limits")]
    Config,
    /// No memory was left.
    #[error("out of memory")]
    OutOfMemory,
}

impl RunError {
    /// The number of this kind of error: 1 for a number out of its limits, 2 for no memory. It stays the same in later versions.
    pub fn number(self) -> u8
        ensures value { result ≡ error_number self }
    {
        match self {
            RunError::Config => 1,
            RunError::OutOfMemory => 2,
        }
    }
}

impl From<AllocError> for RunError {
    ghost use Rattle.rts_run.specs.declared.error.RunError.TheVariants.{OutOfMemory};

    ghost from_gives = { λ _ error. error ≡ OutOfMemory };

    fn from(_: AllocError) -> RunError {
        RunError::OutOfMemory
    }
}
