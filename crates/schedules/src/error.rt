//! Why a list of events is not replayed.

ghost use Rattle.std.specs.Prelude.{◌≡◌};

use rts_run::Setting;
use std::alloc::AllocError;
use thiserror::Error;

/// Why a list of events was not repeated. The chares are dropped.
#[derive(Clone, Copy, Debug, PartialEq, Eq, Error)]
pub enum ReplayError {
    /// This number is out of its limits: of several such, the first in the order of [`Setting`].
    #[error("{0} is out of its limits")]
    Config(Setting),
    /// No memory was left.
    #[error("out of memory")]
    OutOfMemory,
    /// The event with this index in the list, from 0 on, is not enabled after those before it.
    #[error("event {0} is not enabled")]
    NotEnabled(usize),
}

impl From<AllocError> for ReplayError {
    ghost use Rattle.schedules.specs.declared.error.ReplayError.TheVariants.{OutOfMemory};

    ghost from_gives = { λ _ error. error ≡ OutOfMemory };

    fn from(_: AllocError) -> ReplayError {
        ReplayError::OutOfMemory
    }
}
