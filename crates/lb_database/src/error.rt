//! Why a call of the load database is refused.

ghost use Rattle.std.specs.Prelude.{◌≡◌};
ghost use Rattle.lb_database.specs.declared.error.DbError.TheVariants.{OutOfMemory};

use std::alloc::AllocError;
use thiserror::Error;

/// Why a call of the load database was refused. Where several reasons apply, it is the one with the lowest
/// number. The numbers stay the same in later versions.
#[derive(Clone, Copy, Debug, PartialEq, Eq, Error)]
pub enum DbError {
    /// There is no element with this index.
    #[error("there is no such element")]
    Stranger = 1,
    /// The report is not for the round that the database is in.
    #[error("the report is for another round")]
    WrongRound = 2,
    /// The element has already reported in this round.
    #[error("the element has reported already")]
    Twice = 3,
    /// The packed size is above 1,048,576 bytes (`Limits::STATE_BYTES`).
    #[error("the packed size is out of range")]
    TooLarge = 4,
    /// An element has not reported in this round.
    #[error("an element has not reported")]
    Incomplete = 5,
    /// Memory was refused.
    #[error("out of memory")]
    OutOfMemory = 6,
    /// There is no round after the last one.
    #[error("no round is left")]
    Worn = 7,
}

impl From<AllocError> for DbError {
    ghost from_gives = { λ _ e. e ≡ OutOfMemory };

    fn from(_: AllocError) -> DbError {
        DbError::OutOfMemory
    }
}
