//! Why a call of the board is refused.

ghost use Rattle.std.specs.Prelude.{◌≡◌};
ghost use Rattle.sync_board.specs.Refusals.{database_error_of};
ghost use Rattle.sync_board.specs.declared.error.BoardError.TheVariants.{OutOfMemory};

use lb_database::DbError;
use std::alloc::AllocError;
use thiserror::Error;

/// Why a call of the board was refused. The numbers are stable: 1 to 7 are those of
/// [`DbError`](lb_database::DbError), and 8 is not used.
#[derive(Clone, Copy, Debug, PartialEq, Eq, Error)]
pub enum BoardError {
    /// There is no element with this index.
    #[error("there is no such element")]
    Stranger = 1,
    /// The report is not for the round that the board is in.
    #[error("the report is for another round")]
    WrongRound = 2,
    /// The element has already reported in this round.
    #[error("the element has reported already")]
    Twice = 3,
    /// The packed size is above 1,048,576 bytes.
    #[error("the packed size is out of range")]
    TooLarge = 4,
    /// An element has not reported in this round.
    #[error("an element has not reported")]
    Incomplete = 5,
    /// No memory was left.
    #[error("out of memory")]
    OutOfMemory = 6,
    /// There is no round after the last one.
    #[error("no round is left")]
    Worn = 7,
}

impl From<AllocError> for BoardError {
    ghost from_gives = { λ _ e. e ≡ OutOfMemory };

    fn from(_: AllocError) -> BoardError {
        BoardError::OutOfMemory
    }
}

/// Keeps the reason and its number.
impl From<DbError> for BoardError {
    ghost from_gives = { λ error e. database_error_of e ≡ error };

    fn from(error: DbError) -> BoardError {
        match error {
            DbError::Stranger => BoardError::Stranger,
            DbError::WrongRound => BoardError::WrongRound,
            DbError::Twice => BoardError::Twice,
            DbError::TooLarge => BoardError::TooLarge,
            DbError::Incomplete => BoardError::Incomplete,
            DbError::OutOfMemory => BoardError::OutOfMemory,
            DbError::Worn => BoardError::Worn,
        }
    }
}
