//! Why a call did nothing.

ghost use Rattle.std.specs.Prelude.{◌≡◌};
ghost use Rattle.board_handle.specs.Calls.{call_error_of};

use sync_board::BoardError;

/// Why a call has done nothing. Where several reasons apply, each call says which comes first.
#[derive(Clone, Copy, Debug, PartialEq, Eq)]
pub enum HandleError {
    /// The handle is closed.
    IsClosed,
    /// The handle is open.
    IsOpen,
    /// A number is past a limit or is not that of a PE, or a list is too short.
    BadInput,
    /// There is no element with this index.
    Stranger,
    /// The report is not for the round that the board is in.
    WrongRound,
    /// The element has already reported in this round.
    Twice,
    /// The packed size is above 1,048,576 bytes.
    TooLarge,
    /// An element has not reported in this round.
    Incomplete,
    /// There is no round after the last one.
    Worn,
    /// No memory was left.
    OutOfMemory,
    /// The round is not decided.
    Undecided,
}

/// The reason of the board.
impl From<BoardError> for HandleError {
    ghost from_gives = { λ error e. e ≡ call_error_of error };

    fn from(error: BoardError) -> HandleError {
        match error {
            BoardError::Stranger => HandleError::Stranger,
            BoardError::WrongRound => HandleError::WrongRound,
            BoardError::Twice => HandleError::Twice,
            BoardError::TooLarge => HandleError::TooLarge,
            BoardError::Incomplete => HandleError::Incomplete,
            BoardError::OutOfMemory => HandleError::OutOfMemory,
            BoardError::Worn => HandleError::Worn,
        }
    }
}
