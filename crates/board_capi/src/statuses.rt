//! The statuses of the calls.

ghost use Rattle.std.specs.Prelude.{◌≡◌, ◌≢◌, MatchResult, IsTrue, IsFalse, pos};
ghost use Rattle.board_capi.specs.Statuses.{status_of};

use board_handle::HandleError;

/// The status of an error.
pub(crate) fn status_of(error: HandleError) -> i32
    ensures value { result ≡ status_of error }
    ensures not_done { result ≢ pos 0 }
{
    match error {
        HandleError::Undecided => 1,
        HandleError::BadInput => -1,
        HandleError::OutOfMemory => -2,
        HandleError::IsClosed => -3,
        HandleError::IsOpen => -4,
        HandleError::Incomplete => -5,
        HandleError::Stranger => -6,
        HandleError::TooLarge => -7,
        HandleError::Worn => -8,
        HandleError::WrongRound => -11,
        HandleError::Twice => -12,
    }
}

/// The status of a call that has done what it was asked, or has not.
pub(crate) fn status(done: Result<(), HandleError>) -> i32
    ensures value { MatchResult done (λ _. result ≡ pos 0) (λ error. (result ≡ status_of error) × (result ≢ pos 0)) }
{
    match done {
        Ok(()) => 0,
        Err(error) => status_of(error),
    }
}

/// The status of a question.
pub(crate) fn answer(yes: Result<bool, HandleError>) -> i32
    ensures value { MatchResult yes (λ is. (IsTrue is → result ≡ pos 1) × (IsFalse is → result ≡ pos 0)) (λ error. result ≡ status_of error) }
{
    match yes {
        Ok(true) => 1,
        Ok(false) => 0,
        Err(error) => status_of(error),
    }
}
