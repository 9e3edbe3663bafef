//! The statuses of the calls.

ghost use Rattle.std.specs.Prelude.{◌≡◌, ◌≢◌, ℕ, pos};
ghost use Rattle.rank_capi.specs.Statuses.{status_of};

use rank_calls::CallError;

/// The status of a call that has shown nothing, since there is nothing.
pub(crate) const NOTHING: i32 = 1;

/// The status of a call whose buffer is too short.
pub(crate) const LONG: i32 = 2;

/// The status of an error.
pub(crate) fn status_of(error: CallError) -> i32
    ensures value { result ≡ status_of error }
    ensures negative { (n : ℕ) → result ≢ pos n }
{
    match error {
        CallError::BadInput => -1,
        CallError::OutOfMemory => -2,
        CallError::IsClosed => -3,
        CallError::IsOpen => -4,
        CallError::NotEnabled => -5,
        CallError::Stranger => -6,
        CallError::TooLong => -7,
        CallError::Worn => -8,
        CallError::BadPack => -9,
    }
}
