//! Why a list of events is not read.

ghost use Rattle.std.specs.Prelude.{◌≡◌};
ghost use Rattle.event_lists.specs.Faults.{error_number};

use thiserror::Error;

/// Why a list of events was not read. Lines are numbered from 1, and of several faulty lines the first is reported.
#[derive(Clone, Copy, Debug, PartialEq, Eq, Error)]
pub enum EventListError {
    /// This line does not have one of the nine forms, or is not ended. No form has a number of more than ten
    /// digits.
    #[error("line {0} of the list of events is not of the form of an event")]
    Form(u32),
    /// This line has its form, and its PE or its element is out of its range.
    #[error("a number in line {0} of the list of events is out of its range")]
    Limit(u32),
    /// The list has more than 16,777,216 events.
    #[error("the list of events is too long")]
    TooLong,
    /// Memory was refused.
    #[error("out of memory")]
    OutOfMemory,
}

impl EventListError {
    /// The number of this kind of fault, 1 to 4 in the order above. It stays the same in later versions.
    pub fn number(self) -> u8
        ensures value { result ≡ error_number self }
    {
        match self {
            EventListError::Form(_) => 1,
            EventListError::Limit(_) => 2,
            EventListError::TooLong => 3,
            EventListError::OutOfMemory => 4,
        }
    }
}
