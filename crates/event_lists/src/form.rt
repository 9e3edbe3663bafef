//! What a list of events and its lines have to be. `specs/Text.antt` and `specs/Faults.antt` say the same.

/// The limits of a list of events.
#[derive(Clone, Copy, Debug, PartialEq, Eq)]
pub struct EventListLimits;

impl EventListLimits {
    /// How many events a list that is read may have.
    pub const EVENTS: usize = 16_777_216;
}

/// Digits of the longest number.
pub(crate) const DIGITS: u32 = 10;
