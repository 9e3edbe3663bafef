//! A value that came back because the queue was full.

/// A value for which a queue had no room.
#[derive(Clone, Debug, Drop, PartialEq, Eq)]
pub struct Full<T>(pub T);
