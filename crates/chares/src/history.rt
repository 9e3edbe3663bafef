//! Whether elements keep a journal of what they have handled.

/// Whether elements keep what they have handled.
#[derive(Clone, Copy, Debug, Default, PartialEq, Eq)]
pub enum History {
    /// An element keeps every letter and resumption that it has handled, so its memory grows with each.
    #[default]
    Kept,
    /// An element settles what it has handled when it goes on after a round, before it would keep more than 16 letters, and before
    /// it handles another letter after one whose body has 64 bytes or more.
    Dropped,
}
