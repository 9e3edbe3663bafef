//! The limits of a strip.

/// The limits of a [`Strip`](crate::Strip). Each quantity goes from 0 up to the constant, both included.
#[derive(Clone, Copy, Debug, PartialEq, Eq)]
pub struct StripLimits;

impl StripLimits {
    /// Rounds of a run.
    pub const ROUNDS: u32 = 1_000_000;

    /// Cells of one strip.
    pub const CELLS: u32 = 4_096;
}
