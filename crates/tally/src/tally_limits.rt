//! The limits of a tally.

/// The limits of a [`Tally`](crate::Tally). Each quantity goes from 0 up to the constant, both included.
#[derive(Clone, Copy, Debug, PartialEq, Eq)]
pub struct TallyLimits;

impl TallyLimits {
    /// Amounts of one tally, so rounds of its run.
    pub const AMOUNTS: u32 = 1_000;

    /// Bytes of padding of one tally.
    pub const PAD_BYTES: u32 = 65_536;
}
