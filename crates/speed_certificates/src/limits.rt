//! How many PEs there may be, and how fast and how busy each.

/// The greatest values that a [`PeSpeeds`](crate::PeSpeeds) takes. Each range begins at the value that its line names.
#[derive(Clone, Copy, Debug, PartialEq, Eq)]
pub struct SpeedLimits;

impl SpeedLimits {
    /// PEs, from 1.
    pub const PES: u32 = 4_294_967_294;

    /// Work units that a PE does in a unit of time, from 1.
    pub const SPEED: u32 = 1_000_000;

    /// Work units that a PE has besides its block, from 0.
    pub const BACKGROUND: u64 = 140_737_488_355_328;
}
