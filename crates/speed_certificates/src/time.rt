//! Times as exact fractions.

/// The time that this much work takes at this speed, `work / speed`. It is plain data, under no condition. Two times are compared
/// by their cross products, never as floats.
#[derive(Clone, Copy, Debug, PartialEq, Eq)]
pub struct EndTime {
    /// Work units.
    pub work: u64,
    /// Work units done in a unit of time.
    pub speed: u32,
}
