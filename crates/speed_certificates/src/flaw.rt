//! What can be wrong with a division over PEs of unequal speed.

/// What is wrong with a [`TimedDivision`](crate::TimedDivision), in the order of the check. Of several flaws the first is
/// reported, and of one kind the one at the first PE or stop.
#[derive(Clone, Copy, Debug, PartialEq, Eq)]
pub enum TimeFlaw {
    /// The time has the speed 0.
    NoSpeed,
    /// There is not one cut more than there are PEs.
    CutCount,
    /// The first cut is not 0.
    CutStart,
    /// A cut is greater than the next one.
    CutOrder,
    /// The last cut is not the number of elements.
    CutEnd,
    /// This PE, numbered from 0, ends after the time.
    Late(u32),
    /// The floor names a PE that does not exist.
    IdleRange,
    /// The PE that the floor names would end before the time if its block were empty.
    IdleEarly,
    /// There is not one stop more than there are PEs.
    FenceCount,
    /// The first stop is not 0.
    FenceStart,
    /// A stop is greater than the next one.
    FenceOrder,
    /// The last stop is not an element.
    FenceEnd,
    /// With the elements from the stop before this one, which is numbered from 1, to this one, both included, the PE between
    /// them would end before the time.
    FenceEarly(u32),
}
