//! What can be wrong with names of blocks on PEs that differ.

/// What is wrong with a naming, or with its prices, in the order of the check. Of several flaws the first is reported, and of one
/// kind the one at the first block, or block and PE.
#[derive(Clone, Copy, Debug, PartialEq, Eq)]
pub enum NamesFlaw {
    /// There are not as many names as PEs.
    NameCount,
    /// A name is not a PE.
    NameRange,
    /// Two blocks have the same name.
    NameTwice,
    /// With this block, its PE ends after the time.
    NameLate(u32),
    /// There are not as many prices of blocks, or of PEs, as PEs.
    PriceCount,
    /// This block is allowed on this PE, and costs less there than their prices together.
    PriceHigh(u32, u32),
    /// The prices do not add up to the cost of the naming.
    PriceGap,
}
