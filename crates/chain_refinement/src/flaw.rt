//! What can be wrong with a refinement, in the order in which it is checked.

use lb_certificates::Flaw;

/// What is wrong with a [`Refinement`](crate::Refinement). Flaws are reported in this order.
#[derive(Clone, Copy, Debug, PartialEq, Eq)]
pub enum RefinementFlaw {
    /// The division that its limit is measured from has this flaw.
    Least(Flaw),
    /// There is no PE, or there are more than [`Limits::PES`](chare_index::Limits::PES).
    PeCount,
    /// The number of names in the order is not the number of PEs.
    NameCount,
    /// A name is not the number of a PE.
    NameRange,
    /// A name occurs twice.
    NameTwice,
    /// The number of cuts is not the number of PEs plus one.
    CutCount,
    /// The cuts do not divide the elements.
    NoDivision,
    /// The load of this block is above the limit.
    Heavy(u32),
    /// There is not one step function for each PE.
    HeightCount,
    /// The height of the first block at the beginning of the chain is not 0.
    HeightStart,
    /// Between this block and the next, the height at this place is above that of a place from which a block within the limit
    /// ends there, by more than the cut costs.
    Steep(u32, u32),
    /// The height of the last block is below what the cuts cost.
    HeightLow,
}
