//! What can be wrong with cuts and names that may give the PEs any order, in the order in which it is checked.

use lb_certificates::Flaw;

/// What is wrong with a [`Reordered`](crate::Reordered) division. Flaws are reported in this order.
#[derive(Clone, Copy, Debug, PartialEq, Eq)]
pub enum ReorderedFlaw {
    /// The division that its limit is measured from has this flaw.
    Least(Flaw),
    /// There is no PE, or there are more than [`Limits::PES`](chare_index::Limits::PES).
    PeCount,
    /// The number of names is not the number of PEs.
    NameCount,
    /// A name is not the number of a PE.
    NameRange,
    /// A name occurs twice.
    NameTwice,
    /// The number of cuts is not the number of PEs plus one.
    CutCount,
    /// The cuts do not divide the elements.
    NoDivision,
    /// The load of this block is above the limit.
    Heavy(u32),
    /// The number of rows of one of the bounds is not the number of PEs plus one.
    RowCount,
    /// A bound for no blocks is not 0 at the beginning of the chain.
    Start,
    /// From the bounds for this number of blocks to those for one more, one rises by more than the block brings to some PE that
    /// begins at the first of these places and ends at the second. The only blocks that are named are empty ones, and those
    /// that begin where the bounds or the PE of the elements change and end where the next bounds or the PE do.
    Steep(u32, u32, u32),
    /// The bound for all blocks and the whole chain is below the bytes that move.
    Low,
}
