//! The limits of a table of costs that comes from plain lists.

/// The limits of an assignment problem that keeps none of a snapshot's. Each quantity goes from the lowest value given
/// here up to the constant, both included.
#[derive(Clone, Copy, Debug, PartialEq, Eq)]
pub struct MatrixLimits;

impl MatrixLimits {
    /// Blocks, from 1, and as many PEs.
    pub const BLOCKS: u32 = 4_096;

    /// Bytes of all elements together, from 0, and so of what one block costs on one PE: 128 TiB.
    pub const BYTES: u64 = 140_737_488_355_328;
}
