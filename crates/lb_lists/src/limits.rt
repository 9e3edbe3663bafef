//! The limits of a run over plain lists.

/// The limits of a run over plain lists. Each quantity goes from the lowest value given here up to the constant, both included.
#[derive(Clone, Copy, Debug, PartialEq, Eq)]
pub struct RunLimits;

impl RunLimits {
    /// Elements, from 0.
    pub const ELEMENTS: u32 = 4_294_967_295;

    /// PEs, from 1: those that the elements are on, and those on which the run continues.
    pub const PES: u32 = 4_096;

    /// Work units of all elements together, from 0.
    pub const LOAD: u64 = 9_223_372_036_854_775_807;

    /// Packed bytes of all elements together, from 0: 128 TiB.
    pub const BYTES: u64 = 140_737_488_355_328;
}
