//! Cuts within a limit that move the fewest bytes in a given order of the PEs, with the proof of that.

use crate::heights::Heights;
use crate::tolerance::Tolerance;
use lb_certificates::{Cuts, Division, Naming};
use std::alloc::{Allocator, Global};

/// Cuts within a limit that move the fewest bytes where the PEs keep an order, with all that proves it. It is plain data that
/// may hold anything: [`check_refinement`](crate::check_refinement) says whether every part of it is right.
#[derive(Drop)]
#[derive_where(Debug)]
pub struct Refinement<A: Allocator = Global> {
    /// A least division. The limit is measured from its bottleneck.
    pub least: Division<A>,
    /// How far the limit is above the bottleneck.
    pub tolerance: Tolerance,
    /// The PE on which each block runs.
    pub order: Naming<A>,
    /// Where the blocks of this order begin and end today. The check is fast where the elements are in this order by these
    /// cuts, and relies on them for nothing else.
    pub present: Cuts<A>,
    /// Where the blocks begin and end.
    pub cuts: Cuts<A>,
    /// The proof that no cuts within the limit move fewer bytes.
    pub heights: Heights<A>,
}
