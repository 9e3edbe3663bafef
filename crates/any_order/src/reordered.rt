//! Cuts and names that may give the PEs any order, with the proof that no others within the limit move fewer bytes.

use crate::levels::ByteBounds;
use chain_refinement::Tolerance;
use lb_certificates::{Cuts, Division, Naming};
use std::alloc::{Allocator, Global};

/// Cuts within a limit and names of their blocks that move the fewest bytes of all, with all that proves it. It is plain data
/// that may hold anything: [`check_reordered`](crate::check_reordered) says whether every part of it is right.
#[derive(Drop)]
#[derive_where(Debug)]
pub struct Reordered<A: Allocator = Global> {
    /// A least division. The limit is measured from its bottleneck.
    pub least: Division<A>,
    /// How far the limit is above the bottleneck.
    pub tolerance: Tolerance,
    /// Where the blocks begin and end.
    pub cuts: Cuts<A>,
    /// The PE on which each block runs.
    pub names: Naming<A>,
    /// For 0 to as many blocks as there are PEs: at each place a lower bound on the bytes that this number of blocks move which
    /// end there.
    pub any: ByteBounds<A>,
    /// Lower bounds as in `any`, where none of these blocks runs on the PE of the element behind them.
    pub free: ByteBounds<A>,
}
