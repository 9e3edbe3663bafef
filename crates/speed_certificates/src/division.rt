//! A division of the elements over PEs of unequal speed, with the certificate that its greatest end time is least.

use crate::time::EndTime;
use lb_certificates::{Cuts, Stops};
use std::alloc::{Allocator, Global};

/// Why every division has a PE that ends at a time or later: the certificate beside it.
#[derive(Drop)]
#[derive_where(Debug, PartialEq)]
#[derive_where(Clone; A: Copy)]
pub enum TimeFloor<A: Allocator = Global> {
    /// The background of this PE takes so long by itself.
    Idle(u32),
    /// With the elements from each stop to the next, both included, the PE of the first stop's number ends then or later.
    Fence(Stops<A>),
}

/// The elements of a chain cut into a block for each PE, in the order of the PEs. It is plain data, under no condition:
/// [`check_speeds`](crate::check_speeds) says whether it is a division, and least.
#[derive(Drop)]
#[derive_where(Debug, PartialEq)]
#[derive_where(Clone; A: Copy)]
pub struct TimedDivision<A: Allocator = Global> {
    /// The greatest end time of a PE.
    pub time: EndTime,
    /// Where the blocks begin and end.
    pub cuts: Cuts<A>,
    /// The proof that the time is least.
    pub floor: TimeFloor<A>,
}
