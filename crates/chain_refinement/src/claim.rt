//! The heights of a refinement with the chain, limit and order that they are claimed for.

use crate::heights::Steps;
use chare_index::Pe;
use lb_snapshot::Units;
use std::alloc::Allocator;
use std::marker::Model;

/// What a refinement claims: that these heights bound what cuts within this limit cost, where the PEs have this order.
/// Contracts see it as the record of its parts.
#[derive(Drop)]
pub(crate) struct HeightsClaim<'a, A: Allocator> {
    pub(crate) loads: &'a [Units],
    pub(crate) sizes: &'a [(u32, Pe)],
    pub(crate) names: &'a [u32],
    pub(crate) limit: u64,
    pub(crate) heights: &'a [Steps<A>],
}

impl<'a, A: Allocator> Model for HeightsClaim<'a, A> {
    ghost use Rattle.chain_refinement.specs.Internal.{Claimed};

    ghost Value = { Claimed };

    ghost view = { λ c. record { loads = c.loads.now; sizes = c.sizes.now; names = c.names.now; limit = c.limit; heights = c.heights.now } };
}
