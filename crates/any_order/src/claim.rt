//! What is checked of a number of blocks: bounds for it, and for one more.

ghost use Rattle.std.specs.Prelude.{◌≡◌, ◌+◌, ◌<◌, ◌^◌, length, slice_index, slice_index_or};
ghost use Rattle.chare_index.specs.declared.limits.TheConstants.Limits.{PES};
ghost use Rattle.any_order.specs.AnyOrder.{home};
ghost use Rattle.any_order.specs.Internal.{AreMeasured, IsAt};

use crate::row::{At, at_start, moved_on};
use chare_index::Pe;
use lb_snapshot::Units;
use std::marker::Model;

/// A chain, a limit, and bounds for a number of blocks and for one more. Contracts see it as the record of the parts.
#[derive(Drop)]
pub(crate) struct BoundsClaim<'a> {
    pub(crate) loads: &'a [Units],
    pub(crate) sizes: &'a [(u32, Pe)],
    pub(crate) limit: u64,
    pub(crate) any: &'a [(u32, u64)],
    pub(crate) free: &'a [(u32, u64)],
    pub(crate) next_any: &'a [(u32, u64)],
    pub(crate) next_free: &'a [(u32, u64)],
}

impl<'a> Model for BoundsClaim<'a> {
    ghost use Rattle.any_order.specs.Internal.{Claimed};

    ghost Value = { Claimed };

    ghost view = { λ c. record {
      loads = c.loads.now;
      sizes = c.sizes.now;
      limit = c.limit;
      any = c.any.now;
      free = c.free.now;
      next_any = c.next_any.now;
      next_free = c.next_free.now;
    } };
}

/// The number of elements.
pub(crate) fn elements(claim: &BoundsClaim<'_>) -> usize
    ensures { result ≡ length claim.now.loads }
{
    claim.loads.len()
}

/// The greatest load that a block may have.
pub(crate) fn limit_of(claim: &BoundsClaim<'_>) -> u64
    ensures { result ≡ claim.now.limit }
{
    claim.limit
}

/// The load of an element.
pub(crate) fn load_at(claim: &BoundsClaim<'_>, x: usize) -> u64
    requires measured { AreMeasured claim.now.loads claim.now.sizes }
    requires inside { x < length claim.now.loads }
    ensures { result ≡ slice_index claim.now.loads x }
{
    claim.loads[x]
}

/// The size of an element, and the PE that it is on.
pub(crate) fn element_at(claim: &BoundsClaim<'_>, x: usize) -> (u32, u32)
    requires measured { AreMeasured claim.now.loads claim.now.sizes }
    requires inside { x < length claim.now.loads }
    ensures value { result ≡ slice_index_or claim.now.sizes x (0, 0) }
    ensures in_range { result.1 < PES }
{
    let (bytes, pe) = claim.sizes[x];
    (bytes, pe.get())
}

/// The PE that the element at a place is on, and 0 behind the last one.
pub(crate) fn home_at(claim: &BoundsClaim<'_>, x: usize) -> u32
    ensures value { result ≡ home claim.now.sizes x }
    ensures in_range { result < PES }
{
    match claim.sizes.get(x) {
        Some(&(_, pe)) => pe.get(),
        None => 0,
    }
}

/// The bounds at the beginning of the chain.
pub(crate) fn low_start(claim: &BoundsClaim<'_>) -> At
    ensures at { IsAt claim.now.any claim.now.free 0 result }
{
    at_start(claim.any, claim.free)
}

/// The bounds for one more block there.
pub(crate) fn high_start(claim: &BoundsClaim<'_>) -> At
    ensures at { IsAt claim.now.next_any claim.now.next_free 0 result }
{
    at_start(claim.next_any, claim.next_free)
}

/// The bounds followed on from a place to the next.
pub(crate) fn low_on(claim: &BoundsClaim<'_>, at: At, x: usize) -> At
    requires at { IsAt claim.now.any claim.now.free x at }
    requires few { x < 2 ^ 32 }
    ensures at { IsAt claim.now.any claim.now.free (x + 1) result }
{
    moved_on(claim.any, claim.free, at, x)
}

/// The bounds for one more block followed on from a place to the next.
pub(crate) fn high_on(claim: &BoundsClaim<'_>, at: At, x: usize) -> At
    requires at { IsAt claim.now.next_any claim.now.next_free x at }
    requires few { x < 2 ^ 32 }
    ensures at { IsAt claim.now.next_any claim.now.next_free (x + 1) result }
{
    moved_on(claim.next_any, claim.next_free, at, x)
}
