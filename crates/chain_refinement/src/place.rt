//! One place along the chain, for the cut between two blocks.

ghost use Rattle.std.specs.Prelude.{◌≡◌, ◌+◌, ◌<◌, ◌↔◌, IsTrue, [], length, slice_index_or};
ghost use Rattle.chare_index.specs.declared.limits.TheConstants.Limits.{PES};
ghost use Rattle.chain_refinement.specs.Refinement.{height_at};
ghost use Rattle.chain_refinement.specs.Internal.{IsClaim, IsPlace};
ghost use Rattle.chain_refinement.specs.Walks.{IsClimbed};

use crate::claim::HeightsClaim;
use crate::walk::{Climb, Window, climbed, cost_after, held_by, slid};
use std::alloc::Allocator;

/// What the cut costs at a place, the widest block that ends there, and the heights where that block begins and ends.
#[derive(Clone, Copy)]
pub(crate) struct Cut {
    pub(crate) cost: u64,
    pub(crate) window: Window,
    pub(crate) low: Climb,
    pub(crate) high: Climb,
}

/// The steps of a block's heights.
pub(crate) fn steps_of<'a, A: Allocator>(claim: &HeightsClaim<'a, A>, b: u32) -> &'a [(u32, u64)]
    requires inside { b < length claim.now.heights }
    ensures value { result.now ≡ slice_index_or claim.now.heights b [] }
{
    let heights = claim.heights;
    heights[b as usize].as_slice()
}

/// The climb of a block's heights from the beginning of the chain to a place.
pub(crate) fn climbed_to<A: Allocator>(claim: &HeightsClaim<'_, A>, b: u32, x: usize) -> Climb
    requires inside { b < length claim.now.heights }
    requires few { b < PES }
    ensures climbed { IsClimbed (slice_index_or claim.now.heights b []) x result.next result.height }
    ensures height { result.height ≡ height_at claim.now.heights b x }
{
    let bottom = Climb { next: 0, height: 0 };
    climbed(steps_of(claim, b), bottom, 0, x)
}

/// The beginning of the chain, for the cut between block b and the next.
pub(crate) fn first_place<A: Allocator>(claim: &HeightsClaim<'_, A>, b: u32) -> Cut
    requires claimed { IsClaim claim.now }
    requires inside { b + 1 < length claim.now.names }
    ensures place { IsPlace claim.now b 0 result }
{
    let window = Window {
        start: 0,
        weight: 0,
    };
    Cut {
        cost: held_by(claim.sizes, claim.names[b as usize]),
        window,
        low: climbed_to(claim, b, 0),
        high: climbed_to(claim, b + 1, 0),
    }
}

/// The place behind this one.
pub(crate) fn next_place<A: Allocator>(
    claim: &HeightsClaim<'_, A>,
    b: u32,
    x: usize,
    place: Cut,
) -> Cut
    requires claimed { IsClaim claim.now }
    requires inside { b + 1 < length claim.now.names }
    requires within { x < length claim.now.loads }
    requires here { IsPlace claim.now b x place }
    ensures place { IsPlace claim.now b (x + 1) result }
{
    let from = claim.names[b as usize];
    let to = claim.names[b as usize + 1];
    let cost = cost_after(claim.sizes, x, place.cost, from, to);
    let window = slid(claim.loads, place.window, x, claim.limit);
    let low = climbed(
        steps_of(claim, b),
        place.low,
        place.window.start,
        window.start,
    );
    let high = climbed(steps_of(claim, b + 1), place.high, x, x + 1);
    Cut {
        cost,
        window,
        low,
        high,
    }
}

/// Whether the height rises to this place by more than the cut costs.
pub(crate) fn is_steep(place: Cut) -> bool
    ensures steep { IsTrue result ↔ (place.low.height + place.cost < place.high.height) }
{
    place.low.height < place.high.height
        && place.high.height - place.low.height > u128::from(place.cost)
}
