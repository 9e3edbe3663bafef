//! A test of few places, where elements are in the order of the PEs: those around the present cut. The cost of the cut falls up
//! to there and rises behind it. So no other place has to be looked at, as long as the heights of the block before it have not
//! risen where the test begins, and those of the block behind it no longer rise where it ends.

ghost use Rattle.std.specs.Prelude.{◌+◌, ◌<◌, ◌≤◌, length};
ghost use Rattle.std.specs.Bool.{OnTrue};
ghost use Rattle.chain_refinement.specs.Internal.{AllGentle, IsBase, IsClaim, IsLevelBehind, IsPlace, IsWalked};
ghost use Rattle.chain_refinement.specs.Orders.{StandInOrder};

use crate::claim::HeightsClaim;
use crate::costs::cost_nearby;
use crate::place::{Cut, climbed_to, is_steep, next_place, steps_of};
use crate::walk::{Window, slid};
use std::alloc::Allocator;

/// Where a test may begin: a place, and the widest block that ends there. It moves forward from cut to cut.
#[derive(Clone, Copy)]
pub(crate) struct Base {
    pub(crate) end: usize,
    pub(crate) window: Window,
}

/// The base for the cut between block b and the next: the last place up to the present cut, up to which a block begins where
/// the heights of block b have not risen. Where that place is behind the base, the base stays.
pub(crate) fn moved_on<A: Allocator>(
    claim: &HeightsClaim<'_, A>,
    b: u32,
    cut: usize,
    base: Base,
) -> Base
    requires claimed { IsClaim claim.now }
    requires inside { b < length claim.now.names }
    requires within { cut ≤ length claim.now.loads }
    requires before { IsBase claim.now base }
    ensures base { IsBase claim.now result }
{
    let steps = steps_of(claim, b);
    let bottom = climbed_to(claim, b, 0).next;
    if bottom == steps.len() {
        return slid_to(claim, cut, claim.loads.len(), base);
    }
    slid_to(claim, cut, steps[bottom].0 as usize, base)
}

// The base moved up to the cut, as long as the block that ends there begins before this place.
fn slid_to<A: Allocator>(claim: &HeightsClaim<'_, A>, cut: usize, rise: usize, base: Base) -> Base
    requires claimed { IsClaim claim.now }
    requires within { cut ≤ length claim.now.loads }
    requires before { IsBase claim.now base }
    ensures base { IsBase claim.now result }
{
    let mut end = base.end;
    let mut window = base.window;
    while end < cut {
        let next = slid(claim.loads, window, end, claim.limit);
        if next.start >= rise {
            return Base { end, window };
        }
        window = next;
        end += 1;
    }
    Base { end, window }
}

/// Whether the places around the present cut show that the cut between block b and the next has no steep place. `false` leaves
/// that open.
pub(crate) fn is_gentle_nearby<A: Allocator>(
    claim: &HeightsClaim<'_, A>,
    present: &[u32],
    b: u32,
    base: Base,
) -> bool
    requires claimed { IsClaim claim.now }
    requires order { StandInOrder claim.now.sizes claim.now.names present.now }
    requires inside { b + 1 < length claim.now.names }
    requires base { IsBase claim.now base }
    ensures gentle { OnTrue result (AllGentle claim.now b (length claim.now.loads + 1)) }
{
    let cut = present[b as usize + 1] as usize;
    let low = climbed_to(claim, b, base.window.start);
    if base.end > cut || low.height > climbed_to(claim, b, 0).height {
        return false;
    }
    let place = Cut {
        cost: cost_nearby(claim, present, b as usize, base.end),
        window: base.window,
        low,
        high: climbed_to(claim, b + 1, base.end),
    };
    is_gentle_walk(claim, b, base.end, place, last_rise(claim, b, cut))
}

// The last step of the heights of the block behind the cut, or the cut itself.
fn last_rise<A: Allocator>(claim: &HeightsClaim<'_, A>, b: u32, cut: usize) -> usize
    requires claimed { IsClaim claim.now }
    requires inside { b + 1 < length claim.now.names }
    requires within { cut ≤ length claim.now.loads }
    ensures onward { cut ≤ result }
    ensures inside { result ≤ length claim.now.loads }
{
    let steps = steps_of(claim, b + 1);
    if steps.is_empty() {
        return cut;
    }
    let last = steps[steps.len() - 1].0 as usize;
    cut.max(last.min(claim.loads.len()))
}

// Whether no place from one to another is steep, and the heights of the block behind the cut do not rise any more.
fn is_gentle_walk<A: Allocator>(
    claim: &HeightsClaim<'_, A>,
    b: u32,
    from: usize,
    first: Cut,
    to: usize,
) -> bool
    requires claimed { IsClaim claim.now }
    requires inside { b + 1 < length claim.now.names }
    requires onward { from ≤ to }
    requires within { to ≤ length claim.now.loads }
    requires here { IsPlace claim.now b from first }
    ensures walked { OnTrue result (IsWalked claim.now b from to) }
{
    let mut place = first;
    for x in from..to {
        if is_steep(place) {
            return false;
        }
        place = next_place(claim, b, x, place);
    }
    if is_steep(place) {
        return false;
    }
    is_level_behind(claim, b, to, place)
}

// Whether the heights of the block behind the cut rise no more behind this place.
fn is_level_behind<A: Allocator>(claim: &HeightsClaim<'_, A>, b: u32, x: usize, place: Cut) -> bool
    requires claimed { IsClaim claim.now }
    requires inside { b + 1 < length claim.now.names }
    requires within { x ≤ length claim.now.loads }
    requires here { IsPlace claim.now b x place }
    ensures level { OnTrue result (IsLevelBehind claim.now b x) }
{
    if x == claim.loads.len() {
        return true;
    }
    place.high.next == steps_of(claim, b + 1).len()
}
