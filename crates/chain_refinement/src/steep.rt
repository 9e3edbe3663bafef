//! The first place to which the height rises by more than a cut costs.

ghost use Rattle.std.specs.Prelude.{◌+◌, ◌-◌, ◌<◌, MatchOption, length};
ghost use Rattle.std.specs.Bool.{OnTrue};
ghost use Rattle.chain_refinement.specs.Internal.{AllGentle, AreGentle, IsBase, IsClaim, IsFirstSteep, RisesAt};
ghost use Rattle.chain_refinement.specs.Orders.{StandInOrder};

use crate::claim::HeightsClaim;
use crate::few_places::{Base, is_gentle_nearby, moved_on};
use crate::place::{first_place, is_steep, next_place};
use crate::walk::Window;
use std::alloc::Allocator;

/// The first steep place of all cuts, by block and then place. It is found fast where the elements are in the order of the
/// names.
pub(crate) fn first_steep<A: Allocator>(
    claim: &HeightsClaim<'_, A>,
    in_order: bool,
    present: &[u32],
) -> Option<(u32, u32)>
    requires claimed { IsClaim claim.now }
    requires order { OnTrue in_order (StandInOrder claim.now.sizes claim.now.names present.now) }
    ensures first { MatchOption result (AreGentle claim.now (length claim.now.names - 1)) (IsFirstSteep claim.now) }
{
    if in_order {
        return first_steep_in_order(claim, present);
    }
    first_steep_anywhere(claim)
}

// The first steep place, where the elements are in order.
fn first_steep_in_order<A: Allocator>(
    claim: &HeightsClaim<'_, A>,
    present: &[u32],
) -> Option<(u32, u32)>
    requires claimed { IsClaim claim.now }
    requires order { StandInOrder claim.now.sizes claim.now.names present.now }
    ensures first { MatchOption result (AreGentle claim.now (length claim.now.names - 1)) (IsFirstSteep claim.now) }
{
    let window = Window {
        start: 0,
        weight: 0,
    };
    let mut base = Base { end: 0, window };
    for b in 0..claim.names.len() as u32 - 1 {
        base = moved_on(claim, b, present[b as usize + 1] as usize, base);
        if let Some(x) = first_steep_from(claim, present, b, base) {
            return Some((b, x as u32));
        }
    }
    None
}

// The first steep place for the cut between block b and the next, where the places around the present cut leave that open.
fn first_steep_from<A: Allocator>(
    claim: &HeightsClaim<'_, A>,
    present: &[u32],
    b: u32,
    base: Base,
) -> Option<usize>
    requires claimed { IsClaim claim.now }
    requires order { StandInOrder claim.now.sizes claim.now.names present.now }
    requires inside { b + 1 < length claim.now.names }
    requires base { IsBase claim.now base }
    ensures first { MatchOption result (AllGentle claim.now b (length claim.now.loads + 1)) (λ x. RisesAt claim.now b x × AllGentle claim.now b x) }
{
    if is_gentle_nearby(claim, present, b, base) {
        return None;
    }
    first_steep_place(claim, b)
}

// The first steep place, wherever the elements are.
fn first_steep_anywhere<A: Allocator>(claim: &HeightsClaim<'_, A>) -> Option<(u32, u32)>
    requires claimed { IsClaim claim.now }
    ensures first { MatchOption result (AreGentle claim.now (length claim.now.names - 1)) (IsFirstSteep claim.now) }
{
    for b in 0..claim.names.len() as u32 - 1 {
        if let Some(x) = first_steep_place(claim, b) {
            return Some((b, x as u32));
        }
    }
    None
}

// The first steep place for the cut between block b and the next, found by a look at each place.
#[tactic(auto, using(crate::proofs::Steeps::gentle_at_first, crate::proofs::Steeps::gentle_so_far, crate::proofs::Steeps::rises_here))]
fn first_steep_place<A: Allocator>(claim: &HeightsClaim<'_, A>, b: u32) -> Option<usize>
    requires claimed { IsClaim claim.now }
    requires inside { b + 1 < length claim.now.names }
    ensures first { MatchOption result (AllGentle claim.now b (length claim.now.loads + 1)) (λ x. RisesAt claim.now b x × AllGentle claim.now b x) }
{
    let mut place = first_place(claim, b);
    if is_steep(place) {
        return Some(0);
    }
    for x in 0..claim.loads.len() {
        place = next_place(claim, b, x, place);
        if is_steep(place) {
            return Some(x + 1);
        }
    }
    None
}
