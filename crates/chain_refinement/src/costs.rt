//! What cuts cost.

ghost use Rattle.std.specs.Prelude.{◌≡◌, ◌+◌, ◌<◌, ◌≤◌, length};
ghost use Rattle.std.specs.Bool.{OnTrue};
ghost use Rattle.lb_certificates.specs.Chain.{IsDivision};
ghost use Rattle.chain_refinement.specs.Internal.{IsClaim};
ghost use Rattle.chain_refinement.specs.Orders.{StandInOrder};
ghost use Rattle.chain_refinement.specs.Refinement.{cut_cost, cuts_cost};

use crate::claim::HeightsClaim;
use crate::walk::held_by;
use std::alloc::Allocator;

/// What all cuts between blocks cost.
pub(crate) fn cost_of_cuts<A: Allocator>(
    claim: &HeightsClaim<'_, A>,
    in_order: bool,
    present: &[u32],
    cuts: &[u32],
) -> u128
    requires claimed { IsClaim claim.now }
    requires order { OnTrue in_order (StandInOrder claim.now.sizes claim.now.names present.now) }
    requires divides { IsDivision 0 (length claim.now.sizes) (length claim.now.names) cuts.now }
    ensures cost { result ≡ cuts_cost claim.now.sizes claim.now.names cuts.now }
{
    let mut cost = 0;
    for b in 0..claim.names.len() - 1 {
        let x = cuts[b + 1] as usize;
        cost += u128::from(cost_of_cut(claim, in_order, present, b, x));
    }
    cost
}

// What the cut between block b and the next costs at a place.
fn cost_of_cut<A: Allocator>(
    claim: &HeightsClaim<'_, A>,
    in_order: bool,
    present: &[u32],
    b: usize,
    x: usize,
) -> u64
    requires claimed { IsClaim claim.now }
    requires order { OnTrue in_order (StandInOrder claim.now.sizes claim.now.names present.now) }
    requires inside { b + 1 < length claim.now.names }
    requires within { x ≤ length claim.now.sizes }
    ensures cost { result ≡ cut_cost claim.now.sizes claim.now.names b x }
{
    if in_order {
        return cost_nearby(claim, present, b, x);
    }
    let behind = held_by(&claim.sizes[x..], claim.names[b]);
    behind + held_by(&claim.sizes[..x], claim.names[b + 1])
}

/// What a cut costs where the elements are in order: the bytes between it and the present cut.
pub(crate) fn cost_nearby<A: Allocator>(
    claim: &HeightsClaim<'_, A>,
    present: &[u32],
    b: usize,
    x: usize,
) -> u64
    requires claimed { IsClaim claim.now }
    requires order { StandInOrder claim.now.sizes claim.now.names present.now }
    requires inside { b + 1 < length claim.now.names }
    requires within { x ≤ length claim.now.sizes }
    ensures cost { result ≡ cut_cost claim.now.sizes claim.now.names b x }
{
    let cut = present[b + 1] as usize;
    if x < cut {
        return held_by(&claim.sizes[x..cut], claim.names[b]);
    }
    held_by(&claim.sizes[cut..x], claim.names[b + 1])
}
