//! Decisions in any order of the PEs, and the check of them.

ghost use Rattle.std.specs.Prelude.{◌≡◌, ◌≢◌, ◌↔◌, ◌⊎◌, ◌<◌, ◌≤◌, ◌+◌, ◌==◌, Bool, ℕ, List, drop, false, length, negsuc, pos};
ghost use Rattle.lb_certificates.specs.Chain.{peak};
ghost use Rattle.lb_strategy.specs.Decisions.{ArePricesBounded};
ghost use Rattle.chain_refinement.specs.Orders.{IsPresentOrder};
ghost use Rattle.chain_refinement.specs.Refinement.{AreWithin};
ghost use Rattle.chain_refinement.specs.Tolerances.{limit_of};
ghost use Rattle.lb_lists.specs.Plans.{IsPlan};
ghost use Rattle.lb_lists.specs.Places.{ArePlaces};
ghost use Rattle.lb_lists.specs.RefinedRooms.{standing_in, told_in, IsStandingIn};
ghost use Rattle.lb_lists.specs.Refinings.{IsRefinedRun, Standing, Told};
ghost use Rattle.lb_lists.specs.ReorderedClaims.{claim_flaw_number, claim_flaw_place, IsBestOfAll, IsFirstClaimFlaw, IsRightReordered};
ghost use Rattle.lb_lists.specs.Reorderings.{AreBoundsIn, BoundRows, HasReorderedRoom, IsReorderedRun};
ghost use Rattle.lb_lists.specs.Runs.{sizes_of, AreSmall, FitsSnapshot, IsAsked};
ghost use Rattle.lb_lists.specs.declared.reordered_checking.ReorderedClaimFlaw.{ReorderedClaimFlaw};
ghost use Rattle.lb_capi.specs.Calls.{claim_of, level_room_of, reordered_claim_of, room_of, run_of, standing_room_of};

use crate::{flag_of, refine_status_of};
use lb_lists::{
    BoundsBuffers, Buffers, Claim, ReorderedClaim, Run, StandingBuffers, check_reordered_claim,
    number_of_reordered, place_of_reordered, reorder_into,
};
use std::alloc::Global;

/// Decides for a run and `pes` PEs within a tolerance, where the PEs may change their order: of all cuts within the tolerance and all
/// names of their blocks by some that move the fewest bytes. It writes what [`tezgumi_refine`](crate::tezgumi_refine) does, and in
/// `reordered` 1 where no cuts and names move fewer bytes. Then `near` is 0, all prices are 0, the lists of order, present cuts and
/// steps are left unchanged, and the levels prove that no cuts and names move fewer bytes, where their lists have the capacity for all
/// `levels_count` of them. They are two bounds for each number of blocks from 0 to `pes`: first the rows of those whatever the PEs
/// of the blocks are, and then the rows of those where none is the PE of the element behind them. Where `reordered` is 0 the
/// decision is that of `tezgumi_refine` with a `keep_order` of 0, and the lists of the levels are left unchanged: so it is where
/// the elements of some PE are not consecutive, where the search would be too large, and where it finds nothing with its proof. It never
/// moves more bytes than that decision. Two calls with the same run, `pes` and tolerance for which `reordered` is 1 move the same
/// number of bytes; that they move the same elements is not proved. It returns what `tezgumi_refine` does, where also
/// `level_starts` has `2 * pes + 3` entries, and `level_bytes` as many as `level_places`.
#[unsafe(no_mangle)]
pub extern "C" fn tezgumi_reorder(
    alloc: Global,
    loads: &[u64],
    bytes: &[u32],
    places: &[u32],
    procs: u32,
    pes: u32,
    tolerance: u32,
    new_places: &mut [u32],
    least: &mut u64,
    bottleneck: &mut u64,
    moved: &mut u64,
    near: &mut u32,
    reordered: &mut u32,
    cuts: &mut [u32],
    stops: &mut [u32],
    stops_count: &mut usize,
    names: &mut [u32],
    block_prices: &mut [i64],
    pe_prices: &mut [i64],
    least_cuts: &mut [u32],
    order: &mut [u32],
    present: &mut [u32],
    step_starts: &mut [usize],
    step_places: &mut [u32],
    step_rises: &mut [u64],
    steps_count: &mut usize,
    level_starts: &mut [usize],
    level_places: &mut [u32],
    level_bytes: &mut [u64],
    levels_count: &mut usize,
) -> i32
    ensures statuses { (result ≡ pos 0) ⊎ (result ≡ negsuc 0) ⊎ (result ≡ negsuc 1) ⊎ (result ≡ negsuc 2) ⊎ (result ≡ negsuc 6) ⊎ (result ≡ negsuc 7) }
    ensures reordered { result ≡ pos 0 → (heights : List (List (ℕ × ℕ))) × (rows : BoundRows)
        × IsReorderedRun (run_of loads.now bytes.now places.now procs) pes tolerance (reordered.new == 1) (near.new == 1)
        (told_in least.new moved.new stops_count.new
        (room_of new_places.new cuts.new stops.new names.new block_prices.new pe_prices.new)
        (standing_room_of least_cuts.new order.new present.new step_starts.new step_places.new step_rises.new))
        (standing_in heights (standing_room_of least_cuts.new order.new present.new step_starts.new step_places.new step_rises.new)) rows
        × IsStandingIn (near.new == 1) heights steps_count.new
        (standing_room_of least_cuts.old order.old present.old step_starts.old step_places.old step_rises.old)
        (standing_room_of least_cuts.new order.new present.new step_starts.new step_places.new step_rises.new)
        × AreBoundsIn (reordered.new == 1) rows levels_count.new
        (level_room_of level_starts.old level_places.old level_bytes.old)
        (level_room_of level_starts.new level_places.new level_bytes.new) }
    ensures placed { result ≡ pos 0 → ArePlaces cuts.new names.new (length loads.now) new_places.new }
    ensures peak { result ≡ pos 0 → bottleneck.new ≡ peak loads.now cuts.new }
    ensures within { result ≡ pos 0 → bottleneck.new ≤ limit_of least.new tolerance }
    ensures no_more { result ≡ pos 0
        → (others : List ℕ) (other more : ℕ) → IsPlan (run_of loads.now bytes.now places.now procs) pes others other more → moved.new ≤ more }
    ensures no_more_refined { result ≡ pos 0 → (beside : Bool) (told : Told) (stood : Standing)
        → IsRefinedRun (run_of loads.now bytes.now places.now procs) pes tolerance beside told stood → moved.new ≤ told.moved }
    ensures bounded { result ≡ pos 0 → (reordered.new == 1) ≡ false
        → ArePricesBounded (sizes_of (run_of loads.now bytes.now places.now procs)) cuts.new block_prices.new pe_prices.new }
    ensures kept_whole { result ≡ pos 0
        → (pes_order cuts_now : List ℕ) → IsPresentOrder (sizes_of (run_of loads.now bytes.now places.now procs)) pes pes_order cuts_now
        → AreWithin loads.now pes_order (limit_of least.new tolerance) cuts_now → moved.new ≡ 0 }
    ensures counted { result ≡ pos 0 → stops_count.new ≤ pes + 1 }
    ensures behind { result ≡ pos 0 → drop stops_count.new stops.new ≡ drop stops_count.new stops.old }
    ensures tolerance { result ≡ negsuc 6 ↔ (1000 < tolerance) }
    ensures input { result ≡ negsuc 0
        ↔ ((tolerance ≤ 1000) × ¬ (IsAsked (run_of loads.now bytes.now places.now procs) pes
        × HasReorderedRoom (length loads.now) pes (room_of new_places.old cuts.old stops.old names.old block_prices.old pe_prices.old)
        (standing_room_of least_cuts.old order.old present.old step_starts.old step_places.old step_rises.old)
        (level_room_of level_starts.old level_places.old level_bytes.old))) }
    ensures load { result ≡ negsuc 2
        ↔ ((tolerance ≤ 1000) × (IsAsked (run_of loads.now bytes.now places.now procs) pes
        × HasReorderedRoom (length loads.now) pes (room_of new_places.old cuts.old stops.old names.old block_prices.old pe_prices.old)
        (standing_room_of least_cuts.old order.old present.old step_starts.old step_places.old step_rises.old)
        (level_room_of level_starts.old level_places.old level_bytes.old)) × ¬ (AreSmall loads.now)) }
    ensures too_large { result ≡ negsuc 7
        ↔ ((tolerance ≤ 1000) × (IsAsked (run_of loads.now bytes.now places.now procs) pes
        × HasReorderedRoom (length loads.now) pes (room_of new_places.old cuts.old stops.old names.old block_prices.old pe_prices.old)
        (standing_room_of least_cuts.old order.old present.old step_starts.old step_places.old step_rises.old)
        (level_room_of level_starts.old level_places.old level_bytes.old)) × AreSmall loads.now
        × ¬ (FitsSnapshot (run_of loads.now bytes.now places.now procs) pes)) }
    ensures kept { result ≢ pos 0
        → room_of new_places.new cuts.new stops.new names.new block_prices.new pe_prices.new
        ≡ room_of new_places.old cuts.old stops.old names.old block_prices.old pe_prices.old }
    ensures standing_kept { result ≢ pos 0
        → standing_room_of least_cuts.new order.new present.new step_starts.new step_places.new step_rises.new
        ≡ standing_room_of least_cuts.old order.old present.old step_starts.old step_places.old step_rises.old }
    ensures levels_kept { result ≢ pos 0
        → level_room_of level_starts.new level_places.new level_bytes.new
        ≡ level_room_of level_starts.old level_places.old level_bytes.old }
    ensures numbers_kept { result ≢ pos 0 → (least.new ≡ least.old) × (bottleneck.new ≡ bottleneck.old) × (moved.new ≡ moved.old) × (near.new ≡ near.old)
        × (reordered.new ≡ reordered.old) × (stops_count.new ≡ stops_count.old) × (steps_count.new ≡ steps_count.old) × (levels_count.new ≡ levels_count.old) }
{
    let run = Run {
        loads,
        bytes,
        places,
        procs,
    };
    let mut room = Buffers {
        new_places,
        cuts,
        stops,
        names,
        block_prices,
        pe_prices,
    };
    let mut standing = StandingBuffers {
        least_cuts,
        order,
        present,
        step_starts,
        step_places,
        step_rises,
    };
    let mut bounds = BoundsBuffers {
        level_starts,
        level_places,
        level_bytes,
    };
    match reorder_into(
        alloc,
        &run,
        pes,
        tolerance,
        &mut room,
        &mut standing,
        &mut bounds,
    ) {
        Ok(told) => {
            *least = told.refined.least;
            *bottleneck = told.refined.bottleneck;
            *moved = told.refined.moved;
            *near = flag_of(told.refined.near);
            *reordered = flag_of(told.reordered);
            *stops_count = told.refined.stops;
            *steps_count = told.refined.steps;
            *levels_count = told.levels;
            0
        }
        Err(error) => refine_status_of(error),
    }
}

/// Checks what somebody claims to be a decision for a run and `pes` PEs within a tolerance of which no cuts and names move fewer bytes.
/// It returns 0 where every part is right, and otherwise the number of its first flaw, and writes the block, the stop, or the number of
/// blocks with the places where one more begins and ends, that this flaw names. The prices are not looked at. It returns -7 where
/// the tolerance is above 1,000, before all else; otherwise as [`tezgumi_check`](crate::tezgumi_check), and -8, after -1 and -3 and
/// before -2, where the run is too large for a tolerance, as in [`tezgumi_refine`](crate::tezgumi_refine). A list of the claim
/// may have any length.
#[unsafe(no_mangle)]
pub extern "C" fn tezgumi_check_reordered<'a>(
    alloc: Global,
    loads: &[u64],
    bytes: &[u32],
    places: &[u32],
    procs: u32,
    pes: u32,
    tolerance: u32,
    new_places: &'a [u32],
    least: u64,
    bottleneck: u64,
    moved: u64,
    cuts: &'a [u32],
    stops: &'a [u32],
    names: &'a [u32],
    block_prices: &'a [i64],
    pe_prices: &'a [i64],
    least_cuts: &'a [u32],
    level_starts: &'a [usize],
    level_places: &'a [u32],
    level_bytes: &'a [u64],
    at_first: &mut u32,
    at_second: &mut u32,
    at_third: &mut u32,
) -> i32
    ensures right { result ≡ pos 0
        → IsRightReordered (run_of loads.now bytes.now places.now procs) pes tolerance
        (reordered_claim_of least (claim_of bottleneck moved new_places.now cuts.now stops.now names.now block_prices.now pe_prices.now)
        least_cuts.now (level_room_of level_starts.now level_places.now level_bytes.now)) }
    ensures best { result ≡ pos 0
        → IsBestOfAll (run_of loads.now bytes.now places.now procs) pes tolerance
        (reordered_claim_of least (claim_of bottleneck moved new_places.now cuts.now stops.now names.now block_prices.now pe_prices.now)
        least_cuts.now (level_room_of level_starts.now level_places.now level_bytes.now)) }
    ensures flawed { (n : ℕ) → result ≡ pos (n + 1)
        → (flaw : ReorderedClaimFlaw) × (claim_flaw_number flaw ≡ n + 1) × (claim_flaw_place flaw ≡ (at_first.new, at_second.new, at_third.new))
        × IsFirstClaimFlaw (run_of loads.now bytes.now places.now procs) pes tolerance
        (reordered_claim_of least (claim_of bottleneck moved new_places.now cuts.now stops.now names.now block_prices.now pe_prices.now)
        least_cuts.now (level_room_of level_starts.now level_places.now level_bytes.now)) flaw }
    ensures refusals { (n : ℕ) → result ≡ negsuc n → (n < 3) ⊎ (n ≡ 6) ⊎ (n ≡ 7) }
    ensures tolerance { result ≡ negsuc 6 ↔ (1000 < tolerance) }
    ensures input { result ≡ negsuc 0 ↔ ((tolerance ≤ 1000) × ¬ (IsAsked (run_of loads.now bytes.now places.now procs) pes)) }
    ensures load { result ≡ negsuc 2
        ↔ ((tolerance ≤ 1000) × IsAsked (run_of loads.now bytes.now places.now procs) pes × ¬ (AreSmall loads.now)) }
    ensures too_large { result ≡ negsuc 7
        ↔ ((tolerance ≤ 1000) × IsAsked (run_of loads.now bytes.now places.now procs) pes × AreSmall loads.now
        × ¬ (FitsSnapshot (run_of loads.now bytes.now places.now procs) pes)) }
    ensures kept_right { result ≡ pos 0 → (at_first.new ≡ at_first.old) × (at_second.new ≡ at_second.old) × (at_third.new ≡ at_third.old) }
    ensures kept_refused { (n : ℕ) → result ≡ negsuc n
        → (at_first.new ≡ at_first.old) × (at_second.new ≡ at_second.old) × (at_third.new ≡ at_third.old) }
{
    let run = Run {
        loads,
        bytes,
        places,
        procs,
    };
    let claim = ReorderedClaim {
        decision: Claim {
            bottleneck,
            moved,
            new_places,
            cuts,
            stops,
            names,
            block_prices,
            pe_prices,
        },
        least,
        least_cuts,
        level_starts,
        level_places,
        level_bytes,
    };
    match check_reordered_claim(alloc, &run, pes, tolerance, &claim) {
        Ok(None) => 0,
        Ok(Some(flaw)) => {
            (*at_first, *at_second, *at_third) = place_of_reordered(flaw);
            i32::from(number_of_reordered(flaw))
        }
        Err(error) => refine_status_of(error),
    }
}
