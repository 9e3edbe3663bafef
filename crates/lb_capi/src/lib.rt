//! The planner and its checker for programs in C, C++, Python and MPI: bindings/c/include/tezgumi.h declares them, and
//! names the statuses.
//!
//! - [`tezgumi_plan`]: plans over the caller's own lists; [`tezgumi_decide`] writes the certificates too.
//! - [`tezgumi_check`]: checks a plan with its certificates, whoever made it.
//! - [`tezgumi_refine`]: decides within a tolerance, with all that proves it; [`tezgumi_check_refined`] checks it.
//! - `tezgumi_reorder`: decides within a tolerance in any order of the PEs; `tezgumi_check_reordered` checks it.
//! - `tezgumi_divide_speeds`: divides over PEs of unequal speed; `tezgumi_check_speeds` checks such a division.
//! - `tezgumi_run_refusal`: why a run is refused.
//! - [`tezgumi_scale`]: loads in seconds as whole numbers, which can be planned.
//! - [`tezgumi_abi`]: the number of this interface.
#![tactic(auto)]

ghost use Rattle.std.specs.Prelude.{◌≡◌, ◌≢◌, ◌↔◌, ◌⊎◌, ◌<◌, ◌≤◌, ◌+◌, ◌==◌, ℕ, All, List, length, take, drop, pos, negsuc};
ghost use Rattle.chain_partition.specs.Chosen.{IsChosen};
ghost use Rattle.lb_certificates.specs.Chain.{peak};
ghost use Rattle.lb_certificates.specs.Flaws.{flaw_number};
ghost use Rattle.lb_certificates.specs.Naming.{IsLeastNaming};
ghost use Rattle.lb_certificates.specs.declared.flaw.Flaw.{Flaw};
ghost use Rattle.lb_strategy.specs.Decisions.{ArePricesBounded};
ghost use Rattle.chain_refinement.specs.Orders.{IsPresentOrder};
ghost use Rattle.chain_refinement.specs.Refinement.{AreWithin};
ghost use Rattle.chain_refinement.specs.Tolerances.{limit_of};
ghost use Rattle.lb_lists.specs.Claims.{claimed_division, IsBest, IsFirstFlaw, IsRightClaim};
ghost use Rattle.lb_lists.specs.Plans.{IsPlan};
ghost use Rattle.lb_lists.specs.Places.{ArePlaces};
ghost use Rattle.lb_lists.specs.RefinedClaims.{refined_flaw_number, refined_flaw_place, IsBestWithin, IsFirstRefinedFlaw, IsRightRefined};
ghost use Rattle.lb_lists.specs.declared.refined_checking.RefinedFlaw.{RefinedFlaw};
ghost use Rattle.lb_lists.specs.RefinedRooms.{standing_in, told_in, HasRefinedRoom, IsStandingIn};
ghost use Rattle.lb_lists.specs.Refinings.{IsDecidedRun};
ghost use Rattle.lb_lists.specs.Rooms.{claim_in, HasRoom};
ghost use Rattle.lb_lists.specs.Runs.{sizes_of, AreSmall, FitsSnapshot, IsAsked};
ghost use Rattle.lb_lists.specs.Scales.{IsFirstScaleFault, IsMeasured, IsRoomFor, IsScaled};
ghost use Rattle.lb_lists.specs.declared.scaling.ScaleError.TheVariants.{NotANumber, Negative, Infinite};
ghost use Rattle.lb_capi.specs.Calls.{claim_of, is_set, refine_status, refusal_status, room_of, run_of, refined_claim_of, scale_status, standing_room_of};

mod keeping;
mod parts;
mod refusals;
mod reordering;
mod speeds;

use lb_lists::{
    Buffers, Claim, RefineError, RefinedClaim, Run, RunError, ScaleError, StandingBuffers,
    check_claim, check_refined, decide_into, number_of, number_of_refined, place_of_refined,
    plan_into, refine_into, scale_loads,
};
use std::alloc::Global;

// The number of this interface.
const ABI: u32 = 4;

/// The number of this interface. It changes where the arguments of a call or their meaning change, and where calls are added.
#[unsafe(no_mangle)]
pub extern "C" fn tezgumi_abi() -> u32
    ensures value { result ≡ 4 }
{
    ABI
}

// The status of a refusal.
fn status_of(error: RunError) -> i32
    ensures { result ≡ refusal_status error }
{
    match error {
        RunError::BadInput => -1,
        RunError::OutOfMemory => -2,
        RunError::BadLoad => -3,
    }
}

/// Plans a run for `pes` PEs, writes the PE on which each element is to run, the bottleneck and the bytes that move, and
/// returns 0. A run has up to 4,294,967,295 elements on 1 to 4,096 PEs, with sizes that add up to at most 2^47 bytes. It
/// returns -1 where the lists are no run, `pes` is not 1 to 4,096 or there is not one new place for each element; then -3
/// where the loads add up to 2^63 or more; then -2 where memory was refused. Then nothing was written.
#[unsafe(no_mangle)]
pub extern "C" fn tezgumi_plan(
    alloc: Global,
    loads: &[u64],
    bytes: &[u32],
    places: &[u32],
    procs: u32,
    pes: u32,
    new_places: &mut [u32],
    bottleneck: &mut u64,
    moved: &mut u64,
) -> i32
    ensures statuses { (result ≡ pos 0) ⊎ (result ≡ negsuc 0) ⊎ (result ≡ negsuc 1) ⊎ (result ≡ negsuc 2) }
    ensures planned { result ≡ pos 0 → IsPlan (run_of loads.now bytes.now places.now procs) pes new_places.new bottleneck.new moved.new }
    ensures input { result ≡ negsuc 0 ↔ ¬ (IsAsked (run_of loads.now bytes.now places.now procs) pes × (length new_places.old ≡ length loads.now)) }
    ensures load { result ≡ negsuc 2
        ↔ ((IsAsked (run_of loads.now bytes.now places.now procs) pes × (length new_places.old ≡ length loads.now)) × ¬ (AreSmall loads.now)) }
    ensures kept { result ≢ pos 0 → (new_places.new ≡ new_places.old) × (bottleneck.new ≡ bottleneck.old) × (moved.new ≡ moved.old) }
{
    let run = Run {
        loads,
        bytes,
        places,
        procs,
    };
    match plan_into(alloc, &run, pes, new_places) {
        Ok(planned) => {
            *bottleneck = planned.bottleneck;
            *moved = planned.moved;
            0
        }
        Err(error) => status_of(error),
    }
}

/// Plans as [`tezgumi_plan`] does, and writes the certificates too: `pes + 1` cuts; as many stops, or none where the bottleneck
/// is 0, and their number; `pes` names, and `pes` prices of blocks and of PEs. The input is bad unless there is one new place
/// for each element, `cuts` and `stops` have `pes + 1` entries, and names and prices `pes` each. Each price of a block is
/// between 0 and the greatest number of bytes that a block moves on some PE, and each price of a PE is between 0 and minus that
/// number.
#[unsafe(no_mangle)]
pub extern "C" fn tezgumi_decide(
    alloc: Global,
    loads: &[u64],
    bytes: &[u32],
    places: &[u32],
    procs: u32,
    pes: u32,
    new_places: &mut [u32],
    bottleneck: &mut u64,
    moved: &mut u64,
    cuts: &mut [u32],
    stops: &mut [u32],
    stops_count: &mut usize,
    names: &mut [u32],
    block_prices: &mut [i64],
    pe_prices: &mut [i64],
) -> i32
    ensures statuses { (result ≡ pos 0) ⊎ (result ≡ negsuc 0) ⊎ (result ≡ negsuc 1) ⊎ (result ≡ negsuc 2) }
    ensures planned { result ≡ pos 0 → IsPlan (run_of loads.now bytes.now places.now procs) pes new_places.new bottleneck.new moved.new }
    ensures right { result ≡ pos 0
        → IsRightClaim (run_of loads.now bytes.now places.now procs) pes
        (claim_of bottleneck.new moved.new new_places.new cuts.new (take stops_count.new stops.new) names.new block_prices.new pe_prices.new) }
    ensures chosen { result ≡ pos 0
        → IsChosen loads.now pes
        (claimed_division (claim_of bottleneck.new moved.new new_places.new cuts.new (take stops_count.new stops.new) names.new block_prices.new pe_prices.new)) }
    ensures least_naming { result ≡ pos 0 → IsLeastNaming (sizes_of (run_of loads.now bytes.now places.now procs)) cuts.new pes names.new }
    ensures bounded { result ≡ pos 0 → ArePricesBounded (sizes_of (run_of loads.now bytes.now places.now procs)) cuts.new block_prices.new pe_prices.new }
    ensures counted { result ≡ pos 0 → stops_count.new ≤ pes + 1 }
    ensures behind { result ≡ pos 0 → drop stops_count.new stops.new ≡ drop stops_count.new stops.old }
    ensures input { result ≡ negsuc 0
        ↔ ¬ (IsAsked (run_of loads.now bytes.now places.now procs) pes
        × HasRoom (length loads.now) pes (room_of new_places.old cuts.old stops.old names.old block_prices.old pe_prices.old)) }
    ensures load { result ≡ negsuc 2
        ↔ ((IsAsked (run_of loads.now bytes.now places.now procs) pes
        × HasRoom (length loads.now) pes (room_of new_places.old cuts.old stops.old names.old block_prices.old pe_prices.old)) × ¬ (AreSmall loads.now)) }
    ensures kept { result ≢ pos 0
        → room_of new_places.new cuts.new stops.new names.new block_prices.new pe_prices.new
        ≡ room_of new_places.old cuts.old stops.old names.old block_prices.old pe_prices.old }
    ensures numbers_kept { result ≢ pos 0 → (bottleneck.new ≡ bottleneck.old) × (moved.new ≡ moved.old) × (stops_count.new ≡ stops_count.old) }
{
    let run = Run {
        loads,
        bytes,
        places,
        procs,
    };
    let mut room = Buffers {
        new_places,
        cuts,
        stops,
        names,
        block_prices,
        pe_prices,
    };
    match decide_into(alloc, &run, pes, &mut room) {
        Ok(decided) => {
            *bottleneck = decided.bottleneck;
            *moved = decided.moved;
            *stops_count = decided.stops;
            0
        }
        Err(error) => status_of(error),
    }
}

/// Checks what somebody claims of a run and `pes` PEs: returns 0 where every part is right, and otherwise the number of its
/// first flaw. The limits of a run are those of [`tezgumi_plan`]. It returns -1 where the lists are no run, or `pes` is not 1
/// to 4,096; then -3 where the loads add up to 2^63 or more; then -2 where memory was refused. A list of the claim may have
/// any length: a wrong length is a flaw of the claim, and of a list that is too long only as much is copied as shows that it
/// is.
#[unsafe(no_mangle)]
pub extern "C" fn tezgumi_check(
    alloc: Global,
    loads: &[u64],
    bytes: &[u32],
    places: &[u32],
    procs: u32,
    pes: u32,
    new_places: &[u32],
    bottleneck: u64,
    moved: u64,
    cuts: &[u32],
    stops: &[u32],
    names: &[u32],
    block_prices: &[i64],
    pe_prices: &[i64],
) -> i32
    ensures right { result ≡ pos 0
        → IsRightClaim (run_of loads.now bytes.now places.now procs) pes (claim_of bottleneck moved new_places.now cuts.now stops.now names.now block_prices.now pe_prices.now) }
    ensures best { result ≡ pos 0
        → IsBest (run_of loads.now bytes.now places.now procs) pes (claim_of bottleneck moved new_places.now cuts.now stops.now names.now block_prices.now pe_prices.now) }
    ensures flawed { (n : ℕ) → result ≡ pos (n + 1)
        → (flaw : Flaw) × (flaw_number flaw ≡ n + 1)
        × IsFirstFlaw (run_of loads.now bytes.now places.now procs) pes
        (claim_of bottleneck moved new_places.now cuts.now stops.now names.now block_prices.now pe_prices.now) flaw }
    ensures refusals { (n : ℕ) → result ≡ negsuc n → n < 3 }
    ensures input { result ≡ negsuc 0 ↔ ¬ (IsAsked (run_of loads.now bytes.now places.now procs) pes) }
    ensures load { result ≡ negsuc 2 ↔ (IsAsked (run_of loads.now bytes.now places.now procs) pes × ¬ (AreSmall loads.now)) }
{
    let run = Run {
        loads,
        bytes,
        places,
        procs,
    };
    let claim = Claim {
        bottleneck,
        moved,
        new_places,
        cuts,
        stops,
        names,
        block_prices,
        pe_prices,
    };
    match check_claim(alloc, &run, pes, &claim) {
        Ok(None) => 0,
        Ok(Some(flaw)) => i32::from(number_of(flaw)),
        Err(error) => status_of(error),
    }
}

/// The status of a refusal to decide within a tolerance.
pub(crate) fn refine_status_of(error: RefineError) -> i32
    ensures { result ≡ refine_status error }
{
    match error {
        RefineError::BadTolerance => -7,
        RefineError::Run(error) => status_of(error),
        RefineError::TooLarge => -8,
    }
}

/// 1 where something is so, and otherwise 0.
pub(crate) fn flag_of(is: bool) -> u32
    ensures flag { (result == 1) ≡ is }
{
    u32::from(is)
}

/// Whether a number says yes.
pub(crate) fn flag_in(number: u32) -> bool
    ensures flag { result ≡ is_set number }
{
    number != 0
}

/// Decides for a run and `pes` PEs within a tolerance, in thousandths above the least possible load of the heaviest block. It
/// writes what [`tezgumi_decide`] does, and in `least` the least possible load, which the stops prove. `least_cuts` are those
/// of the least division. `near` is 1 where the cuts are near the present ones: of all cuts within the tolerance, in the
/// present order of the PEs, those that move the fewest bytes. Then `order` and `present` have that order and the present
/// cuts, and the steps prove that no such cuts move fewer bytes, where their lists have the capacity for all `steps_count` of
/// them. Where `keep_order` is 0 the blocks have the cheapest names, and the decision is the plan where that moves no more bytes;
/// where it is not 0 the names are the order, and all prices are written as 0. Where `near` is 0 the decision is the plan, and the
/// lists of order, present cuts and steps are left unchanged.
/// [`one_refined_run`](lb_lists::one_refined_run) says that two calls with the same run, `pes`, tolerance and `keep_order` decide
/// the same. It returns -7 where the tolerance is
/// above 1,000, before all else; otherwise as [`tezgumi_decide`], where also `least_cuts`, `present` and `step_starts` have
/// `pes + 1` entries, `order` has `pes`, and `step_rises` as many as `step_places`; and -8, after -1 and -3 and before -2,
/// where the run is too large for a tolerance: more than 65,536 elements, more than 256 PEs before or after, a load of 2^47
/// or more, or a size above 1,048,576 bytes.
#[unsafe(no_mangle)]
pub extern "C" fn tezgumi_refine(
    alloc: Global,
    loads: &[u64],
    bytes: &[u32],
    places: &[u32],
    procs: u32,
    pes: u32,
    tolerance: u32,
    keep_order: u32,
    new_places: &mut [u32],
    least: &mut u64,
    bottleneck: &mut u64,
    moved: &mut u64,
    near: &mut u32,
    cuts: &mut [u32],
    stops: &mut [u32],
    stops_count: &mut usize,
    names: &mut [u32],
    block_prices: &mut [i64],
    pe_prices: &mut [i64],
    least_cuts: &mut [u32],
    order: &mut [u32],
    present: &mut [u32],
    step_starts: &mut [usize],
    step_places: &mut [u32],
    step_rises: &mut [u64],
    steps_count: &mut usize,
) -> i32
    ensures statuses { (result ≡ pos 0) ⊎ (result ≡ negsuc 0) ⊎ (result ≡ negsuc 1) ⊎ (result ≡ negsuc 2) ⊎ (result ≡ negsuc 6) ⊎ (result ≡ negsuc 7) }
    ensures refined { result ≡ pos 0 → (heights : List (List (ℕ × ℕ)))
        × IsDecidedRun (run_of loads.now bytes.now places.now procs) pes tolerance (is_set keep_order) (near.new == 1)
        (told_in least.new moved.new stops_count.new
        (room_of new_places.new cuts.new stops.new names.new block_prices.new pe_prices.new)
        (standing_room_of least_cuts.new order.new present.new step_starts.new step_places.new step_rises.new))
        (standing_in heights (standing_room_of least_cuts.new order.new present.new step_starts.new step_places.new step_rises.new))
        × IsStandingIn (near.new == 1) heights steps_count.new
        (standing_room_of least_cuts.old order.old present.old step_starts.old step_places.old step_rises.old)
        (standing_room_of least_cuts.new order.new present.new step_starts.new step_places.new step_rises.new) }
    ensures placed { result ≡ pos 0 → ArePlaces cuts.new names.new (length loads.now) new_places.new }
    ensures peak { result ≡ pos 0 → bottleneck.new ≡ peak loads.now cuts.new }
    ensures within { result ≡ pos 0 → bottleneck.new ≤ limit_of least.new tolerance }
    ensures no_more { result ≡ pos 0 → keep_order ≡ 0
        → (others : List ℕ) (other more : ℕ) → IsPlan (run_of loads.now bytes.now places.now procs) pes others other more → moved.new ≤ more }
    ensures bounded { result ≡ pos 0 → keep_order ≡ 0
        → ArePricesBounded (sizes_of (run_of loads.now bytes.now places.now procs)) cuts.new block_prices.new pe_prices.new }
    ensures kept_whole { result ≡ pos 0
        → (pes_order cuts_now : List ℕ) → IsPresentOrder (sizes_of (run_of loads.now bytes.now places.now procs)) pes pes_order cuts_now
        → AreWithin loads.now pes_order (limit_of least.new tolerance) cuts_now → moved.new ≡ 0 }
    ensures counted { result ≡ pos 0 → stops_count.new ≤ pes + 1 }
    ensures behind { result ≡ pos 0 → drop stops_count.new stops.new ≡ drop stops_count.new stops.old }
    ensures tolerance { result ≡ negsuc 6 ↔ (1000 < tolerance) }
    ensures input { result ≡ negsuc 0
        ↔ ((tolerance ≤ 1000) × ¬ (IsAsked (run_of loads.now bytes.now places.now procs) pes
        × HasRefinedRoom (length loads.now) pes (room_of new_places.old cuts.old stops.old names.old block_prices.old pe_prices.old)
        (standing_room_of least_cuts.old order.old present.old step_starts.old step_places.old step_rises.old))) }
    ensures load { result ≡ negsuc 2
        ↔ ((tolerance ≤ 1000) × (IsAsked (run_of loads.now bytes.now places.now procs) pes
        × HasRefinedRoom (length loads.now) pes (room_of new_places.old cuts.old stops.old names.old block_prices.old pe_prices.old)
        (standing_room_of least_cuts.old order.old present.old step_starts.old step_places.old step_rises.old)) × ¬ (AreSmall loads.now)) }
    ensures too_large { result ≡ negsuc 7
        ↔ ((tolerance ≤ 1000) × (IsAsked (run_of loads.now bytes.now places.now procs) pes
        × HasRefinedRoom (length loads.now) pes (room_of new_places.old cuts.old stops.old names.old block_prices.old pe_prices.old)
        (standing_room_of least_cuts.old order.old present.old step_starts.old step_places.old step_rises.old)) × AreSmall loads.now
        × ¬ (FitsSnapshot (run_of loads.now bytes.now places.now procs) pes)) }
    ensures kept { result ≢ pos 0
        → room_of new_places.new cuts.new stops.new names.new block_prices.new pe_prices.new
        ≡ room_of new_places.old cuts.old stops.old names.old block_prices.old pe_prices.old }
    ensures standing_kept { result ≢ pos 0
        → standing_room_of least_cuts.new order.new present.new step_starts.new step_places.new step_rises.new
        ≡ standing_room_of least_cuts.old order.old present.old step_starts.old step_places.old step_rises.old }
    ensures numbers_kept { result ≢ pos 0 → (least.new ≡ least.old) × (bottleneck.new ≡ bottleneck.old) × (moved.new ≡ moved.old) × (near.new ≡ near.old)
        × (stops_count.new ≡ stops_count.old) × (steps_count.new ≡ steps_count.old) }
{
    let run = Run {
        loads,
        bytes,
        places,
        procs,
    };
    let mut room = Buffers {
        new_places,
        cuts,
        stops,
        names,
        block_prices,
        pe_prices,
    };
    let mut standing = StandingBuffers {
        least_cuts,
        order,
        present,
        step_starts,
        step_places,
        step_rises,
    };
    match refine_into(
        alloc,
        &run,
        pes,
        tolerance,
        flag_in(keep_order),
        &mut room,
        &mut standing,
    ) {
        Ok(told) => {
            *least = told.least;
            *bottleneck = told.bottleneck;
            *moved = told.moved;
            *near = flag_of(told.near);
            *stops_count = told.stops;
            *steps_count = told.steps;
            0
        }
        Err(error) => refine_status_of(error),
    }
}

/// Checks what somebody claims to be a decision for a run and `pes` PEs within a tolerance whose cuts are near the present
/// ones. It returns 0 where every part is right, and otherwise the number of its first flaw, and writes the block, the stop,
/// the block and the PE, or the block and the place that this flaw names. Where `keep_order` is not 0 the names have to be the
/// order, and the prices are not looked at. It returns -7 where the tolerance is above 1,000,
/// before all else; otherwise as [`tezgumi_check`], and -8, after -1 and -3 and before -2, where the run is too large for a
/// tolerance, as in [`tezgumi_refine`]. A list of the claim may have any length.
#[unsafe(no_mangle)]
pub extern "C" fn tezgumi_check_refined<'a>(
    alloc: Global,
    loads: &[u64],
    bytes: &[u32],
    places: &[u32],
    procs: u32,
    pes: u32,
    tolerance: u32,
    keep_order: u32,
    new_places: &'a [u32],
    least: u64,
    bottleneck: u64,
    moved: u64,
    cuts: &'a [u32],
    stops: &'a [u32],
    names: &'a [u32],
    block_prices: &'a [i64],
    pe_prices: &'a [i64],
    least_cuts: &'a [u32],
    order: &'a [u32],
    present: &'a [u32],
    step_starts: &'a [usize],
    step_places: &'a [u32],
    step_rises: &'a [u64],
    at_first: &mut u32,
    at_second: &mut u32,
) -> i32
    ensures right { result ≡ pos 0
        → IsRightRefined (run_of loads.now bytes.now places.now procs) pes tolerance
        (refined_claim_of (is_set keep_order) least (claim_of bottleneck moved new_places.now cuts.now stops.now names.now block_prices.now pe_prices.now)
        (standing_room_of least_cuts.now order.now present.now step_starts.now step_places.now step_rises.now)) }
    ensures best { result ≡ pos 0
        → IsBestWithin (run_of loads.now bytes.now places.now procs) pes tolerance
        (refined_claim_of (is_set keep_order) least (claim_of bottleneck moved new_places.now cuts.now stops.now names.now block_prices.now pe_prices.now)
        (standing_room_of least_cuts.now order.now present.now step_starts.now step_places.now step_rises.now)) }
    ensures flawed { (n : ℕ) → result ≡ pos (n + 1)
        → (flaw : RefinedFlaw) × (refined_flaw_number flaw ≡ n + 1) × (refined_flaw_place flaw ≡ (at_first.new, at_second.new))
        × IsFirstRefinedFlaw (run_of loads.now bytes.now places.now procs) pes tolerance
        (refined_claim_of (is_set keep_order) least (claim_of bottleneck moved new_places.now cuts.now stops.now names.now block_prices.now pe_prices.now)
        (standing_room_of least_cuts.now order.now present.now step_starts.now step_places.now step_rises.now)) flaw }
    ensures refusals { (n : ℕ) → result ≡ negsuc n → (n < 3) ⊎ (n ≡ 6) ⊎ (n ≡ 7) }
    ensures tolerance { result ≡ negsuc 6 ↔ (1000 < tolerance) }
    ensures input { result ≡ negsuc 0 ↔ ((tolerance ≤ 1000) × ¬ (IsAsked (run_of loads.now bytes.now places.now procs) pes)) }
    ensures load { result ≡ negsuc 2
        ↔ ((tolerance ≤ 1000) × IsAsked (run_of loads.now bytes.now places.now procs) pes × ¬ (AreSmall loads.now)) }
    ensures too_large { result ≡ negsuc 7
        ↔ ((tolerance ≤ 1000) × IsAsked (run_of loads.now bytes.now places.now procs) pes × AreSmall loads.now
        × ¬ (FitsSnapshot (run_of loads.now bytes.now places.now procs) pes)) }
    ensures kept_right { result ≡ pos 0 → (at_first.new ≡ at_first.old) × (at_second.new ≡ at_second.old) }
    ensures kept_refused { (n : ℕ) → result ≡ negsuc n → (at_first.new ≡ at_first.old) × (at_second.new ≡ at_second.old) }
{
    let run = Run {
        loads,
        bytes,
        places,
        procs,
    };
    let claim = RefinedClaim {
        decision: Claim {
            bottleneck,
            moved,
            new_places,
            cuts,
            stops,
            names,
            block_prices,
            pe_prices,
        },
        keep_order: flag_in(keep_order),
        least,
        least_cuts,
        order,
        present,
        step_starts,
        step_places,
        step_rises,
    };
    match check_refined(alloc, &run, pes, tolerance, &claim) {
        Ok(None) => 0,
        Ok(Some(flaw)) => {
            (*at_first, *at_second) = place_of_refined(flaw);
            i32::from(number_of_refined(flaw))
        }
        Err(error) => refine_status_of(error),
    }
}

// The status of a refusal to scale.
fn scale_status_of(error: ScaleError) -> i32
    ensures { result ≡ scale_status error }
{
    match error {
        ScaleError::BadInput => -1,
        ScaleError::NotANumber => -4,
        ScaleError::Negative => -5,
        ScaleError::Infinite => -6,
    }
}

/// Counts measured loads in the finest unit of a power of two in which none is above the limit, each rounded down, writes the
/// counts and the unit, and returns 0. The limit is 2^47 - 1 for up to 65,536 loads, and half as great for each time that
/// there may be twice as many, so that the counts add up to less than 2^63. It returns -1 where there is not one count for
/// each load, or there are more than 4,294,967,295; otherwise, for the first load that is wrong, -4 where it is not a number,
/// -5 where it is below 0 and -6 where it is infinite. Then nothing was written.
#[unsafe(no_mangle)]
pub extern "C" fn tezgumi_scale(loads: &[f64], scaled: &mut [u64], unit: &mut f64) -> i32
    ensures scaled { result ≡ pos 0 → IsScaled loads.now unit.new scaled.new }
    ensures small { result ≡ pos 0 → AreSmall scaled.new }
    ensures succeeds { result ≡ pos 0 ↔ (IsRoomFor (length scaled.old) loads.now × All IsMeasured loads.now) }
    ensures input { result ≡ negsuc 0 ↔ ¬ (IsRoomFor (length scaled.old) loads.now) }
    ensures not_a_number { result ≡ negsuc 3 → IsFirstScaleFault loads.now NotANumber }
    ensures negative { result ≡ negsuc 4 → IsFirstScaleFault loads.now Negative }
    ensures infinite { result ≡ negsuc 5 → IsFirstScaleFault loads.now Infinite }
    ensures statuses { (result ≡ pos 0) ⊎ (result ≡ negsuc 0) ⊎ (result ≡ negsuc 3) ⊎ (result ≡ negsuc 4) ⊎ (result ≡ negsuc 5) }
    ensures kept { result ≢ pos 0 → (scaled.new ≡ scaled.old) × (unit.new ≡ unit.old) }
{
    match scale_loads(loads, scaled) {
        Ok(found) => {
            *unit = found;
            0
        }
        Err(error) => scale_status_of(error),
    }
}
