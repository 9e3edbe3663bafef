//! Decisions within a tolerance where the PEs may change their order.

ghost use Rattle.std.specs.Prelude.{◌≡◌, ◌≤◌, ◌<◌, ◌+◌, ◌↔◌, false, true, ℕ, Bool, IsTrue, List, length, drop, IfOk, IfErr, OnOk, OnErr};
ghost use Rattle.lb_certificates.specs.Chain.{peak, IsDivision};
ghost use Rattle.lb_certificates.specs.Naming.{IsNaming};
ghost use Rattle.lb_strategy.specs.Decisions.{ArePricesBounded};
ghost use Rattle.chain_refinement.specs.Orders.{IsPresentOrder};
ghost use Rattle.chain_refinement.specs.Refinement.{AreWithin};
ghost use Rattle.chain_refinement.specs.Tolerances.{limit_of};
ghost use Rattle.lb_refinement.specs.Refined.{least_load, refined_bottleneck, refined_cuts, refined_moved, refined_names, IsRefined};
ghost use Rattle.lb_refinement.specs.declared.refined.Refined.{Refined};
ghost use Rattle.lb_any_order.specs.Reorderings.{ArePricesSmallInOrder, HasPlaceBelow, IsReordering};
ghost use Rattle.lb_lists.specs.Plans.{IsPlan};
ghost use Rattle.lb_lists.specs.Places.{ArePlaces};
ghost use Rattle.lb_lists.specs.RefinedRooms.{standing_in, standing_lists_in, told_in, HasRefinedRoom, HasStandingListsOf, IsStandingIn};
ghost use Rattle.lb_lists.specs.Refinings.{IsRefinedRun, Standing, Told};
ghost use Rattle.lb_lists.specs.Reorderings.{level_lists_in, AreBoundsIn, BoundRows, HasLevelListsOf, HasReorderedRoom, IsReorderedRun};
ghost use Rattle.lb_lists.specs.Rooms.{lists_in, HasListsOf};
ghost use Rattle.lb_lists.specs.Runs.{sizes_of, AreSmall, FitsSnapshot, IsAsked, IsRefineRefusal, IsSnapshotRefusal};

use crate::bounds::{BoundsBuffers, flat_levels, has_level_room};
use crate::deciding::Buffers;
use crate::error::{RefineError, RunError};
use crate::refined_writing::{priced, write_near, write_planned};
use crate::refining::{RefinedNumbers, StandingBuffers, has_refined_room};
use crate::reordered_writing::write_fewest;
use crate::run::Run;
use crate::snapshot::snapshot_of;
use crate::steps::flat_steps;
use chain_refinement::Tolerance;
use chare_index::Pes;
use lb_any_order::refine_in_any_order;
use lb_refinement::{Nearness, Refined};
use std::alloc::Allocator;

/// The numbers of a decision in any order of the PEs that was written.
#[derive(Clone, Copy, Debug, PartialEq, Eq)]
pub struct ReorderedNumbers {
    /// Those of every decision within a tolerance. Where no cuts and names move fewer bytes, the cuts count as not near the
    /// present ones, and there are no heights.
    pub refined: RefinedNumbers,
    /// Whether no cuts and no names within the tolerance move fewer bytes; otherwise the decision is that of
    /// [`refine_into`](crate::refine_into).
    pub reordered: bool,
    /// The number of levels of the bounds; 0 for a decision that is not so.
    pub levels: usize,
}

/// Decides on which of `pes` PEs each element of a run continues, within a tolerance, as [`refine_in_any_order`] does: by cuts and
/// names that move the fewest bytes of all, with their proof. Where the elements of some PE are not consecutive, the search would
/// be too large ([`TABLE`](lb_any_order::TABLE)) or it finds none with its proof, it decides as
/// [`refine_run`](crate::refine_run) does.
///
/// # Errors
///
/// As [`refine_run`](crate::refine_run).
pub fn reorder_run<A: Allocator + Copy>(
    alloc: A,
    run: &Run<'_>,
    pes: u32,
    tolerance: Tolerance,
) -> Result<Refined<A>, RefineError>
    ensures reordering { IfOk result (IsReordering run.now.loads (sizes_of run.now) pes tolerance) }
    ensures blocks { IfOk result (λ r. IsDivision 0 (length run.now.loads) pes (refined_cuts r)) }
    ensures naming { IfOk result (λ r. IsNaming pes (refined_names r)) }
    ensures peak { IfOk result (λ r. refined_bottleneck r ≡ peak run.now.loads (refined_cuts r)) }
    ensures within { IfOk result (λ r. refined_bottleneck r ≤ limit_of (least_load r) tolerance) }
    ensures no_more { IfOk result (λ r. (other : Refined A) → IsRefined run.now.loads (sizes_of run.now) pes tolerance other
        → refined_moved r ≤ refined_moved other) }
    ensures kept_whole { IfOk result (λ r. (names present : List ℕ) → IsPresentOrder (sizes_of run.now) pes names present
        → AreWithin run.now.loads names (limit_of (least_load r) tolerance) present → refined_moved r ≡ 0) }
    ensures places { IfOk result (λ r. (i : ℕ) → i < length (sizes_of run.now) → HasPlaceBelow pes (refined_cuts r) (refined_names r) i) }
    ensures bounded { IfOk result (ArePricesSmallInOrder (sizes_of run.now)) }
    ensures asked { OnOk result (IsAsked run.now pes) }
    ensures small { OnOk result (AreSmall run.now.loads) }
    ensures fits { OnOk result (FitsSnapshot run.now pes) }
    ensures refused { IfErr result (IsSnapshotRefusal (IsAsked run.now pes) (AreSmall run.now.loads) (FitsSnapshot run.now pes)) }
{
    let snapshot = match snapshot_of(alloc, run, pes) {
        Ok(snapshot) => snapshot,
        Err(refused) => return Err(refused),
    };
    let decided = refine_in_any_order(alloc, &snapshot, Pes::of(pes), tolerance);
    drop(snapshot);
    match decided {
        Ok(decided) => Ok(decided),
        Err(_) => Err(RefineError::Run(RunError::OutOfMemory)),
    }
}

// Whether the lists of all three rooms have the lengths that this number of elements and `pes` PEs need.
fn has_reordered_room(
    room: &Buffers<'_>,
    standing: &StandingBuffers<'_>,
    bounds: &BoundsBuffers<'_>,
    elements: usize,
    pes: u32,
) -> bool
    ensures { IsTrue result ↔ HasReorderedRoom elements pes (lists_in room.now) (standing_lists_in standing.now) (level_lists_in bounds.now) }
{
    has_refined_room(room, standing, elements, pes) && has_level_room(bounds, pes)
}

// The numbers of a decision in the present order, or of the plan.
fn in_order(refined: RefinedNumbers) -> ReorderedNumbers
    ensures refined { result.refined ≡ refined }
    ensures reordered { result.reordered ≡ false }
    ensures levels { result.levels ≡ 0 }
{
    ReorderedNumbers {
        refined,
        reordered: false,
        levels: 0,
    }
}

/// Decides within a tolerance in thousandths where the PEs may change their order, as [`reorder_run`] does, and writes the decision
/// with all that proves it. Where no cuts and names move fewer bytes, these are the cuts, the names and the places, prices of 0, the
/// least cuts and the stops that prove the least load, and the levels of the bounds, if the lists have the capacity for all of
/// them; the order, the present cuts and the steps are left unchanged. Otherwise it writes what
/// [`refine_into`](crate::refine_into) does without `keep_order`, and leaves the lists of the bounds unchanged.
///
/// # Errors
///
/// As [`refine_into`](crate::refine_into). After an error nothing was written.
pub fn reorder_into<A: Allocator + Copy>(
    alloc: A,
    run: &Run<'_>,
    pes: u32,
    thousandths: u32,
    room: &mut Buffers<'_>,
    standing: &mut StandingBuffers<'_>,
    bounds: &mut BoundsBuffers<'_>,
) -> Result<ReorderedNumbers, RefineError>
    ensures same_lists { HasListsOf room.old room.new }
    ensures same_standing { HasStandingListsOf standing.old standing.new }
    ensures same_bounds { HasLevelListsOf bounds.old bounds.new }
    ensures reordered { IfOk result (λ d. (heights : List (List (ℕ × ℕ))) × (rows : BoundRows)
        × IsReorderedRun run.now pes thousandths d.reordered d.refined.near
        (told_in d.refined.least d.refined.moved d.refined.stops (lists_in room.new) (standing_lists_in standing.new))
        (standing_in heights (standing_lists_in standing.new)) rows
        × IsStandingIn d.refined.near heights d.refined.steps (standing_lists_in standing.old) (standing_lists_in standing.new)
        × AreBoundsIn d.reordered rows d.levels (level_lists_in bounds.old) (level_lists_in bounds.new)) }
    ensures placed { IfOk result (λ _. ArePlaces room.new.cuts.now room.new.names.now (length run.now.loads) room.new.new_places.now) }
    ensures peak { IfOk result (λ d. d.refined.bottleneck ≡ peak run.now.loads room.new.cuts.now) }
    ensures within { IfOk result (λ d. d.refined.bottleneck ≤ limit_of d.refined.least thousandths) }
    ensures no_more { IfOk result (λ d. (places : List ℕ) (bottleneck moved : ℕ) → IsPlan run.now pes places bottleneck moved → d.refined.moved ≤ moved) }
    ensures no_more_refined { IfOk result (λ d. (near : Bool) (told : Told) (stood : Standing)
        → IsRefinedRun run.now pes thousandths near told stood → d.refined.moved ≤ told.moved) }
    ensures kept_whole { IfOk result (λ d. (order present : List ℕ) → IsPresentOrder (sizes_of run.now) pes order present
        → AreWithin run.now.loads order (limit_of d.refined.least thousandths) present → d.refined.moved ≡ 0) }
    ensures bounded { IfOk result (λ d. d.reordered ≡ false → ArePricesBounded (sizes_of run.now) room.new.cuts.now room.new.block_prices.now room.new.pe_prices.now) }
    ensures counted { IfOk result (λ d. d.refined.stops ≤ pes + 1) }
    ensures behind { IfOk result (λ d. drop d.refined.stops room.new.stops.now ≡ drop d.refined.stops room.old.stops.now) }
    ensures small_tolerance { OnOk result (thousandths ≤ 1000) }
    ensures asked { OnOk result (IsAsked run.now pes
        × HasReorderedRoom (length run.now.loads) pes (lists_in room.old) (standing_lists_in standing.old) (level_lists_in bounds.old)) }
    ensures small { OnOk result (AreSmall run.now.loads) }
    ensures fits { OnOk result (FitsSnapshot run.now pes) }
    ensures refused { IfErr result (IsRefineRefusal thousandths
        (IsAsked run.now pes × HasReorderedRoom (length run.now.loads) pes (lists_in room.old) (standing_lists_in standing.old) (level_lists_in bounds.old))
        (AreSmall run.now.loads) (FitsSnapshot run.now pes)) }
    ensures kept { OnErr result (lists_in room.new ≡ lists_in room.old) }
    ensures standing_kept { OnErr result (standing_lists_in standing.new ≡ standing_lists_in standing.old) }
    ensures bounds_kept { OnErr result (level_lists_in bounds.new ≡ level_lists_in bounds.old) }
{
    let Some(tolerance) = Tolerance::new(thousandths) else {
        return Err(RefineError::BadTolerance);
    };
    if !has_reordered_room(room, standing, bounds, run.loads.len(), pes) {
        return Err(RefineError::Run(RunError::BadInput));
    }
    let decided = match reorder_run(alloc, run, pes, tolerance) {
        Ok(decided) => decided,
        Err(refused) => return Err(refused),
    };
    let Refined { decision, nearness } = decided;
    match nearness {
        Nearness::Planned => Ok(in_order(write_planned(decision, room, standing))),
        Nearness::InOrder(proof) => {
            let Ok(flat) = flat_steps(alloc, proof.heights.as_slice()) else {
                return Err(RefineError::Run(RunError::OutOfMemory));
            };
            Ok(in_order(write_near(decision, proof, flat, room, standing)))
        }
        Nearness::InAnyOrder(proof) => {
            let Ok(flat) = flat_levels(alloc, proof.any.as_slice(), proof.free.as_slice()) else {
                return Err(RefineError::Run(RunError::OutOfMemory));
            };
            let Ok(decision) = priced(alloc, decision) else {
                return Err(RefineError::Run(RunError::OutOfMemory));
            };
            Ok(write_fewest(decision, proof, flat, room, standing, bounds))
        }
    }
}
