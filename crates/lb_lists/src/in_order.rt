//! Decisions within a tolerance by which the PEs keep their order.

ghost use Rattle.std.specs.Prelude.{◌≡◌, ◌≤◌, ◌<◌, ◌+◌, false, true, ℕ, List, length, take, drop, IfOk, IfErr, OnOk, OnErr};
ghost use Rattle.lb_certificates.specs.Chain.{peak, IsDivision};
ghost use Rattle.lb_certificates.specs.Naming.{bytes_moved, IsNaming};
ghost use Rattle.chain_refinement.specs.Orders.{IsPresentOrder};
ghost use Rattle.chain_refinement.specs.Refinement.{AreNearest, AreWithin};
ghost use Rattle.chain_refinement.specs.Tolerances.{limit_of};
ghost use Rattle.lb_strategy.specs.Moves.{HasPlace};
ghost use Rattle.lb_refinement.specs.Refined.{least_load, refined_bottleneck, refined_cuts, refined_moved, refined_names};
ghost use Rattle.lb_refinement.specs.InOrder.{HasSmallPrices, IsRefinedInOrder};
ghost use Rattle.lb_lists.specs.Places.{ArePlaces};
ghost use Rattle.lb_lists.specs.RefinedRooms.{standing_in, standing_lists_in, told_in, HasRefinedRoom, HasStandingListsOf, IsStandingIn};
ghost use Rattle.lb_lists.specs.Rooms.{lists_in, HasListsOf};
ghost use Rattle.lb_lists.specs.Refinings.{IsInOrderRun};
ghost use Rattle.lb_lists.specs.Runs.{sizes_of, AreSmall, FitsSnapshot, IsAsked, IsSnapshotRefusal};

use crate::deciding::Buffers;
use crate::error::{RefineError, RunError};
use crate::refined_writing::{priced, write_near, write_planned};
use crate::refining::{RefinedNumbers, StandingBuffers};
use crate::run::Run;
use crate::snapshot::snapshot_of;
use crate::steps::flat_steps;
use chain_refinement::Tolerance;
use chare_index::Pes;
use lb_refinement::{Nearness, Refined, refine_keeping_order};
use std::alloc::Allocator;

/// Decides as [`refine_run`](crate::refine_run) does, so that the PEs keep their order, as [`refine_keeping_order`] does.
///
/// # Errors
///
/// As [`refine_run`](crate::refine_run).
pub fn refine_run_in_order<A: Allocator + Copy>(
    alloc: A,
    run: &Run<'_>,
    pes: u32,
    tolerance: Tolerance,
) -> Result<Refined<A>, RefineError>
    ensures refined { IfOk result (IsRefinedInOrder run.now.loads (sizes_of run.now) pes tolerance) }
    ensures keeps_order { IfOk result (λ r. (names present : List ℕ) → IsPresentOrder (sizes_of run.now) pes names present → refined_names r ≡ names) }
    ensures nearest { IfOk result (λ r. (names present : List ℕ) → IsPresentOrder (sizes_of run.now) pes names present
        → AreNearest run.now.loads (sizes_of run.now) names present (limit_of (least_load r) tolerance) (refined_cuts r)) }
    ensures blocks { IfOk result (λ r. IsDivision 0 (length run.now.loads) pes (refined_cuts r)) }
    ensures naming { IfOk result (λ r. IsNaming pes (refined_names r)) }
    ensures peak { IfOk result (λ r. refined_bottleneck r ≡ peak run.now.loads (refined_cuts r)) }
    ensures within { IfOk result (λ r. refined_bottleneck r ≤ limit_of (least_load r) tolerance) }
    ensures moved { IfOk result (λ r. refined_moved r ≡ bytes_moved (sizes_of run.now) (refined_cuts r) (refined_names r)) }
    ensures kept_whole { IfOk result (λ r. (names present : List ℕ) → IsPresentOrder (sizes_of run.now) pes names present
        → AreWithin run.now.loads names (limit_of (least_load r) tolerance) present → refined_moved r ≡ 0) }
    ensures places { IfOk result (λ r. (i : ℕ) → i < length (sizes_of run.now) → HasPlace (refined_cuts r) (refined_names r) i) }
    ensures bounded { IfOk result (HasSmallPrices (sizes_of run.now)) }
    ensures asked { OnOk result (IsAsked run.now pes) }
    ensures small { OnOk result (AreSmall run.now.loads) }
    ensures fits { OnOk result (FitsSnapshot run.now pes) }
    ensures refused { IfErr result (IsSnapshotRefusal (IsAsked run.now pes) (AreSmall run.now.loads) (FitsSnapshot run.now pes)) }
{
    let snapshot = match snapshot_of(alloc, run, pes) {
        Ok(snapshot) => snapshot,
        Err(refused) => return Err(refused),
    };
    let refined = refine_keeping_order(alloc, &snapshot, Pes::of(pes), tolerance);
    drop(snapshot);
    match refined {
        Ok(refined) => Ok(refined),
        Err(_) => Err(RefineError::Run(RunError::OutOfMemory)),
    }
}

/// Decides so within a tolerance, and writes the decision with all that proves it, as
/// [`refine_into`](crate::refine_into) does.
///
/// # Errors
///
/// As [`refine_run_in_order`]. After an error nothing was written.
pub(crate) fn in_order_into<A: Allocator + Copy>(
    alloc: A,
    run: &Run<'_>,
    pes: u32,
    tolerance: Tolerance,
    room: &mut Buffers<'_>,
    standing: &mut StandingBuffers<'_>,
) -> Result<RefinedNumbers, RefineError>
    requires room { HasRefinedRoom (length run.now.loads) pes (lists_in room.old) (standing_lists_in standing.old) }
    ensures same_lists { HasListsOf room.old room.new }
    ensures same_standing { HasStandingListsOf standing.old standing.new }
    ensures refined { IfOk result (λ d. (heights : List (List (ℕ × ℕ)))
        × IsInOrderRun run.now pes tolerance d.near (told_in d.least d.moved d.stops (lists_in room.new) (standing_lists_in standing.new))
        (standing_in heights (standing_lists_in standing.new))
        × IsStandingIn d.near heights d.steps (standing_lists_in standing.old) (standing_lists_in standing.new)) }
    ensures placed { IfOk result (λ _. ArePlaces room.new.cuts.now room.new.names.now (length run.now.loads) room.new.new_places.now) }
    ensures peak { IfOk result (λ d. d.bottleneck ≡ peak run.now.loads room.new.cuts.now) }
    ensures within { IfOk result (λ d. d.bottleneck ≤ limit_of d.least tolerance) }
    ensures kept_whole { IfOk result (λ d. (order present : List ℕ) → IsPresentOrder (sizes_of run.now) pes order present
        → AreWithin run.now.loads order (limit_of d.least tolerance) present → d.moved ≡ 0) }
    ensures counted { IfOk result (λ d. d.stops ≤ pes + 1) }
    ensures behind { IfOk result (λ d. drop d.stops room.new.stops.now ≡ drop d.stops room.old.stops.now) }
    ensures asked { OnOk result (IsAsked run.now pes) }
    ensures small { OnOk result (AreSmall run.now.loads) }
    ensures fits { OnOk result (FitsSnapshot run.now pes) }
    ensures refused { IfErr result (IsSnapshotRefusal (IsAsked run.now pes) (AreSmall run.now.loads) (FitsSnapshot run.now pes)) }
    ensures kept { OnErr result (lists_in room.new ≡ lists_in room.old) }
    ensures standing_kept { OnErr result (standing_lists_in standing.new ≡ standing_lists_in standing.old) }
{
    let refined = match refine_run_in_order(alloc, run, pes, tolerance) {
        Ok(refined) => refined,
        Err(refused) => return Err(refused),
    };
    let Refined { decision, nearness } = refined;
    match nearness {
        Nearness::Planned => Ok(write_planned(decision, room, standing)),
        Nearness::InOrder(proof) => {
            let Ok(flat) = flat_steps(alloc, proof.heights.as_slice()) else {
                return Err(RefineError::Run(RunError::OutOfMemory));
            };
            let Ok(decision) = priced(alloc, decision) else {
                return Err(RefineError::Run(RunError::OutOfMemory));
            };
            Ok(write_near(decision, proof, flat, room, standing))
        }
        Nearness::InAnyOrder(_) => unreachable!(),
    }
}
