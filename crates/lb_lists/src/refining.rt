//! Decisions within a tolerance.

ghost use Rattle.std.specs.Prelude.{◌≡◌, ◌≤◌, ◌<◌, ◌+◌, ◌↔◌, false, true, ℕ, IsTrue, List, length, take, drop, IfOk, IfErr, OnOk, OnErr};
ghost use Rattle.lb_certificates.specs.Chain.{peak};
ghost use Rattle.lb_strategy.specs.Decisions.{ArePricesBounded};
ghost use Rattle.chain_refinement.specs.Orders.{IsPresentOrder};
ghost use Rattle.chain_refinement.specs.Refinement.{AreWithin};
ghost use Rattle.chain_refinement.specs.Tolerances.{limit_of};
ghost use Rattle.lb_refinement.specs.Refined.{IsDecidedWithin};
ghost use Rattle.lb_lists.specs.Plans.{IsPlan};
ghost use Rattle.lb_lists.specs.Places.{ArePlaces};
ghost use Rattle.lb_lists.specs.RefinedRooms.{standing_in, standing_lists_in, told_in, HasRefinedRoom, HasStandingListsOf, HasStandingRoom, IsStandingIn};
ghost use Rattle.lb_lists.specs.Rooms.{lists_in, HasListsOf};
ghost use Rattle.lb_lists.specs.Refinings.{IsDecidedRun};
ghost use Rattle.lb_lists.specs.Runs.{sizes_of, AreSmall, FitsSnapshot, IsAsked, IsRefineRefusal, IsSnapshotRefusal};

use crate::deciding::{Buffers, has_room};
use crate::error::{RefineError, RunError};
use crate::in_order::in_order_into;
use crate::refined_writing::{write_near, write_planned};
use crate::run::Run;
use crate::snapshot::snapshot_of;
use crate::steps::flat_steps;
use chain_refinement::Tolerance;
use chare_index::Pes;
use lb_refinement::{Nearness, Refined, refine};
use std::alloc::Allocator;

/// Buffers of the caller for the order of the PEs and the present cuts, and for the heights that prove that no cuts within a
/// tolerance move fewer bytes, for `pes` PEs.
#[derive(Drop)]
pub struct StandingBuffers<'a> {
    /// `pes + 1`: where the blocks of the least division begin and end.
    pub least_cuts: &'a mut [u32],
    /// `pes`: the PEs, in the present order of their elements.
    pub order: &'a mut [u32],
    /// `pes + 1`: where the elements of each of these begin and end today.
    pub present: &'a mut [u32],
    /// `pes + 1`: for each block the number of its first step, and behind them the number of all steps.
    pub step_starts: &'a mut [usize],
    /// Capacity for the place of each step.
    pub step_places: &'a mut [u32],
    /// Capacity for the bytes by which the height rises at each step, as many as there are places.
    pub step_rises: &'a mut [u64],
}

/// The numbers of a decision within a tolerance that was written.
#[derive(Clone, Copy, Debug, PartialEq, Eq)]
pub struct RefinedNumbers {
    /// The least possible load of the heaviest block, in work units.
    pub least: u64,
    /// The load of the heaviest block of this decision, in work units.
    pub bottleneck: u64,
    /// The packed bytes of all elements that move.
    pub moved: u64,
    /// The number of stops: `pes + 1`, or 0 where the least possible load is 0.
    pub stops: usize,
    /// Whether the cuts are near the present ones; otherwise the decision is that of the plan.
    pub near: bool,
    /// The number of steps of the heights; 0 for the plan.
    pub steps: usize,
}

/// Decides on which of `pes` PEs each element of a run continues, within a tolerance, as [`refine`] does. Its search keeps
/// tables of elements by PEs, so the run has to be within the limits of a snapshot.
///
/// # Errors
///
/// As [`plan_run`](crate::plan_run), and before memory is asked for [`TooLarge`](RefineError::TooLarge) where the run is past
/// these limits. [`BadTolerance`](RefineError::BadTolerance) is never returned.
pub fn refine_run<A: Allocator + Copy>(
    alloc: A,
    run: &Run<'_>,
    pes: u32,
    tolerance: Tolerance,
) -> Result<Refined<A>, RefineError>
    ensures decided { IfOk result (IsDecidedWithin run.now.loads (sizes_of run.now) pes tolerance) }
    ensures asked { OnOk result (IsAsked run.now pes) }
    ensures small { OnOk result (AreSmall run.now.loads) }
    ensures fits { OnOk result (FitsSnapshot run.now pes) }
    ensures refused { IfErr result (IsSnapshotRefusal (IsAsked run.now pes) (AreSmall run.now.loads) (FitsSnapshot run.now pes)) }
{
    let snapshot = match snapshot_of(alloc, run, pes) {
        Ok(snapshot) => snapshot,
        Err(refused) => return Err(refused),
    };
    let refined = refine(alloc, &snapshot, Pes::of(pes), tolerance);
    drop(snapshot);
    match refined {
        Ok(refined) => Ok(refined),
        Err(_) => Err(RefineError::Run(RunError::OutOfMemory)),
    }
}

// Whether the lists for the order, the present cuts and the heights have the lengths that `pes` PEs need.
fn has_standing_room(room: &StandingBuffers<'_>, pes: u32) -> bool
    ensures { IsTrue result ↔ HasStandingRoom pes (standing_lists_in room.now) }
{
    let blocks = u64::from(pes);
    room.least_cuts.len() as u64 == blocks + 1
        && room.order.len() as u64 == blocks
        && room.present.len() as u64 == blocks + 1
        && room.step_starts.len() as u64 == blocks + 1
        && room.step_rises.len() == room.step_places.len()
}

/// Whether they do, and those of the decision have the lengths that this number of elements needs.
pub(crate) fn has_refined_room(
    room: &Buffers<'_>,
    standing: &StandingBuffers<'_>,
    elements: usize,
    pes: u32,
) -> bool
    ensures { IsTrue result ↔ HasRefinedRoom elements pes (lists_in room.now) (standing_lists_in standing.now) }
{
    has_room(room, elements, pes) && has_standing_room(standing, pes)
}

/// Decides within a tolerance in thousandths, and writes the decision with all that proves it: what
/// [`decide_into`](crate::decide_into) writes of a decision, and the least cuts; and where the cuts are near the present ones,
/// the order of the PEs, the present cuts and the heights. The steps of the heights are written only where the lists have the
/// capacity for all of them. Where the decision is that of the plan, the order, the present cuts and the steps are left
/// unchanged. The stops are those of the least division.
///
/// With `keep_order` the PEs keep their order, as [`refine_run_in_order`](crate::refine_run_in_order) decides. Where they have
/// one, the names are that order, and the prices are written as 0.
///
/// # Errors
///
/// [`BadTolerance`](RefineError::BadTolerance) where it is above [`Tolerance::MOST`]; then as [`refine_run`], and
/// [`BadInput`](RunError::BadInput) where a list does not have the length that it needs. After an error nothing was written.
pub fn refine_into<A: Allocator + Copy>(
    alloc: A,
    run: &Run<'_>,
    pes: u32,
    thousandths: u32,
    keep_order: bool,
    room: &mut Buffers<'_>,
    standing: &mut StandingBuffers<'_>,
) -> Result<RefinedNumbers, RefineError>
    ensures same_lists { HasListsOf room.old room.new }
    ensures same_standing { HasStandingListsOf standing.old standing.new }
    ensures refined { IfOk result (λ d. (heights : List (List (ℕ × ℕ)))
        × IsDecidedRun run.now pes thousandths keep_order d.near (told_in d.least d.moved d.stops (lists_in room.new) (standing_lists_in standing.new))
        (standing_in heights (standing_lists_in standing.new))
        × IsStandingIn d.near heights d.steps (standing_lists_in standing.old) (standing_lists_in standing.new)) }
    ensures placed { IfOk result (λ _. ArePlaces room.new.cuts.now room.new.names.now (length run.now.loads) room.new.new_places.now) }
    ensures peak { IfOk result (λ d. d.bottleneck ≡ peak run.now.loads room.new.cuts.now) }
    ensures within { IfOk result (λ d. d.bottleneck ≤ limit_of d.least thousandths) }
    ensures no_more { IfOk result (λ d. keep_order ≡ false → (places : List ℕ) (bottleneck moved : ℕ)
        → IsPlan run.now pes places bottleneck moved → d.moved ≤ moved) }
    ensures kept_whole { IfOk result (λ d. (order present : List ℕ) → IsPresentOrder (sizes_of run.now) pes order present
        → AreWithin run.now.loads order (limit_of d.least thousandths) present → d.moved ≡ 0) }
    ensures bounded { IfOk result (λ _. keep_order ≡ false
        → ArePricesBounded (sizes_of run.now) room.new.cuts.now room.new.block_prices.now room.new.pe_prices.now) }
    ensures counted { IfOk result (λ d. d.stops ≤ pes + 1) }
    ensures behind { IfOk result (λ d. drop d.stops room.new.stops.now ≡ drop d.stops room.old.stops.now) }
    ensures small_tolerance { OnOk result (thousandths ≤ 1000) }
    ensures asked { OnOk result (IsAsked run.now pes × HasRefinedRoom (length run.now.loads) pes (lists_in room.old) (standing_lists_in standing.old)) }
    ensures small { OnOk result (AreSmall run.now.loads) }
    ensures fits { OnOk result (FitsSnapshot run.now pes) }
    ensures refused { IfErr result (IsRefineRefusal thousandths
        (IsAsked run.now pes × HasRefinedRoom (length run.now.loads) pes (lists_in room.old) (standing_lists_in standing.old))
        (AreSmall run.now.loads) (FitsSnapshot run.now pes)) }
    ensures kept { OnErr result (lists_in room.new ≡ lists_in room.old) }
    ensures standing_kept { OnErr result (standing_lists_in standing.new ≡ standing_lists_in standing.old) }
{
    let Some(tolerance) = Tolerance::new(thousandths) else {
        return Err(RefineError::BadTolerance);
    };
    if !has_refined_room(room, standing, run.loads.len(), pes) {
        return Err(RefineError::Run(RunError::BadInput));
    }
    if keep_order {
        return in_order_into(alloc, run, pes, tolerance, room, standing);
    }
    let refined = match refine_run(alloc, run, pes, tolerance) {
        Ok(refined) => refined,
        Err(refused) => return Err(refused),
    };
    let Refined { decision, nearness } = refined;
    match nearness {
        Nearness::Planned => Ok(write_planned(decision, room, standing)),
        Nearness::InOrder(proof) => {
            let Ok(flat) = flat_steps(alloc, proof.heights.as_slice()) else {
                return Err(RefineError::Run(RunError::OutOfMemory));
            };
            Ok(write_near(decision, proof, flat, room, standing))
        }
        Nearness::InAnyOrder(_) => unreachable!(),
    }
}
