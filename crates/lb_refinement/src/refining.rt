//! Decides within a tolerance, by the cheapest names of the blocks.

ghost use Rattle.std.specs.Prelude.{◌≡◌, ◌≤◌, IfOk};
ghost use Rattle.chain_partition.specs.Chosen.{IsChosen};
ghost use Rattle.lb_certificates.specs.Certificate.{IsCertified};
ghost use Rattle.lb_certificates.specs.Naming.{AreBlocks};
ghost use Rattle.lb_strategy.specs.Decisions.{IsPlanned};
ghost use Rattle.chain_refinement.specs.Orders.{IsPresentOrder};
ghost use Rattle.lb_certificates.specs.declared.division.Floor.TheVariants.{Zero};
ghost use Rattle.lb_refinement.specs.Refined.{HasNames, IsCheaper, IsDecidedWithin, IsKept, as_planned};

use crate::heaviest::greatest_load;
use crate::nearness::{Nearness, OrderProof};
use crate::refined::Refined;
use chain_refinement::{PresentOrder, Refinement, Tolerance, present_order};
use chare_index::{Gate, Limits, Pes};
use lb_certificates::{Cuts, Division, Floor};
use lb_snapshot::{Sizes, Snapshot};
use lb_strategy::{Decision, PlanError, moves_of, name_cuts, plan, plan_with};
use refinement_search::refine_in_order;
use std::alloc::{AllocError, Allocator};
use std::thread::Threads;

/// Decides where each element of this snapshot runs next, on `pes` PEs, so that the greatest load of a PE is within a
/// tolerance above the least possible one.
///
/// Where the elements of each PE are consecutive and these PEs are all below `pes`, the PEs keep their present order, and those
/// without elements follow, in ascending order. Of all cuts within the tolerance it takes those that move the fewest bytes, and
/// of these the nearest to the present ones, chosen from the end of the chain; then the cheapest names for these blocks, as
/// [`plan`] does. Where the decision of [`plan`] moves no more bytes, or the elements of some PE are not consecutive, the
/// result is the decision of [`plan`]. So snapshot, `pes` and tolerance determine all but heights and prices. Where the present
/// places are within the tolerance nothing moves. Prices are in the range of those of [`plan`].
///
/// # Errors
///
/// Memory for a list was refused.
pub fn refine<A: Allocator + Copy, B: Allocator>(
    alloc: A,
    snapshot: &Snapshot<B>,
    pes: Pes,
    tolerance: Tolerance,
) -> Result<Refined<A>, AllocError>
    ensures decided { IfOk result (IsDecidedWithin snapshot.now.loads snapshot.now.sizes pes tolerance) }
{
    let planned = planned(alloc, snapshot, pes)?;
    nearer(alloc, snapshot, pes, tolerance, planned)
}

/// Decides as [`refine`] does. The least division, which is the same, is found by 1 to 64 workers, as
/// [`divide_with`](chain_partition::divide_with) does: in each of its probes a worker calls the gate with its number, and if a
/// thread cannot be started, the others do its work.
///
/// # Errors
///
/// Memory for a list was refused.
pub fn refine_with<R: Threads + Sync, G: Gate + Sync, A: Allocator + Copy, B: Allocator>(
    rt: &R,
    alloc: A,
    snapshot: &Snapshot<B>,
    pes: Pes,
    tolerance: Tolerance,
    workers: u32,
    gate: &G,
) -> Result<Refined<A>, AllocError>
    requires some_worker { 1 ≤ workers }
    requires few_workers { workers ≤ Limits.PROBE_WORKERS }
    ensures decided { IfOk result (IsDecidedWithin snapshot.now.loads snapshot.now.sizes pes tolerance) }
{
    let planned = planned_with(rt, alloc, snapshot, pes, workers, gate)?;
    nearer(alloc, snapshot, pes, tolerance, planned)
}

/// The decision of the plan.
///
/// # Errors
///
/// Memory for a list was refused.
pub(crate) fn planned<A: Allocator + Copy, B: Allocator>(
    alloc: A,
    snapshot: &Snapshot<B>,
    pes: Pes,
) -> Result<Decision<A>, AllocError>
    ensures planned { IfOk result (IsPlanned snapshot.now.loads snapshot.now.sizes pes) }
{
    match plan(alloc, snapshot, pes.get()) {
        Ok(decision) => Ok(decision),
        Err(PlanError::OutOfMemory) => Err(AllocError),
    }
}

// The decision of the plan. Several workers find its division.
fn planned_with<R: Threads + Sync, G: Gate + Sync, A: Allocator + Copy, B: Allocator>(
    rt: &R,
    alloc: A,
    snapshot: &Snapshot<B>,
    pes: Pes,
    workers: u32,
    gate: &G,
) -> Result<Decision<A>, AllocError>
    requires some_worker { 1 ≤ workers }
    requires few_workers { workers ≤ Limits.PROBE_WORKERS }
    ensures planned { IfOk result (IsPlanned snapshot.now.loads snapshot.now.sizes pes) }
{
    match plan_with(rt, alloc, snapshot, pes.get(), workers, gate) {
        Ok(decision) => Ok(decision),
        Err(PlanError::OutOfMemory) => Err(AllocError),
    }
}

// The cuts nearest to the present ones, where there is a present order and they move fewer bytes than the plan.
fn nearer<A: Allocator + Copy, B: Allocator>(
    alloc: A,
    snapshot: &Snapshot<B>,
    pes: Pes,
    tolerance: Tolerance,
    planned: Decision<A>,
) -> Result<Refined<A>, AllocError>
    requires planned { IsPlanned snapshot.now.loads snapshot.now.sizes pes planned }
    ensures decided { IfOk result (IsDecidedWithin snapshot.now.loads snapshot.now.sizes pes tolerance) }
{
    let Some(order) = present_order(alloc, snapshot.sizes(), pes)? else {
        return Ok(as_planned(planned));
    };
    let least = least_of(&planned)?;
    let kept = keep(alloc, snapshot, pes, least, tolerance, order)?;
    Ok(cheaper(planned, kept))
}

// A copy of the plan's division.
fn least_of<A: Allocator + Copy>(planned: &Decision<A>) -> Result<Division<A>, AllocError>
    ensures copied { IfOk result (λ d. d ≡ planned.now.division) }
{
    planned.division.clone()
}

/// A plan as a decision within a tolerance.
pub fn as_planned<A: Allocator>(planned: Decision<A>) -> Refined<A>
    ensures value { result ≡ as_planned planned }
{
    Refined {
        decision: planned,
        nearness: Nearness::Planned,
    }
}

// The one that moves fewer bytes; the plan, where neither does.
fn cheaper<A: Allocator>(planned: Decision<A>, kept: (Decision<A>, OrderProof<A>)) -> Refined<A>
    ensures { IsCheaper planned kept result }
{
    if planned.moved <= kept.0.moved {
        return as_planned(planned);
    }
    let (decision, proof) = kept;
    Refined {
        decision,
        nearness: Nearness::InOrder(proof),
    }
}

// The cuts nearest to the present ones, with their names.
fn keep<A: Allocator + Copy, B: Allocator>(
    alloc: A,
    snapshot: &Snapshot<B>,
    pes: Pes,
    least: Division<A>,
    tolerance: Tolerance,
    order: PresentOrder<A>,
) -> Result<(Decision<A>, OrderProof<A>), AllocError>
    requires chosen { IsChosen snapshot.now.loads pes least }
    requires certified { IsCertified snapshot.now.loads pes least }
    requires order { IsPresentOrder snapshot.now.sizes pes order.names order.present }
    ensures kept { IfOk result (IsKept snapshot.now.loads snapshot.now.sizes pes tolerance) }
{
    let blocks = pes.get();
    let sizes = snapshot.sizes();
    let PresentOrder { names, present } = order;
    let refinement = refine_in_order(alloc, snapshot, least, tolerance, names, present)?;
    let bottleneck = greatest_load(snapshot.loads(), blocks, refinement.cuts.as_slice());
    let (cuts, proof) = split(refinement);
    let decision = with_names(alloc, sizes, cuts, bottleneck)?;
    Ok((decision, proof))
}

/// The cuts of a refinement, and what proves them.
pub(crate) fn split<A: Allocator>(refinement: Refinement<A>) -> (Cuts<A>, OrderProof<A>)
    ensures cuts { result.0 ≡ refinement.cuts }
    ensures least { result.1.least ≡ refinement.least }
    ensures tolerance { result.1.tolerance ≡ refinement.tolerance }
    ensures order { result.1.order ≡ refinement.order }
    ensures present { result.1.present ≡ refinement.present }
    ensures heights { result.1.heights ≡ refinement.heights }
{
    let Refinement {
        least,
        tolerance,
        order,
        present,
        cuts,
        heights,
    } = refinement;
    let proof = OrderProof {
        least,
        tolerance,
        order,
        present,
        heights,
    };
    (cuts, proof)
}

// The decision for these cuts, with the least naming of the blocks between them.
fn with_names<A: Allocator + Copy, B: Allocator>(
    alloc: A,
    sizes: &Sizes<B>,
    cuts: Cuts<A>,
    bottleneck: u64,
) -> Result<Decision<A>, AllocError>
    requires blocks { AreBlocks sizes.now cuts }
    ensures named { IfOk result (HasNames sizes.now) }
    ensures cuts { IfOk result (λ d. d.division.cuts ≡ cuts) }
    ensures bottleneck { IfOk result (λ d. d.division.bottleneck ≡ bottleneck) }
    ensures no_floor { IfOk result (λ d. d.division.floor ≡ Zero) }
{
    let Ok((naming, prices, moved)) = name_cuts(alloc, sizes, &cuts) else {
        return Err(AllocError);
    };
    let moves = moves_of(alloc, sizes.as_slice(), cuts.as_slice(), naming.as_slice())?;
    let division = Division {
        bottleneck,
        cuts,
        floor: Floor::Zero,
    };
    Ok(Decision {
        division,
        naming,
        prices,
        moved,
        moves,
    })
}
