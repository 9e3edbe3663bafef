//! Decides within a tolerance, and keeps the order of the PEs.

ghost use Rattle.std.specs.Prelude.{◌≡◌, ◌<◌, ◌≤◌, ℕ, List, [], length, IfOk};
ghost use Rattle.chain_partition.specs.Chosen.{IsChosen};
ghost use Rattle.lb_certificates.specs.Certificate.{IsCertified};
ghost use Rattle.lb_certificates.specs.Chain.{IsDivision, peak};
ghost use Rattle.lb_certificates.specs.Naming.{blocks_between, bytes_moved, AreBlocks, IsNaming};
ghost use Rattle.lb_strategy.specs.Moves.{moves_below, HasPlace};
ghost use Rattle.chain_refinement.specs.Orders.{IsPresentOrder};
ghost use Rattle.chain_refinement.specs.Refinement.{AreNearest, AreWithin};
ghost use Rattle.chain_refinement.specs.Tolerances.{limit_of};
ghost use Rattle.lb_certificates.specs.declared.division.Floor.TheVariants.{Zero};
ghost use Rattle.lb_refinement.specs.InOrder.{IsKeptInOrder, IsRefinedInOrder, HasSmallPrices};
ghost use Rattle.lb_refinement.specs.Refined.{least_load, refined_bottleneck, refined_cuts, refined_moved, refined_names};

use crate::heaviest::greatest_load;
use crate::moved::moved_by;
use crate::nearness::{Nearness, OrderProof};
use crate::refined::Refined;
use crate::refining::{as_planned, planned, split};
use chain_partition::divide;
use chain_refinement::{PresentOrder, Tolerance, present_order};
use chare_index::Pes;
use lb_certificates::{Cuts, Division, Floor, Naming, PriceList, Prices};
use lb_snapshot::{Sizes, Snapshot};
use lb_strategy::{Decision, moves_of};
use refinement_search::refine_in_order;
use std::alloc::{AllocError, Allocator};

/// Decides as [`refine`](crate::refine) does, and the PEs keep their order.
///
/// Where the elements of each PE are consecutive and these PEs are all below `pes`, block `b` runs on the PE that is at place `b`
/// of the present order: the PEs with elements in the order of these, and behind them those without, in ascending order. Of all
/// cuts within the tolerance it takes those that move the fewest bytes in this order, and of these the nearest to the present
/// ones, chosen from the end of the chain. It neither looks for other names of the blocks nor takes the plan instead, either of
/// which may move fewer bytes. Where the elements of some PE are not consecutive, there is no order to keep, and the result is
/// the decision of [`plan`](lb_strategy::plan). So snapshot, `pes` and tolerance determine all but heights and prices. Where the
/// elements of each PE are consecutive and the present places are within the tolerance, nothing moves.
///
/// # Errors
///
/// Memory for a list was refused.
pub fn refine_keeping_order<A: Allocator + Copy, B: Allocator>(
    alloc: A,
    snapshot: &Snapshot<B>,
    pes: Pes,
    tolerance: Tolerance,
) -> Result<Refined<A>, AllocError>
    ensures refined { IfOk result (IsRefinedInOrder snapshot.now.loads snapshot.now.sizes pes tolerance) }
    ensures keeps_order { IfOk result (λ r. (names present : List ℕ) → IsPresentOrder snapshot.now.sizes pes names present → refined_names r ≡ names) }
    ensures nearest { IfOk result (λ r. (names present : List ℕ) → IsPresentOrder snapshot.now.sizes pes names present
        → AreNearest snapshot.now.loads snapshot.now.sizes names present (limit_of (least_load r) tolerance) (refined_cuts r)) }
    ensures blocks { IfOk result (λ r. IsDivision 0 (length snapshot.now.loads) pes (refined_cuts r)) }
    ensures naming { IfOk result (λ r. IsNaming pes (refined_names r)) }
    ensures peak { IfOk result (λ r. refined_bottleneck r ≡ peak snapshot.now.loads (refined_cuts r)) }
    ensures within { IfOk result (λ r. refined_bottleneck r ≤ limit_of (least_load r) tolerance) }
    ensures moved { IfOk result (λ r. refined_moved r ≡ bytes_moved snapshot.now.sizes (refined_cuts r) (refined_names r)) }
    ensures kept_whole { IfOk result (λ r. (names present : List ℕ) → IsPresentOrder snapshot.now.sizes pes names present
        → AreWithin snapshot.now.loads names (limit_of (least_load r) tolerance) present → refined_moved r ≡ 0) }
    ensures places { IfOk result (λ r. (i : ℕ) → i < length snapshot.now.sizes → HasPlace (refined_cuts r) (refined_names r) i) }
    ensures bounded { IfOk result (HasSmallPrices snapshot.now.sizes) }
{
    let Some(order) = present_order(alloc, snapshot.sizes(), pes)? else {
        return Ok(as_planned(planned(alloc, snapshot, pes)?));
    };
    let blocks = pes.get();
    let least = divide(alloc, snapshot.loads(), blocks)?;
    let (decision, proof) = keep_in_order(alloc, snapshot, pes, least, tolerance, order)?;
    Ok(Refined {
        decision,
        nearness: Nearness::InOrder(proof),
    })
}

// The cuts nearest to the present ones, in this order.
fn keep_in_order<A: Allocator + Copy, B: Allocator>(
    alloc: A,
    snapshot: &Snapshot<B>,
    pes: Pes,
    least: Division<A>,
    tolerance: Tolerance,
    order: PresentOrder<A>,
) -> Result<(Decision<A>, OrderProof<A>), AllocError>
    requires chosen { IsChosen snapshot.now.loads pes least }
    requires certified { IsCertified snapshot.now.loads pes least }
    requires order { IsPresentOrder snapshot.now.sizes pes order.names order.present }
    ensures kept { IfOk result (IsKeptInOrder snapshot.now.loads snapshot.now.sizes pes tolerance) }
{
    let blocks = pes.get();
    let PresentOrder { names, present } = order;
    let refinement = refine_in_order(alloc, snapshot, least, tolerance, names, present)?;
    let bottleneck = greatest_load(snapshot.loads(), blocks, refinement.cuts.as_slice());
    let (cuts, proof) = split(refinement);
    let names = copy_of(&proof)?;
    let decision = with_order(alloc, snapshot.sizes(), cuts, names, bottleneck)?;
    Ok((decision, proof))
}

// A copy of the order that is kept.
fn copy_of<A: Allocator + Copy>(proof: &OrderProof<A>) -> Result<Naming<A>, AllocError>
    ensures copied { IfOk result (λ names. names ≡ proof.now.order) }
{
    proof.order.clone()
}

// The decision for these cuts, where the blocks between them run on the PEs in this order.
fn with_order<A: Allocator + Copy, B: Allocator>(
    alloc: A,
    sizes: &Sizes<B>,
    cuts: Cuts<A>,
    naming: Naming<A>,
    bottleneck: u64,
) -> Result<Decision<A>, AllocError>
    requires blocks { AreBlocks sizes.now cuts }
    requires naming { IsNaming (blocks_between cuts) naming }
    ensures cuts { IfOk result (λ d. d.division.cuts ≡ cuts) }
    ensures bottleneck { IfOk result (λ d. d.division.bottleneck ≡ bottleneck) }
    ensures no_floor { IfOk result (λ d. d.division.floor ≡ Zero) }
    ensures naming { IfOk result (λ d. d.naming ≡ naming) }
    ensures no_u { IfOk result (λ d. d.prices.u ≡ []) }
    ensures no_v { IfOk result (λ d. d.prices.v ≡ []) }
    ensures moved { IfOk result (λ d. d.moved ≡ bytes_moved sizes.now cuts naming) }
    ensures moves { IfOk result (λ d. d.moves ≡ moves_below sizes.now cuts naming (length sizes.now)) }
{
    let sizes = sizes.as_slice();
    let moved = moved_by(sizes, cuts.as_slice(), naming.as_slice());
    let moves = moves_of(alloc, sizes, cuts.as_slice(), naming.as_slice())?;
    let division = Division {
        bottleneck,
        cuts,
        floor: Floor::Zero,
    };
    Ok(Decision {
        division,
        naming,
        prices: unpriced(alloc),
        moved,
        moves,
    })
}

/// No prices, of names that no prices prove.
pub fn unpriced<A: Allocator + Copy>(alloc: A) -> Prices<A>
    ensures no_u { result.u ≡ [] }
    ensures no_v { result.v ≡ [] }
{
    Prices {
        u: PriceList::new(Vec::new(alloc)),
        v: PriceList::new(Vec::new(alloc)),
    }
}
