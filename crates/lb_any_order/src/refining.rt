//! Decides within a tolerance, in whichever order of the PEs moves the fewest bytes.

ghost use Rattle.std.specs.Prelude.{◌≡◌, ◌<◌, ◌≤◌, ℕ, [], length, IfOk, IfSome};
ghost use Rattle.lb_certificates.specs.Chain.{peak};
ghost use Rattle.chain_refinement.specs.Tolerances.{limit_of};
ghost use Rattle.any_order.specs.AnyOrder.{IsReordered};
ghost use Rattle.lb_refinement.specs.Refined.{IsRefined, least_load, refined_cuts, refined_least, refined_moved, refined_names};
ghost use Rattle.lb_refinement.specs.declared.refined.Refined.{Refined};
ghost use Rattle.lb_any_order.specs.Reorderings.{ArePricesSmallInOrder, HasFigures, HasPlaceBelow, IsFewest, IsLesser, IsReordering, reordered_of};

use crate::search::reorder;
use any_order::{Reordered, moved_by};
use chain_refinement::{Tolerance, present_order};
use chare_index::Pes;
use lb_certificates::{Cuts, Division, Floor, Naming};
use lb_refinement::laws::one_refined;
use lb_refinement::{AnyOrderProof, Nearness, Refined, greatest_load, refine, unpriced};
use lb_snapshot::Snapshot;
use lb_strategy::{Decision, moves_of};
use std::alloc::{AllocError, Allocator};

/// Decides where each element of this snapshot runs next, on `pes` PEs, so that the greatest load of a PE is within a
/// tolerance above the least possible one.
///
/// Where the elements of each PE are consecutive and these PEs are all below `pes`, it searches all cuts within the tolerance,
/// with all names of their blocks, for some that move the fewest bytes. It returns these only with the proof that none move
/// fewer, which the checker has accepted. Otherwise, and where the search would be too large
/// ([`TABLE`](crate::TABLE)), it returns the decision of [`refine`]. It never moves more bytes than that.
///
/// # Errors
///
/// Memory for a list was refused.
pub fn refine_in_any_order<A: Allocator + Copy, B: Allocator>(
    alloc: A,
    snapshot: &Snapshot<B>,
    pes: Pes,
    tolerance: Tolerance,
) -> Result<Refined<A>, AllocError>
    ensures reordering { IfOk result (IsReordering snapshot.now.loads snapshot.now.sizes pes tolerance) }
    ensures within { IfOk result (λ r. peak snapshot.now.loads (refined_cuts r) ≤ limit_of (least_load r) tolerance) }
    ensures no_more { IfOk result (λ r. (other : Refined A) → IsRefined snapshot.now.loads snapshot.now.sizes pes tolerance other
        → refined_moved r ≤ refined_moved other) }
    ensures places { IfOk result (λ r. (i : ℕ) → i < length snapshot.now.sizes → HasPlaceBelow pes (refined_cuts r) (refined_names r) i) }
    ensures bounded { IfOk result (ArePricesSmallInOrder snapshot.now.sizes) }
{
    let refined = refine(alloc, snapshot, pes, tolerance)?;
    one_refined::<A>();
    let Some(fewest) = fewest_of_all(alloc, snapshot, pes, tolerance, &refined)? else {
        return Ok(refined);
    };
    Ok(lesser(refined, fewest))
}

// Cuts and names that move the fewest bytes, where some are found with their proof.
fn fewest_of_all<A: Allocator + Copy, B: Allocator>(
    alloc: A,
    snapshot: &Snapshot<B>,
    pes: Pes,
    tolerance: Tolerance,
    refined: &Refined<A>,
) -> Result<Option<(Decision<A>, AnyOrderProof<A>)>, AllocError>
    requires refined { IsRefined snapshot.now.loads snapshot.now.sizes pes tolerance refined.now }
    ensures fewest { IfOk result (λ found. IfSome found (IsFewest snapshot.now.loads snapshot.now.sizes pes tolerance)) }
    ensures places { IfOk result (λ found. IfSome found (λ f. (i : ℕ) → i < length snapshot.now.sizes → HasPlaceBelow pes f.0.division.cuts f.0.naming i)) }
{
    let Some(order) = present_order(alloc, snapshot.sizes(), pes)? else {
        return Ok(None);
    };
    let least = least_of(refined)?;
    let Some(reordered) = reorder(alloc, snapshot, pes, least, tolerance, &order)? else {
        return Ok(None);
    };
    Ok(Some(with_moves(alloc, snapshot, pes, reordered)?))
}

// A copy of the division that the limit is measured from.
fn least_of<A: Allocator + Copy>(refined: &Refined<A>) -> Result<Division<A>, AllocError>
    ensures copied { IfOk result (λ d. d ≡ refined_least refined.now) }
{
    refined.least().clone()
}

// Cuts and names as a decision, with the elements that move.
fn with_moves<A: Allocator + Copy, B: Allocator>(
    alloc: A,
    snapshot: &Snapshot<B>,
    pes: Pes,
    reordered: Reordered<A>,
) -> Result<(Decision<A>, AnyOrderProof<A>), AllocError>
    requires right { IsReordered snapshot.now.loads snapshot.now.sizes pes reordered }
    ensures figures { IfOk result (λ f. HasFigures snapshot.now.loads snapshot.now.sizes f.0) }
    ensures reordered { IfOk result (λ f. reordered_of f ≡ reordered) }
    ensures places { IfOk result (λ f. (i : ℕ) → i < length snapshot.now.sizes → HasPlaceBelow pes f.0.division.cuts f.0.naming i) }
{
    let sizes = snapshot.sizes().as_slice();
    let cuts = reordered.cuts.as_slice();
    let names = reordered.names.as_slice();
    let bottleneck = greatest_load(snapshot.loads(), pes.get(), cuts);
    let moved = moved_by(sizes, cuts, names);
    let moves = moves_of(alloc, sizes, cuts, names)?;
    let (cuts, naming, proof) = split(reordered);
    let division = Division {
        bottleneck,
        cuts,
        floor: Floor::Zero,
    };
    let decision = Decision {
        division,
        naming,
        prices: unpriced(alloc),
        moved,
        moves,
    };
    Ok((decision, proof))
}

// The cuts and the names, and what proves them.
fn split<A: Allocator>(reordered: Reordered<A>) -> (Cuts<A>, Naming<A>, AnyOrderProof<A>)
    ensures cuts { result.0 ≡ reordered.cuts }
    ensures names { result.1 ≡ reordered.names }
    ensures least { result.2.least ≡ reordered.least }
    ensures tolerance { result.2.tolerance ≡ reordered.tolerance }
    ensures any { result.2.any ≡ reordered.any }
    ensures free { result.2.free ≡ reordered.free }
{
    let Reordered {
        least,
        tolerance,
        cuts,
        names,
        any,
        free,
    } = reordered;
    let proof = AnyOrderProof {
        least,
        tolerance,
        any,
        free,
    };
    (cuts, names, proof)
}

// The fewest, where they move no more bytes than the other.
fn lesser<A: Allocator>(refined: Refined<A>, fewest: (Decision<A>, AnyOrderProof<A>)) -> Refined<A>
    ensures { IsLesser refined fewest result }
{
    let (decision, proof) = fewest;
    if decision.moved <= refined.moved() {
        return Refined {
            decision,
            nearness: Nearness::InAnyOrder(proof),
        };
    }
    refined
}
