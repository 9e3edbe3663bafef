//! The search for the cuts and names that move the fewest bytes in any order of the PEs.

ghost use Rattle.std.specs.Prelude.{◌≡◌, ◌<◌, ◌^◌, IfOk, IfSome, length};
ghost use Rattle.lb_certificates.specs.Certificate.{IsCertified};
ghost use Rattle.any_order.specs.AnyOrder.{AreFewestOfAll, IsReordered, reordered_limit};

use crate::ahead::{rows_ahead, spans_of};
use crate::chain::{SearchedChain, chain_of};
use crate::levels::bounds_of;
use crate::plan::plan_of;
use crate::row::{NONE, free_at};
use crate::sized::is_small;
use any_order::{ByteBounds, Reordered, check_reordered};
use chain_refinement::{PresentOrder, Tolerance};
use chare_index::Pes;
use lb_certificates::{Cuts, Division, Naming};
use lb_snapshot::{Sizes, Snapshot, Units};
use std::alloc::{AllocError, Allocator};

/// Cuts of this snapshot's elements within a tolerance above the least division, and names of their blocks, that move the
/// fewest bytes of all, where the search finds them with their proof. It does not search where its table would be larger than
/// [`TABLE`](crate::TABLE). The size of the table depends on nothing but the loads, the sizes, the places, `pes` and the
/// tolerance.
///
/// The search is a shortest path through the cuts, layer by layer, with two states for each place: it is exact where the
/// elements of each PE are consecutive. The answer is right because of the check, not because of the search.
///
/// # Errors
///
/// Memory was refused.
pub fn reorder<A: Allocator + Copy, B: Allocator>(
    alloc: A,
    snapshot: &Snapshot<B>,
    pes: Pes,
    least: Division<A>,
    tolerance: Tolerance,
    order: &PresentOrder<A>,
) -> Result<Option<Reordered<A>>, AllocError>
    requires certified { IsCertified snapshot.now.loads pes least }
    ensures right { IfOk result (λ found. IfSome found (IsReordered snapshot.now.loads snapshot.now.sizes pes)) }
    ensures fewest { IfOk result (λ found. IfSome found (λ r. AreFewestOfAll snapshot.now.loads snapshot.now.sizes pes (reordered_limit r) r.cuts r.names)) }
    ensures least { IfOk result (λ found. IfSome found (λ r. r.least ≡ least)) }
    ensures tolerance { IfOk result (λ found. IfSome found (λ r. r.tolerance ≡ tolerance)) }
{
    let loads = snapshot.loads().as_slice();
    let limit = tolerance.limit(least.bottleneck);
    let Some(found) = search(alloc, loads, snapshot.sizes(), pes.get(), limit, order)? else {
        return Ok(None);
    };
    let reordered = Reordered {
        least,
        tolerance,
        cuts: found.cuts,
        names: found.names,
        any: found.any,
        free: found.free,
    };
    Ok(accepted(snapshot, pes, reordered))
}

// Returns what was found if the checker accepts it.
fn accepted<A: Allocator, B: Allocator>(
    snapshot: &Snapshot<B>,
    pes: Pes,
    reordered: Reordered<A>,
) -> Option<Reordered<A>>
    ensures right { IfSome result (IsReordered snapshot.now.loads snapshot.now.sizes pes) }
    ensures fewest { IfSome result (λ r. AreFewestOfAll snapshot.now.loads snapshot.now.sizes pes (reordered_limit r) r.cuts r.names) }
    ensures same { IfSome result (λ r. r ≡ reordered) }
{
    match check_reordered(snapshot, pes.get(), &reordered) {
        Ok(()) => Some(reordered),
        Err(_) => None,
    }
}

// What a search finds.
#[derive(Drop)]
struct Found<A: Allocator> {
    cuts: Cuts<A>,
    names: Naming<A>,
    any: ByteBounds<A>,
    free: ByteBounds<A>,
}

// A plan within this limit, with bounds.
fn search<A: Allocator + Copy, B: Allocator>(
    alloc: A,
    loads: &[Units],
    sizes: &Sizes<B>,
    pes: u32,
    limit: u64,
    order: &PresentOrder<A>,
) -> Result<Option<Found<A>>, AllocError>
    requires few { length loads.now < 2 ^ 32 }
{
    let sizes = sizes.as_slice();
    let chain = chain_of(alloc, loads, sizes, order.present.as_slice(), limit)?;
    let spans = spans_of(alloc, &chain, pes)?;
    if !is_small(&chain, &spans) {
        return Ok(None);
    }
    Ok(Some(with_bounds(alloc, &chain, &spans, order.names.as_slice(), pes)?))
}

// The plan and the bounds, where each number of blocks ends between these places.
fn with_bounds<A: Allocator + Copy>(
    alloc: A,
    chain: &SearchedChain<'_, A>,
    spans: &[(u32, u32)],
    order: &[u32],
    pes: u32,
) -> Result<Found<A>, AllocError> {
    let ahead = rows_ahead(alloc, chain, spans)?;
    let whole = match ahead.last() {
        Some(row) => free_at(row, 0),
        None => NONE,
    };
    let (cuts, names) = plan_of(alloc, chain, spans, &ahead, order, pes)?;
    let (any, free) = bounds_of(alloc, chain, spans, &ahead, whole)?;
    Ok(Found {
        cuts,
        names,
        any,
        free,
    })
}
