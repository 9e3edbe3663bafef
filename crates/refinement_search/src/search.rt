//! The search for cuts that move the fewest bytes.

ghost use Rattle.std.specs.Prelude.{◌≡◌, ℕ, ◌+◌, ◌<◌, ◌≤◌, List, IfOk, length, slice_index};
ghost use Rattle.chare_index.specs.declared.limits.TheConstants.Limits.{PES};
ghost use Rattle.lb_certificates.specs.Certificate.{IsCertified};
ghost use Rattle.lb_certificates.specs.Naming.{IsNaming};
ghost use Rattle.lb_snapshot.specs.Measured.{IsLoads, IsSizes};
ghost use Rattle.chain_refinement.specs.Orders.{StandInOrder};
ghost use Rattle.chain_refinement.specs.Refinement.{AreFewest, AreNearest, AreProved, AreWithin, IsRefinement, refined_limit};
ghost use Rattle.chain_refinement.specs.Tolerances.{limit_of};
ghost use Rattle.refinement_search.specs.Chains.{IsSpanned};
ghost use Rattle.refinement_search.specs.Windows.{AreStarts};

use crate::read::read_cuts;
use crate::rows::{RowInputs, heights_of};
use crate::spans::{first_places, last_places};
use crate::starts::least_starts;
use chain_refinement::{Heights, Refinement, Tolerance};
use chare_index::Pe;
use lb_certificates::{Cuts, Division, Naming};
use lb_snapshot::{Snapshot, Units};
use std::alloc::{AllocError, Allocator};

/// Cuts of this snapshot's elements within a tolerance above the least division that move the fewest bytes, where the PEs keep
/// their present order, and of several such cuts those nearest to the present ones, chosen from the end of the chain.
///
/// The cuts are a shortest path, layer by layer: of all cuts up to the beginning of a block only the cheapest is kept, and only
/// where it is between two bounds that some best cuts keep to. Source: R. K. Ahuja, T. L. Magnanti and J. B. Orlin, "Network
/// Flows", 1993, chapter 4.
///
/// # Errors
///
/// Memory was refused.
pub fn refine_in_order<A: Allocator + Copy, B: Allocator>(
    alloc: A,
    snapshot: &Snapshot<B>,
    least: Division<A>,
    tolerance: Tolerance,
    order: Naming<A>,
    present: Cuts<A>,
) -> Result<Refinement<A>, AllocError>
    requires some_block { 0 < length order }
    requires few_blocks { length order ≤ PES }
    requires naming { IsNaming (length order) order }
    requires in_order { StandInOrder snapshot.now.sizes order present }
    requires certified { IsCertified snapshot.now.loads (length order) least }
    ensures refinement { IfOk result (IsRefinement snapshot.now.loads snapshot.now.sizes (length order)) }
    ensures nearest { IfOk result (λ r. AreNearest snapshot.now.loads snapshot.now.sizes order present (limit_of least.bottleneck tolerance) r.cuts) }
    ensures least { IfOk result (λ r. r.least ≡ least) }
    ensures tolerance { IfOk result (λ r. r.tolerance ≡ tolerance) }
    ensures order { IfOk result (λ r. r.order ≡ order) }
    ensures present { IfOk result (λ r. r.present ≡ present) }
{
    let loads = snapshot.loads().as_slice();
    let sizes = snapshot.sizes().as_slice();
    let limit = tolerance.limit(least.bottleneck);
    let (cuts, heights) = search(
        alloc,
        loads,
        sizes,
        order.as_slice(),
        present.as_slice(),
        limit,
    )?;
    Ok(Refinement {
        least,
        tolerance,
        order,
        present,
        cuts,
        heights,
    })
}

// The cuts and the heights of lists.
fn search<A: Allocator + Copy>(
    alloc: A,
    loads: &[Units],
    sizes: &[(u32, Pe)],
    names: &[u32],
    present: &[u32],
    limit: u64,
) -> Result<(Cuts<A>, Heights<A>), AllocError>
    requires loads { IsLoads loads.now }
    requires sizes { IsSizes sizes.now }
    requires paired { length loads.now ≡ length sizes.now }
    requires some_block { 0 < length names.now }
    requires few_blocks { length names.now ≤ PES }
    requires naming { IsNaming (length names.now) names.now }
    requires in_order { StandInOrder sizes.now names.now present.now }
    requires some_within { (cuts : List ℕ) × AreWithin loads.now names.now limit cuts }
    ensures proved { IfOk result (λ found. AreProved loads.now sizes.now names.now limit found.0 found.1) }
    ensures nearest { IfOk result (λ found. AreNearest loads.now sizes.now names.now present.now limit found.0) }
{
    let starts = least_starts(alloc, loads, limit)?;
    let near = first_places(alloc, &starts, present, names.len())?;
    let far = last_places(alloc, &starts, present, names.len())?;
    let chain = RowInputs {
        sizes,
        names,
        present,
        starts: &starts,
        near: &near,
        far: &far,
    };
    read_off(alloc, loads, limit, &chain)
}

// The cuts that are read off the heights of a chain.
fn read_off<A: Allocator + Copy>(
    alloc: A,
    loads: &[Units],
    limit: u64,
    chain: &RowInputs<'_>,
) -> Result<(Cuts<A>, Heights<A>), AllocError>
    requires chain { IsSpanned chain.now }
    requires paired { length loads.now ≡ length chain.now.sizes.now }
    requires starts { AreStarts loads.now limit (slice_index chain.now.starts.now) }
    requires some_within { (cuts : List ℕ) × AreWithin loads.now chain.now.names.now limit cuts }
    ensures proved { IfOk result (λ found. AreProved loads.now chain.now.sizes.now chain.now.names.now limit found.0 found.1) }
    ensures nearest { IfOk result (λ found. AreNearest loads.now chain.now.sizes.now chain.now.names.now chain.now.present.now limit found.0) }
{
    let heights = heights_of(alloc, chain)?;
    let cuts = read_cuts(alloc, heights.as_slice(), chain.starts, chain.present)?;
    Ok((Cuts::new(cuts), heights))
}
