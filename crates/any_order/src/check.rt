//! Checks cuts and names that may give the PEs any order: the limit, the bytes moved, and the proof that no others move fewer.

ghost use Rattle.std.specs.Prelude.{◌≡◌, ◌+◌, ◌<◌, ◌≤◌, ◌↔◌, IsOk, IfErr, OnOk, length};
ghost use Rattle.lb_certificates.specs.Certificate.{IsCertified};
ghost use Rattle.lb_certificates.specs.Chain.{IsLeastDivision, peak};
ghost use Rattle.lb_certificates.specs.Naming.{bytes_moved};
ghost use Rattle.any_order.specs.AnyOrder.{AreFewestOfAll, bound_at, IsPlan, IsReordered, reordered_limit};
ghost use Rattle.any_order.specs.Flaws.{HasReorderedFlaw, IsFirstReorderedFlaw};
ghost use Rattle.any_order.specs.Internal.{AreOrdered};

use crate::flaw::ReorderedFlaw;
use crate::follow::bound_of;
use crate::moved::moved_by;
use crate::parts::{bounded_of, check_cuts, check_least, check_names};
use crate::reordered::Reordered;
use crate::steep::first_steep;
use lb_snapshot::Snapshot;
use std::alloc::Allocator;

/// Checks cuts and names for `pes` PEs, whoever made them. `Ok` means that no block is above the limit, that the limit is as
/// far above the least possible load as the tolerance says, and that no cuts within the limit and no names of their blocks move
/// fewer bytes, wherever the elements are.
///
/// Any number of PEs and any lists may be passed. It takes no memory, and time in proportion to the elements times the PEs,
/// and to the steps and the places at which the PE of the elements changes, each times the elements of a block that begins
/// there.
///
/// # Errors
///
/// The first [`ReorderedFlaw`] that applies, in their order, and of those of one kind the first by block and place.
///
/// That the bounds limit what plans move is the duality of shortest paths: R. K. Ahuja, T. L. Magnanti and J. B. Orlin,
/// "Network Flows", 1993, chapter 4.
pub fn check_reordered<A: Allocator, B: Allocator>(
    snapshot: &Snapshot<A>,
    pes: u32,
    reordered: &Reordered<B>,
) -> Result<(), ReorderedFlaw>
    ensures exact { IsOk result ↔ IsReordered snapshot.now.loads snapshot.now.sizes pes reordered.now }
    ensures peak { OnOk result (peak snapshot.now.loads reordered.now.cuts ≤ reordered_limit reordered.now) }
    ensures least { OnOk result (IsLeastDivision snapshot.now.loads pes reordered.now.least.bottleneck reordered.now.least.cuts) }
    ensures fewest { OnOk result (AreFewestOfAll snapshot.now.loads snapshot.now.sizes pes (reordered_limit reordered.now) reordered.now.cuts reordered.now.names) }
    ensures first_flaw { IfErr result (IsFirstReorderedFlaw (HasReorderedFlaw snapshot.now.loads snapshot.now.sizes pes reordered.now)) }
{
    check_parts(snapshot, pes, reordered)
}

// Runs the checks of `check_reordered` one after another.
fn check_parts<A: Allocator, B: Allocator>(
    snapshot: &Snapshot<A>,
    pes: u32,
    reordered: &Reordered<B>,
) -> Result<(), ReorderedFlaw>
    ensures right { OnOk result (IsReordered snapshot.now.loads snapshot.now.sizes pes reordered.now) }
    ensures paired { OnOk result (length snapshot.now.loads ≡ length snapshot.now.sizes) }
    ensures first_flaw { IfErr result (IsFirstReorderedFlaw (HasReorderedFlaw snapshot.now.loads snapshot.now.sizes pes reordered.now)) }
{
    check_least(snapshot, pes, reordered)?;
    check_names(snapshot, pes, reordered)?;
    check_cuts(snapshot, pes, reordered)?;
    check_rows(snapshot, pes, reordered)?;
    check_bounds(snapshot, pes, reordered)
}

// The flaws of the number of rows and of their beginnings.
fn check_rows<A: Allocator, B: Allocator>(
    snapshot: &Snapshot<A>,
    pes: u32,
    reordered: &Reordered<B>,
) -> Result<(), ReorderedFlaw>
    requires certified { IsCertified snapshot.now.loads pes reordered.now.least }
    requires ordered { AreOrdered pes reordered.now.names }
    requires plan { IsPlan snapshot.now.loads pes (reordered_limit reordered.now) reordered.now.cuts reordered.now.names }
    ensures any { OnOk result (length reordered.now.any ≡ pes + 1) }
    ensures free { OnOk result (length reordered.now.free ≡ pes + 1) }
    ensures any_starts { OnOk result (bound_at reordered.now.any 0 0 ≡ 0) }
    ensures free_starts { OnOk result (bound_at reordered.now.free 0 0 ≡ 0) }
    ensures first_flaw { IfErr result (IsFirstReorderedFlaw (HasReorderedFlaw snapshot.now.loads snapshot.now.sizes pes reordered.now)) }
{
    let any = reordered.any.as_slice();
    let free = reordered.free.as_slice();
    if any.len() != pes as usize + 1 || free.len() != pes as usize + 1 {
        return Err(ReorderedFlaw::RowCount);
    }
    if bound_of(any, 0, 0) != 0 || bound_of(free, 0, 0) != 0 {
        return Err(ReorderedFlaw::Start);
    }
    Ok(())
}

// The flaws of the bounds.
fn check_bounds<A: Allocator, B: Allocator>(
    snapshot: &Snapshot<A>,
    pes: u32,
    reordered: &Reordered<B>,
) -> Result<(), ReorderedFlaw>
    requires certified { IsCertified snapshot.now.loads pes reordered.now.least }
    requires ordered { AreOrdered pes reordered.now.names }
    requires plan { IsPlan snapshot.now.loads pes (reordered_limit reordered.now) reordered.now.cuts reordered.now.names }
    requires any { length reordered.now.any ≡ pes + 1 }
    requires free { length reordered.now.free ≡ pes + 1 }
    requires any_starts { bound_at reordered.now.any 0 0 ≡ 0 }
    requires free_starts { bound_at reordered.now.free 0 0 ≡ 0 }
    ensures right { OnOk result (IsReordered snapshot.now.loads snapshot.now.sizes pes reordered.now) }
    ensures paired { OnOk result (length snapshot.now.loads ≡ length snapshot.now.sizes) }
    ensures first_flaw { IfErr result (IsFirstReorderedFlaw (HasReorderedFlaw snapshot.now.loads snapshot.now.sizes pes reordered.now)) }
{
    let bounded = bounded_of(snapshot, pes, reordered);
    if let Some((b, y, x)) = first_steep(&bounded, pes) {
        return Err(ReorderedFlaw::Steep(b, y, x));
    }
    if last_bound(snapshot, pes, reordered) < bytes_of(snapshot, pes, reordered) {
        return Err(ReorderedFlaw::Low);
    }
    Ok(())
}

// The bound for all blocks and the whole chain.
fn last_bound<A: Allocator, B: Allocator>(
    snapshot: &Snapshot<A>,
    pes: u32,
    reordered: &Reordered<B>,
) -> u64
    requires any { length reordered.now.any ≡ pes + 1 }
    ensures value { result ≡ bound_at reordered.now.any pes (length snapshot.now.loads) }
{
    bound_of(
        reordered.any.as_slice(),
        pes as usize,
        snapshot.loads().len(),
    )
}

// The bytes that the plan moves.
fn bytes_of<A: Allocator, B: Allocator>(
    snapshot: &Snapshot<A>,
    pes: u32,
    reordered: &Reordered<B>,
) -> u64
    requires plan { IsPlan snapshot.now.loads pes (reordered_limit reordered.now) reordered.now.cuts reordered.now.names }
    ensures value { result ≡ bytes_moved snapshot.now.sizes reordered.now.cuts reordered.now.names }
{
    let sizes = snapshot.sizes().as_slice();
    moved_by(sizes, reordered.cuts.as_slice(), reordered.names.as_slice())
}
