//! On which PE each element is, and on which it is to run.

ghost use Rattle.std.specs.Prelude.{◌≡◌, ◌<◌, ◌≤◌, All, IfOk, length};
ghost use Rattle.lb_strategy.specs.Decisions.{IsRight};
ghost use Rattle.lb_strategy.specs.Moves.{planned_pe};
ghost use Rattle.lb_refinement.specs.Refined.{refined_cuts, refined_names};
ghost use Rattle.load_report.specs.Figures.{IsPlacement, IsRefinedFor, planned_places, present_places};

use chare_index::{Index, Limits};
use lb_refinement::Refined;
use lb_snapshot::Snapshot;
use lb_strategy::Decision;
use std::alloc::{AllocError, Allocator};

/// The PE on which each element is, in order of index.
///
/// # Errors
///
/// Out of memory.
pub fn present_places<A: Allocator, B: Allocator>(
    alloc: A,
    snapshot: &Snapshot<B>,
) -> Result<Vec<u32, A>, AllocError>
    ensures value { IfOk result (λ places. places.items ≡ present_places snapshot.now.sizes) }
{
    let sizes = snapshot.sizes().as_slice();
    let mut places = Vec::with_capacity(alloc, sizes.len())?;
    for &(_, pe) in sizes {
        places.push(pe.get())?;
    }
    Ok(places)
}

/// The PE on which each element is to run, in order of index, by a decision that is right for this number of PEs: the name of its
/// block.
///
/// # Errors
///
/// Out of memory.
#[tactic(auto, using(crate::proofs::Placements::places_more))]
pub fn planned_places<A: Allocator, B: Allocator, C: Allocator>(
    alloc: A,
    snapshot: &Snapshot<B>,
    decision: &Decision<C>,
    pes: u32,
) -> Result<Vec<u32, A>, AllocError>
    requires { IsRight snapshot.now.loads snapshot.now.sizes pes decision.now }
    ensures value { IfOk result (λ places. places.items ≡ planned_places decision.now.division.cuts decision.now.naming (length snapshot.now.sizes)) }
    ensures placed { IfOk result (λ places. IsPlacement snapshot.now.loads places.items pes) }
{
    let n = snapshot.sizes().len();
    let mut places = Vec::with_capacity(alloc, n)?;
    for i in 0..n {
        places.push(planned_place(snapshot, decision, i, pes))?;
    }
    Ok(places)
}

/// The place of each element by a decision for this number of PEs within some tolerance.
///
/// # Errors
///
/// Out of memory.
#[tactic(auto, using(crate::proofs::Placements::places_more))]
pub fn refined_places<A: Allocator, B: Allocator, C: Allocator>(
    alloc: A,
    snapshot: &Snapshot<B>,
    decision: &Refined<C>,
    pes: u32,
) -> Result<Vec<u32, A>, AllocError>
    requires { IsRefinedFor snapshot.now.loads snapshot.now.sizes pes decision.now }
    ensures value { IfOk result (λ places. places.items ≡ planned_places (refined_cuts decision.now) (refined_names decision.now) (length snapshot.now.sizes)) }
    ensures placed { IfOk result (λ places. IsPlacement snapshot.now.loads places.items pes) }
{
    let n = snapshot.sizes().len();
    let mut places = Vec::with_capacity(alloc, n)?;
    for i in 0..n {
        places.push(refined_place(snapshot, decision, i, pes))?;
    }
    Ok(places)
}

// The PE on which one element is to run within the tolerance.
#[tactic(auto, using(crate::proofs::RefinedPlaces::place_from_refined))]
fn refined_place<A: Allocator, B: Allocator>(
    snapshot: &Snapshot<B>,
    decision: &Refined<A>,
    i: usize,
    pes: u32,
) -> u32
    requires refined { IsRefinedFor snapshot.now.loads snapshot.now.sizes pes decision.now }
    requires inside { i < length snapshot.now.sizes }
    requires few { i < Limits.ELEMENTS }
    ensures value { result ≡ planned_pe (refined_cuts decision.now) (refined_names decision.now) i }
{
    let index = Index::new(i as u32).unwrap();
    decision.place_of(index).get()
}

// The PE on which one element is to run.
#[tactic(auto, using(lb_strategy::proofs::RightDecisions::place_from_right))]
fn planned_place<A: Allocator, B: Allocator>(
    snapshot: &Snapshot<B>,
    decision: &Decision<A>,
    i: usize,
    pes: u32,
) -> u32
    requires right { IsRight snapshot.now.loads snapshot.now.sizes pes decision.now }
    requires inside { i < length snapshot.now.sizes }
    requires few { i < Limits.ELEMENTS }
    ensures value { result ≡ planned_pe decision.now.division.cuts decision.now.naming i }
{
    let index = Index::new(i as u32).unwrap();
    decision.place_of(index).get()
}
