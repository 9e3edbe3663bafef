//! Makes a decision: the least division, and the cheapest names of its blocks.

ghost use Rattle.std.specs.Prelude.{◌≡◌, ◌≤◌, IfOk, IfErr};
ghost use Rattle.chain_partition.specs.Chosen.{IsChosen};
ghost use Rattle.lb_certificates.specs.Certificate.{IsCertified};
ghost use Rattle.lb_certificates.specs.Naming.{AreBlocks, IsLeastNaming, IsNamed, blocks_between, bytes_moved};
ghost use Rattle.lb_strategy.specs.Decisions.{ArePricesBounded, IsPlanned};
ghost use Rattle.lb_strategy.specs.declared.error.PlanError.TheVariants.{OutOfMemory};

use crate::decision::Decision;
use crate::error::PlanError;
use crate::moves::moves_of;
use block_assignment::{CostTable, name_blocks};
use chain_partition::{divide, divide_with};
use chare_index::{Gate, Limits};
use lb_certificates::{Cuts, Division, Naming, Prices};
use lb_snapshot::{Sizes, Snapshot};
use std::alloc::Allocator;
use std::thread::Threads;

/// Decides where each element of this snapshot runs next, on `pes` PEs, 1 to 256, which may be more or fewer than those of the
/// run. The blocks are those of [`divide`], named so that the fewest bytes move, by the first of all such namings in dictionary
/// order. So the snapshot and `pes` determine all of the decision but its prices. [`check`](crate::check) accepts the decision.
/// Each price of a block is between 0 and the greatest number of bytes that a block moves on some PE, and each price of a PE is
/// between 0 and minus that number.
///
/// # Errors
///
/// [`OutOfMemory`](PlanError::OutOfMemory) where memory was refused.
pub fn plan<A: Allocator + Copy, B: Allocator>(
    alloc: A,
    snapshot: &Snapshot<B>,
    pes: u32,
) -> Result<Decision<A>, PlanError>
    requires some_pe { 1 ≤ pes }
    requires few_pes { pes ≤ Limits.PES }
    ensures planned { IfOk result (IsPlanned snapshot.now.loads snapshot.now.sizes pes) }
    ensures only_memory { IfErr result (λ error. error ≡ OutOfMemory) }
{
    let division = divide(alloc, snapshot.loads(), pes)?;
    complete(alloc, snapshot, pes, division)
}

/// Decides as [`plan`] does. The division, which is the same, is found by 1 to 64 workers, as [`divide_with`] does: in
/// each of its probes a worker calls the gate with its number, and if a thread cannot be started, the others do its work.
///
/// # Errors
///
/// [`OutOfMemory`](PlanError::OutOfMemory) where memory was refused.
pub fn plan_with<R: Threads + Sync, G: Gate + Sync, A: Allocator + Copy, B: Allocator>(
    rt: &R,
    alloc: A,
    snapshot: &Snapshot<B>,
    pes: u32,
    workers: u32,
    gate: &G,
) -> Result<Decision<A>, PlanError>
    requires some_pe { 1 ≤ pes }
    requires few_pes { pes ≤ Limits.PES }
    requires some_worker { 1 ≤ workers }
    requires few_workers { workers ≤ Limits.PROBE_WORKERS }
    ensures planned { IfOk result (IsPlanned snapshot.now.loads snapshot.now.sizes pes) }
    ensures only_memory { IfErr result (λ error. error ≡ OutOfMemory) }
{
    let found = divide_with(rt, alloc, snapshot.loads(), pes, workers, gate)?;
    complete(alloc, snapshot, pes, found)
}

// The decision with this division.
#[tactic(auto, using(crate::proofs::RightDecisions::blocks_from_certified))]
fn complete<A: Allocator + Copy, B: Allocator>(
    alloc: A,
    snapshot: &Snapshot<B>,
    pes: u32,
    division: Division<A>,
) -> Result<Decision<A>, PlanError>
    requires some_pe { 1 ≤ pes }
    requires few_pes { pes ≤ Limits.PES }
    requires chosen { IsChosen snapshot.now.loads pes division }
    requires certified { IsCertified snapshot.now.loads pes division }
    ensures planned { IfOk result (IsPlanned snapshot.now.loads snapshot.now.sizes pes) }
    ensures only_memory { IfErr result (λ error. error ≡ OutOfMemory) }
{
    let sizes = snapshot.sizes();
    let (naming, prices, moved) = name_cuts(alloc, sizes, &division.cuts)?;
    let pairs = sizes.as_slice();
    let moves = moves_of(alloc, pairs, division.cuts.as_slice(), naming.as_slice())?;
    Ok(Decision {
        division,
        naming,
        prices,
        moved,
        moves,
    })
}

/// The names of the blocks between these cuts, with their prices, and the bytes that they move: of the namings that move the
/// fewest bytes, the first in dictionary order. The cuts may be those of any division into 1 to 256 blocks.
///
/// # Errors
///
/// [`OutOfMemory`](PlanError::OutOfMemory) where memory was refused.
// The table of costs is dropped on return, so its memory is free for the longest list of a decision, that of the moves.
pub fn name_cuts<A: Allocator + Copy, B: Allocator>(
    alloc: A,
    sizes: &Sizes<B>,
    cuts: &Cuts<A>,
) -> Result<(Naming<A>, Prices<A>, u64), PlanError>
    requires blocks { AreBlocks sizes.now cuts.now }
    ensures named { IfOk result (λ found. IsNamed sizes.now cuts.now found.0 found.1.u found.1.v) }
    ensures least_naming { IfOk result (λ found. IsLeastNaming sizes.now cuts.now (blocks_between cuts.now) found.0) }
    ensures moved { IfOk result (λ found. found.2 ≡ bytes_moved sizes.now cuts.now found.0) }
    ensures bounded { IfOk result (λ found. ArePricesBounded sizes.now cuts.now found.1.u found.1.v) }
    ensures only_memory { IfErr result (λ error. error ≡ OutOfMemory) }
{
    let table = CostTable::of(alloc, sizes, cuts)?;
    let (naming, prices) = name_blocks(alloc, &table)?;
    let moved = table.cost_of(naming.as_slice());
    Ok((naming, prices, moved))
}
