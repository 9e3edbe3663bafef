//! What is decided for a run.

ghost use Rattle.std.specs.Prelude.{◌≡◌, ◌≤◌, length, IfOk, IfErr, OnOk};
ghost use Rattle.std.specs.List.{zip};
ghost use Rattle.block_assignment.specs.Lists.{AreBlocksOf};
ghost use Rattle.chain_partition.specs.Chosen.{IsChosen};
ghost use Rattle.lb_certificates.specs.Certificate.{IsCertified};
ghost use Rattle.lb_certificates.specs.Chain.{IsLeastDivision};
ghost use Rattle.lb_certificates.specs.Naming.{blocks_between, bytes_moved, IsCheapest, IsLeastNaming};
ghost use Rattle.lb_strategy.specs.Decisions.{ArePricesBounded};
ghost use Rattle.lb_lists.specs.Claims.{IsNamedRun};
ghost use Rattle.lb_lists.specs.Runs.{sizes_of, AreSmall, IsAsked, IsRefusal};
ghost use Rattle.lb_lists.specs.declared.error.RunError.TheVariants.{OutOfMemory};

use crate::error::RunError;
use crate::limits::RunLimits;
use crate::run::{Run, is_asked};
use block_assignment::{CostMatrix, name_blocks_of};
use chain_partition::{Chain, divide_chain};
use lb_certificates::{Cuts, Division, Naming, Prices};
use lb_snapshot::Units;
use std::alloc::{Allocator, Global};

/// What is decided for a run: a [`Decision`](lb_strategy::Decision) without the list of its moves. An element moves where the
/// name of its block is not the PE that it is on.
#[derive(Drop)]
#[derive_where(Debug, PartialEq)]
pub struct Plan<A: Allocator = Global> {
    /// The elements cut into consecutive blocks.
    pub division: Division<A>,
    /// The PE on which each block runs.
    pub naming: Naming<A>,
    /// The proof that no naming moves fewer bytes.
    pub prices: Prices<A>,
    /// The packed bytes of all elements that move.
    pub moved: u64,
}

// The least division of these loads. Their running sums are dropped on return.
fn least_division<A: Allocator + Copy>(
    alloc: A,
    loads: &[Units],
    pes: u32,
) -> Result<Division<A>, RunError>
    requires some_pe { 1 ≤ pes }
    ensures certified { IfOk result (IsCertified loads.now pes) }
    ensures chosen { IfOk result (IsChosen loads.now pes) }
    ensures least { IfOk result (λ d. IsLeastDivision loads.now pes d.bottleneck d.cuts) }
    ensures small { OnOk result (AreSmall loads.now) }
    ensures refused { IfErr result (IsRefusal (length loads.now ≤ RunLimits.ELEMENTS) (AreSmall loads.now)) }
{
    let chain = Chain::new(alloc, loads)?;
    let Ok(division) = divide_chain(alloc, &chain, pes) else {
        return Err(RunError::OutOfMemory);
    };
    Ok(division)
}

// The names of the blocks between these cuts, with their prices, and the bytes that they move. The table of costs is dropped on
// return.
fn names_between<A: Allocator + Copy>(
    alloc: A,
    bytes: &[u32],
    places: &[u32],
    cuts: &Cuts<A>,
) -> Result<(Naming<A>, Prices<A>, u64), RunError>
    requires { AreBlocksOf bytes.now places.now cuts.now }
    ensures named { IfOk result (λ found. IsNamedRun (zip bytes.now places.now) cuts.now found.0 found.1.u found.1.v) }
    ensures least_naming { IfOk result (λ found. IsLeastNaming (zip bytes.now places.now) cuts.now (blocks_between cuts.now) found.0) }
    ensures moved { IfOk result (λ found. found.2 ≡ bytes_moved (zip bytes.now places.now) cuts.now found.0) }
    ensures bounded { IfOk result (λ found. ArePricesBounded (zip bytes.now places.now) cuts.now found.1.u found.1.v) }
    ensures only_memory { IfErr result (λ error. error ≡ OutOfMemory) }
{
    let Ok(matrix) = CostMatrix::of(alloc, bytes, places, cuts) else {
        return Err(RunError::OutOfMemory);
    };
    let Ok((naming, prices)) = name_blocks_of(alloc, &matrix) else {
        return Err(RunError::OutOfMemory);
    };
    let moved = matrix.cost_of(naming.as_slice());
    Ok((naming, prices, moved))
}

/// Decides on which of `pes` PEs each element of a run continues, 1 to [`RunLimits::PES`], as [`plan`](lb_strategy::plan)
/// does within the limits of a snapshot: the blocks are those of [`divide_chain`], named so that the fewest bytes move, by
/// the first of all such namings in dictionary order. So the run and `pes` determine all of the plan but its prices. Each
/// price of a block is between 0 and the greatest number of bytes that a block moves on some PE, and each price of a PE is
/// between 0 and minus that number.
///
/// The lists are only read. Beside what it returns, it takes half a byte for each element and then 8 bytes for each pair of a
/// block and a PE.
///
/// # Errors
///
/// [`BadInput`](RunError::BadInput) where the lists describe no run within the [`RunLimits`], or `pes` is not 1 to
/// [`RunLimits::PES`]; [`BadLoad`](RunError::BadLoad) where the loads add up to more than [`RunLimits::LOAD`];
/// [`OutOfMemory`](RunError::OutOfMemory) where memory was refused.
pub fn plan_run<A: Allocator + Copy>(alloc: A, run: &Run<'_>, pes: u32) -> Result<Plan<A>, RunError>
    ensures certified { IfOk result (λ plan. IsCertified run.now.loads pes plan.division) }
    ensures chosen { IfOk result (λ plan. IsChosen run.now.loads pes plan.division) }
    ensures least { IfOk result (λ plan. IsLeastDivision run.now.loads pes plan.division.bottleneck plan.division.cuts) }
    ensures named { IfOk result (λ plan. IsNamedRun (sizes_of run.now) plan.division.cuts plan.naming plan.prices.u plan.prices.v) }
    ensures cheapest { IfOk result (λ plan. IsCheapest (sizes_of run.now) plan.division.cuts pes plan.naming) }
    ensures least_naming { IfOk result (λ plan. IsLeastNaming (sizes_of run.now) plan.division.cuts pes plan.naming) }
    ensures moved { IfOk result (λ plan. plan.moved ≡ bytes_moved (sizes_of run.now) plan.division.cuts plan.naming) }
    ensures bounded { IfOk result (λ plan. ArePricesBounded (sizes_of run.now) plan.division.cuts plan.prices.u plan.prices.v) }
    ensures asked { OnOk result (IsAsked run.now pes) }
    ensures small { OnOk result (AreSmall run.now.loads) }
    ensures refused { IfErr result (IsRefusal (IsAsked run.now pes) (AreSmall run.now.loads)) }
{
    if !is_asked(run, pes) {
        return Err(RunError::BadInput);
    }
    let division = least_division(alloc, run.loads, pes)?;
    let (naming, prices, moved) = names_between(alloc, run.bytes, run.places, &division.cuts)?;
    Ok(Plan {
        division,
        naming,
        prices,
        moved,
    })
}
