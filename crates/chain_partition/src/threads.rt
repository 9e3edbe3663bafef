//! The search for the least division by several threads, each of which tries another limit.

ghost use Rattle.std.specs.Prelude.{◌≡◌, ℕ, ◌-◌, ◌<◌, ◌≤◌, IfOk, length, slice_index_or};
ghost use Rattle.lb_certificates.specs.Chain.{IsLeastDivision, IsLeastPeak};
ghost use Rattle.lb_certificates.specs.Certificate.{IsCertified};
ghost use Rattle.chain_partition.specs.Chosen.{IsChosen, IsTheOnly};
ghost use Rattle.chain_partition.specs.Search.{Enclose, Shows, WasTried};
ghost use Rattle.chain_partition.specs.Sums.{IsSampled};

use crate::chain::Chain;
use crate::division::division_at;
use crate::search::{Bound, SearchBounds, bound_within, opening};
use chare_index::{Gate, Limits};
use lb_certificates::Division;
use lb_snapshot::{Loads, Units};
use std::alloc::{AllocError, Allocator};
use std::thread::{self, Threads};

// A place for each worker, of the most that are allowed.
const MOST_WORKERS: usize = Limits::PROBE_WORKERS as usize;

/// Finds the division that [`divide`](crate::divide) finds, by 1 to 64 workers: each round of the search gives each of them
/// a limit of its own, and keeps the range between the greatest limit that stops and the least that fits. Inside each
/// probe a worker calls the gate's [`pass`](Gate::pass) with its number, from 0. If a thread cannot be started, the others do
/// its work.
///
/// # Errors
///
/// Memory for the running sums or for one of the two lists of `pes + 1` numbers was refused.
pub fn divide_with<R: Threads + Sync, G: Gate + Sync, A: Allocator + Copy, B: Allocator>(
    rt: &R,
    alloc: A,
    loads: &Loads<B>,
    pes: u32,
    workers: u32,
    gate: &G,
) -> Result<Division<A>, AllocError>
    requires some_pe { 1 ≤ pes }
    requires few_pes { pes ≤ Limits.PES }
    requires some_worker { 1 ≤ workers }
    requires few_workers { workers ≤ Limits.PROBE_WORKERS }
    ensures as_divide { IfOk result (IsTheOnly loads.now pes) }
    ensures chosen { IfOk result (IsChosen loads.now pes) }
    ensures certified { IfOk result (IsCertified loads.now pes) }
    ensures least { IfOk result (λ d. IsLeastDivision loads.now pes d.bottleneck d.cuts) }
{
    let chain = Chain::of(alloc, loads)?;
    divide_chain_with(rt, alloc, &chain, pes, workers, gate)
}

/// Divides a [`Chain`] as [`divide_with`] divides loads, into `pes` blocks, 1 or more.
///
/// # Errors
///
/// Memory for one of the two lists of `pes + 1` numbers was refused.
pub fn divide_chain_with<R: Threads + Sync, G: Gate + Sync, A: Allocator + Copy, B: Allocator>(
    rt: &R,
    alloc: A,
    chain: &Chain<'_, B>,
    pes: u32,
    workers: u32,
    gate: &G,
) -> Result<Division<A>, AllocError>
    requires some_pe { 1 ≤ pes }
    requires some_worker { 1 ≤ workers }
    requires few_workers { workers ≤ Limits.PROBE_WORKERS }
    ensures as_divide { IfOk result (IsTheOnly chain.now pes) }
    ensures chosen { IfOk result (IsChosen chain.now pes) }
    ensures certified { IfOk result (IsCertified chain.now pes) }
    ensures least { IfOk result (λ d. IsLeastDivision chain.now pes d.bottleneck d.cuts) }
{
    let bounds = opening(chain.loads(), chain.load(0, chain.len()), pes);
    let bottleneck = least_tried(
        rt,
        chain.loads(),
        chain.samples(),
        pes,
        bounds,
        workers as usize,
        gate,
    );
    division_at(alloc, chain.loads(), chain.samples(), pes, bottleneck)
}

// The least limit within which `pes` blocks can hold all elements. It is within these bounds.
fn least_tried<R: Threads + Sync, G: Gate + Sync>(
    rt: &R,
    loads: &[Units],
    samples: &[u64],
    pes: u32,
    bounds: SearchBounds,
    workers: usize,
    gate: &G,
) -> u64
    requires valid { IsSampled loads.now samples.now }
    requires some_pe { 1 ≤ pes }
    requires some_worker { 1 ≤ workers }
    requires few_workers { workers ≤ Limits.PROBE_WORKERS }
    requires enclosed { Enclose loads.now pes bounds.low bounds.high }
    ensures least { IsLeastPeak loads.now 0 pes result }
{
    let mut bounds_found = [Bound::Stops(0); MOST_WORKERS];
    let bounds_found = &mut bounds_found[..workers];
    let mut bounds = bounds;
    while bounds.low < bounds.high {
        try_all(rt, loads, samples, pes, bounds, gate, bounds_found);
        bounds = narrowed(loads, pes, bounds, bounds_found);
    }
    bounds.high
}

// One round: a worker for each place, which writes there what its walk found.
fn try_all<R: Threads + Sync, G: Gate + Sync>(
    rt: &R,
    loads: &[Units],
    samples: &[u64],
    pes: u32,
    bounds: SearchBounds,
    gate: &G,
    bounds_found: &mut [Bound],
)
    requires valid { IsSampled loads.now samples.now }
    requires some_pe { 1 ≤ pes }
    requires some_worker { 1 ≤ length bounds_found.old }
    requires few_workers { length bounds_found.old ≤ Limits.PROBE_WORKERS }
    requires apart { bounds.low < bounds.high }
    ensures tried { (i : ℕ) (d : Bound) → i < length bounds_found.old → WasTried loads.now pes bounds.low bounds.high (slice_index_or bounds_found.new i d) }
{
    let workers = bounds_found.len();
    let probe = move |worker: usize, place: &mut Bound|
        requires { IsSampled loads.now samples.now × (1 ≤ pes) × (worker < workers) × (workers ≤ Limits.PROBE_WORKERS) × (bounds.low < bounds.high) }
        ensures { WasTried loads.entry.now pes bounds.low bounds.high place.exit.now }
    { *place = try_limit(loads, samples, pes, bounds, worker, workers, gate) };
    thread::for_each_mut(rt, bounds_found, workers, &probe);
}

// The walk of one worker. The limits of all workers are spread evenly from the low bound to the high one.
fn try_limit<G: Gate>(
    loads: &[Units],
    samples: &[u64],
    pes: u32,
    bounds: SearchBounds,
    worker: usize,
    workers: usize,
    gate: &G,
) -> Bound
    requires valid { IsSampled loads.now samples.now }
    requires some_pe { 1 ≤ pes }
    requires one_of { worker < workers }
    requires few_workers { workers ≤ Limits.PROBE_WORKERS }
    requires apart { bounds.low < bounds.high }
    ensures tried { WasTried loads.now pes bounds.low bounds.high result }
{
    gate.pass(worker as u32);
    bound_within(
        loads,
        samples,
        pes,
        limit_of(bounds, worker as u64, workers as u64),
    )
}

// The limit of one of these workers. In 128 bits the product is in range, however far apart the bounds are.
#[tactic(auto, using(crate::proofs::Limits::share_inside, crate::proofs::Limits::product_fits))]
fn limit_of(bounds: SearchBounds, worker: u64, workers: u64) -> u64
    requires one_of { worker < workers }
    requires few_workers { workers ≤ Limits.PROBE_WORKERS }
    requires apart { bounds.low < bounds.high }
    ensures from { bounds.low ≤ result }
    ensures below { result < bounds.high }
{
    let span = u128::from(bounds.high - bounds.low);
    let share = span * u128::from(worker + 1) / u128::from(workers + 1);
    bounds.low + share as u64
}

// The bounds, narrowed by what the walks of one round found.
fn narrowed(loads: &[Units], pes: u32, bounds: SearchBounds, bounds_found: &[Bound]) -> SearchBounds
    requires some_worker { 1 ≤ length bounds_found.now }
    requires enclosed { Enclose loads.now pes bounds.low bounds.high }
    requires tried { (i : ℕ) (d : Bound) → i < length bounds_found.now → WasTried loads.now pes bounds.low bounds.high (slice_index_or bounds_found.now i d) }
    ensures enclosed { Enclose loads.now pes result.low result.high }
    ensures closer { result.high - result.low < bounds.high - bounds.low }
{
    let mut low = bounds.low;
    let mut high = bounds.high;
    for bound in bounds_found {
        match bound {
            Bound::Fits(heaviest) => high = high.min(*heaviest),
            Bound::Stops(next) => low = low.max(*next),
        }
    }
    SearchBounds { low, high }
}
