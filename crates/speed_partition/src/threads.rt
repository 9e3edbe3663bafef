//! The search for the least time by several threads, each of which tries another time.

ghost use Rattle.std.specs.Prelude.{◌≡◌, ℕ, ◌-◌, ◌^◌, ◌<◌, ◌≤◌, IfOk, length, slice_index_or};
ghost use Rattle.speed_certificates.specs.Speeds.{IsLeastTime};
ghost use Rattle.speed_certificates.specs.Certificate.{IsTimeCertified};
ghost use Rattle.speed_partition.specs.Chosen.{IsChosen, IsTheOnly};
ghost use Rattle.speed_partition.specs.Greedy.{AllIdleBy};
ghost use Rattle.speed_partition.specs.Search.{Enclose, IsLeastTicks, WasTried};
ghost use Rattle.speed_partition.specs.Ticks.{IsScale};

use crate::division::division_by;
use crate::opening::{SearchBounds, opening};
use crate::ticks::ticks_in_unit;
use crate::walk::{Bound, bound_within};
use chain_partition::Chain;
use chare_index::{Gate, Limits};
use speed_certificates::{PeSpeeds, TimedDivision};
use std::alloc::{AllocError, Allocator};
use std::thread::{self, Threads};

// A place for each worker, of the most that are allowed.
const MOST_WORKERS: usize = Limits::PROBE_WORKERS as usize;

/// Finds the division that [`divide_by_speeds`](crate::divide_by_speeds) finds, by 1 to 64 workers: each round of the search gives
/// each of them a time of its own, and keeps the range between the latest time that stops and the earliest that fits. Before each
/// walk a worker calls the gate's [`pass`](Gate::pass) with its number, from 0. If a thread cannot be started, the others do its
/// work.
///
/// # Errors
///
/// Memory for one of the two lists of a number for each PE and one more was refused.
pub fn divide_by_speeds_with<
    R: Threads + Sync,
    G: Gate + Sync,
    A: Allocator + Copy,
    B: Allocator + Sync,
>(
    rt: &R,
    alloc: A,
    chain: &Chain<'_, B>,
    pes: &PeSpeeds<'_>,
    workers: u32,
    gate: &G,
) -> Result<TimedDivision<A>, AllocError>
    requires some_worker { 1 ≤ workers }
    requires few_workers { workers ≤ Limits.PROBE_WORKERS }
    ensures as_divide { IfOk result (IsTheOnly chain.now pes.now) }
    ensures chosen { IfOk result (IsChosen chain.now pes.now) }
    ensures certified { IfOk result (IsTimeCertified chain.now pes.now) }
    ensures least { IfOk result (λ d. IsLeastTime chain.now pes.now d.cuts d.time) }
{
    let scale = ticks_in_unit(pes);
    let bounds = opening(chain, pes, scale);
    let ticks = least_tried(rt, chain, pes, scale, bounds, workers as usize, gate);
    division_by(alloc, chain, pes, scale, ticks)
}

// The least number of ticks by which all PEs can end. It is within these bounds.
fn least_tried<R: Threads + Sync, G: Gate + Sync, A: Allocator + Sync>(
    rt: &R,
    chain: &Chain<'_, A>,
    pes: &PeSpeeds<'_>,
    scale: u64,
    bounds: SearchBounds,
    workers: usize,
    gate: &G,
) -> u128
    requires scale { IsScale pes.now scale }
    requires enclosed { Enclose chain.now pes.now scale bounds.low bounds.high }
    requires idle { AllIdleBy pes.now bounds.idle scale }
    requires from { bounds.idle ≤ bounds.low }
    requires few { bounds.high ≤ 2 ^ 107 }
    requires some_worker { 1 ≤ workers }
    requires few_workers { workers ≤ Limits.PROBE_WORKERS }
    ensures least { IsLeastTicks chain.now pes.now scale result }
    ensures few { result ≤ 2 ^ 107 }
{
    let mut bounds_found = [Bound::Stops(0); MOST_WORKERS];
    let bounds_found = &mut bounds_found[..workers];
    let mut bounds = bounds;
    while bounds.low < bounds.high {
        try_all(rt, chain, pes, scale, bounds, gate, bounds_found);
        bounds = narrowed(chain, pes, scale, bounds, bounds_found);
    }
    bounds.high
}

// One round: a worker for each place, which writes there what its walk found.
fn try_all<R: Threads + Sync, G: Gate + Sync, A: Allocator + Sync>(
    rt: &R,
    chain: &Chain<'_, A>,
    pes: &PeSpeeds<'_>,
    scale: u64,
    bounds: SearchBounds,
    gate: &G,
    bounds_found: &mut [Bound],
)
    requires scale { IsScale pes.now scale }
    requires idle { AllIdleBy pes.now bounds.idle scale }
    requires from { bounds.idle ≤ bounds.low }
    requires few { bounds.high ≤ 2 ^ 107 }
    requires some_worker { 1 ≤ length bounds_found.old }
    requires few_workers { length bounds_found.old ≤ Limits.PROBE_WORKERS }
    requires apart { bounds.low < bounds.high }
    ensures tried { (i : ℕ) (d : Bound) → i < length bounds_found.old → WasTried chain.now pes.now scale bounds.low bounds.high (slice_index_or bounds_found.new i d) }
{
    let workers = bounds_found.len();
    let probe = move |worker: usize, place: &mut Bound|
        requires { IsScale pes.now scale × AllIdleBy pes.now bounds.idle scale × (bounds.idle ≤ bounds.low) × (bounds.high ≤ 2 ^ 107) × (worker < workers) × (workers ≤ Limits.PROBE_WORKERS) × (bounds.low < bounds.high) }
        ensures { WasTried chain.entry.now pes.entry.now scale bounds.low bounds.high place.exit.now }
    { *place = try_time(chain, pes, scale, bounds, worker, workers, gate) };
    thread::for_each_mut(rt, bounds_found, workers, &probe);
}

// The walk of one worker. The times of all workers are spread evenly from the low bound to the high one.
fn try_time<G: Gate, A: Allocator>(
    chain: &Chain<'_, A>,
    pes: &PeSpeeds<'_>,
    scale: u64,
    bounds: SearchBounds,
    worker: usize,
    workers: usize,
    gate: &G,
) -> Bound
    requires scale { IsScale pes.now scale }
    requires idle { AllIdleBy pes.now bounds.idle scale }
    requires from { bounds.idle ≤ bounds.low }
    requires few { bounds.high ≤ 2 ^ 107 }
    requires one_of { worker < workers }
    requires few_workers { workers ≤ Limits.PROBE_WORKERS }
    requires apart { bounds.low < bounds.high }
    ensures tried { WasTried chain.now pes.now scale bounds.low bounds.high result }
{
    gate.pass(worker as u32);
    let ticks = time_of(bounds, worker as u64, workers as u64);
    bound_within(chain, pes, scale, bounds.idle, ticks)
}

// The time of one of these workers.
#[tactic(auto, using(crate::proofs::TickSearch::tried_inside, crate::proofs::TickSearch::tried_small))]
fn time_of(bounds: SearchBounds, worker: u64, workers: u64) -> u128
    requires one_of { worker < workers }
    requires few_workers { workers ≤ Limits.PROBE_WORKERS }
    requires apart { bounds.low < bounds.high }
    requires few { bounds.high ≤ 2 ^ 107 }
    ensures from { bounds.low ≤ result }
    ensures below { result < bounds.high }
{
    let span = bounds.high - bounds.low;
    let share = span * u128::from(worker + 1) / u128::from(workers + 1);
    bounds.low + share
}

// The bounds, narrowed by what the walks of one round found.
fn narrowed<A: Allocator>(
    chain: &Chain<'_, A>,
    pes: &PeSpeeds<'_>,
    scale: u64,
    bounds: SearchBounds,
    bounds_found: &[Bound],
) -> SearchBounds
    requires some_worker { 1 ≤ length bounds_found.now }
    requires enclosed { Enclose chain.now pes.now scale bounds.low bounds.high }
    requires tried { (i : ℕ) (d : Bound) → i < length bounds_found.now → WasTried chain.now pes.now scale bounds.low bounds.high (slice_index_or bounds_found.now i d) }
    ensures enclosed { Enclose chain.now pes.now scale result.low result.high }
    ensures closer { result.high - result.low < bounds.high - bounds.low }
    ensures same_idle { result.idle ≡ bounds.idle }
    ensures from { bounds.low ≤ result.low }
    ensures to { result.high ≤ bounds.high }
{
    let mut low = bounds.low;
    let mut high = bounds.high;
    for bound in bounds_found {
        match bound {
            Bound::Fits(latest) => high = high.min(*latest),
            Bound::Stops(next) => low = low.max(*next),
        }
    }
    SearchBounds {
        idle: bounds.idle,
        low,
        high,
    }
}
