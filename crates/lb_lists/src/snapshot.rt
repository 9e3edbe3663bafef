//! The lists of a run as a snapshot, for which a decision within a tolerance is made.

ghost use Rattle.std.specs.Prelude.{◌≡◌, ◌-◌, ◌<◌, ◌≤◌, ◌↔◌, All, IfOk, IfErr, IsTrue, OnOk, length, take};
ghost use Rattle.std.specs.List.{between, zip};
ghost use Rattle.lb_lists.specs.Runs.{sizes_of, AreSmall, FitsSnapshot, IsAsked, IsRun, IsSnapshotRefusal};

use crate::error::{RefineError, RunError};
use crate::run::{Run, are_small, greatest, is_asked};
use chare_index::{Limits, Pe};
use lb_snapshot::{Loads, Sizes, Snapshot, Units};
use std::alloc::{AllocError, Allocator};

// Whether a run and a number of PEs are within the limits of a snapshot.
fn fits_snapshot(run: &Run<'_>, pes: u32) -> bool
    ensures { IsTrue result ↔ FitsSnapshot run.now pes }
{
    run.loads.len() <= Limits::ELEMENTS as usize
        && run.procs <= Limits::PES
        && pes <= Limits::PES
        && are_light(run.loads)
        && fit(run.bytes)
}

// Whether no load is above the limit of one element. The limit has all its bits set, so the bits of all loads together show it.
fn are_light(loads: &[Units]) -> bool
    ensures { IsTrue result ↔ All (λ units. units ≤ Limits.LOAD) loads.now }
{
    let mut bits = 0;
    for &units in loads {
        bits |= units;
    }
    bits <= Limits::LOAD
}

// Whether each size is one that a packed element may have.
fn fit(bytes: &[u32]) -> bool
    ensures { IsTrue result ↔ All (λ size. size ≤ Limits.STATE_BYTES) bytes.now }
{
    greatest(bytes) <= Limits::STATE_BYTES
}

// The number of pairs that are made at a time.
const BLOCK: usize = 256;

// The PE with this number. The remainder is the number itself, and lets the compiler see that the number is in range, so that
// it makes several pairs at a time.
#[tactic(auto, using(lb_snapshot::proofs::Made::made_where))]
fn pe(number: u32) -> Pe
    requires { number < Limits.PES }
    ensures { result ≡ number }
{
    Pe::new(number % Limits::PES).unwrap()
}

// Writes the size of each of the elements `first..end`, with its place, at the front of a block.
fn write_pairs(block: &mut [(u32, Pe)], bytes: &[u32], places: &[u32], first: usize, end: usize)
    requires ordered { first ≤ end }
    requires inside { end ≤ length bytes.now }
    requires room { end - first ≤ length block.old }
    requires counted { length places.now ≡ length bytes.now }
    requires below { All (λ place. place < Limits.PES) places.now }
    ensures { take (end - first) block.new ≡ between first end (zip bytes.now places.now) }
{
    for i in first..end {
        block[i - first] = (bytes[i], pe(places[i]));
    }
}

// Each size with its place.
fn pairs_of<A: Allocator>(
    alloc: A,
    bytes: &[u32],
    places: &[u32],
) -> Result<Vec<(u32, Pe), A>, AllocError>
    requires counted { length places.now ≡ length bytes.now }
    requires below { All (λ place. place < Limits.PES) places.now }
    ensures { IfOk result (λ v. v.items ≡ zip bytes.now places.now) }
{
    let mut pairs = Vec::with_capacity(alloc, bytes.len())?;
    let mut block = [(0, pe(0)); BLOCK];
    let mut first = 0;
    while first < bytes.len() {
        let end = first + (bytes.len() - first).min(BLOCK);
        write_pairs(&mut block, bytes, places, first, end);
        pairs.extend_from_slice(&block[..end - first])?;
        first = end;
    }
    Ok(pairs)
}

// The loads of these lists.
fn loads_of<A: Allocator>(alloc: A, loads: &[Units]) -> Result<Loads<A>, AllocError>
    requires few { length loads.now ≤ Limits.ELEMENTS }
    requires light { All (λ units. units ≤ Limits.LOAD) loads.now }
    ensures { IfOk result (λ l. l ≡ loads.now) }
{
    Ok(Loads::new(Vec::from_slice(alloc, loads)?).unwrap())
}

// The sizes and places of these lists.
fn sizes_from<A: Allocator>(alloc: A, bytes: &[u32], places: &[u32]) -> Result<Sizes<A>, AllocError>
    requires counted { length places.now ≡ length bytes.now }
    requires few { length bytes.now ≤ Limits.ELEMENTS }
    requires small { All (λ size. size ≤ Limits.STATE_BYTES) bytes.now }
    requires below { All (λ place. place < Limits.PES) places.now }
    ensures { IfOk result (λ s. s ≡ zip bytes.now places.now) }
{
    Ok(Sizes::new(pairs_of(alloc, bytes, places)?).unwrap())
}

// The snapshot of a run within its limits, at step 0.
fn taken<A: Allocator + Copy>(alloc: A, run: &Run<'_>) -> Result<Snapshot<A>, AllocError>
    requires run { IsRun run.now }
    requires few { length run.now.loads ≤ Limits.ELEMENTS }
    requires few_pes { run.now.procs ≤ Limits.PES }
    requires light { All (λ units. units ≤ Limits.LOAD) run.now.loads }
    requires small { All (λ size. size ≤ Limits.STATE_BYTES) run.now.bytes }
    ensures loads { IfOk result (λ s. s.loads ≡ run.now.loads) }
    ensures sizes { IfOk result (λ s. s.sizes ≡ sizes_of run.now) }
{
    let sizes = sizes_from(alloc, run.bytes, run.places)?;
    let loads = loads_of(alloc, run.loads)?;
    Ok(Snapshot::new(0, run.procs, loads, sizes).unwrap())
}

/// The snapshot of a run that is to continue on `pes` PEs, at step 0.
///
/// # Errors
///
/// [`BadInput`](RunError::BadInput), then [`BadLoad`](RunError::BadLoad), as [`plan_run`](crate::plan_run); then
/// [`TooLarge`](RefineError::TooLarge), and then [`OutOfMemory`](RunError::OutOfMemory) where memory was refused.
pub(crate) fn snapshot_of<A: Allocator + Copy>(
    alloc: A,
    run: &Run<'_>,
    pes: u32,
) -> Result<Snapshot<A>, RefineError>
    ensures loads { IfOk result (λ s. s.loads ≡ run.now.loads) }
    ensures sizes { IfOk result (λ s. s.sizes ≡ sizes_of run.now) }
    ensures asked { OnOk result (IsAsked run.now pes) }
    ensures small { OnOk result (AreSmall run.now.loads) }
    ensures fits { OnOk result (FitsSnapshot run.now pes) }
    ensures refused { IfErr result (IsSnapshotRefusal (IsAsked run.now pes) (AreSmall run.now.loads) (FitsSnapshot run.now pes)) }
{
    if !is_asked(run, pes) {
        return Err(RefineError::Run(RunError::BadInput));
    }
    if !are_small(run.loads) {
        return Err(RefineError::Run(RunError::BadLoad));
    }
    if !fits_snapshot(run, pes) {
        return Err(RefineError::TooLarge);
    }
    match taken(alloc, run) {
        Ok(snapshot) => Ok(snapshot),
        Err(_) => Err(RefineError::Run(RunError::OutOfMemory)),
    }
}
