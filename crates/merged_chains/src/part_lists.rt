//! The calls on a part of a chain for callers that have plain lists: a part is the list of its loads, in work units, and the
//! number of its first element. After an error nothing was written.

ghost use Rattle.std.specs.Prelude.{◌≡◌, ◌↔◌, ℕ, ◌+◌, ◌<◌, ◌≤◌, ◌^◌, [], All, IsTrue, List, IfOk, IfErr, OnOk, OnErr, length, sum, take, drop};
ghost use Rattle.merged_chains.specs.Lists.{division_of, AreRunsWithin, AreWritten, IsBlockCount, IsEndAsked, IsMergeAsked, IsNumbered, IsPartRefusal, IsWalkAsked, IsWeightAsked};
ghost use Rattle.merged_chains.specs.Narrowing.{walk_at};
ghost use Rattle.merged_chains.specs.Walks.{EndsAt, WalksOn};
ghost use Rattle.merged_chains.specs.Weights.{ArePartWeights};

use crate::error::PartError;
use crate::limits::PartLimits;
use crate::merging::{Runs, merge};
use crate::range_loads::{write_block_loads, write_fence_loads};
use crate::walk::{Ends, Walk, ends_on, walk_lists_on};
use crate::windows::Windows;
use chain_partition::Chain;
use lb_snapshot::Units;
use std::alloc::Allocator;

/// Whether a chain may be divided into this number of blocks by its parts.
pub(crate) fn is_block_count(pes: u32) -> bool
    ensures { IsTrue result ↔ IsBlockCount pes }
{
    1 <= pes && pes <= PartLimits::PES
}

// Whether the elements of a part have numbers.
fn is_numbered(first: u32, loads: &[Units]) -> bool
    ensures { IsTrue result ↔ IsNumbered first loads.now }
{
    loads.len() <= (u32::MAX - first) as usize
}

/// Walks on over a part with walks that are three lists, as [`walk_lists_on`] does. Before the first part nothing is closed
/// and nothing filled.
///
/// # Errors
///
/// [`PartError::BadInput`] for no blocks or more than [`PartLimits::PES`], 2^32 loads or more, or where there is not one number
/// of closed blocks and one load for each limit; then [`PartError::BadLoad`]; then [`PartError::OutOfMemory`].
pub fn walk_part<A: Allocator>(
    alloc: A,
    loads: &[Units],
    pes: u32,
    limits: &[u64],
    closed: &mut [u32],
    filled: &mut [u64],
) -> Result<(), PartError>
    ensures walked { OnOk result ((i : ℕ) → i < length limits.now
        → WalksOn loads.now pes (walk_at limits.now closed.old filled.old i) (walk_at limits.now closed.new filled.new i)) }
    ensures asked { OnOk result (IsWalkAsked loads.now pes limits.now closed.old filled.old) }
    ensures light { OnOk result (sum loads.now < 2 ^ 63) }
    ensures refused { IfErr result (IsPartRefusal (IsWalkAsked loads.now pes limits.now closed.old filled.old) loads.now) }
    ensures kept { OnErr result ((closed.new ≡ closed.old) × (filled.new ≡ filled.old)) }
{
    if !is_block_count(pes) || closed.len() != limits.len() || filled.len() != limits.len() {
        return Err(PartError::BadInput);
    }
    let part = Chain::new(alloc, loads)?;
    walk_lists_on(&part, pes, limits, closed, filled);
    Ok(())
}

/// Walks on over a part, and writes the ends of the blocks that the walk closes there, as [`ends_on`] finds them. It returns
/// their number.
///
/// # Errors
///
/// [`PartError::BadInput`] for no blocks or more than [`PartLimits::PES`], where an element of the part has the number
/// 2^32 - 1 or more, or where there is no room for `pes` ends; then [`PartError::BadLoad`]; then [`PartError::OutOfMemory`].
pub fn end_part<A: Allocator + Copy>(
    alloc: A,
    loads: &[Units],
    first: u32,
    pes: u32,
    walk: &mut Walk,
    ends: &mut [u32],
) -> Result<usize, PartError>
    ensures walked { IfOk result (λ count. EndsAt loads.now pes walk.old first (take count ends.new) walk.new) }
    ensures limit { walk.new.limit ≡ walk.old.limit }
    ensures counted { IfOk result (λ count. count ≤ pes) }
    ensures few { OnOk result (walk.new.closed ≤ pes) }
    ensures fits { walk.old.filled ≤ walk.old.limit → walk.new.filled ≤ walk.old.limit }
    ensures each { walk.old.closed ≤ pes → IfOk result (λ count. walk.old.closed + count ≡ walk.new.closed) }
    ensures inside { IfOk result (λ count. All (λ end. (first ≤ end) × (end ≤ first + length loads.now)) (take count ends.new)) }
    ensures behind { IfOk result (λ count. drop count ends.new ≡ drop count ends.old) }
    ensures asked { OnOk result (IsEndAsked loads.now first pes ends.old) }
    ensures light { OnOk result (sum loads.now < 2 ^ 63) }
    ensures refused { IfErr result (IsPartRefusal (IsEndAsked loads.now first pes ends.old) loads.now) }
    ensures kept { OnErr result ((walk.new ≡ walk.old) × (ends.new ≡ ends.old)) }
{
    if !is_block_count(pes) || !is_numbered(first, loads) || ends.len() < pes as usize {
        return Err(PartError::BadInput);
    }
    let part = Chain::new(alloc, loads)?;
    let Ends {
        walk: behind,
        ends: found,
    } = ends_on(alloc, &part, first, pes, *walk)?;
    *walk = behind;
    write_front(ends, &found);
    Ok(found.len())
}

// Writes these at the front of a list.
fn write_front<T: Copy>(list: &mut [T], front: &[T])
    requires room { length front.now ≤ length list.old }
    ensures written { take (length front.now) list.new ≡ front.now }
    ensures behind { drop (length front.now) list.new ≡ drop (length front.now) list.old }
    ensures same_room { length list.new ≡ length list.old }
{
    list[..front.len()].copy_from_slice(front);
}

/// Merges a part into runs within windows, given by their first elements and the last ones beside them, as [`merge`] does. It
/// returns the number of runs, and writes their loads and ends where both lists have room for all of them.
///
/// # Errors
///
/// [`PartError::BadInput`] where an element of the part has the number 2^32 - 1 or more, or the lists are no [`Windows`]; then
/// [`PartError::BadLoad`]; then [`PartError::OutOfMemory`].
pub fn merge_part<A: Allocator + Copy>(
    alloc: A,
    loads: &[Units],
    first: u32,
    lower: &[u32],
    upper: &[u32],
    run_loads: &mut [u64],
    run_ends: &mut [u32],
) -> Result<usize, PartError>
    ensures merged { IfOk result (λ count. (runs : List ℕ) × (ends : List ℕ) × (count ≡ length ends)
        × AreRunsWithin loads.now first lower.now upper.now runs ends
        × AreWritten runs ends run_loads.old run_ends.old run_loads.new run_ends.new) }
    ensures asked { OnOk result (IsMergeAsked loads.now first lower.now upper.now) }
    ensures light { OnOk result (sum loads.now < 2 ^ 63) }
    ensures refused { IfErr result (IsPartRefusal (IsMergeAsked loads.now first lower.now upper.now) loads.now) }
    ensures kept { OnErr result ((run_loads.new ≡ run_loads.old) × (run_ends.new ≡ run_ends.old)) }
{
    if !is_numbered(first, loads) {
        return Err(PartError::BadInput);
    }
    let Some(windows) = Windows::new(lower, upper) else {
        return Err(PartError::BadInput);
    };
    let part = Chain::new(alloc, loads)?;
    let runs = merge(alloc, &part, first, &windows)?;
    Ok(write_runs(&runs, run_loads, run_ends))
}

// Writes the runs where both lists have room for all of them, and returns their number.
fn write_runs<A: Allocator>(runs: &Runs<A>, loads: &mut [u64], ends: &mut [u32]) -> usize
    requires paired { length runs.now.loads.items ≡ length runs.now.ends.items }
    ensures counted { result ≡ length runs.now.ends.items }
    ensures written { AreWritten runs.now.loads.items runs.now.ends.items loads.old ends.old loads.new ends.new }
{
    let count = runs.ends.len();
    if count > loads.len() || count > ends.len() {
        return count;
    }
    write_front(loads, &runs.loads);
    write_front(ends, &runs.ends);
    count
}

/// Writes what a part has of the blocks between these cuts and of the ranges between these stops, as
/// [`loads_of_ranges`](crate::loads_of_ranges) finds it. No stops are the floor of a bottleneck of 0: then the loads of ranges
/// are all 0.
///
/// # Errors
///
/// [`PartError::BadInput`] for no blocks or more than [`PartLimits::PES`], where an element of the part has the number
/// 2^32 - 1 or more, or a list for the loads does not have `pes` entries; then [`PartError::BadLoad`]; then
/// [`PartError::OutOfMemory`].
pub fn weigh_part<A: Allocator>(
    alloc: A,
    loads: &[Units],
    first: u32,
    pes: u32,
    cuts: &[u32],
    stops: &[u32],
    block_loads: &mut [u64],
    fence_loads: &mut [u64],
) -> Result<(), PartError>
    ensures weigh { OnOk result ((bottleneck : ℕ)
        → ArePartWeights loads.now first pes (division_of {A = Unit {0}} bottleneck cuts.now stops.now) block_loads.new fence_loads.new) }
    ensures no_fence { OnOk result (stops.now ≡ [] → All (λ load. load ≡ 0) fence_loads.new) }
    ensures asked { OnOk result (IsWeightAsked loads.now first pes block_loads.old fence_loads.old) }
    ensures light { OnOk result (sum loads.now < 2 ^ 63) }
    ensures refused { IfErr result (IsPartRefusal (IsWeightAsked loads.now first pes block_loads.old fence_loads.old) loads.now) }
    ensures kept { OnErr result ((block_loads.new ≡ block_loads.old) × (fence_loads.new ≡ fence_loads.old)) }
{
    let blocks = pes as usize;
    if !is_block_count(pes)
        || !is_numbered(first, loads)
        || block_loads.len() != blocks
        || fence_loads.len() != blocks
    {
        return Err(PartError::BadInput);
    }
    let part = Chain::new(alloc, loads)?;
    write_block_loads(&part, first, cuts, block_loads);
    if stops.is_empty() {
        fence_loads.fill(0);
    } else {
        write_fence_loads(&part, first, stops, fence_loads);
    }
    Ok(())
}
