//! Dividing a chain whose consecutive parts lie on different ranks, for programs in C that have their own messages. A part is
//! the list of its loads, in work units, and the number of its first element, `first`. No rank sees all elements, and what the
//! ranks exchange are a few numbers:
//!
//! 1. [`tezgumi_part_bounds`]: two limits that enclose the least bottleneck, by the total and the greatest of all loads.
//! 2. [`tezgumi_part_limits`] writes limits to try. [`tezgumi_part_walk`] takes the walks within them from part to part, in the
//!    order of the chain, and [`tezgumi_part_narrow`] narrows the bounds by where they are behind the last part. This step may
//!    be repeated, or left out.
//! 3. [`tezgumi_part_ends`] takes one walk from part to part and writes the ends of its blocks: once within the lower bound
//!    less 1, and once within the upper bound.
//! 4. [`tezgumi_part_merge`] merges a part into runs; those of all parts, in order, are the merged chain. [`tezgumi_divide`]
//!    divides it, and the first element of the run in place of each cut and stop gives those of the chain.
//! 5. [`tezgumi_part_loads`]: what a part has of each block and of each range of the fence. The ranks add these up, and
//!    [`tezgumi_check_division`] checks the division by the sums. Whatever went wrong before, a 0 proves it least.
//! 6. [`tezgumi_part_held`]: how many bytes a part has of each block. By the table of all parts [`tezgumi_name`] names the blocks,
//!    and [`tezgumi_check_names`] checks the names.
//!
//! A call returns 0, or -1 for bad input, then -3 where the loads add up to 2^63 or more, then -2 where memory was refused. After
//! a refusal nothing was written. `pes` is the number of blocks, 1 to 65,536; [`tezgumi_name`] takes up to 4,096, and
//! [`tezgumi_part_held`] and [`tezgumi_check_names`] refuse no number as too great.

ghost use Rattle.std.specs.Prelude.{◌≡◌, ◌≢◌, ◌↔◌, ◌⊎◌, ◌<◌, ◌≤◌, ◌+◌, ◌-◌, ◌/◌, ◌%◌, ◌^◌, ℕ, [], All, IsTrue, List, length, max, min, sum, take, drop, pos, negsuc};
ghost use Rattle.block_assignment.specs.Table.{AreWithin};
ghost use Rattle.chain_partition.specs.Chosen.{IsChosen};
ghost use Rattle.chain_partition.specs.Search.{Enclose};
ghost use Rattle.lb_certificates.specs.Certificate.{IsCertified};
ghost use Rattle.lb_certificates.specs.Chain.{IsLeastDivision};
ghost use Rattle.lb_certificates.specs.Flaws.{flaw_number, HasFlaw, IsFirst};
ghost use Rattle.lb_certificates.specs.Held.{held_cost, held_moved, WhereHeld};
ghost use Rattle.lb_certificates.specs.Naming.{bytes_moved, IsCheapest, IsFirstCheapest, IsLeastNaming, Proves};
ghost use Rattle.lb_certificates.specs.declared.flaw.Flaw.{Flaw};
ghost use Rattle.lb_capi.specs.Parts.{part_status, walk_of, AreTried, IsHeldAsked};
ghost use Rattle.merged_chains.specs.Lists.{division_of, AreRunsWithin, AreWritten, IsBlockCount, IsCheckAsked, IsDivisionAsked, IsEndAsked, IsMergeAsked, IsNamesAsked, IsTableAsked, IsWalkAsked, IsWeightAsked};
ghost use Rattle.merged_chains.specs.Named.{IsFirstNamesFlaw, AreRightBy};
ghost use Rattle.merged_chains.specs.Narrowing.{walk_at, AreBetween, AreSpread, AreWalked, IsLowered, IsRaised};
ghost use Rattle.merged_chains.specs.Totals.{IsGreatest};
ghost use Rattle.merged_chains.specs.Walks.{EndsAt, WalksOn};
ghost use Rattle.merged_chains.specs.Weights.{ArePartWeights, AreRangeLoads, HasWeightFlaw, IsWeighed, WhereWeights};

use lb_lists::number_of;
use merged_chains::{
    Bounds, PartError, PartLimits, Walk, bounds_by_totals, check_lists, check_names, divide_into,
    end_part, limits_between, merge_part, name_table, narrow, walk_part, weigh_part,
    write_block_bytes,
};
use std::alloc::Global;

// The status of a refusal.
pub(crate) fn part_status_of(error: PartError) -> i32
    ensures { result ≡ part_status error }
{
    match error {
        PartError::BadInput => -1,
        PartError::OutOfMemory => -2,
        PartError::BadLoad => -3,
    }
}

// Whether a chain may be divided into this number of blocks.
fn is_block_count(pes: u32) -> bool
    ensures { IsTrue result ↔ IsBlockCount pes }
{
    1 <= pes && pes <= PartLimits::PES
}

/// Writes two limits that enclose the least bottleneck of a chain, by the total of its loads and the greatest of them: no limit
/// below `low` can hold all elements in `pes` blocks, and `high` can. It returns -1 where `pes` is not 1 to 65,536, and -3 where
/// the total is 2^63 or more.
#[unsafe(no_mangle)]
pub extern "C" fn tezgumi_part_bounds(
    total: u64,
    greatest: u64,
    pes: u32,
    low: &mut u64,
    high: &mut u64,
) -> i32
    ensures statuses { (result ≡ pos 0) ⊎ (result ≡ negsuc 0) ⊎ (result ≡ negsuc 2) }
    ensures low { result ≡ pos 0 → low.new ≡ max greatest (total / pes + min 1 (total % pes)) }
    ensures high { result ≡ pos 0 → high.new ≡ min (total / pes + greatest) (2 ^ 64 - 1) }
    ensures encloses { result ≡ pos 0 → (loads : List ℕ) → sum loads ≡ total → IsGreatest loads greatest → Enclose loads pes low.new high.new }
    ensures input { result ≡ negsuc 0 ↔ ¬ (IsBlockCount pes) }
    ensures load { result ≡ negsuc 2 ↔ (IsBlockCount pes × (2 ^ 63 ≤ total)) }
    ensures kept { result ≢ pos 0 → (low.new ≡ low.old) × (high.new ≡ high.old) }
{
    if !is_block_count(pes) {
        return -1;
    }
    if total >= 1 << 63 {
        return -3;
    }
    let bounds = bounds_by_totals(total, greatest, pes);
    *low = bounds.low;
    *high = bounds.high;
    0
}

/// Writes limits for walks to try at once, in ascending order, from `low` on and below `high`, and their number: as many as the
/// list has room for, 64 say, or all there are. They are spread evenly: walks within 64 limits leave about a 65th of the numbers
/// between the bounds. It returns -1 where `low` is above `high`.
#[unsafe(no_mangle)]
pub extern "C" fn tezgumi_part_limits(
    low: u64,
    high: u64,
    limits: &mut [u64],
    limits_count: &mut usize,
) -> i32
    ensures statuses { (result ≡ pos 0) ⊎ (result ≡ negsuc 0) }
    ensures counted { result ≡ pos 0 → limits_count.new ≡ min (length limits.old) (high - low) }
    ensures spread { result ≡ pos 0 → AreSpread low high (take limits_count.new limits.new) }
    ensures between { result ≡ pos 0 → AreBetween low high (take limits_count.new limits.new) }
    ensures behind { result ≡ pos 0 → drop limits_count.new limits.new ≡ drop limits_count.new limits.old }
    ensures input { result ≡ negsuc 0 ↔ (high < low) }
    ensures kept { result ≢ pos 0 → (limits.new ≡ limits.old) × (limits_count.new ≡ limits_count.old) }
{
    if low > high {
        return -1;
    }
    *limits_count = limits_between(Bounds { low, high }, limits);
    0
}

/// Takes walks over a part, all at once: walk `i` has the limit `limits[i]`, has closed `closed[i]` blocks in the parts before,
/// and its open block weighs `filled[i]` so far. Before the first part both are 0; from each part to the next the ranks hand them
/// on. Each block takes as many elements as fit within the limit. It returns -1 where `pes` is not 1 to 65,536, there are 2^32
/// loads or more, or the three lists differ in length.
#[unsafe(no_mangle)]
pub extern "C" fn tezgumi_part_walk(
    alloc: Global,
    loads: &[u64],
    pes: u32,
    limits: &[u64],
    closed: &mut [u32],
    filled: &mut [u64],
) -> i32
    ensures statuses { (result ≡ pos 0) ⊎ (result ≡ negsuc 0) ⊎ (result ≡ negsuc 1) ⊎ (result ≡ negsuc 2) }
    ensures walked { result ≡ pos 0 → (i : ℕ) → i < length limits.now
        → WalksOn loads.now pes (walk_at limits.now closed.old filled.old i) (walk_at limits.now closed.new filled.new i) }
    ensures input { result ≡ negsuc 0 ↔ ¬ (IsWalkAsked loads.now pes limits.now closed.old filled.old) }
    ensures load { result ≡ negsuc 2 ↔ (IsWalkAsked loads.now pes limits.now closed.old filled.old × (2 ^ 63 ≤ sum loads.now)) }
    ensures kept { result ≢ pos 0 → (closed.new ≡ closed.old) × (filled.new ≡ filled.old) }
{
    match walk_part(alloc, loads, pes, limits, closed, filled) {
        Ok(()) => 0,
        Err(error) => part_status_of(error),
    }
}

/// Narrows the bounds by limits that were tried: `closed[i]` is the number of blocks that the walk within `limits[i]` had closed
/// behind the last part. Where that is `pes`, the limit is too low: the lower bound is then above it. Otherwise the limit can
/// hold all elements, and the upper bound is no higher. It returns -1 where `pes` is not 1 to 65,536, the lists differ in length,
/// or a limit is 2^64 - 1.
#[unsafe(no_mangle)]
pub extern "C" fn tezgumi_part_narrow(
    pes: u32,
    limits: &[u64],
    closed: &[u32],
    low: &mut u64,
    high: &mut u64,
) -> i32
    ensures statuses { (result ≡ pos 0) ⊎ (result ≡ negsuc 0) }
    ensures low { result ≡ pos 0 → IsRaised pes (length limits.now) limits.now closed.now low.old low.new }
    ensures high { result ≡ pos 0 → IsLowered pes (length limits.now) limits.now closed.now high.old high.new }
    ensures encloses { result ≡ pos 0 → (loads : List ℕ) → AreWalked loads pes limits.now closed.now → Enclose loads pes low.old high.old
        → Enclose loads pes low.new high.new }
    ensures input { result ≡ negsuc 0 ↔ ¬ (AreTried pes limits.now closed.now) }
    ensures kept { result ≢ pos 0 → (low.new ≡ low.old) × (high.new ≡ high.old) }
{
    if !is_block_count(pes)
        || closed.len() != limits.len()
        || !limits.iter().all(|&limit| limit < u64::MAX)
    {
        return -1;
    }
    let bounds = Bounds {
        low: *low,
        high: *high,
    };
    let narrowed = narrow(bounds, pes, limits, closed);
    *low = narrowed.low;
    *high = narrowed.high;
    0
}

/// Takes one walk over a part, as [`tezgumi_part_walk`] does, and writes the ends of the blocks that it closes there, as numbers
/// of elements of the chain, and how many they are. It returns -1 where `pes` is not 1 to 65,536, an element of the part has the
/// number 2^32 - 1 or more, or there is no room for `pes` ends.
#[unsafe(no_mangle)]
pub extern "C" fn tezgumi_part_ends(
    alloc: Global,
    loads: &[u64],
    first: u32,
    pes: u32,
    limit: u64,
    closed: &mut u32,
    filled: &mut u64,
    ends: &mut [u32],
    ends_count: &mut usize,
) -> i32
    ensures statuses { (result ≡ pos 0) ⊎ (result ≡ negsuc 0) ⊎ (result ≡ negsuc 1) ⊎ (result ≡ negsuc 2) }
    ensures walked { result ≡ pos 0
        → EndsAt loads.now pes (walk_of limit closed.old filled.old) first (take ends_count.new ends.new) (walk_of limit closed.new filled.new) }
    ensures counted { result ≡ pos 0 → ends_count.new ≤ pes }
    ensures few { result ≡ pos 0 → closed.new ≤ pes }
    ensures fits { filled.old ≤ limit → filled.new ≤ limit }
    ensures each { result ≡ pos 0 → closed.old ≤ pes → closed.old + ends_count.new ≡ closed.new }
    ensures inside { result ≡ pos 0 → All (λ end. (first ≤ end) × (end ≤ first + length loads.now)) (take ends_count.new ends.new) }
    ensures behind { result ≡ pos 0 → drop ends_count.new ends.new ≡ drop ends_count.new ends.old }
    ensures input { result ≡ negsuc 0 ↔ ¬ (IsEndAsked loads.now first pes ends.old) }
    ensures load { result ≡ negsuc 2 ↔ (IsEndAsked loads.now first pes ends.old × (2 ^ 63 ≤ sum loads.now)) }
    ensures kept { result ≢ pos 0 → (closed.new ≡ closed.old) × (filled.new ≡ filled.old) × (ends.new ≡ ends.old) × (ends_count.new ≡ ends_count.old) }
{
    let mut walk = Walk {
        limit,
        closed: *closed,
        filled: *filled,
    };
    match end_part(alloc, loads, first, pes, &mut walk, ends) {
        Ok(count) => {
            *closed = walk.closed;
            *filled = walk.filled;
            *ends_count = count;
            0
        }
        Err(error) => part_status_of(error),
    }
}

/// Merges a part into runs of consecutive elements. Window `k` is the elements from `lower[k]` to `upper[k]`, both included: the
/// ends of block `k` in the two walks. A run begins at each element of a window, and at the first element of the part. It writes
/// the number of runs, and for each run its load and the element behind its last one, where both lists have the capacity for all
/// of them. It returns -1 where an element of the part has the number 2^32 - 1 or more, or the windows are not in order: the
/// lists differ in length, a bound is below the one before it, or a window ends before it begins.
#[unsafe(no_mangle)]
pub extern "C" fn tezgumi_part_merge(
    alloc: Global,
    loads: &[u64],
    first: u32,
    lower: &[u32],
    upper: &[u32],
    run_loads: &mut [u64],
    run_ends: &mut [u32],
    runs_count: &mut usize,
) -> i32
    ensures statuses { (result ≡ pos 0) ⊎ (result ≡ negsuc 0) ⊎ (result ≡ negsuc 1) ⊎ (result ≡ negsuc 2) }
    ensures merged { result ≡ pos 0 → (runs : List ℕ) × (ends : List ℕ) × (runs_count.new ≡ length ends)
        × AreRunsWithin loads.now first lower.now upper.now runs ends
        × AreWritten runs ends run_loads.old run_ends.old run_loads.new run_ends.new }
    ensures input { result ≡ negsuc 0 ↔ ¬ (IsMergeAsked loads.now first lower.now upper.now) }
    ensures load { result ≡ negsuc 2 ↔ (IsMergeAsked loads.now first lower.now upper.now × (2 ^ 63 ≤ sum loads.now)) }
    ensures kept { result ≢ pos 0 → (run_loads.new ≡ run_loads.old) × (run_ends.new ≡ run_ends.old) × (runs_count.new ≡ runs_count.old) }
{
    match merge_part(alloc, loads, first, lower, upper, run_loads, run_ends) {
        Ok(count) => {
            *runs_count = count;
            0
        }
        Err(error) => part_status_of(error),
    }
}

/// Divides a chain into `pes` blocks so that the heaviest is as light as it can be, and writes its load, the cuts, and the stops
/// of the fence that proves it, with their number: `pes + 1`, or 0 where the bottleneck is 0. The chain may be any, of up to
/// 2^32 - 1 elements, merged or not. It returns -1 where `pes` is not 1 to 65,536, there are 2^32 loads or more, or the lists for
/// the cuts and the stops have not `pes + 1` entries.
#[unsafe(no_mangle)]
pub extern "C" fn tezgumi_divide(
    alloc: Global,
    loads: &[u64],
    pes: u32,
    bottleneck: &mut u64,
    cuts: &mut [u32],
    stops: &mut [u32],
    stops_count: &mut usize,
) -> i32
    ensures statuses { (result ≡ pos 0) ⊎ (result ≡ negsuc 0) ⊎ (result ≡ negsuc 1) ⊎ (result ≡ negsuc 2) }
    ensures chosen { result ≡ pos 0
        → IsChosen loads.now pes (division_of {A = Unit {0}} bottleneck.new cuts.new (take stops_count.new stops.new)) }
    ensures counted { result ≡ pos 0 → stops_count.new ≤ pes + 1 }
    ensures behind { result ≡ pos 0 → drop stops_count.new stops.new ≡ drop stops_count.new stops.old }
    ensures input { result ≡ negsuc 0 ↔ ¬ (IsDivisionAsked loads.now pes cuts.old stops.old) }
    ensures load { result ≡ negsuc 2 ↔ (IsDivisionAsked loads.now pes cuts.old stops.old × (2 ^ 63 ≤ sum loads.now)) }
    ensures kept { result ≢ pos 0
        → (bottleneck.new ≡ bottleneck.old) × (cuts.new ≡ cuts.old) × (stops.new ≡ stops.old) × (stops_count.new ≡ stops_count.old) }
{
    match divide_into(alloc, loads, pes, cuts, stops) {
        Ok(divided) => {
            *bottleneck = divided.bottleneck;
            *stops_count = divided.stops;
            0
        }
        Err(error) => part_status_of(error),
    }
}

/// Writes what a part has of a division: the load of each block, and of each range from one stop to the next, both included. The
/// sums over all parts are what [`tezgumi_check_division`] takes. The cuts and the stops may be any lists; where there are no
/// stops, the loads of ranges are 0. It returns -1 where `pes` is not 1 to 65,536, an element of the part has the number 2^32 - 1
/// or more, or the lists for the loads have not `pes` entries.
#[unsafe(no_mangle)]
pub extern "C" fn tezgumi_part_loads(
    alloc: Global,
    loads: &[u64],
    first: u32,
    pes: u32,
    cuts: &[u32],
    stops: &[u32],
    block_loads: &mut [u64],
    fence_loads: &mut [u64],
) -> i32
    ensures statuses { (result ≡ pos 0) ⊎ (result ≡ negsuc 0) ⊎ (result ≡ negsuc 1) ⊎ (result ≡ negsuc 2) }
    ensures weigh { result ≡ pos 0 → (bottleneck : ℕ)
        → ArePartWeights loads.now first pes (division_of {A = Unit {0}} bottleneck cuts.now stops.now) block_loads.new fence_loads.new }
    ensures no_fence { result ≡ pos 0 → stops.now ≡ [] → All (λ load. load ≡ 0) fence_loads.new }
    ensures input { result ≡ negsuc 0 ↔ ¬ (IsWeightAsked loads.now first pes block_loads.old fence_loads.old) }
    ensures load { result ≡ negsuc 2 ↔ (IsWeightAsked loads.now first pes block_loads.old fence_loads.old × (2 ^ 63 ≤ sum loads.now)) }
    ensures kept { result ≢ pos 0 → (block_loads.new ≡ block_loads.old) × (fence_loads.new ≡ fence_loads.old) }
{
    match weigh_part(
        alloc,
        loads,
        first,
        pes,
        cuts,
        stops,
        block_loads,
        fence_loads,
    ) {
        Ok(()) => 0,
        Err(error) => part_status_of(error),
    }
}

/// Checks a division of `elements` elements by the loads of its blocks and of the ranges of its fence alone, whoever added them
/// up: returns 0 where it is right and its fence proves it least, and otherwise the number of its first flaw, as `tezgumi_check`
/// numbers them. The cuts and the stops may be any lists; no stops are the floor of a bottleneck of 0. It returns -1 where `pes` is
/// not 1 to 65,536 or there are not `pes` loads of each kind, and -2 where memory for copies of the cuts and the stops was refused.
#[unsafe(no_mangle)]
pub extern "C" fn tezgumi_check_division(
    alloc: Global,
    elements: u32,
    pes: u32,
    bottleneck: u64,
    cuts: &[u32],
    stops: &[u32],
    block_loads: &[u64],
    fence_loads: &[u64],
) -> i32
    ensures weighed { result ≡ pos 0
        → IsWeighed elements pes (division_of {A = Unit {0}} bottleneck cuts.now stops.now) block_loads.now fence_loads.now }
    ensures least { WhereWeights elements pes (division_of {A = Unit {0}} bottleneck cuts.now stops.now) block_loads.now fence_loads.now
        (λ loads. result ≡ pos 0 → IsLeastDivision loads pes bottleneck cuts.now) }
    ensures certified { WhereWeights elements pes (division_of {A = Unit {0}} bottleneck cuts.now stops.now) block_loads.now fence_loads.now
        (λ loads. result ≡ pos 0 → IsCertified loads pes (division_of {A = Unit {0}} bottleneck cuts.now stops.now)) }
    ensures flawed { (n : ℕ) → result ≡ pos (n + 1) → (flaw : Flaw) × (flaw_number flaw ≡ n + 1)
        × IsFirst (HasWeightFlaw elements pes (division_of {A = Unit {0}} bottleneck cuts.now stops.now) block_loads.now fence_loads.now) flaw }
    ensures flaw_of_division { WhereWeights elements pes (division_of {A = Unit {0}} bottleneck cuts.now stops.now) block_loads.now fence_loads.now
        (λ loads. (n : ℕ) → result ≡ pos (n + 1) → (flaw : Flaw) × (flaw_number flaw ≡ n + 1)
        × IsFirst (HasFlaw loads pes (division_of {A = Unit {0}} bottleneck cuts.now stops.now)) flaw) }
    ensures refusals { (n : ℕ) → result ≡ negsuc n → n < 2 }
    ensures input { result ≡ negsuc 0 ↔ ¬ (IsCheckAsked pes block_loads.now fence_loads.now) }
{
    match check_lists(
        alloc,
        elements,
        pes,
        bottleneck,
        cuts,
        stops,
        block_loads,
        fence_loads,
    ) {
        Ok(None) => 0,
        Ok(Some(flaw)) => i32::from(number_of(flaw)),
        Err(error) => part_status_of(error),
    }
}

/// Writes how many bytes a part has of each block between these cuts: its elements' packed sizes. On each rank they are a column
/// of the table that [`tezgumi_name`] takes. It returns -1 where an element of the part has the number 2^32 - 1 or more, or there
/// is not one cut more than entries in `held`.
#[unsafe(no_mangle)]
pub extern "C" fn tezgumi_part_held(
    bytes: &[u32],
    first: u32,
    cuts: &[u32],
    held: &mut [u64],
) -> i32
    ensures statuses { (result ≡ pos 0) ⊎ (result ≡ negsuc 0) }
    ensures held { result ≡ pos 0 → AreRangeLoads bytes.now first (length held.old) 0 cuts.now held.new }
    ensures input { result ≡ negsuc 0 ↔ ¬ (IsHeldAsked bytes.now first cuts.now held.old) }
    ensures kept { result ≢ pos 0 → held.new ≡ held.old }
{
    if bytes.len() > (u32::MAX - first) as usize || cuts.len() as u64 != held.len() as u64 + 1 {
        return -1;
    }
    write_block_bytes(bytes, first, cuts, held);
    0
}

/// Names the blocks of a division by a table of the bytes of each block on each rank, so that the fewest bytes move; of such
/// names it takes the first in dictionary order. `held` has `pes` rows of `pes` numbers: row `b` has the bytes of block `b` on each
/// rank. Those of rank `r` are what [`tezgumi_part_held`] writes there, at `b * pes + r`. It writes the name of each block, prices
/// that prove the names cheapest, and the bytes that move. It returns -1 where `pes` is not 1 to 4,096, a list does not have the length
/// that it needs, or all bytes add up to more than 2^47.
#[unsafe(no_mangle)]
pub extern "C" fn tezgumi_name(
    alloc: Global,
    held: &[u64],
    pes: u32,
    names: &mut [u32],
    block_prices: &mut [i64],
    pe_prices: &mut [i64],
    moved: &mut u64,
) -> i32
    ensures statuses { (result ≡ pos 0) ⊎ (result ≡ negsuc 0) ⊎ (result ≡ negsuc 1) }
    ensures least { result ≡ pos 0 → IsFirstCheapest pes (held_moved pes held.now) names.new }
    ensures moved { result ≡ pos 0 → moved.new ≡ held_moved pes held.now names.new }
    ensures proved { result ≡ pos 0 → Proves pes (held_cost pes held.now) moved.new block_prices.new pe_prices.new }
    ensures bounded { result ≡ pos 0 → (most : ℕ) → ((b p : ℕ) → b < pes → p < pes → held_cost pes held.now b p ≤ most)
        → AreWithin most block_prices.new pe_prices.new }
    ensures of_blocks { WhereHeld pes held.now (λ sizes cuts. result ≡ pos 0 → IsLeastNaming sizes cuts pes names.new) }
    ensures moved_of_blocks { WhereHeld pes held.now (λ sizes cuts. result ≡ pos 0 → moved.new ≡ bytes_moved sizes cuts names.new) }
    ensures input { result ≡ negsuc 0 ↔ ¬ (IsNamesAsked pes held.now names.old block_prices.old pe_prices.old) }
    ensures kept { result ≢ pos 0
        → (names.new ≡ names.old) × (block_prices.new ≡ block_prices.old) × (pe_prices.new ≡ pe_prices.old) × (moved.new ≡ moved.old) }
{
    match name_table(alloc, held, pes, names, block_prices, pe_prices) {
        Ok(found) => {
            *moved = found;
            0
        }
        Err(error) => part_status_of(error),
    }
}

/// Checks names of the blocks of such a table, with the prices that are to prove them cheapest and the bytes that are said to move,
/// whoever found them: returns 0 where all is right, and otherwise the number of the first flaw, as `tezgumi_check` numbers them.
/// The names and the prices may be any lists. It returns -1 where `pes` is 0 or `held` has not `pes` rows of `pes` numbers, and -2
/// where memory for copies of the names and the prices was refused.
#[unsafe(no_mangle)]
pub extern "C" fn tezgumi_check_names(
    alloc: Global,
    held: &[u64],
    pes: u32,
    names: &[u32],
    block_prices: &[i64],
    pe_prices: &[i64],
    moved: u64,
) -> i32
    ensures right { result ≡ pos 0 → AreRightBy pes held.now names.now block_prices.now pe_prices.now moved }
    ensures cheapest { WhereHeld pes held.now (λ sizes cuts. result ≡ pos 0 → IsCheapest sizes cuts pes names.now) }
    ensures moved_of_blocks { WhereHeld pes held.now (λ sizes cuts. result ≡ pos 0 → moved ≡ bytes_moved sizes cuts names.now) }
    ensures flawed { (n : ℕ) → result ≡ pos (n + 1) → (flaw : Flaw) × (flaw_number flaw ≡ n + 1)
        × IsFirstNamesFlaw pes held.now names.now block_prices.now pe_prices.now moved flaw }
    ensures refusals { (n : ℕ) → result ≡ negsuc n → n < 2 }
    ensures input { result ≡ negsuc 0 ↔ ¬ (IsTableAsked pes held.now) }
{
    match check_names(alloc, held, pes, names, block_prices, pe_prices, moved) {
        Ok(None) => 0,
        Ok(Some(flaw)) => i32::from(number_of(flaw)),
        Err(error) => part_status_of(error),
    }
}
