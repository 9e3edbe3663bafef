//! A chain, with all that a search needs to know of a place. Values outside the chain are 0, so that every call has an answer.

ghost use Rattle.std.specs.Prelude.{◌<◌, ◌^◌, length};

use chare_index::Pe;
use lb_snapshot::Units;
use std::alloc::{AllocError, Allocator};

/// A chain of elements, the runs of them on each PE, and the widest blocks within a limit.
#[derive(Drop)]
pub(crate) struct SearchedChain<'a, A: Allocator> {
    /// The place behind the last element.
    pub(crate) end: u32,
    /// The bytes of the elements before each place.
    pub(crate) before: Vec<u64, A>,
    /// For each place the first place at which a block within the limit may begin that ends there.
    pub(crate) starts: Vec<u32, A>,
    /// The run of the element at each place; behind the last element, the number of runs.
    pub(crate) runs: Vec<u32, A>,
    /// Where each run begins, and where the last one ends.
    pub(crate) begins: &'a [u32],
}

// The item at a place, and 0 outside.
fn item(list: &[u32], place: u32) -> u32 {
    match list.get(place as usize) {
        Some(&item) => item,
        None => 0,
    }
}

// The bytes before a place, and 0 outside.
fn bytes_before(before: &[u64], place: u32) -> u64 {
    match before.get(place as usize) {
        Some(&bytes) => bytes,
        None => 0,
    }
}

/// The bytes of the elements y..x.
pub(crate) fn bytes_of<A: Allocator>(chain: &SearchedChain<'_, A>, y: u32, x: u32) -> u64 {
    bytes_before(&chain.before, x).saturating_sub(bytes_before(&chain.before, y))
}

/// The run of a place.
pub(crate) fn run_at<A: Allocator>(chain: &SearchedChain<'_, A>, x: u32) -> u32 {
    item(&chain.runs, x)
}

/// Where a run begins.
pub(crate) fn begin_of<A: Allocator>(chain: &SearchedChain<'_, A>, run: u32) -> u32 {
    item(chain.begins, run)
}

/// The bytes of a run.
pub(crate) fn run_bytes<A: Allocator>(chain: &SearchedChain<'_, A>, run: u32) -> u64 {
    bytes_of(
        chain,
        begin_of(chain, run),
        begin_of(chain, run.saturating_add(1)),
    )
}

/// The first place at which a block within the limit may begin that ends at x.
pub(crate) fn start_of<A: Allocator>(chain: &SearchedChain<'_, A>, x: u32) -> u32 {
    item(&chain.starts, x)
}

/// The last place at which a block within the limit may end that begins at y.
pub(crate) fn farthest<A: Allocator>(chain: &SearchedChain<'_, A>, y: u32) -> u32 {
    let mut last = y;
    for x in y..chain.end.saturating_add(1) {
        if start_of(chain, x) > y {
            return last;
        }
        last = x;
    }
    last
}

/// A chain of these elements, where the present cuts divide them into runs.
///
/// # Errors
///
/// Memory was refused.
pub(crate) fn chain_of<'a, A: Allocator + Copy>(
    alloc: A,
    loads: &[Units],
    sizes: &[(u32, Pe)],
    begins: &'a [u32],
    limit: u64,
) -> Result<SearchedChain<'a, A>, AllocError>
    requires few { length loads.now < 2 ^ 32 }
{
    Ok(SearchedChain {
        end: loads.len() as u32,
        before: sums_of(alloc, sizes)?,
        starts: starts_within(alloc, loads, limit)?,
        runs: runs_of(alloc, loads.len() as u32, begins)?,
        begins,
    })
}

// The bytes before each place.
fn sums_of<A: Allocator>(alloc: A, sizes: &[(u32, Pe)]) -> Result<Vec<u64, A>, AllocError> {
    let mut sums = Vec::new(alloc);
    let mut sum: u64 = 0;
    sums.push(sum)?;
    for &(bytes, _) in sizes {
        sum = sum.saturating_add(u64::from(bytes));
        sums.push(sum)?;
    }
    Ok(sums)
}

// The widest block within the limit that ends somewhere: where it begins, and its load.
#[derive(Clone, Copy)]
struct Widest {
    start: u32,
    weight: u64,
}

// The widest block that ends at the next place, where an element of this load joins.
fn widened(loads: &[Units], widest: Widest, load: u64, limit: u64) -> Widest {
    let mut start = widest.start;
    let mut weight = widest.weight.saturating_add(load);
    for &first in loads.iter().skip(start as usize) {
        if weight <= limit {
            break;
        }
        weight = weight.saturating_sub(first);
        start = start.saturating_add(1);
    }
    Widest { start, weight }
}

// For each place the first place at which a block within the limit may begin that ends there.
fn starts_within<A: Allocator>(
    alloc: A,
    loads: &[Units],
    limit: u64,
) -> Result<Vec<u32, A>, AllocError> {
    let mut starts = Vec::new(alloc);
    let mut widest = Widest {
        start: 0,
        weight: 0,
    };
    starts.push(0)?;
    for &load in loads {
        widest = widened(loads, widest, load, limit);
        starts.push(widest.start)?;
    }
    Ok(starts)
}

// The run of each place.
fn runs_of<A: Allocator>(alloc: A, end: u32, begins: &[u32]) -> Result<Vec<u32, A>, AllocError> {
    let mut runs = Vec::new(alloc);
    let mut run: u32 = 0;
    for x in 0..end.saturating_add(1) {
        if x >= item(begins, run.saturating_add(1)) {
            run = run.saturating_add(1);
        }
        runs.push(run)?;
    }
    Ok(runs)
}
