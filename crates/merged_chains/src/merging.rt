//! Merges the elements of a part that lie outside the windows into runs.

ghost use Rattle.std.specs.Prelude.{◌≡◌, ℕ, ◌+◌, ◌<◌, ◌≤◌, ◌^◌, IfOk, length, slice_index};
ghost use Rattle.merged_chains.specs.Merged.{RunOn};
ghost use Rattle.merged_chains.specs.Windows.{AreEnds, AreOrdered, IsFirstBehind, IsNextEnd, KeepsStarts};

use crate::windows::Windows;
use chain_partition::Chain;
use lb_snapshot::Units;
use std::alloc::{AllocError, Allocator, Global};

/// The runs of a part of a chain, in order. The runs of all parts, one part behind the other, are the merged chain; its
/// starts are 0, followed by the ends of all parts.
#[derive(Drop)]
#[derive_where(Debug)]
pub struct Runs<A: Allocator = Global> {
    /// The load of each run, in work units.
    pub loads: Vec<Units, A>,
    /// The element of the chain behind the last of each run.
    pub ends: Vec<u32, A>,
}

/// Merges a part of a chain, whose first element is number `first` of the chain. A run of the part ends before each
/// element that lies in a window, where the next run begins, and at the end of the part. The load of a run is two short
/// sums.
///
/// # Errors
///
/// Out of memory, where one of the two lists, with a number for each run, was refused.
pub fn merge<A: Allocator + Copy, B: Allocator>(
    alloc: A,
    part: &Chain<'_, B>,
    first: u32,
    windows: &Windows<'_>,
) -> Result<Runs<A>, AllocError>
    requires few { first + length part.now < 2 ^ 32 }
    ensures paired { IfOk result (λ r. length r.loads.items ≡ length r.ends.items) }
    ensures runs { IfOk result (λ r. RunOn part.now first r.loads.items r.ends.items) }
    ensures ends { IfOk result (λ r. AreEnds windows.now.lower windows.now.upper first (first + length part.now) (first + length part.now) r.ends.items) }
    ensures kept { IfOk result (λ r. KeepsStarts windows.now.lower windows.now.upper first (first + length part.now) r.ends.items) }
{
    let lower = windows.lower();
    let upper = windows.upper();
    let last = first + part.len() as u32;
    let mut loads = Vec::new(alloc);
    let mut ends = Vec::new(alloc);
    let mut window = 0;
    let mut begin = first;
    while begin < last {
        window = first_behind(upper, window, begin);
        let end = end_of_run(lower, upper, window, begin, last);
        let load = part.load((begin - first) as usize, (end - first) as usize);
        loads.push(load)?;
        ends.push(end)?;
        begin = end;
    }
    Ok(Runs { loads, ends })
}

// The first window, from this one on, whose last element lies behind the element; the number of windows where there is
// none.
fn first_behind(upper: &[u32], from: usize, element: u32) -> usize
    requires inside { from ≤ length upper.now }
    requires before { (k : ℕ) → k < from → slice_index upper.now k ≤ element }
    ensures first { IsFirstBehind upper.now element result }
{
    for window in from..upper.len() {
        if upper[window] > element {
            return window;
        }
    }
    upper.len()
}

// Where the run that begins at the element ends, by the first window behind it, in a part whose last run ends at `last`.
fn end_of_run(lower: &[u32], upper: &[u32], window: usize, element: u32, last: u32) -> u32
    requires ordered { AreOrdered lower.now upper.now }
    requires first { IsFirstBehind upper.now element window }
    requires before { element < last }
    ensures next { IsNextEnd lower.now upper.now element last result }
{
    if window == lower.len() {
        return last;
    }
    lower[window].max(element + 1).min(last)
}
