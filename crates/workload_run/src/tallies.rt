//! The tallies of a workload.

ghost use Rattle.std.specs.Prelude.{◌≡◌, ◌<◌, All, IfOk, OnOk, length, map, slice_index};
ghost use Rattle.workload.specs.Text.{IsWithin};
ghost use Rattle.workload_run.specs.Tallies.{tallies_of, tally_of};

use std::alloc::{AllocError, Allocator};
use tally::Tally;
use workload::Workload;

/// The tallies of a workload, in order: tally `i` has amount `i` of each line, and the padding.
///
/// # Errors
///
/// Memory was refused.
pub fn tallies_of<A: Allocator + Copy>(
    alloc: A,
    workload: &Workload<A>,
) -> Result<Vec<Tally<A>, A>, AllocError>
    requires within { IsWithin workload.now }
    ensures value { IfOk result (λ tallies. tallies.items ≡ tallies_of workload.now) }
{
    let mut tallies = Vec::with_capacity(alloc, workload.chares as usize)?;
    let mut amounts = Vec::with_capacity(alloc, workload.rounds as usize)?;
    for i in 0..workload.chares {
        tallies.push(tally_of(alloc, workload, i, &mut amounts)?)?;
    }
    Ok(tallies)
}

// Tally `i` of a workload. The list is a buffer for its amounts.
fn tally_of<A: Allocator + Copy>(
    alloc: A,
    workload: &Workload<A>,
    i: u32,
    amounts: &mut Vec<u32, A>,
) -> Result<Tally<A>, AllocError>
    requires within { IsWithin workload.now }
    requires chare { i < workload.now.chares }
    ensures value { IfOk result (λ tally. tally ≡ tally_of workload.now i) }
{
    collect(&workload.amounts, i as usize, amounts)?;
    match Tally::with_amounts(alloc, amounts, workload.pad as usize) {
        Ok(tally) => Ok(tally),
        Err(_) => Err(AllocError),
    }
}

// Collects the amount at an index of each line.
fn collect<A: Allocator>(
    lines: &[Vec<u32, A>],
    i: usize,
    amounts: &mut Vec<u32, A>,
) -> Result<(), AllocError>
    requires inside { All (λ line. i < length line.items) lines.now }
    ensures collected { OnOk result (amounts.new.items ≡ map (λ line. slice_index line.items i) lines.now) }
{
    amounts.clear();
    for line in lines {
        amounts.push(line[i])?;
    }
    Ok(())
}
