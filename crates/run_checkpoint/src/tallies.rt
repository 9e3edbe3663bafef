//! The chares of a workload as they are after some of its rounds.

ghost use Rattle.std.specs.Prelude.{◌≡◌, ◌≤◌, ◌<◌, All, IfOk, OnOk, length, map, replicate, slice_index, sum, true};
ghost use Rattle.run_checkpoint.specs.Tallies.{sender, tallies_after, tally_after};
ghost use Rattle.tally.specs.Tallies.{is_tally};
ghost use Rattle.tally.specs.declared.tally_limits.TheConstants.TallyLimits.{AMOUNTS};
ghost use Rattle.workload.specs.Text.{IsWithin};

use pup_pack::{Bytes, Items};
use std::alloc::{AllocError, Allocator};
use tally::Tally;
use workload::Workload;

/// The tallies of a workload after this many of its rounds, in order. Tally `i` has posted and got as many amounts, and its sum is
/// that of the first this many amounts of chare `i - 1`, or of the last one for chare 0. Its own amounts are amount `i` of each
/// line, and it has the padding of the workload.
///
/// # Errors
///
/// Memory was refused.
pub fn tallies_after<A: Allocator + Copy>(
    alloc: A,
    workload: &Workload<A>,
    rounds: u32,
) -> Result<Vec<Tally<A>, A>, AllocError>
    requires within { IsWithin workload.now }
    requires rounds { rounds ≤ workload.now.rounds }
    ensures value { IfOk result (λ tallies. tallies.items ≡ tallies_after workload.now rounds) }
{
    let mut tallies = Vec::with_capacity(alloc, workload.chares as usize)?;
    for i in 0..workload.chares {
        tallies.push(tally_after(alloc, workload, rounds, i)?)?;
    }
    Ok(tallies)
}

// Tally `i` of a workload after this many of its rounds.
fn tally_after<A: Allocator + Copy>(
    alloc: A,
    workload: &Workload<A>,
    rounds: u32,
    i: u32,
) -> Result<Tally<A>, AllocError>
    requires within { IsWithin workload.now }
    requires rounds { rounds ≤ workload.now.rounds }
    requires chare { i < workload.now.chares }
    ensures value { IfOk result (λ tally. tally ≡ tally_after workload.now rounds i) }
{
    let mut amounts = Vec::with_capacity(alloc, workload.rounds as usize)?;
    collect(&workload.amounts, i as usize, &mut amounts)?;
    let from = sender(workload.chares, i);
    let sum = sum_of(&workload.amounts[..rounds as usize], from as usize);
    let pad = zeros(alloc, workload.pad as usize)?;
    Ok(made(rounds, sum, Items::new(amounts), pad))
}

// The tally with these parts.
fn made<A: Allocator>(rounds: u32, sum: u64, amounts: Items<u32, A>, pad: Bytes<A>) -> Tally<A>
    requires within { is_tally (record { posted = rounds; got = rounds; sum = sum; amounts = amounts; pad = pad }) ≡ true }
    ensures value { result ≡ record { posted = rounds; got = rounds; sum = sum; amounts = amounts; pad = pad } }
{
    Tally::after(rounds, sum, amounts, pad).unwrap()
}

// Of this number of chares the one that sends its amounts to chare `i`.
fn sender(chares: u32, i: u32) -> u32
    requires chare { i < chares }
    ensures value { result ≡ sender chares i }
    ensures inside { result < chares }
{
    if i == 0 { chares - 1 } else { i - 1 }
}

// Collects the amount at an index of each line.
fn collect<A: Allocator>(
    lines: &[Vec<u32, A>],
    i: usize,
    amounts: &mut Vec<u32, A>,
) -> Result<(), AllocError>
    requires inside { All (λ line. i < length line.items) lines.now }
    ensures collected { OnOk result (amounts.new.items ≡ map (λ line. slice_index line.items i) lines.now) }
{
    amounts.clear();
    for line in lines {
        amounts.push(line[i])?;
    }
    Ok(())
}

// The sum of the amounts at an index of each line.
fn sum_of<A: Allocator>(lines: &[Vec<u32, A>], i: usize) -> u64
    requires few { length lines.now ≤ AMOUNTS }
    requires inside { All (λ line. i < length line.items) lines.now }
    ensures { result ≡ sum (map (λ line. slice_index line.items i) lines.now) }
{
    let mut sum = 0;
    for line in lines {
        sum += line[i] as u64;
    }
    sum
}

// This number of bytes, all of them 0.
fn zeros<A: Allocator>(alloc: A, len: usize) -> Result<Bytes<A>, AllocError>
    ensures value { IfOk result (λ bytes. bytes ≡ replicate len 0) }
{
    let mut bytes = Vec::new(alloc);
    bytes.resize(len, 0)?;
    Ok(Bytes::new(bytes))
}
