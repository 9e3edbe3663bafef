//! The walk over running sums that fills one block after the other.

ghost use Rattle.std.specs.Prelude.{◌≡◌, ◌<◌, ◌≤◌, ◌+◌, ◌^◌, IfOk, length};
ghost use Rattle.lb_snapshot.specs.Measured.{load};
ghost use Rattle.chain_partition.specs.Greedy.{IsBracket, IsGreatestEnd, IsGreedy};
ghost use Rattle.chain_partition.specs.Sums.{IsChain, IsSampled};

use crate::chain::{Chain, STRIDE};
use lb_snapshot::Units;
use std::alloc::{AllocError, Allocator};

/// Where a block ends, and the load of its elements.
#[derive(Clone, Copy)]
pub struct Block {
    /// The element after its last one.
    pub end: usize,
    /// The sum of their loads.
    pub load: u64,
}

impl<A: Allocator> Chain<'_, A> {
    /// The block that begins at `first` and takes as many elements as fit within the limit: one step of a
    /// [`probe`](crate::probe), whose blocks may each have a limit of their own. `before` is the load of the elements before
    /// `first`. It takes no memory.
    pub fn block_within(&self, first: usize, before: u64, limit: u64) -> Block
        requires inside { first ≤ length self.now }
        requires before { before ≡ load self.now 0 first }
        ensures greatest { IsGreatestEnd self.now first limit result.end }
        ensures onward { first ≤ result.end }
        ensures few { result.end < 2 ^ 32 }
        ensures load { result.load ≡ load self.now first result.end }
        ensures chain { IsChain self.now }
    {
        end_of_block(self.loads(), self.samples(), first, before, limit)
    }
}

// The end of a block is at least `fits`, up to which the block weighs `load`, and is before `beyond`.
#[derive(Clone, Copy)]
struct Bracket {
    fits: usize,
    load: u64,
    beyond: usize,
}

/// The ends of `pes` blocks that follow each other from the first element on, each with as many elements as fit
/// within the limit: 0, and then the end of each block.
#[tactic(auto, using(crate::proofs::GreedyCuts::greedy_none))]
pub(crate) fn greedy_ends<A: Allocator>(
    alloc: A,
    loads: &[Units],
    samples: &[u64],
    pes: u32,
    limit: u64,
) -> Result<Vec<u32, A>, AllocError>
    requires valid { IsSampled loads.now samples.now }
    ensures greedy { IfOk result (λ ends. IsGreedy loads.now pes limit ends.items) }
{
    let mut ends = Vec::with_capacity(alloc, pes as usize + 1)?;
    ends.push_reserved(0);
    let mut end = 0;
    let mut before = 0;
    for _ in 0..pes {
        let block = end_of_block(loads, samples, end, before, limit);
        end = block.end;
        before += block.load;
        ends.push_reserved(end as u32);
    }
    Ok(ends)
}

/// The greatest block within the limit that begins at `first`, where `before` is the load of the elements before it. The load
/// of a block grows with its end, so the end is found by binary search over the running sums that are kept, and then load by
/// load.
pub(crate) fn end_of_block(
    loads: &[Units],
    samples: &[u64],
    first: usize,
    before: u64,
    limit: u64,
) -> Block
    requires valid { IsSampled loads.now samples.now }
    requires inside { first ≤ length loads.now }
    requires before { before ≡ load loads.now 0 first }
    ensures greatest { IsGreatestEnd loads.now first limit result.end }
    ensures onward { first ≤ result.end }
    ensures few { result.end < 2 ^ 32 }
    ensures load { result.load ≡ load loads.now first result.end }
{
    let Bracket { fits, load, beyond } = narrowed_end(loads, samples, first, before, limit);
    let mut block = Block { end: fits, load };
    let mut beyond = beyond;
    while block.end + 1 < beyond {
        let load = block.load + loads[block.end];
        if load <= limit {
            block = Block {
                end: block.end + 1,
                load,
            };
        } else {
            beyond = block.end + 1;
        }
    }
    block
}

// A range of two strides in which that end is, by the running sums that are kept.
fn narrowed_end(loads: &[Units], samples: &[u64], first: usize, before: u64, limit: u64) -> Bracket
    requires valid { IsSampled loads.now samples.now }
    requires inside { first ≤ length loads.now }
    requires before { before ≡ load loads.now 0 first }
    ensures bracket { IsBracket loads.now first limit result.fits result.load result.beyond }
{
    let mut fits = first;
    let mut load = 0;
    let mut beyond = loads.len() + 1;
    while beyond - fits > 2 * STRIDE {
        let group = (fits + (beyond - fits) / 2) / STRIDE;
        let reached = samples[group] - before;
        if reached <= limit {
            fits = group * STRIDE;
            load = reached;
        } else {
            beyond = group * STRIDE;
        }
    }
    Bracket { fits, load, beyond }
}
