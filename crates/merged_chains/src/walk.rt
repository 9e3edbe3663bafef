//! Greedy walks of a chain that comes part by part, each part on a rank of its own.

ghost use Rattle.std.specs.Prelude.{◌≡◌, ℕ, ◌+◌, ◌-◌, ◌<◌, ◌≤◌, ◌^◌, [], ◌∷◌, All, IfOk, length, slice_index_or};
ghost use Rattle.chain_partition.specs.Greedy.{IsGreatestEnd};
ghost use Rattle.merged_chains.specs.Walks.{EndsAt, IsWalked, WalksOn};
ghost use Rattle.merged_chains.specs.Narrowing.{walk_at};

use chain_partition::Chain;
use std::alloc::{AllocError, Allocator, Global};

/// Where a greedy walk of a chain stands between two parts of it: each block takes as many elements as fit within the
/// limit, in order. It is plain data, under no condition, that one rank hands to the next.
#[derive(Clone, Copy, Debug, PartialEq, Eq)]
pub struct Walk {
    /// The load that a block may have, in work units.
    pub limit: u64,
    /// The number of blocks that are closed: they could not take the element behind them.
    pub closed: u32,
    /// The load of the open block so far, in work units; 0 where all blocks are closed.
    pub filled: u64,
}

impl Walk {
    /// The walk within this limit that stands before the first element.
    pub fn new(limit: u64) -> Walk
        ensures limit { result.limit ≡ limit }
        ensures begins { (blocks : ℕ) → IsWalked [] blocks (0 ∷ []) result }
    {
        Walk {
            limit,
            closed: 0,
            filled: 0,
        }
    }
}

/// Where a walk stands behind a part of a chain, and which blocks it closed there.
#[derive(Drop)]
#[derive_where(Debug)]
pub struct Ends<A: Allocator = Global> {
    /// The walk behind the part.
    pub walk: Walk,
    /// The ends of the blocks that it closed within the part, as elements of the chain.
    pub ends: Vec<u32, A>,
}

/// Walks on over the next part of the chain, with `pes` blocks in all. The walks of the parts, in turn, are the walk of
/// the chain. Each block's end is found by binary search, and no memory is taken. Where the walk has numbers that no chain
/// gives, no more than `pes` blocks are closed behind the part all the same.
pub fn walk_on<B: Allocator>(part: &Chain<'_, B>, pes: u32, walk: Walk) -> Walk
    ensures walked { WalksOn part.now pes walk result }
{
    let all = part.len();
    let mut first = 0;
    let mut filled = walk.filled;
    for closed in walk.closed..pes {
        let end = reach(part, first, walk.limit.saturating_sub(filled));
        if end == all {
            let filled = filled + part.load(first, end);
            return Walk {
                closed,
                filled,
                ..walk
            };
        }
        first = end;
        filled = 0;
    }
    Walk {
        closed: pes,
        filled: 0,
        ..walk
    }
}

/// Walks on as [`walk_on`] does with each of these walks. One pass hands all of them from rank to rank, 64 say, to try as many
/// limits.
pub fn walk_all_on<B: Allocator>(part: &Chain<'_, B>, pes: u32, walks: &mut [Walk])
    ensures walked { (i : ℕ) (d : Walk) → i < length walks.old → WalksOn part.now pes (slice_index_or walks.old i d) (slice_index_or walks.new i d) }
{
    for walk in walks.iter_mut() {
        *walk = walk_on(part, pes, *walk);
    }
}

/// Walks on as [`walk_all_on`] does, with walks that are three lists: their limits, the numbers of blocks that they have
/// closed, and the loads of their open blocks.
pub fn walk_lists_on<B: Allocator>(
    part: &Chain<'_, B>,
    pes: u32,
    limits: &[u64],
    closed: &mut [u32],
    filled: &mut [u64],
)
    requires closed { length closed.old ≡ length limits.now }
    requires filled { length filled.old ≡ length limits.now }
    ensures walked { (i : ℕ) → i < length limits.now
        → WalksOn part.now pes (walk_at limits.now closed.old filled.old i) (walk_at limits.now closed.new filled.new i) }
{
    for i in 0..limits.len() {
        let walk = Walk {
            limit: limits[i],
            closed: closed[i],
            filled: filled[i],
        };
        let behind = walk_on(part, pes, walk);
        closed[i] = behind.closed;
        filled[i] = behind.filled;
    }
}

/// Walks on as [`walk_on`] does, and tells the ends of the blocks that the walk closes within the part. The part's first
/// element is number `first` of the chain.
///
/// # Errors
///
/// Out of memory, where the one list of up to `pes` numbers was refused.
pub fn ends_on<A: Allocator, B: Allocator>(
    alloc: A,
    part: &Chain<'_, B>,
    first: u32,
    pes: u32,
    walk: Walk,
) -> Result<Ends<A>, AllocError>
    requires few { first + length part.now < 2 ^ 32 }
    ensures limit { IfOk result (λ r. r.walk.limit ≡ walk.limit) }
    ensures counted { IfOk result (λ r. length r.ends.items ≤ pes) }
    ensures few { IfOk result (λ r. r.walk.closed ≤ pes) }
    ensures fits { walk.filled ≤ walk.limit → IfOk result (λ r. r.walk.filled ≤ walk.limit) }
    ensures each { walk.closed ≤ pes → IfOk result (λ r. walk.closed + length r.ends.items ≡ r.walk.closed) }
    ensures inside { IfOk result (λ r. All (λ end. (first ≤ end) × (end ≤ first + length part.now)) r.ends.items) }
    ensures walked { IfOk result (λ r. EndsAt part.now pes walk first r.ends.items r.walk) }
{
    let mut ends = Vec::with_capacity(alloc, pes.saturating_sub(walk.closed) as usize)?;
    let all = part.len();
    let mut begin = 0;
    let mut filled = walk.filled;
    for closed in walk.closed..pes {
        let end = reach(part, begin, walk.limit.saturating_sub(filled));
        if end == all {
            let filled = filled + part.load(begin, end);
            let walk = Walk {
                closed,
                filled,
                ..walk
            };
            return Ok(Ends { walk, ends });
        }
        ends.push_reserved(first + end as u32);
        begin = end;
        filled = 0;
    }
    let walk = Walk {
        closed: pes,
        filled: 0,
        ..walk
    };
    Ok(Ends { walk, ends })
}

// How far a block that begins here reaches within the part, where it has this much room: by binary search.
fn reach<B: Allocator>(part: &Chain<'_, B>, first: usize, room: u64) -> usize
    requires inside { first ≤ length part.now }
    ensures onward { first ≤ result }
    ensures greatest { IsGreatestEnd part.now first room result }
{
    let mut fits = first;
    let mut beyond = part.len() + 1;
    while beyond - fits > 1 {
        let middle = fits + (beyond - fits) / 2;
        if part.load(first, middle) <= room {
            fits = middle;
        } else {
            beyond = middle;
        }
    }
    fits
}
