//! The loads that a part of a chain has of each block and of each range of a fence.

ghost use Rattle.std.specs.Prelude.{◌≡◌, ◌+◌, ◌-◌, ◌≤◌, [], IfOk, length, vec_len};
ghost use Rattle.lb_snapshot.specs.Measured.{load};
ghost use Rattle.lb_certificates.specs.Certificate.{MatchFloor};
ghost use Rattle.merged_chains.specs.Weights.{ArePartWeights, AreRangeLoads};

use crate::places::place_of;
use chain_partition::Chain;
use lb_certificates::{Division, Floor};
use std::alloc::{AllocError, Allocator, Global};

/// The loads of the ranges of a division, or of what a part of the chain has of them, in work units.
#[derive(Drop)]
#[derive_where(Debug)]
pub struct RangeLoads<A: Allocator = Global> {
    /// The load of each block.
    pub blocks: Vec<u64, A>,
    /// The load of the elements from each stop of the fence to the next, both included. Where the floor is no fence, these
    /// numbers say nothing.
    pub fence: Vec<u64, A>,
}

/// The loads that a part of a chain has of the ranges of a division into `pes` blocks; the part's first element is number
/// `first` of the chain. Those of all parts, added up, are what [`check_weights`](crate::check_weights) takes
/// ([`weights_law`](crate::weights_law)). Any division may be passed.
///
/// # Errors
///
/// Out of memory, where one of the two lists of `pes` numbers was refused.
pub fn loads_of_ranges<A: Allocator + Copy, B: Allocator, C: Allocator>(
    alloc: A,
    part: &Chain<'_, B>,
    first: u32,
    pes: u32,
    division: &Division<C>,
) -> Result<RangeLoads<A>, AllocError>
    ensures blocks { IfOk result (λ r. vec_len r.blocks ≡ pes) }
    ensures ranges { IfOk result (λ r. vec_len r.fence ≡ pes) }
    ensures weigh { IfOk result (λ r. ArePartWeights part.now first pes division.now r.blocks.items r.fence.items) }
{
    let blocks = loads_between(alloc, part, first, pes, division.cuts.as_slice(), 0)?;
    let fence = loads_between(alloc, part, first, pes, stops_of(&division.floor), 1)?;
    Ok(RangeLoads { blocks, fence })
}

// The stops of a fence, and none of another floor.
fn stops_of<A: Allocator>(floor: &Floor<A>) -> &[u32]
    ensures stops { MatchFloor floor.now (result.now ≡ []) (λ stops. result.now ≡ stops) }
{
    let Floor::Fence(stops) = floor else {
        return &[];
    };
    stops.as_slice()
}

// The loads from each place to this many elements behind the next, within a part. A place that the list does not have is 0.
fn loads_between<A: Allocator, B: Allocator>(
    alloc: A,
    part: &Chain<'_, B>,
    first: u32,
    pes: u32,
    places: &[u32],
    behind: u32,
) -> Result<Vec<u64, A>, AllocError>
    requires few { behind ≤ 1 }
    ensures counted { IfOk result (λ loads. vec_len loads ≡ pes) }
    ensures weigh { IfOk result (λ loads. AreRangeLoads part.now first pes behind places.now loads.items) }
{
    let mut loads = vec![in alloc; 0; pes as usize]?;
    write_loads(part, first, places, behind, &mut loads);
    Ok(loads)
}

/// Writes the loads that a part has of the blocks between these cuts, one for each entry of the list, as
/// [`loads_of_ranges`] finds them. It takes no memory.
pub fn write_block_loads<B: Allocator>(
    part: &Chain<'_, B>,
    first: u32,
    cuts: &[u32],
    loads: &mut [u64],
)
    ensures weigh { AreRangeLoads part.now first (length loads.old) 0 cuts.now loads.new }
{
    write_loads(part, first, cuts, 0, loads);
}

/// Writes the loads that a part has of the ranges between these stops in the same way.
pub fn write_fence_loads<B: Allocator>(
    part: &Chain<'_, B>,
    first: u32,
    stops: &[u32],
    loads: &mut [u64],
)
    ensures weigh { AreRangeLoads part.now first (length loads.old) 1 stops.now loads.new }
{
    write_loads(part, first, stops, 1, loads);
}

// Writes the loads from each place to `behind` elements behind the next, within a part. A place that the list does not have
// is 0.
fn write_loads<B: Allocator>(
    part: &Chain<'_, B>,
    first: u32,
    places: &[u32],
    behind: u32,
    loads: &mut [u64],
)
    requires few { behind ≤ 1 }
    ensures same_room { length loads.new ≡ length loads.old }
    ensures weigh { AreRangeLoads part.now first (length loads.old) behind places.now loads.new }
{
    let mut begin = u64::from(place_of(places, 0));
    for b in 0..loads.len() {
        let end = u64::from(place_of(places, b + 1));
        loads[b] = load_within(part, first, begin, end + u64::from(behind));
        begin = end;
    }
}

// What the part has of the elements `begin..end` of the chain.
fn load_within<B: Allocator>(part: &Chain<'_, B>, first: u32, begin: u64, end: u64) -> u64
    ensures value { result ≡ load part.now (begin - first) (end - first) }
{
    let first = u64::from(first);
    let from = part.len().min(begin.saturating_sub(first) as usize);
    let to = part.len().min(end.saturating_sub(first) as usize);
    part.load(from, to.max(from))
}
