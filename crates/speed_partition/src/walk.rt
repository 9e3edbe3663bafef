//! The walk over the chain that fills one block after the other, each up to what its PE can do by a time.

ghost use Rattle.std.specs.Prelude.{◌≡◌, ◌+◌, ◌*◌, ◌^◌, ◌<◌, ◌≤◌, ℕ, IfOk, length};
ghost use Rattle.speed_certificates.specs.Speeds.{background_of, speed_of, count};
ghost use Rattle.speed_partition.specs.Greedy.{IsGreedyBy, AllIdleBy};
ghost use Rattle.speed_partition.specs.Search.{Shows};
ghost use Rattle.speed_partition.specs.Ticks.{IsScale};

use crate::ticks::{limit_of, ticks_to};
use crate::times::{earlier, later};
use chain_partition::Chain;
use speed_certificates::{EndTime, PeSpeeds};
use std::alloc::{AllocError, Allocator};

/// What the walk within a time shows of other times, in ticks.
#[derive(Clone, Copy)]
pub(crate) enum Bound {
    /// It places all elements, and all PEs end by this time.
    Fits(u128),
    /// It does not, and nor does a walk within a time before this one, the least by which a block would take one more.
    Stops(u128),
}

/// Fills the blocks in order, each with as many elements as its PE can do by this time, and returns what that shows of other times.
/// By `idle` all PEs end with what they have besides their blocks.
pub(crate) fn bound_within<A: Allocator>(
    chain: &Chain<'_, A>,
    pes: &PeSpeeds<'_>,
    scale: u64,
    idle: u128,
    ticks: u128,
) -> Bound
    requires scale { IsScale pes.now scale }
    requires few { ticks ≤ 2 ^ 107 }
    requires idle { AllIdleBy pes.now idle scale }
    requires from { idle ≤ ticks }
    ensures shows { Shows chain.now pes.now scale ticks result }
{
    let loads = chain.loads();
    let all = loads.len();
    let mut first = 0;
    let mut before = 0;
    let mut latest = EndTime { work: 0, speed: 1 };
    // No time yet: any other is earlier than this.
    let mut next = EndTime { work: 1, speed: 0 };
    for pe in 0..pes.len() {
        let (speed, background) = (pes.speed(pe), pes.background(pe));
        let limit = limit_of(background, speed, ticks, scale);
        let block = chain.block_within(first, before, limit);
        let work = background + block.load;
        latest = later(latest, EndTime { work, speed });
        if block.end == all {
            return Bound::Fits(ticks_to(latest, scale).max(idle));
        }
        let more = work + loads[block.end];
        next = earlier(next, EndTime { work: more, speed });
        first = block.end;
        before += block.load;
    }
    Bound::Stops(ticks_to(next, scale))
}

/// The ends of the blocks, one for each PE, that follow each other from the first element on, each with as many elements as its PE
/// can do by this time: 0, and then the end of each block.
pub(crate) fn greedy_ends<A: Allocator, B: Allocator>(
    alloc: A,
    chain: &Chain<'_, B>,
    pes: &PeSpeeds<'_>,
    scale: u64,
    ticks: u128,
) -> Result<Vec<u32, A>, AllocError>
    requires scale { IsScale pes.now scale }
    requires few { ticks ≤ 2 ^ 107 }
    requires idle { AllIdleBy pes.now ticks scale }
    ensures greedy { IfOk result (λ ends. IsGreedyBy chain.now pes.now ticks scale (count pes.now) ends.items) }
{
    let mut ends = Vec::with_capacity(alloc, pes.len() as usize + 1)?;
    ends.push_reserved(0);
    let mut end = 0;
    let mut before = 0;
    for pe in 0..pes.len() {
        let limit = limit_of(pes.background(pe), pes.speed(pe), ticks, scale);
        let block = chain.block_within(end, before, limit);
        end = block.end;
        before += block.load;
        ends.push_reserved(end as u32);
    }
    Ok(ends)
}
