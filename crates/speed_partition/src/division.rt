//! Finds the least division over PEs of unequal speed, and the floor that proves it least.

ghost use Rattle.std.specs.Prelude.{◌≡◌, ◌^◌, ◌≤◌, IfOk, MatchOption};
ghost use Rattle.speed_certificates.specs.Speeds.{count, IsLeastTime};
ghost use Rattle.speed_certificates.specs.Certificate.{IsTimeCertified};
ghost use Rattle.speed_partition.specs.Chosen.{IsChosen, IsFirstIdle, NoneIdle};
ghost use Rattle.speed_partition.specs.Search.{IsLeastTicks};
ghost use Rattle.speed_partition.specs.Ticks.{IsScale};

use crate::latest::latest_end;
use crate::opening::opening;
use crate::search::least_ticks;
use crate::ticks::ticks_in_unit;
use crate::walk::greedy_ends;
use chain_partition::Chain;
use lb_certificates::{Cuts, Stops};
use speed_certificates::{EndTime, PeSpeeds, TimeFloor, TimedDivision};
use std::alloc::{AllocError, Allocator};

/// The division of this chain into a block for each of these PEs, in order, whose greatest end time is least. Each block takes as
/// many elements as its PE can do by that time. The time is written as the end of the first PE that ends then, and the floor names
/// the first PE whose background takes so long by itself or, where there is none, is the least fence.
///
/// # Errors
///
/// Memory for one of the two lists of a number for each PE and one more was refused.
pub fn divide_by_speeds<A: Allocator + Copy, B: Allocator>(
    alloc: A,
    chain: &Chain<'_, B>,
    pes: &PeSpeeds<'_>,
) -> Result<TimedDivision<A>, AllocError>
    ensures chosen { IfOk result (IsChosen chain.now pes.now) }
    ensures certified { IfOk result (IsTimeCertified chain.now pes.now) }
    ensures least { IfOk result (λ d. IsLeastTime chain.now pes.now d.cuts d.time) }
{
    let scale = ticks_in_unit(pes);
    let ticks = least_ticks(chain, pes, scale, opening(chain, pes, scale));
    division_by(alloc, chain, pes, scale, ticks)
}

/// The division by this number of ticks, which is the least by which all PEs can end.
pub(crate) fn division_by<A: Allocator + Copy, B: Allocator>(
    alloc: A,
    chain: &Chain<'_, B>,
    pes: &PeSpeeds<'_>,
    scale: u64,
    ticks: u128,
) -> Result<TimedDivision<A>, AllocError>
    requires scale { IsScale pes.now scale }
    requires least { IsLeastTicks chain.now pes.now scale ticks }
    requires few { ticks ≤ 2 ^ 107 }
    ensures chosen { IfOk result (IsChosen chain.now pes.now) }
    ensures certified { IfOk result (IsTimeCertified chain.now pes.now) }
    ensures least { IfOk result (λ d. IsLeastTime chain.now pes.now d.cuts d.time) }
{
    let cuts = Cuts::new(greedy_ends(alloc, chain, pes, scale, ticks)?);
    let time = latest_end(chain, pes, cuts.as_slice());
    let floor = match first_idle(pes, time) {
        Some(pe) => TimeFloor::Idle(pe),
        None => TimeFloor::Fence(Stops::new(greedy_ends(alloc, chain, pes, scale, ticks - 1)?)),
    };
    Ok(TimedDivision { time, cuts, floor })
}

// The first PE whose background takes until the time or longer.
fn first_idle(pes: &PeSpeeds<'_>, time: EndTime) -> Option<u32>
    ensures { MatchOption result (NoneIdle pes.now time (count pes.now)) (IsFirstIdle pes.now time) }
{
    for pe in 0..pes.len() {
        let work = u128::from(pes.background(pe)) * u128::from(time.speed);
        if u128::from(time.work) * u128::from(pes.speed(pe)) <= work {
            return Some(pe);
        }
    }
    None
}
