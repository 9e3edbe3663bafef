//! The search for the least time: exact bisection, as of A. Pinar, E. K. Tabak and C. Aykanat, JPDC 68(11), 2008. Each walk finds
//! more than whether all PEs can end by a time.

ghost use Rattle.std.specs.Prelude.{◌≡◌, ◌-◌, ◌^◌, ◌<◌, ◌≤◌};
ghost use Rattle.speed_partition.specs.Greedy.{AllIdleBy};
ghost use Rattle.speed_partition.specs.Search.{IsLeastTicks, Enclose};
ghost use Rattle.speed_partition.specs.Ticks.{IsScale};

use crate::opening::SearchBounds;
use crate::walk::{Bound, bound_within};
use chain_partition::Chain;
use speed_certificates::PeSpeeds;
use std::alloc::Allocator;

/// The least number of ticks by which all PEs can end. It is within these bounds.
pub(crate) fn least_ticks<A: Allocator>(
    chain: &Chain<'_, A>,
    pes: &PeSpeeds<'_>,
    scale: u64,
    bounds: SearchBounds,
) -> u128
    requires scale { IsScale pes.now scale }
    requires enclosed { Enclose chain.now pes.now scale bounds.low bounds.high }
    requires idle { AllIdleBy pes.now bounds.idle scale }
    requires from { bounds.idle ≤ bounds.low }
    requires few { bounds.high ≤ 2 ^ 107 }
    ensures least { IsLeastTicks chain.now pes.now scale result }
    ensures few { result ≤ 2 ^ 107 }
{
    let mut low = bounds.low;
    let mut high = bounds.high;
    let mut ticks = low;
    while low < high {
        match bound_within(chain, pes, scale, bounds.idle, ticks) {
            Bound::Fits(latest) => high = latest,
            Bound::Stops(next) => low = next,
        }
        ticks = low + (high - low) / 2;
    }
    high
}
