//! Between which times the search for the least one begins.

ghost use Rattle.std.specs.Prelude.{ℕ, ◌^◌, ◌≤◌, All};
ghost use Rattle.speed_certificates.specs.Speeds.{count};
ghost use Rattle.speed_partition.specs.Greedy.{AllIdleBy};
ghost use Rattle.speed_partition.specs.Search.{Enclose};
ghost use Rattle.speed_partition.specs.Ticks.{ArePeTotals, IsScale};

use crate::ticks::ticks_to;
use chain_partition::Chain;
use lb_snapshot::Units;
use speed_certificates::{EndTime, PeSpeeds};
use std::alloc::Allocator;

/// Times in ticks: all PEs can end by `high` and not before `low`, and by `idle` they end with what they have besides their blocks.
#[derive(Clone, Copy)]
pub(crate) struct SearchBounds {
    pub(crate) idle: u128,
    pub(crate) low: u128,
    pub(crate) high: u128,
}

// What the PEs are together.
#[derive(Clone, Copy)]
pub(crate) struct PeTotals {
    // The work of all that is besides the blocks.
    pub(crate) background: u128,
    // The sum of the speeds, and the least of them.
    pub(crate) speed: u64,
    pub(crate) slowest: u32,
    // The ticks by which the last of them ends with an empty block.
    pub(crate) idle: u128,
}

/// Where the search begins. Not all PEs end before the last background ends, nor before all work would if it could be shared by
/// speed exactly. And by that time and what the greatest load takes on the slowest PE, each PE that cannot take the next element
/// too has done more than its share, so not all PEs can be of that kind.
pub(crate) fn opening<A: Allocator>(
    chain: &Chain<'_, A>,
    pes: &PeSpeeds<'_>,
    scale: u64,
) -> SearchBounds
    requires scale { IsScale pes.now scale }
    ensures enclosed { Enclose chain.now pes.now scale result.low result.high }
    ensures idle { AllIdleBy pes.now result.idle scale }
    ensures from { result.idle ≤ result.low }
    ensures few { result.high ≤ 2 ^ 107 }
{
    let totals = totals_of(pes, scale);
    let work = u128::from(chain.load(0, chain.len())) + totals.background;
    let share = (work * u128::from(scale)).div_ceil(u128::from(totals.speed));
    let low = share.max(totals.idle);
    let heaviest = EndTime {
        work: greatest(chain.loads()),
        speed: totals.slowest,
    };
    SearchBounds {
        idle: totals.idle,
        low,
        high: low + ticks_to(heaviest, scale),
    }
}

// What the PEs are together, by a walk over them.
fn totals_of(pes: &PeSpeeds<'_>, scale: u64) -> PeTotals
    requires scale { IsScale pes.now scale }
    ensures totals { ArePeTotals pes.now scale (count pes.now) result }
    ensures light { result.background ≤ 2 ^ 79 }
    ensures some_speed { 1 ≤ result.speed }
    ensures some_slowest { 1 ≤ result.slowest }
    ensures soon { result.idle ≤ 2 ^ 87 }
{
    let mut totals = PeTotals {
        background: 0,
        speed: 0,
        slowest: u32::MAX,
        idle: 0,
    };
    for pe in 0..pes.len() {
        let end = EndTime {
            work: pes.background(pe),
            speed: pes.speed(pe),
        };
        totals = PeTotals {
            background: totals.background + u128::from(end.work),
            speed: totals.speed + u64::from(end.speed),
            slowest: totals.slowest.min(end.speed),
            idle: totals.idle.max(ticks_to(end, scale)),
        };
    }
    totals
}

// The greatest load, and 0 where there is none.
fn greatest(units: &[Units]) -> Units
    ensures bounds { All (λ load. load ≤ result) units.now }
    ensures least { (limit : ℕ) → All (λ load. load ≤ limit) units.now → result ≤ limit }
{
    units.iter().copied().max().unwrap_or(0)
}
