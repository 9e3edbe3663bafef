//! The search for the least bottleneck: the exact bisection of A. Pinar and C. Aykanat, JPDC 64(8), 2004. Each walk
//! finds more than whether blocks within its limit hold all elements, so about half as many walks are enough.

ghost use Rattle.std.specs.Prelude.{◌≡◌, ℕ, ◌-◌, ◌^◌, ◌<◌, ◌≤◌, All, length, sum};
ghost use Rattle.lb_certificates.specs.Chain.{IsLeastPeak};
ghost use Rattle.lb_snapshot.specs.Measured.{load};
ghost use Rattle.chain_partition.specs.Search.{Enclose, Shows};
ghost use Rattle.chain_partition.specs.Sums.{IsSampled};

use crate::walk::end_of_block;
use lb_snapshot::Units;

/// What the walk within one limit shows of other limits.
#[derive(Clone, Copy)]
pub(crate) enum Bound {
    /// It places all elements, and this is the load of its heaviest block.
    Fits(u64),
    /// It does not, and nor does a walk within a limit below this one, the least within which a block would take one more.
    Stops(u64),
}

/// Two limits: none below `low` can hold all elements, and `high` can.
#[derive(Clone, Copy)]
pub(crate) struct SearchBounds {
    pub(crate) low: u64,
    pub(crate) high: u64,
}

/// The least limit within which `pes` blocks can hold all elements. It is within these bounds.
pub(crate) fn least_bottleneck(
    loads: &[Units],
    samples: &[u64],
    pes: u32,
    bounds: SearchBounds,
) -> u64
    requires valid { IsSampled loads.now samples.now }
    requires some_pe { 1 ≤ pes }
    requires enclosed { Enclose loads.now pes bounds.low bounds.high }
    ensures least { IsLeastPeak loads.now 0 pes result }
{
    let mut low = bounds.low;
    let mut high = bounds.high;
    let mut limit = low;
    while low < high {
        match bound_within(loads, samples, pes, limit) {
            Bound::Fits(heaviest) => high = heaviest,
            Bound::Stops(next) => low = next,
        }
        limit = low + (high - low) / 2;
    }
    high
}

/// Fills up to `pes` blocks in order, each with as many elements as fit within the limit, and returns what that shows
/// of other limits.
#[tactic(auto, using(crate::proofs::Walks::walk_none))]
pub(crate) fn bound_within(loads: &[Units], samples: &[u64], pes: u32, limit: u64) -> Bound
    requires valid { IsSampled loads.now samples.now }
    requires some_pe { 1 ≤ pes }
    requires below { limit < 2 ^ 64 - 1 }
    ensures shows { Shows loads.now pes limit result }
{
    let all = loads.len();
    let mut first = 0;
    let mut before = 0;
    let mut heaviest = 0;
    let mut least = u64::MAX;
    for _ in 0..pes {
        let block = end_of_block(loads, samples, first, before, limit);
        heaviest = heaviest.max(block.load);
        if block.end == all {
            return Bound::Fits(heaviest);
        }
        least = least.min(block.load + loads[block.end]);
        first = block.end;
        before += block.load;
    }
    Bound::Stops(least)
}

/// Where a search begins. The heaviest block weighs at least the greatest load and at least an even share of the total.
/// And with an even share plus the greatest load as the limit, each block that cannot take the next element weighs more
/// than such a share, so not all blocks can be of that kind.
#[tactic(auto, using(crate::proofs::Bottlenecks::opening_encloses))]
pub(crate) fn opening(loads: &[Units], total: u64, pes: u32) -> SearchBounds
    requires some_pe { 1 ≤ pes }
    requires all { total ≡ load loads.now 0 (length loads.now) }
    requires light { sum loads.now < 2 ^ 63 }
    ensures enclosed { Enclose loads.now pes result.low result.high }
{
    let greatest = greatest(loads);
    let pes = u64::from(pes);
    SearchBounds {
        low: greatest.max(total.div_ceil(pes)),
        high: total / pes + greatest,
    }
}

// The greatest load, and 0 where there is none.
fn greatest(units: &[Units]) -> Units
    ensures bounds { All (λ load. load ≤ result) units.now }
    ensures least { (limit : ℕ) → All (λ load. load ≤ limit) units.now → result ≤ limit }
{
    units.iter().copied().max().unwrap_or(0)
}
