//! Limits to try, and bounds that are narrowed by what walks within them show.

ghost use Rattle.std.specs.Prelude.{◌≡◌, ℕ, ◌-◌, ◌<◌, ◌≤◌, ◌^◌, All, List, length, take, drop, min};
ghost use Rattle.chain_partition.specs.Search.{Enclose};
ghost use Rattle.merged_chains.specs.Narrowing.{spread_limit, AreBetween, AreSpread, AreWalked, IsLowered, IsRaised};

use crate::bounds::Bounds;

/// Narrows bounds by limits that were tried, for each of which a walk came to the end of the chain and closed this many
/// of `pes` blocks: the lower bound is above each limit within which all blocks were closed, and the upper bound is the least within
/// which a block was left. No bound is ever wider.
///
/// A limit is below 2^64 - 1, and `pes` is 1 or more.
pub fn narrow(bounds: Bounds, pes: u32, limits: &[u64], closed: &[u32]) -> Bounds
    requires some_pe { 1 ≤ pes }
    requires paired { length closed.now ≡ length limits.now }
    requires small { All (λ limit. limit < 2 ^ 64 - 1) limits.now }
    ensures low { IsRaised pes (length limits.now) limits.now closed.now bounds.low result.low }
    ensures high { IsLowered pes (length limits.now) limits.now closed.now bounds.high result.high }
    ensures encloses { (loads : List ℕ) → AreWalked loads pes limits.now closed.now → Enclose loads pes bounds.low bounds.high → Enclose loads pes result.low result.high }
{
    Bounds {
        low: raised(bounds.low, pes, limits, closed),
        high: lowered(bounds.high, pes, limits, closed),
    }
}

// The lower bound, raised above the limits within which all blocks were closed.
fn raised(low: u64, pes: u32, limits: &[u64], closed: &[u32]) -> u64
    requires paired { length closed.now ≡ length limits.now }
    requires small { All (λ limit. limit < 2 ^ 64 - 1) limits.now }
    ensures { IsRaised pes (length limits.now) limits.now closed.now low result }
{
    let mut raised = low;
    for i in 0..limits.len() {
        if closed[i] >= pes {
            raised = raised.max(limits[i] + 1);
        }
    }
    raised
}

// The upper bound, lowered to the limits within which a block was left.
fn lowered(high: u64, pes: u32, limits: &[u64], closed: &[u32]) -> u64
    requires paired { length closed.now ≡ length limits.now }
    ensures { IsLowered pes (length limits.now) limits.now closed.now high result }
{
    let mut lowered = high;
    for i in 0..limits.len() {
        if closed[i] < pes {
            lowered = lowered.min(limits[i]);
        }
    }
    lowered
}

/// Writes limits for the next walks to try, in ascending order, and returns their number: as many as the list has room for, but
/// no more than there are from the lower bound on and below the upper one. They split the numbers that may be the least
/// bottleneck into groups that are as equal as can be, so walks within 64 limits leave about a 65th of them.
pub fn limits_between(bounds: Bounds, limits: &mut [u64]) -> usize
    requires ordered { bounds.low ≤ bounds.high }
    ensures counted { result ≡ min (length limits.old) (bounds.high - bounds.low) }
    ensures spread { AreSpread bounds.low bounds.high (take result limits.new) }
    ensures between { AreBetween bounds.low bounds.high (take result limits.new) }
    ensures behind { drop result limits.new ≡ drop result limits.old }
{
    let count = (limits.len() as u64).min(bounds.high - bounds.low) as usize;
    spread(bounds, &mut limits[..count]);
    count
}

// Fills the list with limits.
fn spread(bounds: Bounds, limits: &mut [u64])
    requires ordered { bounds.low ≤ bounds.high }
    requires enough { length limits.old ≤ bounds.high - bounds.low }
    ensures same_room { length limits.new ≡ length limits.old }
    ensures spread { AreSpread bounds.low bounds.high limits.new }
    ensures between { AreBetween bounds.low bounds.high limits.new }
{
    for j in 0..limits.len() {
        limits[j] = limit_of(bounds, limits.len(), j);
    }
}

// Limit `j` of `count`.
fn limit_of(bounds: Bounds, count: usize, j: usize) -> u64
    requires ordered { bounds.low ≤ bounds.high }
    requires enough { count ≤ bounds.high - bounds.low }
    requires inside { j < count }
    ensures value { result ≡ spread_limit bounds.low bounds.high count j }
{
    let numbers = u128::from(bounds.high - bounds.low) + 1;
    let groups = count as u128 + 1;
    let behind = numbers * (j as u128 + 1) / groups;
    bounds.low + (behind - 1) as u64
}
