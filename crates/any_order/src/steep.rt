//! The first block by which bounds rise by more than it brings.

ghost use Rattle.std.specs.Prelude.{◌≡◌, ◌+◌, ◌<◌, ◌≤◌, ◌↔◌, IsTrue, MatchOption, length};
ghost use Rattle.chare_index.specs.declared.limits.TheConstants.Limits.{PES};
ghost use Rattle.any_order.specs.Internal.{AreMeasured, high_at, IsAt, IsFirstBlock, IsFirstEnd, IsFirstSteep, is_low_level, low_at, RisesAt, RisesBelow, RisesFrom, RisesUpTo};

use crate::block::Pair;
use crate::bounded::{Bounded, claim_of};
use crate::claim::{BoundsClaim, elements, high_on, high_start, home_at, low_on, low_start};
use crate::row::{At, pair_at, same_bounds};
use crate::walk::first_steep_end;
use chare_index::Limits;
use std::alloc::Allocator;

// Whether no bound rises where a block is empty.
fn is_risen_here(low: Pair, high: Pair) -> bool
    ensures { IsTrue result ↔ ((high.any ≤ low.any) × (high.any ≤ low.free) × (high.free ≤ low.free)) }
{
    high.any <= low.any && high.any <= low.free && high.free <= low.free
}

// Whether neither the home nor a bound changes behind element y.
fn is_low_level_at(claim: &BoundsClaim<'_>, y: usize, here: At, next: At) -> bool
    requires here { IsAt claim.now.any claim.now.free y here }
    requires next { IsAt claim.now.any claim.now.free (y + 1) next }
    requires inside { y < length claim.now.loads }
    requires measured { AreMeasured claim.now.loads claim.now.sizes }
    ensures { result ≡ is_low_level claim.now y }
{
    let same_home = home_at(claim, y) == home_at(claim, y + 1);
    same_home && same_bounds(here, next)
}

// The first end of a block from y on.
fn first_end(
    claim: &BoundsClaim<'_>,
    y: usize,
    lows: (At, At),
    high: At,
    kept: &mut [u64],
) -> Option<usize>
    requires measured { AreMeasured claim.now.loads claim.now.sizes }
    requires inside { y ≤ length claim.now.loads }
    requires counted { length kept.old ≡ PES }
    requires here { IsAt claim.now.any claim.now.free y lows.0 }
    requires next { IsAt claim.now.any claim.now.free (y + 1) lows.1 }
    requires high { IsAt claim.now.next_any claim.now.next_free y high }
    ensures counted { length kept.new ≡ PES }
    ensures first { MatchOption result (RisesFrom claim.now y (length claim.now.loads + 1)) (IsFirstEnd claim.now y) }
{
    let (here, next) = lows;
    let low = pair_at(here);
    if !is_risen_here(low, pair_at(high)) {
        return Some(y);
    }
    if y >= elements(claim) || is_low_level_at(claim, y, here, next) {
        return None;
    }
    first_steep_end(claim, y, low, high, kept)
}

// The first block, by where it begins and then where it ends.
fn first_block(claim: &BoundsClaim<'_>, kept: &mut [u64]) -> Option<(u32, u32)>
    requires measured { AreMeasured claim.now.loads claim.now.sizes }
    requires counted { length kept.old ≡ PES }
    ensures counted { length kept.new ≡ PES }
    ensures first { MatchOption result (RisesBelow claim.now (length claim.now.loads + 1)) (IsFirstBlock claim.now) }
{
    let mut low = low_start(claim);
    let mut high = high_start(claim);
    for y in 0..elements(claim) + 1 {
        let next = low_on(claim, low, y);
        if let Some(x) = first_end(claim, y, (low, next), high, kept) {
            return Some((y as u32, x as u32));
        }
        low = next;
        high = high_on(claim, high, y);
    }
    None
}

/// The first block of all rows: from which number of blocks, where it begins, and where it ends.
pub(crate) fn first_steep<A: Allocator>(
    bounded: &Bounded<'_, A>,
    blocks: u32,
) -> Option<(u32, u32, u32)>
    requires measured { AreMeasured bounded.now.loads bounded.now.sizes }
    requires any { blocks < length bounded.now.any }
    requires free { blocks < length bounded.now.free }
    ensures first { MatchOption result (RisesUpTo bounded.now blocks) (IsFirstSteep bounded.now blocks) }
{
    let mut kept = [0; Limits::PES as usize];
    for b in 0..blocks {
        let claim = claim_of(bounded, b as usize);
        if let Some((y, x)) = first_block(&claim, &mut kept) {
            return Some((b, y, x));
        }
    }
    None
}
