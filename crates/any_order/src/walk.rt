//! The walk from the beginning of a block to all places at which it may end.

ghost use Rattle.std.specs.Prelude.{◌≡◌, ◌+◌, ◌<◌, ◌≤◌, ℕ, IsFalse, MatchBool, MatchOption, length};
ghost use Rattle.chare_index.specs.declared.limits.TheConstants.Limits.{PES};
ghost use Rattle.any_order.specs.AnyOrder.{home};
ghost use Rattle.any_order.specs.Internal.{AreMeasured, high_at, IsAt, IsFirstEnd, is_high_level, is_low_level, IsRisen, low_at, RisesFrom};

use crate::block::{Block, Pair, is_risen};
use crate::claim::{BoundsClaim, element_at, elements, high_on, home_at, limit_of, load_at};
use crate::most::{Most, joined};
use crate::row::{At, pair_at, same_bounds};

// Whether neither the home nor a bound for one more block changes behind element x.
fn is_high_level_at(claim: &BoundsClaim<'_>, x: usize, here: At, next: At) -> bool
    requires here { IsAt claim.now.next_any claim.now.next_free x here }
    requires next { IsAt claim.now.next_any claim.now.next_free (x + 1) next }
    requires inside { x < length claim.now.loads }
    requires measured { AreMeasured claim.now.loads claim.now.sizes }
    ensures { result ≡ is_high_level claim.now x }
{
    let same_home = home_at(claim, x) == home_at(claim, x + 1);
    same_home && same_bounds(here, next)
}

// Whether bounds rise by no more than a block brings that ends behind element x, or nothing changes there.
fn is_risen_behind(
    claim: &BoundsClaim<'_>,
    x: usize,
    low: Pair,
    highs: (At, At),
    block: (u32, Block),
) -> bool
    requires here { IsAt claim.now.next_any claim.now.next_free x highs.0 }
    requires next { IsAt claim.now.next_any claim.now.next_free (x + 1) highs.1 }
    requires inside { x < length claim.now.loads }
    requires measured { AreMeasured claim.now.loads claim.now.sizes }
    ensures { MatchBool result
        (IsFalse (is_high_level claim.now x) → IsRisen low (high_at claim.now (x + 1)) block.0 (home claim.now.sizes (x + 1)) block.1)
        (IsFalse (is_high_level claim.now x) × ¬ (IsRisen low (high_at claim.now (x + 1)) block.0 (home claim.now.sizes (x + 1)) block.1)) }
{
    let (here, next) = highs;
    if is_high_level_at(claim, x, here, next) {
        return true;
    }
    let (own, bytes) = block;
    is_risen(low, pair_at(next), own, home_at(claim, x + 1), bytes)
}

/// The first end of a block from y on, at which bounds rise by more than the block brings.
pub(crate) fn first_steep_end(
    claim: &BoundsClaim<'_>,
    y: usize,
    low: Pair,
    high: At,
    kept: &mut [u64],
) -> Option<usize>
    requires measured { AreMeasured claim.now.loads claim.now.sizes }
    requires inside { y < length claim.now.loads }
    requires counted { length kept.old ≡ PES }
    requires edge { IsFalse (is_low_level claim.now y) }
    requires low { low ≡ low_at claim.now y }
    requires high { IsAt claim.now.next_any claim.now.next_free y high }
    requires here { RisesFrom claim.now y (y + 1) }
    ensures counted { length kept.new ≡ PES }
    ensures first { MatchOption result (RisesFrom claim.now y (length claim.now.loads + 1)) (IsFirstEnd claim.now y) }
{
    for bytes in kept.iter_mut() {
        *bytes = 0;
    }
    let own = home_at(claim, y);
    let limit = limit_of(claim);
    let mut most = Most::NOTHING;
    let mut high = high;
    let mut bytes = 0;
    let mut weight = 0;
    for x in y..elements(claim) {
        weight += load_at(claim, x);
        if weight > limit {
            return None;
        }
        let element = element_at(claim, x);
        bytes += u64::from(element.0);
        most = joined(element, own, kept, most);
        let block = Block {
            bytes,
            own: kept[own as usize],
            most,
        };
        let next = high_on(claim, high, x);
        if !is_risen_behind(claim, x, low, (high, next), (own, block)) {
            return Some(x + 1);
        }
        high = next;
    }
    None
}
