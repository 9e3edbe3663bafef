//! What a block brings to a PE.

ghost use Rattle.std.specs.Prelude.{MatchBool};
ghost use Rattle.any_order.specs.Internal.{IsRisen};

use crate::most::Most;

/// Both bounds at a place.
#[derive(Clone, Copy)]
pub(crate) struct Pair {
    pub(crate) any: u64,
    pub(crate) free: u64,
}

/// The bytes of a block, those on the PE of its first element, and the most on another PE.
#[derive(Clone, Copy)]
pub(crate) struct Block {
    pub(crate) bytes: u64,
    pub(crate) own: u64,
    pub(crate) most: Most,
}

/// Whether bounds rise by no more than the block brings, wherever it runs.
pub(crate) fn is_risen(low: Pair, high: Pair, own: u32, home: u32, block: Block) -> bool
    ensures { MatchBool result (IsRisen low high own home block) (¬ (IsRisen low high own home block)) }
{
    let to_own = block.bytes.saturating_sub(block.own);
    let to_other = block.bytes.saturating_sub(block.most.bytes);
    if high.any.saturating_sub(low.free) > to_own || high.any.saturating_sub(low.any) > to_other {
        return false;
    }
    if own == home {
        return high.free.saturating_sub(low.free) <= to_other;
    }
    if high.free.saturating_sub(low.free) > to_own {
        return false;
    }
    let rise = high.free.saturating_sub(low.any);
    if home == block.most.pe {
        return rise <= block.bytes.saturating_sub(block.most.others);
    }
    rise <= to_other
}
