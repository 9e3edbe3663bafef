//! Both bounds for a number of blocks, followed along the chain.

ghost use Rattle.std.specs.Prelude.{◌≡◌, ◌==◌, ◌&&◌, ◌+◌, ◌<◌, ◌^◌};
ghost use Rattle.any_order.specs.Internal.{IsAt};

use crate::block::Pair;
use crate::follow::{Reached, followed};

/// How far both bounds are followed.
#[derive(Clone, Copy)]
pub(crate) struct At {
    pub(crate) any: Reached,
    pub(crate) free: Reached,
}

/// The beginning of the chain.
#[tactic(auto, using(crate::proofs::Steps::none_reached))]
pub(crate) fn at_start(any: &[(u32, u64)], free: &[(u32, u64)]) -> At
    ensures at { IsAt any.now free.now 0 result }
{
    let start = Reached { next: 0, level: 0 };
    At {
        any: followed(any, start, 0),
        free: followed(free, start, 0),
    }
}

/// The bounds followed on from a place to the next.
#[tactic(auto, using(crate::proofs::Steps::reached_next))]
pub(crate) fn moved_on(any: &[(u32, u64)], free: &[(u32, u64)], at: At, x: usize) -> At
    requires at { IsAt any.now free.now x at }
    requires few { x < 2 ^ 32 }
    ensures at { IsAt any.now free.now (x + 1) result }
{
    At {
        any: followed(any, at.any, x + 1),
        free: followed(free, at.free, x + 1),
    }
}

/// The bounds at the place to which they are followed.
pub(crate) fn pair_at(at: At) -> Pair
    ensures { result ≡ record { any = at.any.level; free = at.free.level } }
{
    Pair {
        any: at.any.level,
        free: at.free.level,
    }
}

/// Whether both bounds are the same.
pub(crate) fn same_bounds(one: At, other: At) -> bool
    ensures { result ≡ (one.any.level == other.any.level) && (one.free.level == other.free.level) }
{
    one.any.level == other.any.level && one.free.level == other.free.level
}
