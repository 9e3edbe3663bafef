//! A chain with a limit and the bounds on the bytes that cuts move, as the checker reads them.

ghost use Rattle.std.specs.Prelude.{◌≡◌, ◌+◌, ◌<◌, length};
ghost use Rattle.any_order.specs.Internal.{claim_at};

use crate::claim::BoundsClaim;
use crate::follow::steps_of;
use crate::levels::Levels;
use chare_index::Pe;
use lb_snapshot::Units;
use std::alloc::Allocator;
use std::marker::Model;

/// A chain, a limit, and bounds for each number of blocks. Contracts see it as the record of the parts.
#[derive(Drop)]
pub(crate) struct Bounded<'a, A: Allocator> {
    pub(crate) loads: &'a [Units],
    pub(crate) sizes: &'a [(u32, Pe)],
    pub(crate) limit: u64,
    pub(crate) any: &'a [Levels<A>],
    pub(crate) free: &'a [Levels<A>],
}

impl<'a, A: Allocator> Model for Bounded<'a, A> {
    ghost use Rattle.any_order.specs.Internal.{BoundedChain};

    ghost Value = { BoundedChain };

    ghost view = { λ c. record { loads = c.loads.now; sizes = c.sizes.now; limit = c.limit; any = c.any.now; free = c.free.now } };
}

/// What is checked of b blocks.
pub(crate) fn claim_of<'a, A: Allocator>(bounded: &Bounded<'a, A>, b: usize) -> BoundsClaim<'a>
    requires any { b + 1 < length bounded.now.any }
    requires free { b + 1 < length bounded.now.free }
    ensures { result ≡ claim_at bounded.now b }
{
    let any = bounded.any;
    let free = bounded.free;
    BoundsClaim {
        loads: bounded.loads,
        sizes: bounded.sizes,
        limit: bounded.limit,
        any: steps_of(any, b),
        free: steps_of(free, b),
        next_any: steps_of(any, b + 1),
        next_free: steps_of(free, b + 1),
    }
}
