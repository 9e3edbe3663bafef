//! Steps followed along the chain.

ghost use Rattle.std.specs.Prelude.{◌≡◌, ◌<◌, [], length, slice_index_or};
ghost use Rattle.any_order.specs.AnyOrder.{bound_at, level_at};
ghost use Rattle.any_order.specs.Internal.{IsReached};

use crate::levels::Levels;
use std::alloc::Allocator;

/// The number of steps that are not behind a place, and the level of the last of them.
#[derive(Clone, Copy)]
pub(crate) struct Reached {
    pub(crate) next: usize,
    pub(crate) level: u64,
}

/// Follows the steps on to a place.
#[tactic(auto, using(crate::proofs::Steps::reached_one, crate::proofs::Steps::reached_there))]
pub(crate) fn followed(steps: &[(u32, u64)], from: Reached, x: usize) -> Reached
    requires { IsReached steps.now x from }
    ensures reached { IsReached steps.now x result }
    ensures level { result.level ≡ level_at steps.now 0 x }
{
    let mut next = from.next;
    let mut level = from.level;
    while next < steps.len() && steps[next].0 as usize <= x {
        level = steps[next].1;
        next += 1;
    }
    Reached { next, level }
}

// The level at a place.
#[tactic(auto, using(crate::proofs::Steps::none_reached))]
fn level_of(steps: &[(u32, u64)], x: usize) -> u64
    ensures { result ≡ level_at steps.now 0 x }
{
    followed(steps, Reached { next: 0, level: 0 }, x).level
}

/// The steps of row b.
pub(crate) fn steps_of<A: Allocator>(rows: &[Levels<A>], b: usize) -> &[(u32, u64)]
    requires inside { b < length rows.now }
    ensures value { result.now ≡ slice_index_or rows.now b [] }
{
    rows[b].as_slice()
}

/// The bound at a place of row b.
pub(crate) fn bound_of<A: Allocator>(rows: &[Levels<A>], b: usize, x: usize) -> u64
    requires inside { b < length rows.now }
    ensures value { result ≡ bound_at rows.now b x }
{
    level_of(steps_of(rows, b), x)
}
