//! The trait of a value that a reduction combines.

ghost use Rattle.std.specs.Prelude.{◌≡◌, ◌≤◌, length};
ghost use Rattle.reductions.specs.Combining.{VALUE_BYTES};

use pup_pack::Pup;
use std::alloc::Allocator;

/// A value that is combined with others of its type in a reduction. It packs into at most 32 bytes.
///
/// Nothing is asked of the operation. Where it is associative, the result of a reduction is the fold of all contributions from the left, in
/// the order of the elements' indices. Where it is not, as a sum of doubles, the parentheses are those of the tree, which depend on the
/// number of elements alone.
pub trait Combines<A: Allocator>: Pup<A> + Copy {
    /// The two values in one; the left one is of elements with lower indices.
    ghost combined: { Self → Self → Self };

    /// Combines this value with the one on its right.
    fn combine(self, right: Self) -> Self
        ensures value { result ≡ combined self right };

    /// Every value packs into few bytes.
    ghost small: { (v : Self) → Self.fits v → Self.counted v × (length (Self.pack v) ≤ VALUE_BYTES) };
}
