//! Types whose values all pack into the same number of bytes.

ghost use Rattle.std.specs.Prelude.{◌≡◌, ◌+◌, ◌<◌, ◌≤◌, ℕ};
ghost use Rattle.pup_pack.specs.FixedLens.{IsFixed};

use crate::measure::{all_len, both_len};
use crate::pup::Pup;
use chare_index::Limits;
use std::alloc::Allocator;

/// A type whose values all pack into the same number of bytes: integers, floats, `bool`, and tuples and arrays of such types.
/// So [`FixedItems`](crate::FixedItems), a list of them, has the length of its pack without going over its items.
///
/// A struct of numbers says how many bytes its fields have together, and the law computes:
///
/// ```text
/// impl<A: Allocator + Copy> FixedLen<A> for Point {
///     ghost use Rattle.std.specs.Prelude.{refl};
///
///     ghost each = { 16 };
///     ghost is_fixed = { record { each = λ _ _. refl } };
///
///     fn fixed_len() -> u32 {
///         16
///     }
/// }
/// ```
pub trait FixedLen<A: Allocator>: Pup<A> {
    /// The number of bytes that each value packs into.
    ghost each: { ℕ };

    /// That number, or 1,048,577 where it is more than 1,048,576.
    fn fixed_len() -> u32
        ensures len { each ≤ Limits.STATE_BYTES → result ≡ each }
        ensures over { Limits.STATE_BYTES < each → result ≡ Limits.STATE_BYTES + 1 };

    /// Each value packs into this number of bytes.
    ghost is_fixed: { IsFixed Self.fits Self.pack each };
}

impl<A: Allocator> FixedLen<A> for u8 {
    ghost use Rattle.std.specs.Prelude.{refl};

    ghost each = { 1 };

    ghost is_fixed = { record { each = λ _ _. refl } };

    fn fixed_len() -> u32 {
        1
    }
}

impl<A: Allocator> FixedLen<A> for i8 {
    ghost use Rattle.std.specs.Prelude.{refl};

    ghost each = { 1 };

    ghost is_fixed = { record { each = λ _ _. refl } };

    fn fixed_len() -> u32 {
        1
    }
}

impl<A: Allocator> FixedLen<A> for bool {
    ghost use Rattle.std.specs.Prelude.{refl};

    ghost each = { 1 };

    ghost is_fixed = { record { each = λ _ _. refl } };

    fn fixed_len() -> u32 {
        1
    }
}

impl<A: Allocator> FixedLen<A> for u16 {
    ghost use Rattle.std.specs.Prelude.{refl};

    ghost each = { 2 };

    ghost is_fixed = { record { each = λ _ _. refl } };

    fn fixed_len() -> u32 {
        2
    }
}

impl<A: Allocator> FixedLen<A> for i16 {
    ghost use Rattle.std.specs.Prelude.{refl};

    ghost each = { 2 };

    ghost is_fixed = { record { each = λ _ _. refl } };

    fn fixed_len() -> u32 {
        2
    }
}

impl<A: Allocator> FixedLen<A> for u32 {
    ghost use Rattle.std.specs.Prelude.{refl};

    ghost each = { 4 };

    ghost is_fixed = { record { each = λ _ _. refl } };

    fn fixed_len() -> u32 {
        4
    }
}

impl<A: Allocator> FixedLen<A> for i32 {
    ghost use Rattle.std.specs.Prelude.{refl};

    ghost each = { 4 };

    ghost is_fixed = { record { each = λ _ _. refl } };

    fn fixed_len() -> u32 {
        4
    }
}

impl<A: Allocator> FixedLen<A> for f32 {
    ghost use Rattle.std.specs.Prelude.{refl};

    ghost each = { 4 };

    ghost is_fixed = { record { each = λ _ _. refl } };

    fn fixed_len() -> u32 {
        4
    }
}

impl<A: Allocator> FixedLen<A> for u64 {
    ghost use Rattle.std.specs.Prelude.{refl};

    ghost each = { 8 };

    ghost is_fixed = { record { each = λ _ _. refl } };

    fn fixed_len() -> u32 {
        8
    }
}

impl<A: Allocator> FixedLen<A> for i64 {
    ghost use Rattle.std.specs.Prelude.{refl};

    ghost each = { 8 };

    ghost is_fixed = { record { each = λ _ _. refl } };

    fn fixed_len() -> u32 {
        8
    }
}

impl<A: Allocator> FixedLen<A> for f64 {
    ghost use Rattle.std.specs.Prelude.{refl};

    ghost each = { 8 };

    ghost is_fixed = { record { each = λ _ _. refl } };

    fn fixed_len() -> u32 {
        8
    }
}

impl<A: Allocator + Copy, T: FixedLen<A> + Drop, const N: usize> FixedLen<A> for [T; N] {
    ghost use Rattle.std.specs.Prelude.{◌*◌};
    ghost use Rattle.pup_pack.specs.FixedLens.{array_fixed};

    ghost each = { N * T.each };

    ghost is_fixed = { array_fixed N T.is_fixed };

    fn fixed_len() -> u32 {
        all_len(N, T::fixed_len())
    }
}

impl<A: Allocator + Copy, X: FixedLen<A> + Drop, Y: FixedLen<A> + Drop> FixedLen<A> for (X, Y) {
    ghost use Rattle.std.specs.Prelude.{◌+◌};
    ghost use Rattle.pup_pack.specs.FixedLens.{pair_fixed};

    ghost each = { X.each + Y.each };

    ghost is_fixed = { pair_fixed X.is_fixed Y.is_fixed };

    fn fixed_len() -> u32 {
        both_len(X::fixed_len(), Y::fixed_len())
    }
}

impl<
    A: Allocator + Copy,
    X: FixedLen<A> + Drop,
    Y: FixedLen<A> + Drop,
    Z: FixedLen<A> + Drop,
> FixedLen<A> for (X, Y, Z) {
    ghost use Rattle.std.specs.Prelude.{◌+◌};
    ghost use Rattle.pup_pack.specs.FixedLens.{pair_fixed, struct_fixed};
    ghost use Rattle.pup_pack.specs.Tuples.{pairs_of_three};

    ghost each = { X.each + (Y.each + Z.each) };

    ghost is_fixed = { struct_fixed pairs_of_three (pair_fixed X.is_fixed (pair_fixed Y.is_fixed Z.is_fixed)) };

    fn fixed_len() -> u32 {
        both_len(X::fixed_len(), both_len(Y::fixed_len(), Z::fixed_len()))
    }
}

impl<
    A: Allocator + Copy,
    W: FixedLen<A> + Drop,
    X: FixedLen<A> + Drop,
    Y: FixedLen<A> + Drop,
    Z: FixedLen<A> + Drop,
> FixedLen<A> for (W, X, Y, Z) {
    ghost use Rattle.std.specs.Prelude.{◌+◌};
    ghost use Rattle.pup_pack.specs.FixedLens.{pair_fixed, struct_fixed};
    ghost use Rattle.pup_pack.specs.Tuples.{pairs_of_four};

    ghost each = { W.each + (X.each + (Y.each + Z.each)) };

    ghost is_fixed = { struct_fixed pairs_of_four (pair_fixed W.is_fixed (pair_fixed X.is_fixed (pair_fixed Y.is_fixed Z.is_fixed))) };

    fn fixed_len() -> u32 {
        both_len(
            W::fixed_len(),
            both_len(X::fixed_len(), both_len(Y::fixed_len(), Z::fixed_len())),
        )
    }
}

impl<
    A: Allocator + Copy,
    V: FixedLen<A> + Drop,
    W: FixedLen<A> + Drop,
    X: FixedLen<A> + Drop,
    Y: FixedLen<A> + Drop,
    Z: FixedLen<A> + Drop,
> FixedLen<A> for (V, W, X, Y, Z) {
    ghost use Rattle.std.specs.Prelude.{◌+◌};
    ghost use Rattle.pup_pack.specs.FixedLens.{pair_fixed, struct_fixed};
    ghost use Rattle.pup_pack.specs.Tuples.{pairs_of_five};

    ghost each = { V.each + (W.each + (X.each + (Y.each + Z.each))) };

    ghost is_fixed = { struct_fixed pairs_of_five (pair_fixed V.is_fixed (pair_fixed W.is_fixed (pair_fixed X.is_fixed (pair_fixed Y.is_fixed Z.is_fixed)))) };

    fn fixed_len() -> u32 {
        both_len(
            V::fixed_len(),
            both_len(
                W::fixed_len(),
                both_len(X::fixed_len(), both_len(Y::fixed_len(), Z::fixed_len())),
            ),
        )
    }
}

impl<
    A: Allocator + Copy,
    U: FixedLen<A> + Drop,
    V: FixedLen<A> + Drop,
    W: FixedLen<A> + Drop,
    X: FixedLen<A> + Drop,
    Y: FixedLen<A> + Drop,
    Z: FixedLen<A> + Drop,
> FixedLen<A> for (U, V, W, X, Y, Z) {
    ghost use Rattle.std.specs.Prelude.{◌+◌};
    ghost use Rattle.pup_pack.specs.FixedLens.{pair_fixed, struct_fixed};
    ghost use Rattle.pup_pack.specs.Tuples.{pairs_of_six};

    ghost each = { U.each + (V.each + (W.each + (X.each + (Y.each + Z.each)))) };

    ghost is_fixed = { struct_fixed pairs_of_six
        (pair_fixed U.is_fixed (pair_fixed V.is_fixed (pair_fixed W.is_fixed (pair_fixed X.is_fixed (pair_fixed Y.is_fixed Z.is_fixed))))) };

    fn fixed_len() -> u32 {
        both_len(
            U::fixed_len(),
            both_len(
                V::fixed_len(),
                both_len(
                    W::fixed_len(),
                    both_len(X::fixed_len(), both_len(Y::fixed_len(), Z::fixed_len())),
                ),
            ),
        )
    }
}
