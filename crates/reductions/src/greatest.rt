//! The greatest of numbers, as a reduction.

use crate::combines::Combines;
use pup_pack::{Pup, PupError};
use std::alloc::Allocator;

/// The greatest of numbers. Of doubles it is a NaN where one of them is a NaN, and of zeros of both signs, where they are the greatest, the
/// first.
#[derive(Clone, Copy, Debug, PartialEq)]
pub struct Greatest<T>(
    /// The number.
    pub T,
);

impl<A: Allocator, T: Pup<A>> Pup<A> for Greatest<T> {
    ghost use Rattle.std.specs.Prelude.{refl};
    ghost use Rattle.pup_pack.specs.Packing.{trips_by};
    ghost use Rattle.pup_pack.specs.Structs.{made};
    ghost use Rattle.pup_pack.specs.Trips.{struct_trips};

    ghost fits = { λ s. T.fits s.0 };

    ghost counted = { λ s. T.counted s.0 };

    ghost pack = { λ s. T.pack s.0 };

    ghost unpack = { λ bytes. made (λ x. record { 0 = x }) (T.unpack bytes) };

    ghost round_trip = { (struct_trips (λ s. s.0) (λ x. record { 0 = x }) (λ _. refl) (trips_by T.fits T.counted T.pack T.unpack T.round_trip)).trip };

    fn packed_len(&self) -> u32 {
        self.0.packed_len()
    }

    fn pack_into(&self, out: &mut Vec<u8, A>) -> Result<(), PupError> {
        self.0.pack_into(out)
    }

    fn unpack(alloc: A, bytes: &[u8]) -> Result<(Greatest<T>, usize), PupError> {
        let (value, len) = T::unpack(alloc, bytes)?;
        Ok((Greatest(value), len))
    }
}

impl<A: Allocator> Combines<A> for Greatest<u64> {
    ghost use Rattle.reductions.specs.Combining.{greatest_u64};
    ghost use Rattle.reductions.specs.Values.{small_u64};

    ghost combined = { λ x y. record { 0 = greatest_u64 x.0 y.0 } };

    ghost small = { λ v fit. small_u64 v.0 };

    fn combine(self, right: Greatest<u64>) -> Greatest<u64> {
        Greatest(self.0.max(right.0))
    }
}

impl<A: Allocator> Combines<A> for Greatest<i64> {
    ghost use Rattle.reductions.specs.Combining.{greatest_i64};
    ghost use Rattle.reductions.specs.Values.{small_i64};

    ghost combined = { λ x y. record { 0 = greatest_i64 x.0 y.0 } };

    ghost small = { λ v fit. small_i64 v.0 };

    fn combine(self, right: Greatest<i64>) -> Greatest<i64> {
        Greatest(self.0.max(right.0))
    }
}

impl<A: Allocator> Combines<A> for Greatest<f64> {
    ghost use Rattle.reductions.specs.Combining.{greatest_f64};
    ghost use Rattle.reductions.specs.Values.{small_f64};

    ghost combined = { λ x y. record { 0 = greatest_f64 x.0 y.0 } };

    ghost small = { λ v fit. small_f64 v.0 };

    fn combine(self, right: Greatest<f64>) -> Greatest<f64> {
        if self.0 < right.0 || right.0.is_nan() {
            return right;
        }
        self
    }
}
