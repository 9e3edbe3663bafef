//! A sum of numbers, as a reduction.

use crate::combines::Combines;
use pup_pack::{Pup, PupError};
use std::alloc::Allocator;

/// A sum: of `u64` or `i64` up to the limits of the type, where it stays, or of `f64`, each sum rounded as IEEE 754 says. One that stays at a
/// limit of `i64` is not associative: there the result is that of the tree.
#[derive(Clone, Copy, Debug, PartialEq)]
pub struct Sum<T>(
    /// The number.
    pub T,
);

impl<A: Allocator, T: Pup<A>> Pup<A> for Sum<T> {
    ghost use Rattle.std.specs.Prelude.{refl};
    ghost use Rattle.pup_pack.specs.Packing.{trips_by};
    ghost use Rattle.pup_pack.specs.Structs.{made};
    ghost use Rattle.pup_pack.specs.Trips.{struct_trips};

    ghost fits = { λ s. T.fits s.0 };

    ghost counted = { λ s. T.counted s.0 };

    ghost pack = { λ s. T.pack s.0 };

    ghost unpack = { λ bytes. made (λ x. record { 0 = x }) (T.unpack bytes) };

    ghost round_trip = { (struct_trips (λ s. s.0) (λ x. record { 0 = x }) (λ _. refl) (trips_by T.fits T.counted T.pack T.unpack T.round_trip)).trip };

    fn packed_len(&self) -> u32 {
        self.0.packed_len()
    }

    fn pack_into(&self, out: &mut Vec<u8, A>) -> Result<(), PupError> {
        self.0.pack_into(out)
    }

    fn unpack(alloc: A, bytes: &[u8]) -> Result<(Sum<T>, usize), PupError> {
        let (value, len) = T::unpack(alloc, bytes)?;
        Ok((Sum(value), len))
    }
}

impl<A: Allocator> Combines<A> for Sum<u64> {
    ghost use Rattle.reductions.specs.Combining.{sum_u64};
    ghost use Rattle.reductions.specs.Values.{small_u64};

    ghost combined = { λ x y. record { 0 = sum_u64 x.0 y.0 } };

    ghost small = { λ v fit. small_u64 v.0 };

    fn combine(self, right: Sum<u64>) -> Sum<u64> {
        Sum(self.0.saturating_add(right.0))
    }
}

impl<A: Allocator> Combines<A> for Sum<i64> {
    ghost use Rattle.reductions.specs.Combining.{sum_i64};
    ghost use Rattle.reductions.specs.Values.{small_i64};

    ghost combined = { λ x y. record { 0 = sum_i64 x.0 y.0 } };

    ghost small = { λ v fit. small_i64 v.0 };

    fn combine(self, right: Sum<i64>) -> Sum<i64> {
        Sum(self.0.saturating_add(right.0))
    }
}

impl<A: Allocator> Combines<A> for Sum<f64> {
    ghost use Rattle.reductions.specs.Combining.{sum_f64};
    ghost use Rattle.reductions.specs.Values.{small_f64};

    ghost combined = { λ x y. record { 0 = sum_f64 x.0 y.0 } };

    ghost small = { λ v fit. small_f64 v.0 };

    fn combine(self, right: Sum<f64>) -> Sum<f64> {
        Sum(self.0 + right.0)
    }
}
