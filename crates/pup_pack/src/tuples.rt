//! Tuples of three to six parts, which pack as pairs within pairs: the parts one after another.

use crate::error::PupError;
use crate::fields::Fields;
use crate::pup::Pup;
use std::alloc::Allocator;

impl<A: Allocator + Copy, X: Pup<A> + Drop, Y: Pup<A> + Drop, Z: Pup<A> + Drop> Pup<A>
    for (X, Y, Z) {
    ghost use Rattle.std.specs.Prelude.{◌++◌};
    ghost use Rattle.pup_pack.specs.Pairs.{unpack_pair};
    ghost use Rattle.pup_pack.specs.Packing.{trips_by};
    ghost use Rattle.pup_pack.specs.Structs.{made};
    ghost use Rattle.pup_pack.specs.Trips.{three_trips};
    ghost use Rattle.pup_pack.specs.Tuples.{three_of};

    ghost fits = { λ s. X.fits s.0 × (Y.fits s.1 × Z.fits s.2) };

    ghost counted = { λ s. X.counted s.0 × (Y.counted s.1 × Z.counted s.2) };

    ghost pack = { λ s. X.pack s.0 ++ (Y.pack s.1 ++ Z.pack s.2) };

    ghost unpack = { λ bytes. made three_of (unpack_pair X.unpack (unpack_pair Y.unpack Z.unpack) bytes) };

    ghost round_trip = { (three_trips
        (trips_by X.fits X.counted X.pack X.unpack X.round_trip)
        (trips_by Y.fits Y.counted Y.pack Y.unpack Y.round_trip)
        (trips_by Z.fits Z.counted Z.pack Z.unpack Z.round_trip)).trip };

    fn packed_len(&self) -> u32 {
        (&self.0, &self.1, &self.2).fields_len()
    }

    fn pack_into(&self, out: &mut Vec<u8, A>) -> Result<(), PupError> {
        (&self.0, &self.1, &self.2).pack_fields(out)
    }

    fn unpack(alloc: A, bytes: &[u8]) -> Result<((X, Y, Z), usize), PupError> {
        let ((first, (second, third)), len) = <(X, (Y, Z)) as Pup<A>>::unpack(alloc, bytes)?;
        Ok(((first, second, third), len))
    }
}

impl<
    A: Allocator + Copy,
    W: Pup<A> + Drop,
    X: Pup<A> + Drop,
    Y: Pup<A> + Drop,
    Z: Pup<A> + Drop,
> Pup<A> for (W, X, Y, Z) {
    ghost use Rattle.std.specs.Prelude.{◌++◌};
    ghost use Rattle.pup_pack.specs.Pairs.{unpack_pair};
    ghost use Rattle.pup_pack.specs.Packing.{trips_by};
    ghost use Rattle.pup_pack.specs.Structs.{made};
    ghost use Rattle.pup_pack.specs.Trips.{four_trips};
    ghost use Rattle.pup_pack.specs.Tuples.{four_of};

    ghost fits = { λ s. W.fits s.0 × (X.fits s.1 × (Y.fits s.2 × Z.fits s.3)) };

    ghost counted = { λ s. W.counted s.0 × (X.counted s.1 × (Y.counted s.2 × Z.counted s.3)) };

    ghost pack = { λ s. W.pack s.0 ++ (X.pack s.1 ++ (Y.pack s.2 ++ Z.pack s.3)) };

    ghost unpack = { λ bytes. made four_of (unpack_pair W.unpack (unpack_pair X.unpack (unpack_pair Y.unpack Z.unpack)) bytes) };

    ghost round_trip = { (four_trips
        (trips_by W.fits W.counted W.pack W.unpack W.round_trip)
        (trips_by X.fits X.counted X.pack X.unpack X.round_trip)
        (trips_by Y.fits Y.counted Y.pack Y.unpack Y.round_trip)
        (trips_by Z.fits Z.counted Z.pack Z.unpack Z.round_trip)).trip };

    fn packed_len(&self) -> u32 {
        (&self.0, &self.1, &self.2, &self.3).fields_len()
    }

    fn pack_into(&self, out: &mut Vec<u8, A>) -> Result<(), PupError> {
        (&self.0, &self.1, &self.2, &self.3).pack_fields(out)
    }

    fn unpack(alloc: A, bytes: &[u8]) -> Result<((W, X, Y, Z), usize), PupError> {
        let ((first, (second, (third, fourth))), len) = <(W, (X, (Y, Z))) as Pup<A>>::unpack(
            alloc, bytes,
        )?;
        Ok(((first, second, third, fourth), len))
    }
}

impl<
    A: Allocator + Copy,
    V: Pup<A> + Drop,
    W: Pup<A> + Drop,
    X: Pup<A> + Drop,
    Y: Pup<A> + Drop,
    Z: Pup<A> + Drop,
> Pup<A> for (V, W, X, Y, Z) {
    ghost use Rattle.std.specs.Prelude.{◌++◌};
    ghost use Rattle.pup_pack.specs.Pairs.{unpack_pair};
    ghost use Rattle.pup_pack.specs.Packing.{trips_by};
    ghost use Rattle.pup_pack.specs.Structs.{made};
    ghost use Rattle.pup_pack.specs.Trips.{five_trips};
    ghost use Rattle.pup_pack.specs.Tuples.{five_of};

    ghost fits = { λ s. V.fits s.0 × (W.fits s.1 × (X.fits s.2 × (Y.fits s.3 × Z.fits s.4))) };

    ghost counted = { λ s. V.counted s.0 × (W.counted s.1 × (X.counted s.2 × (Y.counted s.3 × Z.counted s.4))) };

    ghost pack = { λ s. V.pack s.0 ++ (W.pack s.1 ++ (X.pack s.2 ++ (Y.pack s.3 ++ Z.pack s.4))) };

    ghost unpack = { λ bytes. made five_of (unpack_pair V.unpack (unpack_pair W.unpack (unpack_pair X.unpack (unpack_pair Y.unpack Z.unpack))) bytes) };

    ghost round_trip = { (five_trips
        (trips_by V.fits V.counted V.pack V.unpack V.round_trip)
        (trips_by W.fits W.counted W.pack W.unpack W.round_trip)
        (trips_by X.fits X.counted X.pack X.unpack X.round_trip)
        (trips_by Y.fits Y.counted Y.pack Y.unpack Y.round_trip)
        (trips_by Z.fits Z.counted Z.pack Z.unpack Z.round_trip)).trip };

    fn packed_len(&self) -> u32 {
        (&self.0, &self.1, &self.2, &self.3, &self.4).fields_len()
    }

    fn pack_into(&self, out: &mut Vec<u8, A>) -> Result<(), PupError> {
        (&self.0, &self.1, &self.2, &self.3, &self.4).pack_fields(out)
    }

    fn unpack(alloc: A, bytes: &[u8]) -> Result<((V, W, X, Y, Z), usize), PupError> {
        let ((first, (second, (third, (fourth, fifth)))), len) = <(V, (W, (X, (Y, Z)))) as Pup<
            A,
        >>::unpack(alloc, bytes)?;
        Ok(((first, second, third, fourth, fifth), len))
    }
}

impl<
    A: Allocator + Copy,
    U: Pup<A> + Drop,
    V: Pup<A> + Drop,
    W: Pup<A> + Drop,
    X: Pup<A> + Drop,
    Y: Pup<A> + Drop,
    Z: Pup<A> + Drop,
> Pup<A> for (U, V, W, X, Y, Z) {
    ghost use Rattle.std.specs.Prelude.{◌++◌};
    ghost use Rattle.pup_pack.specs.Pairs.{unpack_pair};
    ghost use Rattle.pup_pack.specs.Packing.{trips_by};
    ghost use Rattle.pup_pack.specs.Structs.{made};
    ghost use Rattle.pup_pack.specs.Trips.{six_trips};
    ghost use Rattle.pup_pack.specs.Tuples.{six_of};

    ghost fits = { λ s. U.fits s.0 × (V.fits s.1 × (W.fits s.2 × (X.fits s.3 × (Y.fits s.4 × Z.fits s.5)))) };

    ghost counted = { λ s. U.counted s.0 × (V.counted s.1 × (W.counted s.2 × (X.counted s.3 × (Y.counted s.4 × Z.counted s.5)))) };

    ghost pack = { λ s. U.pack s.0 ++ (V.pack s.1 ++ (W.pack s.2 ++ (X.pack s.3 ++ (Y.pack s.4 ++ Z.pack s.5)))) };

    ghost unpack = { λ bytes. made six_of (unpack_pair U.unpack (unpack_pair V.unpack (unpack_pair W.unpack (unpack_pair X.unpack (unpack_pair Y.unpack Z.unpack)))) bytes) };

    ghost round_trip = { (six_trips
        (trips_by U.fits U.counted U.pack U.unpack U.round_trip)
        (trips_by V.fits V.counted V.pack V.unpack V.round_trip)
        (trips_by W.fits W.counted W.pack W.unpack W.round_trip)
        (trips_by X.fits X.counted X.pack X.unpack X.round_trip)
        (trips_by Y.fits Y.counted Y.pack Y.unpack Y.round_trip)
        (trips_by Z.fits Z.counted Z.pack Z.unpack Z.round_trip)).trip };

    fn packed_len(&self) -> u32 {
        (&self.0, &self.1, &self.2, &self.3, &self.4, &self.5).fields_len()
    }

    fn pack_into(&self, out: &mut Vec<u8, A>) -> Result<(), PupError> {
        (&self.0, &self.1, &self.2, &self.3, &self.4, &self.5).pack_fields(out)
    }

    fn unpack(alloc: A, bytes: &[u8]) -> Result<((U, V, W, X, Y, Z), usize), PupError> {
        let ((first, (second, (third, (fourth, (fifth, sixth))))), len) = <(
            U,
            (V, (W, (X, (Y, Z)))),
        ) as Pup<A>>::unpack(alloc, bytes)?;
        Ok(((first, second, third, fourth, fifth, sixth), len))
    }
}
