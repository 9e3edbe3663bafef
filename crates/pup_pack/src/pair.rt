//! Pairs: the first part, then the second.

use crate::error::PupError;
use crate::fields::Fields;
use crate::pup::Pup;
use chare_index::Limits;
use std::alloc::Allocator;

impl<A: Allocator + Copy, X: Pup<A> + Drop, Y: Pup<A> + Drop> Pup<A> for (X, Y) {
    ghost use Rattle.std.specs.Prelude.{◌++◌};
    ghost use Rattle.pup_pack.specs.Pairs.{unpack_pair};
    ghost use Rattle.pup_pack.specs.Packing.{trips_by};
    ghost use Rattle.pup_pack.specs.Trips.{pair_trips};

    ghost fits = { λ s. X.fits s.0 × Y.fits s.1 };

    ghost counted = { λ s. X.counted s.0 × Y.counted s.1 };

    ghost pack = { λ s. X.pack s.0 ++ Y.pack s.1 };

    ghost unpack = { unpack_pair X.unpack Y.unpack };

    ghost round_trip = { (pair_trips (trips_by X.fits X.counted X.pack X.unpack X.round_trip) (trips_by Y.fits Y.counted Y.pack Y.unpack Y.round_trip)).trip };

    fn packed_len(&self) -> u32 {
        (&self.0, &self.1).fields_len()
    }

    fn pack_into(&self, out: &mut Vec<u8, A>) -> Result<(), PupError> {
        (&self.0, &self.1).pack_fields(out)
    }

    fn unpack(alloc: A, bytes: &[u8]) -> Result<((X, Y), usize), PupError> {
        let (first, n) = X::unpack(alloc, bytes)?;
        let (second, m) = Y::unpack(alloc, &bytes[n..])?;
        if n + m > Limits::STATE_BYTES as usize {
            return Err(PupError::TooLong);
        }
        Ok(((first, second), n + m))
    }
}
