//! Arrays: their items, one after another. How many there are is part of the type, and is not packed.

use crate::error::PupError;
use crate::lists::{items_len, pack_items, unpack_items};
use crate::pup::Pup;
use chare_index::Limits;
use std::alloc::Allocator;

impl<A: Allocator + Copy, T: Pup<A> + Drop, const N: usize> Pup<A> for [T; N] {
    ghost use Rattle.std.specs.Prelude.{All};
    ghost use Rattle.pup_pack.specs.Arrays.{AreItems, pack_array, unpack_array};
    ghost use Rattle.pup_pack.specs.Lists.{IsCounted};
    ghost use Rattle.pup_pack.specs.Packing.{trips_by};
    ghost use Rattle.pup_pack.specs.Trips.{array_trips};

    ghost fits = { AreItems T.fits N };

    ghost counted = { λ xs. IsCounted xs × All T.counted xs };

    ghost pack = { pack_array T.pack };

    ghost unpack = { unpack_array T.unpack N };

    ghost round_trip = { (array_trips N (trips_by T.fits T.counted T.pack T.unpack T.round_trip)).trip };

    fn packed_len(&self) -> u32 {
        items_len(self.as_slice())
    }

    fn pack_into(&self, out: &mut Vec<u8, A>) -> Result<(), PupError> {
        let len = self.packed_len();
        if N > Limits::STATE_BYTES as usize || len > Limits::STATE_BYTES {
            return Err(PupError::TooLong);
        }
        out.reserve(len as usize)?;
        pack_items(self.as_slice(), out)
    }

    fn unpack(alloc: A, bytes: &[u8]) -> Result<([T; N], usize), PupError> {
        if N > Limits::STATE_BYTES as usize {
            return Err(PupError::TooLong);
        }
        let (items, len) = unpack_items(alloc, N as u32, bytes)?;
        if len > Limits::STATE_BYTES as usize {
            return Err(PupError::TooLong);
        }
        let array = <[T; N]>::try_from(items.into_vec()).ok().unwrap();
        Ok((array, len))
    }
}
