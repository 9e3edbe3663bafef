//! Values that may be absent: a byte that says whether there is one, then the value.

use crate::error::PupError;
use crate::fields::Fields;
use crate::measure::both_len;
use crate::pup::Pup;
use chare_index::Limits;
use std::alloc::Allocator;

impl<A: Allocator, T: Pup<A> + Drop> Pup<A> for Option<T> {
    ghost use Rattle.std.specs.Prelude.{IfSome};
    ghost use Rattle.pup_pack.specs.Options.{pack_option, unpack_option};
    ghost use Rattle.pup_pack.specs.Packing.{trips_by};
    ghost use Rattle.pup_pack.specs.Trips.{option_trips};

    ghost fits = { λ o. IfSome o T.fits };

    ghost counted = { λ o. IfSome o T.counted };

    ghost pack = { pack_option T.pack };

    ghost unpack = { unpack_option T.unpack };

    ghost round_trip = { (option_trips (trips_by T.fits T.counted T.pack T.unpack T.round_trip)).trip };

    fn packed_len(&self) -> u32 {
        match self {
            None => 1,
            Some(value) => both_len(1, value.packed_len()),
        }
    }

    fn pack_into(&self, out: &mut Vec<u8, A>) -> Result<(), PupError> {
        match self {
            None => 0_u8.pack_into(out),
            Some(value) => (&1_u8, value).pack_fields(out),
        }
    }

    fn unpack(alloc: A, bytes: &[u8]) -> Result<(Option<T>, usize), PupError> {
        if bytes.is_empty() {
            return Err(PupError::Short);
        }
        match bytes[0] {
            0 => Ok((None, 1)),
            1 => {
                let (value, len) = T::unpack(alloc, &bytes[1..])?;
                if len >= Limits::STATE_BYTES as usize {
                    return Err(PupError::TooLong);
                }
                Ok((Some(value), 1 + len))
            }
            _ => Err(PupError::Bad),
        }
    }
}
