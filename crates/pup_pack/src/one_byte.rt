//! Numbers of one byte.

ghost use Rattle.std.specs.Prelude.{◌≡◌, ◌≤◌, length, IfOk};
ghost use Rattle.std.specs.Int.{w8};
ghost use Rattle.pup_pack.specs.Numbers.{unpack_u8};
ghost use Rattle.pup_pack.specs.Packing.{UnpackAnswer};
ghost use Rattle.pup_pack.specs.Signed.{unpack_signed};

use crate::error::PupError;
use crate::pup::Pup;
use std::alloc::Allocator;

impl<A: Allocator> Pup<A> for u8 {
    ghost use Rattle.std.specs.Prelude.{◌<◌, ◌^◌};
    ghost use Rattle.pup_pack.specs.Numbers.{pack_u8, unpack_u8};
    ghost use Rattle.pup_pack.specs.Trips.{u8_trips};

    ghost fits = { λ n. n < 2 ^ 8 };

    ghost counted = { λ _. Unit {0} };

    ghost pack = { pack_u8 };

    ghost unpack = { unpack_u8 };

    ghost round_trip = { u8_trips.trip };

    fn packed_len(&self) -> u32 {
        let _value = *self;
        1
    }

    fn pack_into(&self, out: &mut Vec<u8, A>) -> Result<(), PupError> {
        Ok(out.extend_from_slice(&[*self])?)
    }

    fn unpack(_: A, bytes: &[u8]) -> Result<(u8, usize), PupError>
        ensures answer { UnpackAnswer (unpack_u8 bytes.now) result }
        ensures exact { result ≡ unpack_u8 bytes.now }
        ensures within { IfOk result (λ r. r.1 ≤ length bytes.now) }
    {
        if bytes.is_empty() {
            return Err(PupError::Short);
        }
        Ok((bytes[0], 1))
    }
}

impl<A: Allocator> Pup<A> for i8 {
    ghost use Rattle.std.specs.Prelude.{FitsSigned};
    ghost use Rattle.std.specs.Int.{w8};
    ghost use Rattle.pup_pack.specs.Numbers.{pack_u8, unpack_u8};
    ghost use Rattle.pup_pack.specs.Signed.{pack_signed, unpack_signed};
    ghost use Rattle.pup_pack.specs.Trips.{i8_trips};

    ghost fits = { FitsSigned w8 };

    ghost counted = { λ _. Unit {0} };

    ghost pack = { pack_signed w8 pack_u8 };

    ghost unpack = { unpack_signed w8 unpack_u8 };

    ghost round_trip = { i8_trips.trip };

    fn packed_len(&self) -> u32 {
        let _value = *self;
        1
    }

    fn pack_into(&self, out: &mut Vec<u8, A>) -> Result<(), PupError> {
        self.cast_unsigned().pack_into(out)
    }

    fn unpack(alloc: A, bytes: &[u8]) -> Result<(i8, usize), PupError>
        ensures answer { UnpackAnswer (unpack_signed w8 unpack_u8 bytes.now) result }
        ensures exact { result ≡ unpack_signed w8 unpack_u8 bytes.now }
        ensures within { IfOk result (λ r. r.1 ≤ length bytes.now) }
    {
        let (bits, len) = <u8 as Pup<A>>::unpack(alloc, bytes)?;
        Ok((bits.cast_signed(), len))
    }
}
