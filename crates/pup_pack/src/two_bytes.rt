//! Numbers of two bytes, the highest byte first.

ghost use Rattle.std.specs.Prelude.{◌≡◌, ◌≤◌, length, IfOk};
ghost use Rattle.std.specs.Int.{w16};
ghost use Rattle.pup_pack.specs.Numbers.{unpack_u16};
ghost use Rattle.pup_pack.specs.Packing.{UnpackAnswer};
ghost use Rattle.pup_pack.specs.Signed.{unpack_signed};

use crate::error::PupError;
use crate::pup::Pup;
use std::alloc::Allocator;

impl<A: Allocator> Pup<A> for u16 {
    ghost use Rattle.std.specs.Prelude.{◌<◌, ◌^◌};
    ghost use Rattle.std.specs.Int.{w16, to_be_bytes};
    ghost use Rattle.pup_pack.specs.Numbers.{unpack_u16};
    ghost use Rattle.pup_pack.specs.Trips.{u16_trips};

    ghost fits = { λ n. n < 2 ^ 16 };

    ghost counted = { λ _. Unit {0} };

    ghost pack = { to_be_bytes w16 };

    ghost unpack = { unpack_u16 };

    ghost round_trip = { u16_trips.trip };

    fn packed_len(&self) -> u32 {
        let _value = *self;
        2
    }

    fn pack_into(&self, out: &mut Vec<u8, A>) -> Result<(), PupError> {
        Ok(out.extend_from_slice(&self.to_be_bytes())?)
    }

    fn unpack(_: A, bytes: &[u8]) -> Result<(u16, usize), PupError>
        ensures answer { UnpackAnswer (unpack_u16 bytes.now) result }
        ensures exact { result ≡ unpack_u16 bytes.now }
        ensures within { IfOk result (λ r. r.1 ≤ length bytes.now) }
    {
        if bytes.len() < 2 {
            return Err(PupError::Short);
        }
        Ok((u16::from_be_bytes([bytes[0], bytes[1]]), 2))
    }
}

impl<A: Allocator> Pup<A> for i16 {
    ghost use Rattle.std.specs.Prelude.{FitsSigned};
    ghost use Rattle.std.specs.Int.{w16, to_be_bytes};
    ghost use Rattle.pup_pack.specs.Numbers.{unpack_u16};
    ghost use Rattle.pup_pack.specs.Signed.{pack_signed, unpack_signed};
    ghost use Rattle.pup_pack.specs.Trips.{i16_trips};

    ghost fits = { FitsSigned w16 };

    ghost counted = { λ _. Unit {0} };

    ghost pack = { pack_signed w16 (to_be_bytes w16) };

    ghost unpack = { unpack_signed w16 unpack_u16 };

    ghost round_trip = { i16_trips.trip };

    fn packed_len(&self) -> u32 {
        let _value = *self;
        2
    }

    fn pack_into(&self, out: &mut Vec<u8, A>) -> Result<(), PupError> {
        self.cast_unsigned().pack_into(out)
    }

    fn unpack(alloc: A, bytes: &[u8]) -> Result<(i16, usize), PupError>
        ensures answer { UnpackAnswer (unpack_signed w16 unpack_u16 bytes.now) result }
        ensures exact { result ≡ unpack_signed w16 unpack_u16 bytes.now }
        ensures within { IfOk result (λ r. r.1 ≤ length bytes.now) }
    {
        let (bits, len) = <u16 as Pup<A>>::unpack(alloc, bytes)?;
        Ok((bits.cast_signed(), len))
    }
}
