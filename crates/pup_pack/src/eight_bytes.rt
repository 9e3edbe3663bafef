//! Numbers of eight bytes, the highest byte first.

ghost use Rattle.std.specs.Prelude.{◌≡◌, ◌≤◌, length, IfOk};
ghost use Rattle.std.specs.Int.{w64};
ghost use Rattle.pup_pack.specs.Numbers.{unpack_u64};
ghost use Rattle.pup_pack.specs.Packing.{UnpackAnswer};
ghost use Rattle.pup_pack.specs.Signed.{unpack_signed};

use crate::error::PupError;
use crate::pup::Pup;
use std::alloc::Allocator;

impl<A: Allocator> Pup<A> for u64 {
    ghost use Rattle.std.specs.Prelude.{◌<◌, ◌^◌};
    ghost use Rattle.std.specs.Int.{w64, to_be_bytes};
    ghost use Rattle.pup_pack.specs.Numbers.{unpack_u64};
    ghost use Rattle.pup_pack.specs.Trips.{u64_trips};

    ghost fits = { λ n. n < 2 ^ 64 };

    ghost counted = { λ _. Unit {0} };

    ghost pack = { to_be_bytes w64 };

    ghost unpack = { unpack_u64 };

    ghost round_trip = { u64_trips.trip };

    fn packed_len(&self) -> u32 {
        let _value = *self;
        8
    }

    fn pack_into(&self, out: &mut Vec<u8, A>) -> Result<(), PupError> {
        Ok(out.extend_from_slice(&self.to_be_bytes())?)
    }

    fn unpack(_: A, bytes: &[u8]) -> Result<(u64, usize), PupError>
        ensures answer { UnpackAnswer (unpack_u64 bytes.now) result }
        ensures exact { result ≡ unpack_u64 bytes.now }
        ensures within { IfOk result (λ r. r.1 ≤ length bytes.now) }
    {
        if bytes.len() < 8 {
            return Err(PupError::Short);
        }
        let whole = [
            bytes[0], bytes[1], bytes[2], bytes[3], bytes[4], bytes[5], bytes[6], bytes[7],
        ];
        Ok((u64::from_be_bytes(whole), 8))
    }
}

impl<A: Allocator> Pup<A> for i64 {
    ghost use Rattle.std.specs.Prelude.{FitsSigned};
    ghost use Rattle.std.specs.Int.{w64, to_be_bytes};
    ghost use Rattle.pup_pack.specs.Numbers.{unpack_u64};
    ghost use Rattle.pup_pack.specs.Signed.{pack_signed, unpack_signed};
    ghost use Rattle.pup_pack.specs.Trips.{i64_trips};

    ghost fits = { FitsSigned w64 };

    ghost counted = { λ _. Unit {0} };

    ghost pack = { pack_signed w64 (to_be_bytes w64) };

    ghost unpack = { unpack_signed w64 unpack_u64 };

    ghost round_trip = { i64_trips.trip };

    fn packed_len(&self) -> u32 {
        let _value = *self;
        8
    }

    fn pack_into(&self, out: &mut Vec<u8, A>) -> Result<(), PupError> {
        self.cast_unsigned().pack_into(out)
    }

    fn unpack(alloc: A, bytes: &[u8]) -> Result<(i64, usize), PupError>
        ensures answer { UnpackAnswer (unpack_signed w64 unpack_u64 bytes.now) result }
        ensures exact { result ≡ unpack_signed w64 unpack_u64 bytes.now }
        ensures within { IfOk result (λ r. r.1 ≤ length bytes.now) }
    {
        let (bits, len) = <u64 as Pup<A>>::unpack(alloc, bytes)?;
        Ok((bits.cast_signed(), len))
    }
}
