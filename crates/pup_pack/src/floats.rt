//! Floats: the bytes of their bits, the highest byte first. A NaN packs as the quiet one with a clear sign and no payload.

ghost use Rattle.std.specs.Prelude.{◌≡◌, ◌≤◌, length, IfOk};
ghost use Rattle.std.specs.Float.{binary32, binary64};
ghost use Rattle.pup_pack.specs.Floats.{IsFloat, unpack_float};
ghost use Rattle.pup_pack.specs.Numbers.{unpack_u32, unpack_u64};
ghost use Rattle.pup_pack.specs.Packing.{UnpackAnswer};

use crate::error::PupError;
use crate::pup::Pup;
use std::alloc::Allocator;
use std::num::{
    f32_from_bits_with_nan, f32_to_bits_with_nan, f64_from_bits_with_nan, f64_to_bits_with_nan,
};

impl<A: Allocator> Pup<A> for f32 {
    ghost use Rattle.std.specs.Float.{binary32};
    ghost use Rattle.std.specs.Int.{w32, to_be_bytes};
    ghost use Rattle.pup_pack.specs.Floats.{IsFloat, pack_float, unpack_float};
    ghost use Rattle.pup_pack.specs.Numbers.{unpack_u32};
    ghost use Rattle.pup_pack.specs.Trips.{f32_trips};

    ghost fits = { IsFloat binary32 };

    ghost counted = { λ _. Unit {0} };

    ghost pack = { pack_float binary32 (to_be_bytes w32) };

    ghost unpack = { unpack_float binary32 unpack_u32 };

    ghost round_trip = { f32_trips.trip };

    fn packed_len(&self) -> u32 {
        f32_len(*self)
    }

    fn pack_into(&self, out: &mut Vec<u8, A>) -> Result<(), PupError> {
        f32_to_bits_with_nan(*self).pack_into(out)
    }

    fn unpack(alloc: A, bytes: &[u8]) -> Result<(f32, usize), PupError>
        ensures answer { UnpackAnswer (unpack_float binary32 unpack_u32 bytes.now) result }
        ensures exact { result ≡ unpack_float binary32 unpack_u32 bytes.now }
        ensures within { IfOk result (λ r. r.1 ≤ length bytes.now) }
    {
        let (bits, len) = <u32 as Pup<A>>::unpack(alloc, bytes)?;
        Ok((f32_from_bits_with_nan(bits), len))
    }
}

impl<A: Allocator> Pup<A> for f64 {
    ghost use Rattle.std.specs.Float.{binary64};
    ghost use Rattle.std.specs.Int.{w64, to_be_bytes};
    ghost use Rattle.pup_pack.specs.Floats.{IsFloat, pack_float, unpack_float};
    ghost use Rattle.pup_pack.specs.Numbers.{unpack_u64};
    ghost use Rattle.pup_pack.specs.Trips.{f64_trips};

    ghost fits = { IsFloat binary64 };

    ghost counted = { λ _. Unit {0} };

    ghost pack = { pack_float binary64 (to_be_bytes w64) };

    ghost unpack = { unpack_float binary64 unpack_u64 };

    ghost round_trip = { f64_trips.trip };

    fn packed_len(&self) -> u32 {
        f64_len(*self)
    }

    fn pack_into(&self, out: &mut Vec<u8, A>) -> Result<(), PupError> {
        f64_to_bits_with_nan(*self).pack_into(out)
    }

    fn unpack(alloc: A, bytes: &[u8]) -> Result<(f64, usize), PupError>
        ensures answer { UnpackAnswer (unpack_float binary64 unpack_u64 bytes.now) result }
        ensures exact { result ≡ unpack_float binary64 unpack_u64 bytes.now }
        ensures within { IfOk result (λ r. r.1 ≤ length bytes.now) }
    {
        let (bits, len) = <u64 as Pup<A>>::unpack(alloc, bytes)?;
        Ok((f64_from_bits_with_nan(bits), len))
    }
}

// The packed length of a value of this type, which its format holds.
fn f32_len(value: f32) -> u32
    ensures len { result ≡ 4 }
    ensures fits { IsFloat binary32 value }
{
    let _value = value;
    4
}

// The packed length of a value of this type, which its format holds.
fn f64_len(value: f64) -> u32
    ensures len { result ≡ 8 }
    ensures fits { IsFloat binary64 value }
{
    let _value = value;
    8
}
