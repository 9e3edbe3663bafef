//! Truth values, of one byte.

ghost use Rattle.std.specs.Prelude.{◌≡◌, ◌≤◌, length, IfOk};
ghost use Rattle.pup_pack.specs.Packing.{UnpackAnswer};
ghost use Rattle.pup_pack.specs.Truths.{unpack_bool};

use crate::error::PupError;
use crate::pup::Pup;
use std::alloc::Allocator;

impl<A: Allocator> Pup<A> for bool {
    ghost use Rattle.pup_pack.specs.Truths.{pack_bool, unpack_bool};
    ghost use Rattle.pup_pack.specs.Trips.{bool_trips};

    ghost fits = { λ _. Unit {0} };

    ghost counted = { λ _. Unit {0} };

    ghost pack = { pack_bool };

    ghost unpack = { unpack_bool };

    ghost round_trip = { bool_trips.trip };

    fn packed_len(&self) -> u32 {
        1
    }

    fn pack_into(&self, out: &mut Vec<u8, A>) -> Result<(), PupError> {
        let code: u8 = if *self { 1 } else { 0 };
        code.pack_into(out)
    }

    fn unpack(_: A, bytes: &[u8]) -> Result<(bool, usize), PupError>
        ensures answer { UnpackAnswer (unpack_bool bytes.now) result }
        ensures exact { result ≡ unpack_bool bytes.now }
        ensures within { IfOk result (λ r. r.1 ≤ length bytes.now) }
    {
        if bytes.is_empty() {
            return Err(PupError::Short);
        }
        match bytes[0] {
            0 => Ok((false, 1)),
            1 => Ok((true, 1)),
            _ => Err(PupError::Bad),
        }
    }
}
