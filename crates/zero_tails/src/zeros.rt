//! Bytes that are all 0.

ghost use Rattle.std.specs.Prelude.{◌≡◌};

use chare_index::Limits;
use pup_pack::{Pup, PupError};
use std::alloc::Global;
use std::marker::Model;

/// This many bytes, all 0. It packs into their number, in four bytes, and then them. Contracts see it as their number.
#[derive(Clone, Copy, Debug, PartialEq, Eq)]
pub struct Zeros {
    count: u32,
}

impl Model for Zeros {
    ghost use Rattle.std.specs.Prelude.{ℕ};

    ghost Value = { ℕ };

    ghost view = { λ z. z.count };

    ghost inverse = { λ n. record { count = n } };
}

impl Zeros {
    /// This many.
    pub fn new(count: u32) -> Self
        ensures value { result ≡ count }
    {
        Zeros { count }
    }

    /// How many they are.
    pub fn count(self) -> u32
        ensures value { result ≡ self }
    {
        self.count
    }
}

impl Pup<Global> for Zeros {
    ghost use Rattle.std.specs.Prelude.{length};
    ghost use Rattle.pup_pack.specs.Lists.{IsCounted, pack_bytes, unpack_bytes};
    ghost use Rattle.pup_pack.specs.Structs.{made};
    ghost use Rattle.zero_tails.specs.Tails.{zeros, zeros_trips};

    ghost fits = { λ n. Unit {0} };

    ghost counted = { λ n. IsCounted (zeros n) };

    ghost pack = { λ n. pack_bytes (zeros n) };

    ghost unpack = { λ bytes. made length (unpack_bytes bytes) };

    ghost round_trip = { zeros_trips.trip };

    fn packed_len(&self) -> u32 {
        if self.count > Limits::STATE_BYTES - 4 {
            return Limits::STATE_BYTES + 1;
        }
        4 + self.count
    }

    fn pack_into(&self, out: &mut Vec<u8>) -> Result<(), PupError> {
        if self.count > Limits::STATE_BYTES - 4 {
            return Err(PupError::TooLong);
        }
        let count = self.count as usize;
        out.reserve(4 + count)?;
        out.extend_from_slice(&self.count.to_be_bytes()).unwrap();
        out.resize(out.len() + count, 0).unwrap();
        Ok(())
    }

    fn unpack(_alloc: Global, bytes: &[u8]) -> Result<(Zeros, usize), PupError> {
        if bytes.len() < 4 {
            return Err(PupError::Short);
        }
        let count = u32::from_be_bytes([bytes[0], bytes[1], bytes[2], bytes[3]]);
        if count > Limits::STATE_BYTES {
            return Err(PupError::TooLong);
        }
        let rest = &bytes[4..];
        if rest.len() < count as usize {
            return Err(PupError::Short);
        }
        if count > Limits::STATE_BYTES - 4 {
            return Err(PupError::TooLong);
        }
        Ok((Zeros { count }, 4 + count as usize))
    }
}
