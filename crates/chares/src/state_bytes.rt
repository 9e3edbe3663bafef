//! The packed size of a state in bytes.

ghost use Rattle.std.specs.Prelude.{◌≡◌, ℕ, ◌≤◌, SomeIff};
ghost use Rattle.chare_index.specs.declared.limits.TheConstants.Limits.{STATE_BYTES};

use chare_index::Limits;
use std::marker::Model;

/// The length of a packed state in bytes, 0 to 1,048,576. Contracts see it as that number.
#[derive(Clone, Copy, Debug, PartialEq, Eq)]
pub struct StateBytes {
    bytes: u32,
}

impl Model for StateBytes {
    ghost Value = { ℕ };

    ghost view = { λ s. s.bytes };

    ghost invariant = { λ s. s.bytes ≤ STATE_BYTES };

    ghost inverse = { λ n. record { bytes = n } };
}

impl StateBytes {
    /// A length of this number of bytes, or `None` where no state may be that long.
    pub fn new(bytes: u32) -> Option<Self>
        ensures made { SomeIff result (bytes ≤ Limits.STATE_BYTES) bytes }
    {
        if bytes <= Limits::STATE_BYTES {
            Some(StateBytes { bytes })
        } else {
            None
        }
    }

    /// How many bytes.
    pub fn get(self) -> u32
        ensures value { result ≡ self }
        ensures in_range { self ≤ Limits.STATE_BYTES }
    {
        self.bytes
    }
}
