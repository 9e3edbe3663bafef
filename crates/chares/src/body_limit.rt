//! The most bytes that the body of a letter may have in a run.

ghost use Rattle.std.specs.Prelude.{◌≡◌, ℕ, ◌≤◌, SomeIff};
ghost use Rattle.chare_index.specs.declared.limits.TheConstants.Limits.{BODY_BYTES, STATE_BYTES};

use chare_index::Limits;
use std::marker::Model;

/// How many bytes the bodies of a run's letters may have: 1,024 to 1,048,576. Contracts see it as that number.
#[derive(Clone, Copy, Debug, PartialEq, Eq)]
pub struct BodyLimit {
    bytes: u32,
}

impl Model for BodyLimit {
    ghost Value = { ℕ };

    ghost view = { λ b. b.bytes };

    ghost invariant = { λ b. (BODY_BYTES ≤ b.bytes) × (b.bytes ≤ STATE_BYTES) };

    ghost inverse = { λ n. record { bytes = n } };
}

impl BodyLimit {
    /// Bodies of up to this many bytes, or `None` where these are fewer than 1,024 or more than 1,048,576.
    pub fn new(bytes: u32) -> Option<Self>
        ensures made { SomeIff result ((Limits.BODY_BYTES ≤ bytes) × (bytes ≤ Limits.STATE_BYTES)) bytes }
    {
        if Limits::BODY_BYTES <= bytes && bytes <= Limits::STATE_BYTES {
            Some(BodyLimit { bytes })
        } else {
            None
        }
    }

    /// Bodies of up to 1,024 bytes, as in a run that asks for no more.
    pub const fn usual() -> Self
        ensures value { result ≡ BODY_BYTES }
    {
        BodyLimit {
            bytes: Limits::BODY_BYTES,
        }
    }

    /// How many bytes.
    pub fn get(self) -> u32
        ensures value { result ≡ self }
        ensures least { BODY_BYTES ≤ result }
        ensures most { result ≤ STATE_BYTES }
    {
        self.bytes
    }
}
