//! The number of a PE.

ghost use Rattle.std.specs.Prelude.{◌≡◌, ℕ, ◌<◌, SomeIff};
ghost use Rattle.chare_index.specs.declared.limits.TheConstants.Limits.{PES};

use crate::limits::Limits;
use std::marker::Model;

/// The number of a processing element, 0 to 255. Contracts see it as that number.
#[derive(Clone, Copy, Debug, PartialEq, Eq, PartialOrd, Ord, Hash)]
pub struct Pe {
    number: u32,
}

impl Model for Pe {
    ghost Value = { ℕ };

    ghost view = { λ p. p.number };

    ghost invariant = { λ p. p.number < PES };

    ghost inverse = { λ n. record { number = n } };
}

impl Pe {
    /// The PE with this number, or `None` where the number is past the last PE.
    pub fn new(number: u32) -> Option<Self>
        ensures made { SomeIff result (number < Limits.PES) number }
    {
        if number < Limits::PES {
            Some(Pe { number })
        } else {
            None
        }
    }

    /// The number.
    pub fn get(self) -> u32
        ensures value { result ≡ self }
        ensures in_range { self < Limits.PES }
    {
        self.number
    }
}
