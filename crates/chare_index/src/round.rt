//! The number of a round.

ghost use Rattle.std.specs.Prelude.{◌≡◌, ℕ, ◌≤◌, SomeIff};
ghost use Rattle.chare_index.specs.declared.limits.TheConstants.Limits.{ROUND};

use crate::limits::Limits;
use std::marker::Model;

/// The number of a round, which ends where every element waits to be balanced, 0 to 2,147,483,648. Rounds
/// are numbered from 1; 0 stands for the start of an element, and the last one is never decided. Contracts
/// see it as that number.
#[derive(Clone, Copy, Debug, PartialEq, Eq, PartialOrd, Ord, Hash)]
pub struct Round {
    number: u32,
}

impl Model for Round {
    ghost Value = { ℕ };

    ghost view = { λ r. r.number };

    ghost invariant = { λ r. r.number ≤ ROUND };

    ghost inverse = { λ n. record { number = n } };
}

impl Round {
    /// The round with this number, or `None` where the number is past the last round.
    pub fn new(number: u32) -> Option<Self>
        ensures made { SomeIff result (number ≤ Limits.ROUND) number }
    {
        if number <= Limits::ROUND {
            Some(Round { number })
        } else {
            None
        }
    }

    /// The number.
    pub fn get(self) -> u32
        ensures value { result ≡ self }
        ensures in_range { self ≤ Limits.ROUND }
    {
        self.number
    }
}
