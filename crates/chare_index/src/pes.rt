//! A number of PEs.

ghost use Rattle.std.specs.Prelude.{◌≡◌, ℕ, ◌≤◌, SomeIff};
ghost use Rattle.chare_index.specs.declared.limits.TheConstants.Limits.{PES};

use crate::limits::Limits;
use std::marker::Model;

/// How many processing elements a run has, or is planned for, 1 to 256. Contracts see it as that number.
#[derive(Clone, Copy, Debug, PartialEq, Eq, PartialOrd, Ord, Hash)]
pub struct Pes {
    count: u32,
}

impl Model for Pes {
    ghost Value = { ℕ };

    ghost view = { λ p. p.count };

    ghost invariant = { λ p. (1 ≤ p.count) × (p.count ≤ PES) };

    ghost inverse = { λ n. record { count = n } };
}

impl Pes {
    /// This number of PEs, or `None` where it is 0 or above [`Limits::PES`].
    pub fn new(count: u32) -> Option<Self>
        ensures made { SomeIff result ((1 ≤ count) × (count ≤ Limits.PES)) count }
    {
        if 1 <= count && count <= Limits::PES {
            Some(Pes { count })
        } else {
            None
        }
    }

    /// This number of PEs, of which the caller knows that it is 1 to [`Limits::PES`].
    pub fn of(count: u32) -> Self
        requires some_pe { 1 ≤ count }
        requires few_pes { count ≤ Limits.PES }
        ensures value { result ≡ count }
    {
        Pes { count }
    }

    /// The number.
    pub fn get(self) -> u32
        ensures value { result ≡ self }
        ensures some_pe { 1 ≤ self }
        ensures few_pes { self ≤ Limits.PES }
    {
        self.count
    }
}
