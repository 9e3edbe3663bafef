//! The index of an element in its chare array.

ghost use Rattle.std.specs.Prelude.{◌≡◌, ℕ, ◌<◌, SomeIff};
ghost use Rattle.chare_index.specs.declared.limits.TheConstants.Limits.{ELEMENTS};

use crate::limits::Limits;
use std::marker::Model;

/// The place of an element in the chare array, 0 to 65,535. Contracts see it as that number.
#[derive(Clone, Copy, Debug, PartialEq, Eq, PartialOrd, Ord, Hash)]
pub struct Index {
    place: u32,
}

impl Model for Index {
    ghost Value = { ℕ };

    ghost view = { λ i. i.place };

    ghost invariant = { λ i. i.place < ELEMENTS };

    ghost inverse = { λ n. record { place = n } };
}

impl Index {
    /// The index of the element at `place`, or `None` where `place` is above 65,535.
    pub fn new(place: u32) -> Option<Self>
        ensures made { SomeIff result (place < Limits.ELEMENTS) place }
    {
        if place < Limits::ELEMENTS {
            Some(Index { place })
        } else {
            None
        }
    }

    /// The place as a number.
    pub fn get(self) -> u32
        ensures value { result ≡ self }
        ensures in_range { self < Limits.ELEMENTS }
    {
        self.place
    }
}
