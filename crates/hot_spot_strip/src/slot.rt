//! A place for a value that comes from a neighbor. It packs into a number of four bytes, 1 where the value has come, and the
//! value in eight.

ghost use Rattle.std.specs.Prelude.{◌≡◌};
ghost use Rattle.hot_spot_strip.specs.Slots.{is_filled, slot_of, slot_parts, value_in};

use pup_pack::{Fields, Pup, PupError};
use std::alloc::Allocator;

/// A place for a value that comes from a neighbor.
#[derive(Clone, Copy, Debug, PartialEq, Eq)]
pub enum Slot {
    /// The value has not come.
    Empty,
    /// The value.
    Filled(u64),
}

impl Slot {
    /// Whether the value has come.
    pub fn is_filled(self) -> bool
        ensures value { result ≡ is_filled self }
    {
        match self {
            Slot::Empty => false,
            Slot::Filled(_) => true,
        }
    }

    /// The value, or 0 where none has come: so beyond an end of the chain the value is 0, as of a cell of 0.
    pub fn value(self) -> u64
        ensures value { result ≡ value_in self }
    {
        match self {
            Slot::Empty => 0,
            Slot::Filled(value) => value,
        }
    }

    // The numbers that it packs into.
    fn parts(self) -> (u32, u64)
        ensures value { result ≡ slot_parts self }
    {
        match self {
            Slot::Empty => (0, 0),
            Slot::Filled(value) => (1, value),
        }
    }

    // The slot of these numbers.
    fn of(parts: (u32, u64)) -> Slot
        ensures value { result ≡ slot_of parts }
    {
        if parts.0 == 0 {
            return Slot::Empty;
        }
        Slot::Filled(parts.1)
    }
}

impl<A: Allocator + Copy> Pup<A> for Slot {
    ghost use Rattle.pup_pack.specs.Structs.{made};
    ghost use Rattle.hot_spot_strip.specs.Slots.{slot_of, slot_parts, slot_trips};

    ghost fits = { λ s. ⟦<(u32, u64) as Pup<A>>⟧.fits (slot_parts s) };

    ghost counted = { λ s. ⟦<(u32, u64) as Pup<A>>⟧.counted (slot_parts s) };

    ghost pack = { λ s. ⟦<(u32, u64) as Pup<A>>⟧.pack (slot_parts s) };

    ghost unpack = { λ bytes. made slot_of (⟦<(u32, u64) as Pup<A>>⟧.unpack bytes) };

    ghost round_trip = { slot_trips.trip };

    fn packed_len(&self) -> u32 {
        let (is_filled, value) = self.parts();
        Fields::<A>::fields_len(&(&is_filled, &value))
    }

    fn pack_into(&self, out: &mut Vec<u8, A>) -> Result<(), PupError> {
        let (is_filled, value) = self.parts();
        (&is_filled, &value).pack_fields(out)
    }

    fn unpack(alloc: A, bytes: &[u8]) -> Result<(Slot, usize), PupError> {
        let (parts, len) = <(u32, u64) as Pup<A>>::unpack(alloc, bytes)?;
        Ok((Slot::of(parts), len))
    }
}
