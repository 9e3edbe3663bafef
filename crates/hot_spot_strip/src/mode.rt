//! Whether a strip is balanced. It packs into a number of four bytes.

ghost use Rattle.std.specs.Prelude.{◌≡◌};
ghost use Rattle.hot_spot_strip.specs.Modes.{is_static, mode_number, mode_of};

use pup_pack::{Pup, PupError};
use std::alloc::Allocator;

/// Whether a strip is balanced.
#[derive(Clone, Copy, Debug, PartialEq, Eq)]
pub enum Mode {
    /// After each round it waits for the decision of that round.
    Balanced,
    /// It never waits to be balanced, so it stays where it began.
    Static,
}

impl Mode {
    /// Whether it never waits to be balanced.
    pub fn is_static(self) -> bool
        ensures value { result ≡ is_static self }
    {
        match self {
            Mode::Balanced => false,
            Mode::Static => true,
        }
    }

    // The number that it packs into.
    fn number(self) -> u32
        ensures value { result ≡ mode_number self }
    {
        match self {
            Mode::Balanced => 0,
            Mode::Static => 1,
        }
    }

    // The mode with this number.
    fn of(number: u32) -> Mode
        ensures value { result ≡ mode_of number }
    {
        if number == 0 {
            return Mode::Balanced;
        }
        Mode::Static
    }
}

impl<A: Allocator> Pup<A> for Mode {
    ghost use Rattle.pup_pack.specs.Structs.{made};
    ghost use Rattle.hot_spot_strip.specs.Modes.{mode_number, mode_of, mode_trips};

    ghost fits = { λ m. ⟦<u32 as Pup<A>>⟧.fits (mode_number m) };

    ghost counted = { λ m. ⟦<u32 as Pup<A>>⟧.counted (mode_number m) };

    ghost pack = { λ m. ⟦<u32 as Pup<A>>⟧.pack (mode_number m) };

    ghost unpack = { λ bytes. made mode_of (⟦<u32 as Pup<A>>⟧.unpack bytes) };

    ghost round_trip = { mode_trips.trip };

    fn packed_len(&self) -> u32 {
        <u32 as Pup<A>>::packed_len(&self.number())
    }

    fn pack_into(&self, out: &mut Vec<u8, A>) -> Result<(), PupError> {
        self.number().pack_into(out)
    }

    fn unpack(alloc: A, bytes: &[u8]) -> Result<(Mode, usize), PupError> {
        let (number, len) = <u32 as Pup<A>>::unpack(alloc, bytes)?;
        Ok((Mode::of(number), len))
    }
}
