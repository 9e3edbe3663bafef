//! What a strip tells a neighbor. It packs into 13 bytes.

use pup_pack::{Fields, Pup, PupError};
use std::alloc::Allocator;

/// A cell at an end of a strip, as the neighbor there gets it for a step.
#[derive(Clone, Copy, Debug)]
pub struct GhostCell {
    /// Whether it is of the neighbor on the left.
    pub from_left: bool,
    /// The step, counted from 0.
    pub step: u32,
    /// The temperature before that step.
    pub heat: f64,
}

impl<A: Allocator + Copy> Pup<A> for GhostCell {
    ghost use Rattle.std.specs.Prelude.{refl};
    ghost use Rattle.pup_pack.specs.Structs.{made};
    ghost use Rattle.pup_pack.specs.Trips.{bool_trips, f64_trips, struct_trips, three_trips, u32_trips};
    ghost use Rattle.heat_rod.specs.GhostCells.{cell_pack};

    ghost fits = { λ g. ⟦<(bool, u32, f64) as Pup<A>>⟧.fits (g.from_left, g.step, g.heat) };

    ghost counted = { λ g. ⟦<(bool, u32, f64) as Pup<A>>⟧.counted (g.from_left, g.step, g.heat) };

    ghost pack = { cell_pack };

    ghost unpack = { λ bytes. made (λ x. record { from_left = x.0; step = x.1; heat = x.2 }) (⟦<(bool, u32, f64) as Pup<A>>⟧.unpack bytes) };

    ghost round_trip = { (struct_trips (λ g. (g.from_left, g.step, g.heat)) (λ x. record { from_left = x.0; step = x.1; heat = x.2 }) (λ _. refl)
        (three_trips bool_trips u32_trips f64_trips)).trip };

    fn packed_len(&self) -> u32 {
        Fields::<A>::fields_len(&(&self.from_left, &self.step, &self.heat))
    }

    fn pack_into(&self, out: &mut Vec<u8, A>) -> Result<(), PupError> {
        (&self.from_left, &self.step, &self.heat).pack_fields(out)
    }

    fn unpack(alloc: A, bytes: &[u8]) -> Result<(GhostCell, usize), PupError> {
        let ((from_left, step, heat), len) = <(bool, u32, f64) as Pup<A>>::unpack(alloc, bytes)?;
        let cell = GhostCell {
            from_left,
            step,
            heat,
        };
        Ok((cell, len))
    }
}
