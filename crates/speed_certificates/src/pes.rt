//! How fast each PE is, and what else it has to do.

ghost use Rattle.std.specs.Prelude.{◌≡◌, ◌≤◌, ◌<◌, ◌↔◌, All, IsTrue, SomeIff, length, slice_index};
ghost use Rattle.speed_certificates.specs.Speeds.{ArePes};

use crate::limits::SpeedLimits;
use std::marker::Model;

/// The PEs in the order of their blocks: the speed of each, and the work that it has besides its block. Both lists are borrowed.
/// Contracts see them as a record of the two.
#[derive(Drop, Debug)]
pub struct PeSpeeds<'a> {
    speeds: &'a [u32],
    background: &'a [u64],
}

impl<'a> Model for PeSpeeds<'a> {
    ghost use Rattle.speed_certificates.specs.Speeds.{Pes, ArePes};

    ghost Value = { Pes };

    ghost view = { λ p. record { speeds = p.speeds.now; background = p.background.now } };

    ghost invariant = { λ p. ArePes (record { speeds = p.speeds.now; background = p.background.now }) };
}

impl<'a> PeSpeeds<'a> {
    /// PEs of these speeds, with this background. It is `None` where there is no PE, where the lists have different lengths, and
    /// where a number is outside the [`SpeedLimits`].
    pub fn new(speeds: &'a [u32], background: &'a [u64]) -> Option<Self>
        ensures made { SomeIff result (ArePes (record { speeds = speeds.now; background = background.now })) (record { speeds = speeds.now; background = background.now }) }
    {
        let counted = 1 <= speeds.len() && speeds.len() <= SpeedLimits::PES as usize;
        if counted && speeds.len() == background.len() && all_run(speeds) && all_fit(background) {
            Some(PeSpeeds { speeds, background })
        } else {
            None
        }
    }

    /// How many PEs there are.
    pub fn len(&self) -> u32
        ensures value { result ≡ length self.now.speeds }
        ensures pes { ArePes self.now }
    {
        self.speeds.len() as u32
    }

    /// What this PE does in a unit of time.
    pub fn speed(&self, pe: u32) -> u32
        requires inside { pe < length self.now.speeds }
        ensures value { result ≡ slice_index self.now.speeds pe }
        ensures some { 1 ≤ result }
        ensures small { result ≤ SpeedLimits.SPEED }
    {
        self.speeds[pe as usize]
    }

    /// What this PE has to do besides its block.
    pub fn background(&self, pe: u32) -> u64
        requires inside { pe < length self.now.speeds }
        ensures value { result ≡ slice_index self.now.background pe }
        ensures small { result ≤ SpeedLimits.BACKGROUND }
    {
        self.background[pe as usize]
    }
}

// Whether all speeds are within their limits.
fn all_run(speeds: &[u32]) -> bool
    ensures { IsTrue result ↔ All (λ speed. (1 ≤ speed) × (speed ≤ SpeedLimits.SPEED)) speeds.now }
{
    speeds
        .iter()
        .all(|&speed| 1 <= speed && speed <= SpeedLimits::SPEED)
}

// Whether no background is above its limit.
fn all_fit(background: &[u64]) -> bool
    ensures { IsTrue result ↔ All (λ units. units ≤ SpeedLimits.BACKGROUND) background.now }
{
    background
        .iter()
        .all(|&units| units <= SpeedLimits::BACKGROUND)
}
