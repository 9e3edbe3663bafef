//! How far above the least possible load the greatest load may be.

ghost use Rattle.std.specs.Prelude.{◌≡◌, ◌<◌, ◌≤◌, ◌↔◌, ◌^◌, ℕ, IsSome, IfSome};
ghost use Rattle.chain_refinement.specs.Tolerances.{limit_of};

use std::marker::Model;

/// How far the greatest load of a block may be above the least possible one, in thousandths of that: 0 to 1,000. Contracts see
/// it as its number.
#[derive(Clone, Copy, Debug, PartialEq, Eq)]
pub struct Tolerance {
    thousandths: u32,
}

impl Model for Tolerance {
    ghost Value = { ℕ };

    ghost view = { λ t. t.thousandths };

    ghost invariant = { λ t. t.thousandths ≤ 1000 };

    ghost inverse = { λ n. record { thousandths = n } };
}

impl Tolerance {
    /// The greatest tolerance, by which the limit is twice the least load.
    pub const MOST: u32 = 1_000;

    /// This number of thousandths, or `None` where it is above [`Tolerance::MOST`].
    pub fn new(thousandths: u32) -> Option<Tolerance>
        ensures some { IfSome result (λ t. t ≡ thousandths) }
        ensures when { IsSome result ↔ (thousandths ≤ 1000) }
    {
        if thousandths > Tolerance::MOST {
            return None;
        }
        Some(Tolerance { thousandths })
    }

    /// The thousandths.
    pub fn get(self) -> u32
        ensures value { result ≡ self }
        ensures range { result ≤ 1000 }
    {
        self.thousandths
    }

    /// The greatest load that a block may have, where this bottleneck is the least possible one: the tolerance above it,
    /// rounded down.
    pub fn limit(self, bottleneck: u64) -> u64
        requires small { bottleneck < 2 ^ 63 }
        ensures value { result ≡ limit_of bottleneck self }
    {
        let more = u128::from(bottleneck) * u128::from(self.thousandths) / 1_000;
        bottleneck + more as u64
    }
}
