//! The generator of the numbers by which events are drawn.

ghost use Rattle.std.specs.Prelude.{◌≡◌, ◌≤◌, ◌<◌, ℕ};
ghost use Rattle.schedules.specs.Generators.{next_number, next_state, scaled};

use std::marker::Model;

/// SplitMix64, the generator of G. Steele, D. Lea and C. Flood, "Fast splittable pseudorandom number generators", OOPSLA 2014.
/// Its state is a number of 64 bits, the seed at first. Contracts see it as its state.
#[derive(Clone, Copy, Debug, PartialEq, Eq)]
pub struct SplitMix64 {
    state: u64,
}

impl Model for SplitMix64 {
    ghost Value = { ℕ };

    ghost view = { λ g. g.state };

    ghost inverse = { λ n. record { state = n } };
}

impl SplitMix64 {
    /// The generator with this seed.
    pub fn new(seed: u64) -> Self
        ensures state { result ≡ seed }
    {
        SplitMix64 { state: seed }
    }

    /// The next number.
    #[tactic(auto, unfolding(crate::specs::Generators::mixed))]
    pub fn next(&mut self) -> u64
        ensures value { result ≡ next_number self.old }
        ensures state { self.new ≡ next_state self.old }
    {
        self.state = self.state.wrapping_add(0x9e37_79b9_7f4a_7c15);
        let mut z = self.state;
        z = (z ^ (z >> 30)).wrapping_mul(0xbf58_476d_1ce4_e5b9);
        z = (z ^ (z >> 27)).wrapping_mul(0x94d0_49bb_1331_11eb);
        z ^ (z >> 31)
    }

    /// The next number, scaled to one below this bound: the upper half of their product, as in D. Lemire ("Fast random integer
    /// generation in an interval", 2019), but without a second draw. It is 0 where the bound is 0.
    pub fn below(&mut self, bound: u64) -> u64
        ensures value { result ≡ scaled self.old bound }
        ensures state { self.new ≡ next_state self.old }
        ensures below { 1 ≤ bound → result < bound }
    {
        let product = u128::from(self.next()) * u128::from(bound);
        (product >> 64) as u64
    }
}
