//! A mixing function of 64 bits, and many rounds of it.

ghost use Rattle.std.specs.Prelude.{◌≡◌};
ghost use Rattle.hot_spot_strip.specs.Mixing.{mix, mixed};

/// A round of mixing: the number that the generator SplitMix64 gives in the state `x` (Steele, Lea and Flood, "Fast
/// Splittable Pseudorandom Number Generators", OOPSLA 2014). It adds the golden gamma, and its other steps are those of
/// variant 13 of Stafford's mixers.
#[tactic(auto, unfolding(crate::specs::Mixing::mix))]
pub fn mix(x: u64) -> u64
    ensures value { result ≡ mix x }
{
    let a = x.wrapping_add(0x9e37_79b9_7f4a_7c15);
    let b = (a ^ (a >> 30)).wrapping_mul(0xbf58_476d_1ce4_e5b9);
    let c = (b ^ (b >> 27)).wrapping_mul(0x94d0_49bb_1331_11eb);
    c ^ (c >> 31)
}

/// This number of rounds of mixing, one after another.
pub fn mixed(x: u64, rounds: u64) -> u64
    ensures value { result ≡ mixed x rounds }
{
    let mut now = x;
    for _ in 0..rounds {
        now = mix(now);
    }
    now
}
