//! The profile: where the hot spot is in a round, and what a cell costs at some distance from it.

ghost use Rattle.std.specs.Prelude.{◌≡◌, ◌+◌, ◌*◌, ◌/◌, ◌<◌, ◌≤◌};
ghost use Rattle.chare_index.specs.declared.limits.TheConstants.Limits.{ELEMENTS};
ghost use Rattle.hot_spot_strip.specs.Profile.{cell_work, distance, middle};

/// How many rounds of mixing each cell of strip `me` of `n` strips takes in this round of `rounds`, counted from 0.
///
/// It is one round of mixing, and `work` more in the middle of the hot spot. The extra work falls off evenly on both sides,
/// down to none at an eighth of the chain. The middle is at `round * n / rounds`, so it goes from one end of the chain to the
/// other.
pub fn cell_work(me: u32, n: u32, round: u32, rounds: u32, work: u32) -> u64
    requires member { me < n }
    requires few { n ≤ ELEMENTS }
    requires within { round < rounds }
    ensures value { result ≡ cell_work me n round rounds work }
    ensures small { result ≤ 1 + work }
{
    let n = u64::from(n);
    let near = n.saturating_sub(8 * distance(u64::from(me), middle(n, round, rounds)));
    1 + share(work, near, n)
}

// The strip in the middle of the hot spot.
fn middle(n: u64, round: u32, rounds: u32) -> u64
    requires few { n ≤ ELEMENTS }
    requires within { round < rounds }
    ensures value { result ≡ middle n round rounds }
    ensures member { result ≤ n }
{
    u64::from(round) * n / u64::from(rounds)
}

// The distance between two strips.
fn distance(a: u64, b: u64) -> u64
    ensures value { result ≡ distance a b }
{
    a.max(b) - a.min(b)
}

// The part of the work that is `near` of `n`.
fn share(work: u32, near: u64, n: u64) -> u64
    requires some { 0 < n }
    requires part { near ≤ n }
    requires few { n ≤ ELEMENTS }
    ensures value { result ≡ work * near / n }
    ensures small { result ≤ work }
{
    u64::from(work) * near / n
}
