//! The heaviest block of a division.

ghost use Rattle.std.specs.Prelude.{◌≡◌, ℕ, ◌+◌, ◌≤◌, length};
ghost use Rattle.lb_certificates.specs.Chain.{IsDivision, peak};

use lb_snapshot::Loads;
use std::alloc::Allocator;

/// The greatest load of a block between these cuts, which divide all elements into this many blocks.
#[tactic(auto, using(crate::proofs::GreatestLoads::greatest_none))]
pub fn greatest_load<A: Allocator>(loads: &Loads<A>, blocks: u32, cuts: &[u32]) -> u64
    requires divides { IsDivision 0 (length loads.now) blocks cuts.now }
    ensures value { result ≡ peak loads.now cuts.now }
{
    let mut most = 0;
    for b in 0..blocks as usize {
        let load = loads.load(cuts[b] as usize, cuts[b + 1] as usize);
        most = most.max(load);
    }
    most
}
