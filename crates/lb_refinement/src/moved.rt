//! The bytes that names move.

ghost use Rattle.std.specs.Prelude.{◌≡◌, ◌+◌, ◌*◌, ◌<◌, ◌≤◌, length};
ghost use Rattle.lb_certificates.specs.Naming.{blocks_between, bytes_moved, moved_bytes, AreBlocks};
ghost use Rattle.lb_snapshot.specs.Measured.{IsSizes};

use crate::places::block_around;
use chare_index::Pe;

/// The packed bytes of all elements that are not on the PE that is the name of their block.
#[tactic(auto, using(crate::proofs::MovedSums::moved_more, crate::proofs::MovedSums::has_block))]
pub fn moved_by(sizes: &[(u32, Pe)], cuts: &[u32], names: &[u32]) -> u64
    requires sizes { IsSizes sizes.now }
    requires blocks { AreBlocks sizes.now cuts.now }
    requires named { length names.now ≡ blocks_between cuts.now }
    ensures value { result ≡ bytes_moved sizes.now cuts.now names.now }
{
    let mut moved = 0;
    for i in 0..sizes.len() {
        let (bytes, present) = sizes[i];
        moved += moved_to(bytes, present, names[block_around(cuts, i as u32)]);
    }
    moved
}

// The bytes of an element that move where it is to run on this PE.
fn moved_to(bytes: u32, present: Pe, pe: u32) -> u64
    ensures value { result ≡ moved_bytes (bytes, present) pe }
    ensures small { result ≤ bytes }
{
    if present.get() == pe {
        return 0;
    }
    u64::from(bytes)
}
