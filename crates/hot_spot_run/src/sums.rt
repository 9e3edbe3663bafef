//! The checksum of all cells.

use chare_index::Index;
use hot_spot_strip::{Strip, mix};
use rts_run::Outcome;
use std::alloc::Allocator;

/// The checksum of all cells of a chain of `n` strips, in their order: each cell is joined to the sum so far by exclusive
/// or, and the result is mixed. `None` where a strip is on no PE, since it is on its way, packed: as a fault ended the run,
/// or as the last strip finished.
pub fn checksum<A: Allocator + Copy>(n: u32, outcome: &Outcome<Strip<A>, A>) -> Option<u64> {
    let mut sum = 0;
    for place in 0..n {
        let strip = outcome.element(Index::new(place)?)?;
        sum = joined(sum, strip.chare().cells());
    }
    Some(sum)
}

// The sum with these cells added.
fn joined(sum: u64, cells: &[u64]) -> u64 {
    let mut sum = sum;
    for cell in cells {
        sum = mix(sum ^ *cell);
    }
    sum
}
