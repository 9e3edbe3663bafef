//! Probes, which find the end of each block by binary search on running sums, compared with a plain walk over the loads.

ghost use Rattle.std.specs.Prelude.{◌≤◌};

use crate::fixtures::{ends_of, prefix};
use crate::lists::{assert_for, list, push};
use chain_partition::probe_on;
use lb_snapshot::Units;
use std::process::Abort;

// Where a block ends that begins at `first` and takes as many elements as fit, one by one.
fn plain_end(units: &[Units], first: usize, limit: u64) -> usize {
    let mut load: u64 = 0;
    for end in first..units.len() {
        load = load.saturating_add(units[end]);
        if load > limit {
            return end;
        }
    }
    units.len()
}

// Whether these are the ends of blocks that a plain walk fills.
fn are_plain_ends(ends: &[u32], units: &[Units], limit: u64) -> bool {
    let mut first = 0;
    for b in 1..ends.len() {
        let end = ends[b] as usize;
        if end != plain_end(units, first, limit) {
            return false;
        }
        first = end;
    }
    ends.first() == Some(&0)
}

// A number far from those of neighboring seeds.
fn scattered(seed: u64) -> u64 {
    seed.wrapping_add(1).wrapping_mul(0x9e37_79b9_7f4a_7c15) >> 33
}

// Up to 40 loads of 0 to 15, every third of them 0.
fn some_units(rt: &(impl Abort + AllocGlobal), number: u64) -> Vec<Units> {
    let mut units = list(rt, &[]);
    for i in 0..number % 41 {
        let load = scattered(number.wrapping_mul(64).wrapping_add(i)) % 16;
        let load = if i % 3 == 0 { 0 } else { load };
        push(rt, &mut units, load);
    }
    units
}

// Whether this number of blocks of these loads end where a plain walk ends.
fn end_as_walked(rt: &(impl Abort + AllocGlobal), units: &[Units], pes: u32, limit: u64) -> bool
    requires some_pe { 1 ≤ pes }
    requires few_pes { pes ≤ 256 }
{
    let prefix = prefix(rt, units);
    let answer = probe_on(rt.alloc(), &prefix, pes, limit).expect(rt, "out of memory");
    let (_, ends) = ends_of(answer);
    ends.len() == pes as usize + 1 && are_plain_ends(&ends, units, limit)
}

#[test]
fn blocks_end_where_a_plain_walk_ends(rt: HostRuntime) {
    for number in 0u64..1000 {
        let units = some_units(&rt, number);
        let (pes, limit) = (1 + (number % 7) as u32, scattered(number) % 64);
        assert_for(&rt, end_as_walked(&rt, &units, pes, limit), number);
    }
}
