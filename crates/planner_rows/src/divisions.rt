//! The worked divisions and probes, and full arrays.

ghost use Rattle.std.specs.Prelude.{◌≤◌};

use crate::fixtures::{
    FULL_ARRAYS, ends_of, full_loads, is_division, is_whole_array, loads, prefix,
};
use crate::lists::{assert_for, is_list};
use chain_partition::{Probe, divide, probe, probe_on};
use lb_certificates::Division;
use lb_snapshot::{Loads, Units};
use std::process::Abort;

fn divided(rt: &(impl Abort + AllocGlobal), loads: &Loads, pes: u32) -> Division
    requires some_pe { 1 ≤ pes }
    requires few_pes { pes ≤ 256 }
{
    divide(rt.alloc(), loads, pes).expect(rt, "out of memory")
}

// Loads, a number of PEs, and the bottleneck, the cuts and the stops of their division.
type Divided = (&'static [Units], u32, u64, &'static [u32], &'static [u32]);

static DIVIDED: [Divided; 7] = [
    (&[], 3, 0, &[0, 0, 0, 0], &[]),
    (&[1, 2, 3, 4, 5], 2, 9, &[0, 3, 5], &[0, 3, 4]),
    (&[10, 1, 1], 3, 10, &[0, 1, 3, 3], &[0, 0, 0, 0]),
    (&[0, 0, 0], 2, 0, &[0, 3, 3], &[]),
    (&[5, 7], 4, 7, &[0, 1, 2, 2, 2], &[0, 1, 1, 1, 1]),
    (&[5, 0, 0, 7], 2, 7, &[0, 3, 4], &[0, 3, 3]),
    (&[1, 1, 2], 1, 4, &[0, 3], &[0, 2]),
];

#[test]
fn the_examples_have_their_divisions(rt: HostRuntime) {
    for &(units, pes, bottleneck, cuts, fence) in &DIVIDED {
        assert_for(&rt, 1 <= pes && pes <= 256, pes);
        let division = divided(&rt, &loads(&rt, units), pes);
        let found = is_division(&division, bottleneck, cuts, fence);
        assert_for(&rt, found, units);
    }
}

// Whether the result of a probe, that it fits or that it does not, has these cuts or stops.
fn is_probe(answer: Probe, row: &Probed) -> bool {
    let &(_, fits, expected) = row;
    let (fitted, ends) = ends_of(answer);
    is_list(ends, expected) && fitted == fits
}

// A limit, whether some elements fit into two blocks within it, and the cuts or the stops.
type Probed = (u64, bool, &'static [u32]);

// Whether a probe of these loads for two PEs has this result.
fn is_probed_so(rt: &(impl Abort + AllocGlobal), loads: &Loads, row: &Probed) -> bool {
    is_probe(
        probe(rt.alloc(), loads, 2, row.0).expect(rt, "out of memory"),
        row,
    )
}

static PROBES: [Probed; 4] = [
    (9, true, &[0, 3, 5]),
    (8, false, &[0, 3, 4]),
    (0, false, &[0, 0, 0]),
    (u64::MAX, true, &[0, 5, 5]),
];

#[test]
fn probes_fit_or_stop(rt: HostRuntime) {
    let five = loads(&rt, &[1, 2, 3, 4, 5]);
    let prefix = prefix(&rt, &[1, 2, 3, 4, 5]);
    for row in &PROBES {
        assert_for(&rt, is_probed_so(&rt, &five, row), row.0);
        let on_sums = probe_on(rt.alloc(), &prefix, 2, row.0).expect(&rt, "out of memory");
        assert_for(&rt, is_probe(on_sums, row), row.0);
    }
}

static FULL_PROBES: [Probed; 4] = [
    (4_611_686_018_427_355_136, true, &[0, 32_768, 65_536]),
    (4_611_686_018_427_355_135, false, &[0, 32_767, 65_534]),
    (9_223_372_036_854_710_271, true, &[0, 65_535, 65_536]),
    (u64::MAX, true, &[0, 65_536, 65_536]),
];

#[test]
fn probes_of_a_full_array_fit_or_stop(rt: HostRuntime) {
    let full = full_loads(&rt, 140_737_488_355_327);
    for row in &FULL_PROBES {
        assert_for(&rt, is_probed_so(&rt, &full, row), row.0);
    }
}

#[test]
fn a_full_array_of_full_loads(rt: HostRuntime) {
    for &(load, all) in &FULL_ARRAYS {
        let division = divided(&rt, &full_loads(&rt, load), 1);
        assert_for(&rt, is_whole_array(&division, all), load);
    }
}
