//! The worked certificates of divisions, and the example as a snapshot.

use crate::fixtures::{EXAMPLE, Element, division, example, loads, sizes};
use crate::lists::{assert_for, same};
use lb_certificates::{Flaw, check_division};
use lb_snapshot::{Snapshot, Units};
use std::process::Abort;

// Loads, a number of PEs, a bottleneck, cuts, stops or none for the floor zero, and the result of the check of these.
type Judged = (
    &'static [Units],
    u32,
    u64,
    &'static [u32],
    Option<&'static [u32]>,
    Result<(), Flaw>,
);

static JUDGED: [Judged; 8] = [
    (&[1, 2, 3, 4, 5], 2, 9, &[0, 3, 5], Some(&[0, 3, 4]), Ok(())),
    (
        &[1, 2, 3, 4, 5],
        257,
        9,
        &[0, 3, 5],
        Some(&[0, 3, 4]),
        Err(Flaw::CutCount),
    ),
    (
        &[1, 2, 3, 4, 5],
        2,
        10,
        &[0, 3, 5],
        Some(&[0, 3, 4]),
        Err(Flaw::FenceLight(2)),
    ),
    // Blocks of equal counts are heavier: 3 + 4 + 5 is 12.
    (
        &[1, 2, 3, 4, 5],
        2,
        9,
        &[0, 2, 5],
        None,
        Err(Flaw::Heavy(1)),
    ),
    (&[0, 0, 0], 2, 0, &[0, 3, 3], None, Ok(())),
    (&[0, 0, 0], 2, 0, &[0, 3, 3], Some(&[0, 0, 2]), Ok(())),
    (&[], 0, 0, &[0], None, Ok(())),
    (&[], 1, 0, &[0, 0], Some(&[0, 0]), Err(Flaw::FenceEnd)),
];

#[test]
fn divisions_are_judged(rt: HostRuntime) {
    for &(units, pes, bottleneck, cuts, stops, expected) in &JUDGED {
        let loads = loads(&rt, units);
        let division = division(&rt, bottleneck, cuts, stops);
        let found = check_division(&loads, pes, &division);
        assert_for(&rt, found == expected, found);
    }
}

// Whether this is the example.
fn is_example(snapshot: &Snapshot) -> bool {
    let loads = snapshot.loads();
    snapshot.step() == 5
        && snapshot.procs() == 2
        && same(loads.as_slice(), &[1, 1, 2])
        && !loads.is_empty()
        && loads.len() == 3
        && loads.load(1, 3) == 3
        && !snapshot.sizes().is_empty()
}

#[test]
fn the_example_is_a_snapshot(rt: HostRuntime) {
    let example = example(&rt);
    assert!(rt; is_example(&example));
}
