//! The worked namings, and cuts that no naming is checked for.

use crate::fixtures::{naming, prices, sizes};
use crate::lists::{assert_for, list, push};
use lb_certificates::{Cuts, Flaw, check_naming};
use std::process::Abort;

// The result of the check of these elements, cuts, names and prices.
fn verdict(
    rt: &(impl Abort + AllocGlobal),
    pairs: &[(u32, u32)],
    cuts: &[u32],
    names: &[u32],
    u: &[i64],
    v: &[i64],
) -> Result<u64, Flaw> {
    let sizes = sizes(rt, pairs);
    let cuts = Cuts::new(list(rt, cuts));
    let naming = naming(rt, names);
    let prices = prices(rt, u, v);
    check_naming(&sizes, &cuts, &naming, &prices)
}

// Elements, cuts, names, prices of blocks and of PEs, and the result of the check of these.
type Judged = (
    &'static [(u32, u32)],
    &'static [u32],
    &'static [u32],
    &'static [i64],
    &'static [i64],
    Result<u64, Flaw>,
);

const EXAMPLE: &[(u32, u32)] = &[(10, 0), (9, 1), (8, 0)];

const NAMES: &[u32] = &[1, 0];

static JUDGED: [Judged; 9] = [
    (EXAMPLE, &[0, 2, 3], NAMES, &[10, 1], &[-1, 0], Ok(10)),
    (
        EXAMPLE,
        &[0, 2, 3],
        NAMES,
        &[10, 1],
        &[0, 0],
        Err(Flaw::PriceHigh(0, 0)),
    ),
    (EXAMPLE, &[], NAMES, &[10, 1], &[-1, 0], Err(Flaw::CutCount)),
    (EXAMPLE, &[0], &[], &[], &[], Err(Flaw::CutCount)),
    (
        EXAMPLE,
        &[1, 2, 3],
        NAMES,
        &[10, 1],
        &[-1, 0],
        Err(Flaw::CutStart),
    ),
    (
        EXAMPLE,
        &[0, 4, 3],
        NAMES,
        &[10, 1],
        &[-1, 0],
        Err(Flaw::CutOrder),
    ),
    (
        EXAMPLE,
        &[0, 2, 2],
        NAMES,
        &[10, 1],
        &[-1, 0],
        Err(Flaw::CutEnd),
    ),
    // A PE that is no name.
    (&[(7, 5)], &[0, 1], &[0], &[7], &[0], Ok(7)),
    (
        &[(5, 0), (4, 1), (5, 0), (1, 1), (4, 1), (3, 2)],
        &[0, 2, 4, 6],
        &[1, 0, 2],
        &[6, 3, 4],
        &[-2, -1, 0],
        Ok(10),
    ),
];

#[test]
fn namings_are_judged(rt: HostRuntime) {
    for &(pairs, cuts, names, u, v, expected) in &JUDGED {
        let found = verdict(&rt, pairs, cuts, names, u, v);
        assert_for(&rt, found == expected, found);
    }
}

// No elements in 256 blocks, which have no names, and in 257.
#[test]
fn no_more_blocks_than_a_machine_has_pes(rt: HostRuntime) {
    let mut cuts = vec![in rt.alloc(); 0; 257].expect(&rt, "out of memory");
    let most = verdict(&rt, &[], &cuts, &[], &[], &[]);
    assert_for(&rt, most == Err(Flaw::NameCount), most);
    push(&rt, &mut cuts, 0);
    let more = verdict(&rt, &[], &cuts, &[], &[], &[]);
    assert_for(&rt, more == Err(Flaw::CutCount), more);
}
