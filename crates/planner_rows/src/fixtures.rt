//! What the tests use: numbers, snapshots and cost tables. What cannot be made ends the test.

use crate::lists::{assert_for, list, push, same};
use block_assignment::CostTable;
use chain_partition::{Prefix, Probe};
use chare_index::{Index, Pe};
use lb_certificates::{Cuts, Division, Floor, Naming, PriceList, Prices, Stops};
use lb_snapshot::{Loads, Sizes, Snapshot, Units};
use lb_strategy::{Decision, Moves};
use std::process::Abort;

pub(crate) fn pe(rt: &(impl Abort + AllocGlobal), number: u32) -> Pe {
    Pe::new(number).expect(rt, "no such PE")
}

pub(crate) fn index(rt: &(impl Abort + AllocGlobal), place: u32) -> Index {
    Index::new(place).expect(rt, "no such element")
}

pub(crate) fn loads(rt: &(impl Abort + AllocGlobal), units: &[Units]) -> Loads {
    Loads::new(list(rt, units)).expect(rt, "past a limit")
}

/// The most loads that are allowed, each of them this one.
pub(crate) fn full_loads(rt: &(impl Abort + AllocGlobal), load: Units) -> Loads {
    let units = vec![in rt.alloc(); load; 65_536].expect(rt, "out of memory");
    Loads::new(units).expect(rt, "refused a full array")
}

/// The bytes and the PE of each element.
pub(crate) fn sizes(rt: &(impl Abort + AllocGlobal), elements: &[(u32, u32)]) -> Sizes {
    let mut pairs = Vec::new(rt.alloc());
    for &(bytes, place) in elements {
        let pair = (bytes, pe(rt, place));
        push(rt, &mut pairs, pair);
    }
    Sizes::new(pairs).expect(rt, "past a limit")
}

/// The division with this bottleneck, these cuts, and these stops or the floor zero.
pub(crate) fn division(
    rt: &(impl Abort + AllocGlobal),
    bottleneck: u64,
    cuts: &[u32],
    stops: Option<&[u32]>,
) -> Division {
    Division {
        bottleneck,
        cuts: Cuts::new(list(rt, cuts)),
        floor: floor(rt, stops),
    }
}

// The fence with these stops, or the floor zero.
fn floor(rt: &(impl Abort + AllocGlobal), stops: Option<&[u32]>) -> Floor {
    match stops {
        Some(stops) => Floor::Fence(Stops::new(list(rt, stops))),
        None => Floor::Zero,
    }
}

// The stops of a fence, or none for the floor zero.
fn stops(division: &Division) -> &[u32] {
    match &division.floor {
        Floor::Zero => &[],
        Floor::Fence(stops) => stops.as_slice(),
    }
}

/// Whether a division has this bottleneck, these cuts, and these stops, of which the floor zero has none.
pub(crate) fn is_division(
    division: &Division,
    bottleneck: u64,
    cuts: &[u32],
    fence: &[u32],
) -> bool {
    division.bottleneck == bottleneck
        && same(division.cuts.as_slice(), cuts)
        && same(stops(division), fence)
}

/// The load of each element of a full array, and that of all of them.
pub(crate) type FullArray = (Units, u64);

/// Full arrays: with the greatest load that there may be, and with the greatest of 32 bits.
pub(crate) static FULL_ARRAYS: [FullArray; 2] = [
    (140_737_488_355_327, 9_223_372_036_854_710_272),
    (4_294_967_295, 281_474_976_645_120),
];

/// Whether a division of a full array has one block with this load, and its fence.
pub(crate) fn is_whole_array(division: &Division, load: u64) -> bool {
    is_division(division, load, &[0, 65_536], &[0, 65_535])
}

pub(crate) fn naming(rt: &(impl Abort + AllocGlobal), names: &[u32]) -> Naming {
    Naming::new(list(rt, names))
}

pub(crate) fn prices(rt: &(impl Abort + AllocGlobal), u: &[i64], v: &[i64]) -> Prices {
    Prices {
        u: PriceList::new(list(rt, u)),
        v: PriceList::new(list(rt, v)),
    }
}

/// The load, the bytes and the PE of an element.
pub(crate) type Element = (Units, u32, u32);

/// The elements of the example.
pub(crate) const EXAMPLE: [Element; 3] = [(1, 10, 0), (1, 9, 1), (2, 8, 0)];

/// The snapshot of these elements at step 5.
pub(crate) fn snapshot(
    rt: &(impl Abort + AllocGlobal),
    procs: u32,
    elements: &[Element],
) -> Snapshot {
    let mut units = Vec::new(rt.alloc());
    let mut pairs = Vec::new(rt.alloc());
    for &(load, bytes, place) in elements {
        let pair = (bytes, pe(rt, place));
        push(rt, &mut units, load);
        push(rt, &mut pairs, pair);
    }
    let loads = Loads::new(units).expect(rt, "past a limit");
    let sizes = Sizes::new(pairs).expect(rt, "past a limit");
    Snapshot::new(5, procs, loads, sizes).expect(rt, "no snapshot")
}

/// The snapshot of the example.
pub(crate) fn example(rt: &(impl Abort + AllocGlobal)) -> Snapshot {
    snapshot(rt, 2, &EXAMPLE)
}

/// An element that moves, its present PE and its planned one.
pub(crate) type Step = (u32, u32, u32);

/// The moves with these numbers.
pub(crate) fn moves(rt: &(impl Abort + AllocGlobal), steps: &[Step]) -> Moves {
    let mut moves = Vec::new(rt.alloc());
    for &(moved, present, planned) in steps {
        let step = (index(rt, moved), pe(rt, present), pe(rt, planned));
        push(rt, &mut moves, step);
    }
    Moves::new(moves)
}

/// The bottleneck of a plan for two PEs or others, its cuts and stops, its names, its bytes moved and its moves.
pub(crate) type Plan = (
    u64,
    &'static [u32],
    &'static [u32],
    &'static [u32],
    u64,
    &'static [Step],
);

/// The plan for the example.
pub(crate) const EXAMPLE_PLAN: Plan = (2, &[0, 2, 3], &[0, 1, 2], &[1, 0], 10, &[(0, 0, 1)]);

/// Whether a decision is this plan.
pub(crate) fn is_plan(rt: &(impl Abort + AllocGlobal), decision: &Decision, plan: &Plan) -> bool {
    let &(bottleneck, cuts, fence, names, moved, steps) = plan;
    let expected = moves(rt, steps);
    decision.moves == expected
        && decision.moved == moved
        && same(decision.naming.as_slice(), names)
        && is_division(&decision.division, bottleneck, cuts, fence)
}

/// The running sums of these loads.
pub(crate) fn prefix(rt: &(impl Abort + AllocGlobal), units: &[Units]) -> Prefix {
    let loads = loads(rt, units);
    Prefix::of(rt.alloc(), &loads).expect(rt, "out of memory")
}

/// Whether a probe fits, and its ends.
pub(crate) fn ends_of(answer: Probe) -> (bool, Vec<u32>) {
    match answer {
        Probe::Fits(cuts) => (true, cuts.into_vec()),
        Probe::Stops(stops) => (false, stops.into_vec()),
    }
}

// The cost table of these elements and blocks.
fn table_on(rt: &(impl Abort + AllocGlobal), sizes: &Sizes, cuts: &Cuts) -> CostTable {
    let count = cuts.as_slice().len();
    assert_for(rt, 2 <= count && count <= 257, "no blocks, or too many");
    assert_for(rt, cuts.divides(sizes.len()), "no division");
    CostTable::of(rt.alloc(), sizes, cuts).expect(rt, "out of memory")
}

/// The cost table of elements with these bytes and PEs, and of the blocks between these cuts, which have to
/// divide them.
pub(crate) fn table(
    rt: &(impl Abort + AllocGlobal),
    elements: &[(u32, u32)],
    ends: &[u32],
) -> CostTable {
    let sizes = sizes(rt, elements);
    let cuts = Cuts::new(list(rt, ends));
    table_on(rt, &sizes, &cuts)
}
