//! The worked decisions, and the example's with one part forged for each flaw.

use crate::fixtures::{
    EXAMPLE, EXAMPLE_PLAN, Element, Plan, Step, division, example, full_loads, index, is_plan,
    moves, naming, pe, prices, snapshot,
};
use crate::lists::{assert_for, push};
use block_assignment::NameError;
use chare_index::Index;
use lb_certificates::{Division, Flaw};
use lb_snapshot::{Sizes, Snapshot, Units};
use lb_strategy::{Decision, PlanError, check, plan};
use std::process::Abort;

// Names, and prices of blocks and of PEs.
type Names = (&'static [u32], &'static [i64], &'static [i64]);

// Bytes moved, and moves.
type Moving = (u64, &'static [Step]);

// The names and the prices of the example's decision.
static NAMES: Names = (&[1, 0], &[10, 1], &[-1, 0]);

// Its bytes moved, and its moves.
static MOVING: Moving = (10, &[(0, 0, 1)]);

// Its division.
fn right_division(rt: &(impl Abort + AllocGlobal)) -> Division {
    division(rt, 2, &[0, 2, 3], Some(&[0, 1, 2]))
}

// The decision with these parts.
fn decision(
    rt: &(impl Abort + AllocGlobal),
    division: Division,
    names: Names,
    moving: Moving,
) -> Decision {
    Decision {
        division,
        naming: naming(rt, names.0),
        prices: prices(rt, names.1, names.2),
        moved: moving.0,
        moves: moves(rt, moving.1),
    }
}

// The result of the check of this decision for two PEs.
fn verdict(
    rt: &(impl Abort + AllocGlobal),
    taken: &Snapshot,
    division: Division,
    names: Names,
    moving: Moving,
) -> Result<(), Flaw> {
    let decision = decision(rt, division, names, moving);
    check(taken, 2, &decision)
}

// Cuts, stops or none for the floor zero, and the result of the check of the example's decision with these.
type ForgedDivision = (&'static [u32], Option<&'static [u32]>, Result<(), Flaw>);

static FORGED_DIVISIONS: [ForgedDivision; 14] = [
    (&[0, 2, 3], Some(&[0, 1, 2]), Ok(())),
    (&[0, 3], Some(&[0, 1, 2]), Err(Flaw::CutCount)),
    (&[], Some(&[0, 1, 2]), Err(Flaw::CutCount)),
    (&[1, 2, 3], Some(&[0, 1, 2]), Err(Flaw::CutStart)),
    (&[0, 4, 3], Some(&[0, 1, 2]), Err(Flaw::CutOrder)),
    (&[0, 2, 2], Some(&[0, 1, 2]), Err(Flaw::CutEnd)),
    (&[0, 1, 3], Some(&[0, 1, 2]), Err(Flaw::Heavy(1))),
    (&[0, 2, 3], Some(&[0, 1]), Err(Flaw::FenceCount)),
    (&[0, 2, 3], Some(&[]), Err(Flaw::FenceCount)),
    (&[0, 2, 3], Some(&[1, 1, 2]), Err(Flaw::FenceStart)),
    (&[0, 2, 3], Some(&[0, 2, 1]), Err(Flaw::FenceOrder)),
    (&[0, 2, 3], Some(&[0, 1, 3]), Err(Flaw::FenceEnd)),
    (&[0, 2, 3], Some(&[0, 0, 2]), Err(Flaw::FenceLight(1))),
    (&[0, 2, 3], None, Err(Flaw::ZeroFloor)),
];

#[test]
fn each_forged_division_has_its_flaw(rt: HostRuntime) {
    let example = example(&rt);
    for &(cuts, stops, expected) in &FORGED_DIVISIONS {
        let forged = division(&rt, 2, cuts, stops);
        let found = verdict(&rt, &example, forged, NAMES, MOVING);
        assert_for(&rt, found == expected, found);
    }
}

static FORGED_NAMES: [(Names, Flaw); 10] = [
    ((&[1], &[10, 1], &[-1, 0]), Flaw::NameCount),
    ((&[], &[10, 1], &[-1, 0]), Flaw::NameCount),
    ((&[1, 2], &[10, 1], &[-1, 0]), Flaw::NameRange),
    ((&[1, 1], &[10, 1], &[-1, 0]), Flaw::NameTwice),
    ((&[1, 0], &[10], &[-1, 0]), Flaw::PriceCount),
    ((&[1, 0], &[], &[-1, 0]), Flaw::PriceCount),
    ((&[1, 0], &[10, 1], &[]), Flaw::PriceCount),
    ((&[1, 0], &[10, 1], &[0, 0]), Flaw::PriceHigh(0, 0)),
    ((&[1, 0], &[9, 1], &[-1, 0]), Flaw::PriceGap),
    ((&[0, 1], &[10, 1], &[-1, 0]), Flaw::PriceGap),
];

#[test]
fn each_forged_naming_has_its_flaw(rt: HostRuntime) {
    let example = example(&rt);
    for &(names, flaw) in &FORGED_NAMES {
        let found = verdict(&rt, &example, right_division(&rt), names, MOVING);
        assert_for(&rt, found == Err(flaw), found);
    }
}

static FORGED_MOVES: [(Moving, Flaw); 4] = [
    ((17, &[(0, 0, 1)]), Flaw::MovedWrong),
    ((10, &[]), Flaw::MovesWrong),
    ((10, &[(0, 0, 1), (1, 1, 0)]), Flaw::MovesWrong),
    ((10, &[(1, 1, 0)]), Flaw::MovesWrong),
];

#[test]
fn each_forged_list_of_moves_has_its_flaw(rt: HostRuntime) {
    let example = example(&rt);
    for &(moving, flaw) in &FORGED_MOVES {
        let found = verdict(&rt, &example, right_division(&rt), NAMES, moving);
        assert_for(&rt, found == Err(flaw), found);
    }
}

// Two elements of 8 bytes on PE 0, which are a block each: whichever moves, 8 bytes move.
static CHEAPEST: [(Names, Moving); 2] = [
    ((&[0, 1], &[8, 8], &[-8, 0]), (8, &[(1, 0, 1)])),
    ((&[1, 0], &[8, 8], &[-8, 0]), (8, &[(0, 0, 1)])),
];

#[test]
fn each_cheapest_naming_is_accepted(rt: HostRuntime) {
    let two = snapshot(&rt, 2, &[(1, 8, 0), (1, 8, 0)]);
    for &(names, moving) in &CHEAPEST {
        let apart = division(&rt, 1, &[0, 1, 2], Some(&[0, 0, 0]));
        let found = verdict(&rt, &two, apart, names, moving);
        assert_for(&rt, found.is_ok(), found);
    }
}

// Where an element of the example is to run by this decision, if that is right.
fn place_by(example: &Snapshot, decision: &Decision, index: Index) -> Option<u32> {
    let accepted = check(example, 2, decision).is_ok();
    if accepted && (index.get() as usize) < example.sizes().len() {
        return Some(decision.place_of(index).get());
    }
    None
}

#[test]
fn an_element_runs_where_its_block_does(rt: HostRuntime) {
    static PLACES: [(u32, u32); 3] = [(0, 1), (1, 1), (2, 0)];
    let example = example(&rt);
    let decision = decision(&rt, right_division(&rt), NAMES, MOVING);
    for &(i, place) in &PLACES {
        let found = place_by(&example, &decision, index(&rt, i));
        assert_for(&rt, found == Some(place), i);
    }
}

// The plan for a snapshot.
fn planned(rt: &(impl Abort + AllocGlobal), taken: &Snapshot, pes: u32) -> Decision {
    assert_for(rt, 1 <= pes && pes <= 256, pes);
    plan(rt.alloc(), taken, pes).expect(rt, "out of memory")
}

// The number of PEs of a snapshot, its elements, the number of PEs to plan for, and the plan.
type Planned = (u32, &'static [Element], u32, Plan);

static PLANNED: [Planned; 7] = [
    (2, &EXAMPLE, 2, EXAMPLE_PLAN),
    (2, &EXAMPLE, 1, (4, &[0, 3], &[0, 2], &[0], 9, &[(1, 1, 0)])),
    // Blocks that stand exchanged stay so.
    (
        2,
        &[(1, 8, 1), (1, 8, 1), (1, 8, 0), (1, 8, 0)],
        2,
        (2, &[0, 2, 4], &[0, 1, 2], &[1, 0], 0, &[]),
    ),
    (
        3,
        &[
            (1, 5, 0),
            (1, 4, 1),
            (1, 5, 0),
            (1, 1, 1),
            (1, 4, 1),
            (1, 3, 2),
        ],
        3,
        (
            2,
            &[0, 2, 4, 6],
            &[0, 1, 2, 3],
            &[1, 0, 2],
            10,
            &[(0, 0, 1), (3, 1, 0), (4, 1, 2)],
        ),
    ),
    // Of several cheapest namings the first is planned.
    (
        2,
        &[(1, 8, 0), (1, 8, 0)],
        2,
        (1, &[0, 1, 2], &[0, 0, 0], &[0, 1], 8, &[(1, 0, 1)]),
    ),
    (
        4,
        &[(5, 8, 3), (7, 8, 3)],
        4,
        (
            7,
            &[0, 1, 2, 2, 2],
            &[0, 1, 1, 1, 1],
            &[0, 3, 1, 2],
            8,
            &[(0, 3, 0)],
        ),
    ),
    (3, &[], 3, (0, &[0, 0, 0, 0], &[], &[0, 1, 2], 0, &[])),
];

#[test]
fn the_examples_have_their_plans(rt: HostRuntime) {
    for (procs, elements, pes, expected) in &PLANNED {
        let taken = snapshot(&rt, *procs, elements);
        let decision = planned(&rt, &taken, *pes);
        let found = is_plan(&rt, &decision, expected);
        assert_for(&rt, found, *elements);
    }
}

// The most sizes that are allowed, of 8 bytes each, in blocks of 256, each on the PE after its own.
fn full_sizes(rt: &(impl Abort + AllocGlobal)) -> Sizes {
    let mut pairs = Vec::new(rt.alloc());
    for i in 0..65_536u32 {
        let pair = (8, pe(rt, (i / 256 + 1) % 256));
        push(rt, &mut pairs, pair);
    }
    Sizes::new(pairs).expect(rt, "past a limit")
}

// The most elements that are allowed, with these sizes, and each with this load.
fn full(rt: &(impl Abort + AllocGlobal), load: Units) -> Snapshot {
    let loads = full_loads(rt, load);
    let sizes = full_sizes(rt);
    Snapshot::new(1, 256, loads, sizes).expect(rt, "no snapshot")
}

// The load of each element of a full array, a number of PEs, and the bottleneck, the bytes moved and the number of moves of
// its plan.
type FullPlan = (Units, u32, u64, u64, usize);

static FULL_PLANS: [FullPlan; 4] = [
    (1, 256, 256, 0, 0),
    (1, 1, 65_536, 522_240, 65_280),
    (140_737_488_355_327, 256, 36_028_797_018_963_712, 0, 0),
    (
        140_737_488_355_327,
        1,
        9_223_372_036_854_710_272,
        522_240,
        65_280,
    ),
];

#[test]
fn a_full_array_on_all_pes_and_on_one(rt: HostRuntime) {
    for &(load, pes, bottleneck, moved, steps) in &FULL_PLANS {
        let full = full(&rt, load);
        let decision = planned(&rt, &full, pes);
        let found = decision.division.bottleneck == bottleneck
            && decision.moved == moved
            && decision.moves.as_slice().len() == steps;
        assert_for(&rt, found, bottleneck);
        assert_for(&rt, check(&full, pes, &decision).is_ok(), pes);
    }
}

#[test]
fn the_errors_have_their_numbers_and_texts(rt: HostRuntime) {
    let error = NameError::OutOfMemory;
    let refused = PlanError::from(error);
    assert_for(&rt, error as u8 == 2 && refused as u8 == 2, "numbers");
    let text = format!(in rt.alloc(); "{error}; {refused}").expect(&rt, "out of memory");
    assert_for(
        &rt,
        text.as_str() == "out of memory; out of memory",
        "texts",
    );
}
