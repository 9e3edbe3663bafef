//! Whole replays and checks: worked dumps, decisions that are right, forged, or none, and dumps with a fault.

use crate::fixtures::{ON_ONE, RIGHT, TEXT, checks, ends, replays};
use crate::rows::assert_for;
use dump_format::DumpError;
use lb_certificates::Flaw;
use lb_replay::{Ended, Task};
use row_fixtures::{EXAMPLE_DUMP, RECORDED_DUMP};
use std::alloc::{AllocError, Allocator};
use std::process::Abort;

#[test]
fn the_example_and_its_decision(rt: HostRuntime) {
    let printed = replays(&rt, &EXAMPLE_DUMP, TEXT, Ended::Printed);
    assert_for(&rt, printed, TEXT);
    let printed = replays(&rt, &RECORDED_DUMP, TEXT, Ended::Printed);
    assert_for(&rt, printed, "a dump with a decision");
    assert_for(
        &rt,
        checks(&rt, &RECORDED_DUMP, RIGHT, Ended::Printed),
        RIGHT,
    );
    let none = "check: no decision\n";
    let checked = checks(&rt, &EXAMPLE_DUMP, none, Ended::NoDecision);
    assert_for(&rt, checked, none);
}

#[test]
fn no_elements_and_one_block(rt: HostRuntime) {
    let empty = b"LBD1\0\0\0\0\0\0\0\x03\0\0\0\0";
    let text = "step 0 procs 3 elements 0\nbottleneck 0\nfence zero\n\
        block 0 0..0 load 0 pe -\nblock 1 0..0 load 0 pe -\nblock 2 0..0 load 0 pe -\n\
        moved 0\n";
    assert_for(&rt, replays(&rt, empty, text, Ended::Printed), text);
    let mut example = EXAMPLE_DUMP.as_slice();
    let task = Task::Replay(Some(1));
    let printed = ends(&rt, task, &mut example, ON_ONE, Ended::Printed);
    assert_for(&rt, printed, ON_ONE);
}

// Two elements of 8 bytes on PE 0, at step 0 on two PEs.
const TWO: [u8; 40] = *b"LBD1\0\0\0\0\0\0\0\x02\0\0\0\x02\
    \0\0\0\x01\0\0\0\x08\0\0\0\0\
    \0\0\0\x01\0\0\0\x08\0\0\0\0";

// Of the two cheapest namings the first is printed.
const FIRST_OF_TWO: &str = "step 0 procs 2 elements 2\n\
    bottleneck 1\n\
    fence 0 0 0\n\
    block 0 0..1 load 1 pe 0\n\
    block 1 1..2 load 1 pe 1\n\
    moved 8\n";

// Four elements of 40 bytes on two PEs, at step 1.
const FOUR: [u8; 64] = *b"LBD1\0\0\0\x01\0\0\0\x02\0\0\0\x04\
    \0\0\0\x06\0\0\0\x28\0\0\0\0\
    \0\0\0\x01\0\0\0\x28\0\0\0\0\
    \0\0\0\x01\0\0\0\x28\0\0\0\x01\
    \0\0\0\x02\0\0\0\x28\0\0\0\x01";

// One of them moves.
const ONE_OF_FOUR: &str = "step 1 procs 2 elements 4\n\
    bottleneck 6\n\
    fence 0 0 0\n\
    block 0 0..1 load 6 pe 0\n\
    block 1 1..4 load 4 pe 1\n\
    moved 40\n";

#[test]
fn the_first_of_two_namings_and_one_of_four_elements(rt: HostRuntime) {
    let printed = replays(&rt, &TWO, FIRST_OF_TWO, Ended::Printed);
    assert_for(&rt, printed, FIRST_OF_TWO);
    let printed = replays(&rt, &FOUR, ONE_OF_FOUR, Ended::Printed);
    assert_for(&rt, printed, ONE_OF_FOUR);
}

// Bytes that replace those of a dump between two places.
type Change = (usize, usize, &'static [u8]);

// The dump with these bytes in it.
fn change<A: Allocator>(alloc: A, dump: &[u8], change: &Change) -> Result<Vec<u8, A>, AllocError> {
    let &(from, to, bytes) = change;
    let mut changed = Vec::new(alloc);
    changed.extend_from_slice(dump.get(..from).unwrap_or(&[]))?;
    changed.extend_from_slice(bytes)?;
    changed.extend_from_slice(dump.get(to..).unwrap_or(&[]))?;
    Ok(changed)
}

// Whether a check of the changed dump has this end and this line, and a replay has them too, or where the dump has no fault
// prints the planned decision, whatever decision the dump has.
fn is_checked(
    rt: &(impl Abort + AllocGlobal),
    changed: Result<Vec<u8>, AllocError>,
    line: &str,
    end: Ended,
) -> bool {
    let dump = changed.expect(rt, "out of memory");
    let checked = checks(rt, &dump, line, end);
    let replayed = match end {
        Ended::Dump(_) => replays(rt, &dump, line, end),
        _ => replays(rt, &dump, TEXT, Ended::Printed),
    };
    drop(dump);
    checked && replayed
}

// A change of the dump with the decision, the line that a check writes then, and the flaw.
type Forged = (Change, &'static str, Flaw);

fn is_forged(rt: &(impl Abort + AllocGlobal), row: &Forged) -> bool {
    let changed = change(rt.alloc(), &RECORDED_DUMP, &row.0);
    is_checked(rt, changed, row.1, Ended::Flawed(row.2))
}

#[test]
fn a_forged_decision(rt: HostRuntime) {
    const ROWS: [Forged; 9] = [
        // Cuts 0 1 3 and 0 2 2.
        ((87, 88, b"\x01"), "check: Heavy 1\n", Flaw::Heavy(1)),
        ((91, 92, b"\x02"), "check: CutEnd\n", Flaw::CutEnd),
        // Stops 0 0 2, and no fence.
        (
            (103, 104, b"\0"),
            "check: FenceLight 1\n",
            Flaw::FenceLight(1),
        ),
        (
            (92, 108, b"\0\0\0\0"),
            "check: ZeroFloor\n",
            Flaw::ZeroFloor,
        ),
        // Names 1 1 and 0 1.
        ((115, 116, b"\x01"), "check: NameTwice\n", Flaw::NameTwice),
        (
            (111, 116, b"\0\0\0\0\x01"),
            "check: PriceGap\n",
            Flaw::PriceGap,
        ),
        // Prices of PEs 0 0.
        (
            (132, 140, b"\0\0\0\0\0\0\0\0"),
            "check: PriceHigh 0 0\n",
            Flaw::PriceHigh(0, 0),
        ),
        // The number of bytes moved is 17; no moves.
        ((155, 156, b"\x11"), "check: MovedWrong\n", Flaw::MovedWrong),
        (
            (156, 172, b"\0\0\0\0"),
            "check: MovesWrong\n",
            Flaw::MovesWrong,
        ),
    ];
    for row in &ROWS {
        assert_for(&rt, is_forged(&rt, row), row.1);
    }
}

// A dump, its change, the line of a check and of a replay then, and the fault.
type Faulty = (&'static [u8], Change, &'static str, DumpError);

fn is_faulty(rt: &(impl Abort + AllocGlobal), row: &Faulty) -> bool {
    let changed = change(rt.alloc(), row.0, &row.1);
    is_checked(rt, changed, row.2, Ended::Dump(row.3))
}

#[test]
fn a_fault_of_the_dump(rt: HostRuntime) {
    const ROWS: [Faulty; 13] = [
        (
            &EXAMPLE_DUMP,
            (3, 4, b"3"),
            "dump: not LBD1 or LBD2\n",
            DumpError::Magic,
        ),
        (
            &EXAMPLE_DUMP,
            (15, 52, b""),
            "dump: ends at byte 15\n",
            DumpError::Short(15),
        ),
        (
            &EXAMPLE_DUMP,
            (52, 52, b"\0"),
            "dump: bytes after the last element\n",
            DumpError::Trailing,
        ),
        (
            &EXAMPLE_DUMP,
            (10, 11, b"\xff"),
            "dump: procs out of 1..256\n",
            DumpError::Procs,
        ),
        (
            &EXAMPLE_DUMP,
            (13, 16, b"\x01\0\x01"),
            "dump: more than 65536 elements\n",
            DumpError::Count,
        ),
        (
            &EXAMPLE_DUMP,
            (33, 34, b"\xff"),
            "dump: element 1 has more than 1048576 bytes\n",
            DumpError::Size(1),
        ),
        (
            &EXAMPLE_DUMP,
            (51, 52, b"\x02"),
            "dump: element 2 is on no processor\n",
            DumpError::Place(2),
        ),
        (
            &RECORDED_DUMP,
            (18, 19, b"\x80"),
            "dump: element 0 has too great a load\n",
            DumpError::Load(0),
        ),
        (
            &RECORDED_DUMP,
            (67, 68, b"\x02"),
            "dump: flag is not 0 or 1\n",
            DumpError::Flag,
        ),
        (
            &RECORDED_DUMP,
            (71, 72, b"\0"),
            "dump: target out of 1..256\n",
            DumpError::Target,
        ),
        (
            &RECORDED_DUMP,
            (95, 96, b"\x02"),
            "dump: floor is not 0 or 1\n",
            DumpError::Floor,
        ),
        (
            &RECORDED_DUMP,
            (159, 160, b"\x04"),
            "dump: more moves than elements\n",
            DumpError::MoveCount,
        ),
        (
            &RECORDED_DUMP,
            (163, 164, b"\x03"),
            "dump: move 0 is out of range\n",
            DumpError::Move(0),
        ),
    ];
    for row in &ROWS {
        assert_for(&rt, is_faulty(&rt, row), row.2);
    }
}
