//! Dumps of the rounds of a run: their bytes, what is read back from them, and what a replay of one prints.

use crate::fixtures::{assert_for, worked};
use dump_format::{Dump, Recorded};
use lb_dump::decode;
use lb_replay::{Ended, simulate};
use lb_snapshot::Snapshot;
use lb_strategy::check;
use std::alloc::Global;
use std::process::Abort;
use std::sync::Wait;
use std::thread::Threads;
use workload_run::{DumpFormat, write_round};

// The text of the dump of one round of the worked workload.
fn worked_text<R: Threads + Wait + Sync + Abort + AllocGlobal>(
    rt: &R,
    round: usize,
    format: DumpFormat,
) -> Vec<u8> {
    let driven = worked(rt);
    let (snapshot, decision) = driven.rounds().get(round).expect(rt, "no such round");
    let mut text = Vec::new(rt.alloc());
    let written = write_round(&mut text, snapshot, decision, format).is_ok();
    drop(driven);
    assert_for(rt, written, format);
    text
}

// The first dump of the worked workload in the format LBD1.
static FIRST: [u8; 64] = *b"LBD1\0\0\0\x01\0\0\0\x02\0\0\0\x04\
    \0\0\0\x06\0\0\0\x28\0\0\0\0\
    \0\0\0\x01\0\0\0\x28\0\0\0\0\
    \0\0\0\x01\0\0\0\x28\0\0\0\x01\
    \0\0\0\x02\0\0\0\x28\0\0\0\x01";

// How the same dump begins in the format LBD2, up to the target of the decision.
static FIRST_WIDE: [u8; 88] = *b"LBD2\0\0\0\x01\0\0\0\x02\0\0\0\x04\
    \0\0\0\0\0\0\0\x06\0\0\0\x28\0\0\0\0\
    \0\0\0\0\0\0\0\x01\0\0\0\x28\0\0\0\0\
    \0\0\0\0\0\0\0\x01\0\0\0\x28\0\0\0\x01\
    \0\0\0\0\0\0\0\x02\0\0\0\x28\0\0\0\x01\
    \0\0\0\x01\0\0\0\x02";

// What a replay of it prints.
const REPLAYED: &str = "step 1 procs 2 elements 4\n\
    bottleneck 6\n\
    fence 0 0 0\n\
    block 0 0..1 load 6 pe 0\n\
    block 1 1..4 load 4 pe 1\n\
    moved 40\n";

// Whether a replay of this dump prints that.
fn is_replayed(rt: &impl AllocGlobal, dump: &[u8]) -> bool {
    let mut reader = dump;
    let mut told = Vec::new(rt.alloc());
    let ended = simulate(rt.alloc(), &mut reader, &mut told, None);
    ended == Ended::Printed && told.as_slice() == REPLAYED.as_bytes()
}

#[test]
fn the_first_dump_has_its_bytes_and_replays_to_the_decision(rt: HostRuntime) {
    let narrow = worked_text(&rt, 0, DumpFormat::Lbd1);
    let same = narrow.as_slice() == FIRST.as_slice();
    assert!(rt; same && is_replayed(&rt, &narrow));
    drop(narrow);
    let wide = worked_text(&rt, 0, DumpFormat::Lbd2);
    assert!(rt; wide.starts_with(&FIRST_WIDE) && is_replayed(&rt, &wide));
    drop(wide);
}

// What the dump of a round holds: its step, the load and the place of each element, the greatest load of a block, and the
// one element that moves, with the PE that it leaves and the one that it goes to.
struct Row {
    step: u32,
    loads: [u64; 4],
    places: [u32; 4],
    bottleneck: u64,
    moves: (u32, u32, u32),
}

// The rounds of the worked workload. Each chare has 40 bytes.
static ROWS: [Row; 2] = [
    Row {
        step: 1,
        loads: [6, 1, 1, 2],
        places: [0, 0, 1, 1],
        bottleneck: 6,
        moves: (1, 0, 1),
    },
    Row {
        step: 2,
        loads: [2, 2, 2, 2],
        places: [0, 1, 1, 1],
        bottleneck: 4,
        moves: (1, 1, 0),
    },
];

// Whether a snapshot is that of a row.
fn is_taken(snapshot: &Snapshot<Global>, row: &Row) -> bool {
    let sizes = snapshot.sizes().as_slice();
    let mut stand = sizes.len() == 4;
    for ((bytes, place), want) in sizes.iter().zip(&row.places) {
        stand &= *bytes == 40 && place.get() == *want;
    }
    snapshot.step() == row.step
        && snapshot.procs() == 2
        && snapshot.loads().as_slice() == row.loads.as_slice()
        && stand
}

// Whether a decision is that of a row.
fn is_decided(recorded: &Recorded<Global>, row: &Row) -> bool {
    let decision = &recorded.decision;
    let [(index, present, planned)] = decision.moves.as_slice() else {
        return false;
    };
    recorded.target == 2
        && decision.division.bottleneck == row.bottleneck
        && decision.moved == 40
        && (index.get(), present.get(), planned.get()) == row.moves
}

// Whether a dump has a decision that is right for its snapshot.
fn is_right(dump: &Dump<Global>) -> bool {
    let Some(recorded) = dump.recorded() else {
        return false;
    };
    check(dump.snapshot(), recorded.target, &recorded.decision).is_ok()
}

// Whether the text of a dump is that of a row, and its decision right.
fn is_read(rt: &(impl Abort + AllocGlobal), text: &[u8], row: &Row) -> bool {
    let dump = decode(rt.alloc(), text).expect(rt, "it is a dump");
    let Some(recorded) = dump.recorded() else {
        return false;
    };
    is_decided(recorded, row) && is_taken(dump.snapshot(), row) && is_right(&dump)
}

#[test]
fn the_decisions_of_a_run_are_read_back(rt: HostRuntime) {
    for (round, row) in ROWS.iter().enumerate() {
        let text = worked_text(&rt, round, DumpFormat::Lbd2);
        assert_for(&rt, is_read(&rt, &text, row), round);
        drop(text);
    }
}
