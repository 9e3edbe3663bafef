//! Texts of workloads and their faults, whole and read in pieces.

use crate::fixtures::{WORKED, assert_for};
use row_fixtures::Source;
use std::alloc::{AllocError, Global};
use std::process::Abort;
use workload::{WorkError, Workload};

// The fault of a text, or `None` where it is one of a workload.
fn fault_of(alloc: Global, text: &[u8]) -> Option<WorkError> {
    Workload::<Global>::parse(alloc, text).err()
}

// The fault of a text that is read this number of bytes at a time.
fn fault_in_pieces(alloc: Global, text: &[u8], at_once: usize) -> Option<WorkError> {
    let mut reader = Source::new(text, at_once, None);
    Workload::<Global>::read_from(alloc, &mut reader).err()
}

// Whether a text has this fault, whole and in pieces.
fn has_fault(alloc: Global, text: &[u8], fault: Option<WorkError>) -> bool {
    fault_of(alloc, text) == fault && fault_in_pieces(alloc, text, 7) == fault
}

// Whether this is the worked workload.
fn is_worked(workload: &Workload<Global>) -> bool {
    (workload.pes, workload.rounds) == (2, 2)
        && (workload.pad, workload.chares) == (8, 4)
        && workload.amounts.len() == 2
        && workload.amounts[0].as_slice() == [1, 1, 2, 6].as_slice()
        && workload.amounts[1].as_slice() == [2, 2, 2, 2].as_slice()
}

#[test]
fn the_worked_workload_is_read(rt: HostRuntime) {
    let mut reader = Source::new(WORKED, 5, None);
    let workload = Workload::read_from(rt.alloc(), &mut reader).expect(&rt, "it is a workload");
    assert!(rt; is_worked(&workload));
}

// How many lines of the worked workload are complete in its first `len` bytes.
fn whole_lines(len: usize) -> u32 {
    let mut lines: u32 = 0;
    for byte in &WORKED[..len.min(WORKED.len())] {
        if *byte == b'\n' {
            lines = lines.saturating_add(1);
        }
    }
    lines
}

#[test]
fn each_prefix_misses_its_next_line(rt: HostRuntime) {
    for len in 0..WORKED.len() {
        let want = WorkError::Form(whole_lines(len).saturating_add(1));
        let right = has_fault(rt.alloc(), &WORKED[..len], Some(want));
        assert_for(&rt, right, len);
    }
}

// A text, and its fault.
type Row<'a> = (&'a [u8], Option<WorkError>);

const FIRST_LINES: [Row<'static>; 13] = [
    (b"pes 257\n", Some(WorkError::Limit(1))),
    (b"pes 257", Some(WorkError::Form(1))),
    (b"pes 257 x\n", Some(WorkError::Form(1))),
    (b"pes 02\n", Some(WorkError::Form(1))),
    (b"pes 0\n", Some(WorkError::Limit(1))),
    (b"pes 9999999999\n", Some(WorkError::Limit(1))),
    (b"pes 10000000000\n", Some(WorkError::Form(1))),
    (b"pes 2\r\n", Some(WorkError::Form(1))),
    (b"pes  2\n", Some(WorkError::Form(1))),
    (b"pes 2 \n", Some(WorkError::Form(1))),
    (b"pes \n", Some(WorkError::Form(1))),
    (b"pes +2\n", Some(WorkError::Form(1))),
    (b"rounds 2\n", Some(WorkError::Form(1))),
];

const LATER_LINES: [Row<'static>; 8] = [
    (b"pes 1\nrounds 1000\n", Some(WorkError::Form(3))),
    (b"pes 1\nrounds 1001\n", Some(WorkError::Limit(2))),
    (b"pes 1\nrounds 0\npad 65536\n", Some(WorkError::Form(4))),
    (b"pes 1\nrounds 0\npad 65537\n", Some(WorkError::Limit(3))),
    (b"pes 1\nrounds 0\npad 0\nchares 65536\n", None),
    (
        b"pes 1\nrounds 0\npad 0\nchares 65537\n",
        Some(WorkError::Limit(4)),
    ),
    (
        b"pes 1\nrounds 0\npad 0\nchares 0\n\n",
        Some(WorkError::Form(5)),
    ),
    (
        b"pes 1\nrounds 0\npad 0\nchares 0\namounts\n",
        Some(WorkError::Form(5)),
    ),
];

const AMOUNTS: [Row<'static>; 8] = [
    (b"pes 1\nrounds 1\npad 0\nchares 0\namounts\n", None),
    (
        b"pes 1\nrounds 1\npad 0\nchares 0\namounts \n",
        Some(WorkError::Form(5)),
    ),
    (
        b"pes 1\nrounds 1\npad 0\nchares 0\namounts\nx",
        Some(WorkError::Form(6)),
    ),
    (
        b"pes 1\nrounds 1\npad 0\nchares 2\namounts 0 4294967295\n",
        None,
    ),
    (
        b"pes 1\nrounds 1\npad 0\nchares 2\namounts 4294967296 x\n",
        Some(WorkError::Form(5)),
    ),
    (
        b"pes 1\nrounds 1\npad 0\nchares 2\namounts 1\n",
        Some(WorkError::Form(5)),
    ),
    (
        b"pes 1\nrounds 1\npad 0\nchares 2\namounts 1 2 3\n",
        Some(WorkError::Form(5)),
    ),
    (
        b"pes 1\nrounds 2\npad 0\nchares 1\namounts 4294967296\namounts\n",
        Some(WorkError::Limit(5)),
    ),
];

fn expect_faults(rt: &(impl Abort + AllocGlobal), rows: &[Row<'_>]) {
    for (text, fault) in rows {
        assert_for(rt, has_fault(rt.alloc(), text, *fault), *text);
    }
}

#[test]
fn texts_and_their_faults(rt: HostRuntime) {
    expect_faults(&rt, &FIRST_LINES);
    expect_faults(&rt, &LATER_LINES);
    expect_faults(&rt, &AMOUNTS);
}

// A text of the most chares, with the same amounts in each round.
fn long_text(alloc: Global, rounds: usize) -> Result<String, AllocError> {
    let amounts = " 123456789".repeat(alloc, 65_536)?;
    let line = format!(in alloc; "amounts{amounts}\n")?;
    let lines = line.repeat(alloc, rounds)?;
    format!(in alloc; "pes 1\nrounds {rounds}\npad 0\nchares 65536\n{lines}")
}

// Texts of 60 million bytes, and of more than a megabyte with a call for each byte: the limit of calls allows that.
#[test]
fn long_texts_are_read(rt: HostRuntime) {
    for (rounds, at_once) in &[(92, 65_536), (2, 1)] {
        let text = long_text(rt.alloc(), *rounds).expect(&rt, "out of memory");
        let whole = fault_of(rt.alloc(), text.as_bytes()).is_none();
        let pieces = fault_in_pieces(rt.alloc(), text.as_bytes(), *at_once).is_none();
        assert_for(&rt, whole && pieces, text.len());
        drop(text);
    }
}

#[test]
fn a_text_past_the_limit_is_too_long(rt: HostRuntime) {
    let mut text = Vec::new(rt.alloc());
    text.resize(67_108_865, b'x').expect(&rt, "out of memory");
    let whole = fault_of(rt.alloc(), &text) == Some(WorkError::Long);
    let pieces = fault_in_pieces(rt.alloc(), &text, 65_536) == Some(WorkError::Long);
    text.truncate(67_108_864);
    let cut = fault_of(rt.alloc(), &text) == Some(WorkError::Form(1));
    drop(text);
    assert!(rt; whole && pieces && cut);
}
