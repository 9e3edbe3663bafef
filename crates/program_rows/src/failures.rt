//! Readers and writers that fail once.

use crate::fixtures::{WORKED, WORKED_TEXT, assert_for, drive_from};
use row_fixtures::{Sink, Source};
use std::io::ErrorKind;
use std::process::Abort;
use std::sync::Wait;
use std::thread::Threads;
use workload::WorkError;
use workload_run::RunEnd;

// Whether the failed read is reported where the reader of a workload, which gives a byte per call, fails at this call.
fn is_told<R: Threads + Wait + Sync + Abort + AllocGlobal>(
    rt: &R,
    workload: &[u8],
    at: usize,
) -> bool {
    let mut reader = Source::new(workload, 1, Some((at, ErrorKind::Interrupted)));
    let mut text = Vec::new(rt.alloc());
    let driven = drive_from(rt, rt.alloc(), &mut reader, &mut text);
    let right = driven.ended == RunEnd::Refused(WorkError::Read) && driven.rounds().is_empty();
    drop(driven);
    right && text.as_slice() == b"workload: read failed\n".as_slice()
}

#[test]
fn a_reader_that_fails_once_at_any_byte(rt: HostRuntime) {
    for at in 0..=WORKED.len() {
        assert_for(&rt, is_told(&rt, WORKED, at), at);
    }
}

#[test]
fn a_reader_that_fails_at_the_end_behind_a_faulty_line(rt: HostRuntime) {
    assert!(rt; is_told(&rt, b"pes 257\nrounds", 14));
}

// Whether the writer, which takes seven bytes per call, fails at this call, having taken a prefix of the text.
fn is_cut<R: Threads + Wait + Sync + Abort + AllocGlobal>(
    rt: &R,
    at: usize,
    error: Option<ErrorKind>,
) -> bool {
    let mut reader = WORKED;
    let mut writer = Sink::new(rt, 7, at, error);
    let driven = drive_from(rt, rt.alloc(), &mut reader, &mut writer);
    let right = driven.ended == RunEnd::WriteFailed && driven.rounds().len() == 2;
    drop(driven);
    let prefix = WORKED_TEXT.as_bytes().starts_with(&writer.taken);
    right && prefix && writer.taken.len() == at.saturating_mul(7)
}

#[test]
fn a_writer_that_fails_at_any_call(rt: HostRuntime) {
    for at in 0..WORKED_TEXT.len().div_ceil(7) {
        let fails = is_cut(&rt, at, Some(ErrorKind::Interrupted));
        assert_for(&rt, fails && is_cut(&rt, at, None), at);
    }
}
