//! Readers and writers that fail at each call and would then go on: any error counts as a failure, and no call is tried again.

ghost use Rattle.lb_replay.specs.Requests.{MayRun};

use crate::fixtures::{REPLAY, RIGHT, TEXT, ended, ends, has, is_end};
use crate::rows::assert_for;
use dump_format::DumpError;
use lb_replay::{Ended, Task};
use row_fixtures::{EXAMPLE_DUMP, RECORDED_DUMP, Sink, Source};
use std::io::{self, ErrorKind, Write};
use std::process::Abort;

// Whether it is a check or a replay, of this dump, the text that it writes, the bytes that each call of its writer takes, and so
// the number of calls.
type Work = (bool, &'static [u8], &'static str, usize, usize);

// The task of a row.
fn task(row: &Work) -> Task
    ensures may_run { MayRun result }
{
    if row.0 {
        return Task::Check;
    }
    REPLAY
}

// Whether a reader that gives one byte per call, and fails after this number of bytes, is not called again, and its failure is
// what is written.
fn ends_at_failure(rt: &impl AllocGlobal, row: &Work, bytes: usize) -> bool {
    let mut reader = Source::new(row.1, 1, Some((bytes, ErrorKind::Interrupted)));
    let end = Ended::Dump(DumpError::Read);
    let found = ends(rt, task(row), &mut reader, "dump: read failed\n", end);
    found && reader.calls == bytes.saturating_add(1)
}

// It has to be so after each number of bytes of the dump, the last call being the one at its end.
fn expect_end_at_failure(rt: &(impl Abort + AllocGlobal), row: &Work) {
    for bytes in 0..=row.1.len() {
        assert_for(rt, ends_at_failure(rt, row, bytes), bytes);
    }
}

#[test]
fn a_reader_that_fails_after_each_byte(rt: HostRuntime) {
    expect_end_at_failure(&rt, &(false, &EXAMPLE_DUMP, TEXT, 8, 14));
    expect_end_at_failure(&rt, &(true, &RECORDED_DUMP, RIGHT, 1, 10));
}

// Whether this ends where its writer fails in this way at this call. The writer has to have the text that was taken before.
fn ends_at_write(rt: &impl AllocGlobal, row: &Work, call: usize, error: Option<ErrorKind>) -> bool {
    let mut writer = Sink::new(rt, row.3, call, error);
    let mut reader = row.1;
    let ended = ended(rt.alloc(), task(row), &mut reader, &mut writer);
    let taken = row.3.saturating_mul(call);
    let held = has(&writer, call.saturating_add(1), row.2, taken);
    drop(writer);
    held && ended == Ended::WriteFailed
}

// It has to end so at each call, at an error and where no byte is taken.
fn expect_end_at_write(rt: &(impl Abort + AllocGlobal), row: &Work) {
    for call in 0..row.4 {
        let ends = ends_at_write(rt, row, call, Some(ErrorKind::Interrupted))
            && ends_at_write(rt, row, call, None);
        assert_for(rt, ends, call);
    }
}

// Whether a writer that would fail after the last call has the whole text.
fn writes_all(rt: &impl AllocGlobal, row: &Work, end: Ended) -> bool {
    let mut writer = Sink::new(rt, row.3, row.4, Some(ErrorKind::Interrupted));
    let mut reader = row.1;
    let ended = ended(rt.alloc(), task(row), &mut reader, &mut writer);
    let held = has(&writer, row.4, row.2, row.2.len());
    drop(writer);
    held && ended == end
}

#[test]
fn a_writer_that_fails_at_each_call(rt: HostRuntime) {
    const ROWS: [(Work, Ended); 5] = [
        ((false, &EXAMPLE_DUMP, TEXT, 8, 14), Ended::Printed),
        ((false, &EXAMPLE_DUMP, TEXT, 1, 110), Ended::Printed),
        ((true, &RECORDED_DUMP, RIGHT, 1, 10), Ended::Printed),
        (
            (false, b"LBD3", "dump: not LBD1 or LBD2\n", 1, 23),
            Ended::Dump(DumpError::Magic),
        ),
        (
            (true, &EXAMPLE_DUMP, "check: no decision\n", 1, 19),
            Ended::NoDecision,
        ),
    ];
    for row in &ROWS {
        expect_end_at_write(&rt, &row.0);
        assert_for(&rt, writes_all(&rt, &row.0, row.1), row.0.4);
    }
}

// A writer that keeps what it takes until it is flushed, and then passes it on or fails.
#[derive(Drop)]
struct Held {
    held: Vec<u8>,
    given: Vec<u8>,
    fails: bool,
}

impl Held {
    fn new(rt: &impl AllocGlobal, fails: bool) -> Held {
        Held {
            held: Vec::new(rt.alloc()),
            given: Vec::new(rt.alloc()),
            fails,
        }
    }
}

impl Write for Held {
    fn write(&mut self, buf: &[u8]) -> io::Result<usize> {
        self.held.extend_from_slice(buf)?;
        Ok(buf.len())
    }

    fn flush(&mut self) -> io::Result<()> {
        if self.fails {
            return Err(io::Error::from(ErrorKind::Other));
        }
        self.given.extend_from_slice(&self.held)?;
        self.held.clear();
        Ok(())
    }
}

// Whether a replay of the example has this end, where such a writer passes this text on.
fn gives(rt: &impl AllocGlobal, fails: bool, end: Ended, text: &str) -> bool {
    let mut writer = Held::new(rt, fails);
    let mut reader = EXAMPLE_DUMP.as_slice();
    let ended = ended(rt.alloc(), REPLAY, &mut reader, &mut writer);
    let gives = is_end(ended, &writer.given, end, text);
    drop(writer);
    gives
}

#[test]
fn what_was_written_is_flushed(rt: HostRuntime) {
    assert_for(&rt, gives(&rt, false, Ended::Printed, TEXT), "flushed");
    let fails = gives(&rt, true, Ended::WriteFailed, "");
    assert_for(&rt, fails, "the flush fails");
}
