//! Readers and writers that fail, of the example in both formats.

use crate::fixtures::{changed, comes_to, same, write};
use crate::parts::{DECIDED, EXAMPLE, dump};
use crate::rows::assert_for;
use dump_format::{Dump, DumpError};
use lb_dump::read_from;
use row_fixtures::{EXAMPLE_DUMP, RECORDED_DUMP, Sink, Source};
use std::alloc::Global;
use std::io::ErrorKind;
use std::process::Abort;

// A text, the number of bytes that are read or written per call, and so the number of calls.
type Calls = (&'static [u8], usize, usize);

// Whether the reading of a text ends with this fault, after this number of calls of its reader.
fn ends_reading(alloc: Global, source: &mut Source<'_>, fault: DumpError, calls: usize) -> bool {
    let found = read_from(alloc, source).err();
    found == Some(fault) && source.calls == calls
}

// Whether a reader that fails in this way at this call ends the reading there.
fn ends_at_call(alloc: Global, row: &Calls, call: usize, kind: ErrorKind) -> bool {
    let mut source = Source::new(row.0, row.1, Some((call, kind)));
    ends_reading(alloc, &mut source, DumpError::Read, call.saturating_add(1))
}

// Whether a text is read with a reader that would fail after its last call.
fn reads_all(rt: &(impl Abort + AllocGlobal), row: &Calls) -> bool {
    let mut source = Source::new(row.0, row.1, Some((row.2, ErrorKind::Other)));
    let found = read_from(rt.alloc(), &mut source);
    comes_to(rt, found, Ok(row.0)) && source.calls == row.2
}

// A reader has to end the reading at each call at which it fails in this way.
fn expect_end_of_reading(rt: &(impl Abort + AllocGlobal), row: &Calls, kind: ErrorKind) {
    for call in 0..row.2 {
        assert_for(rt, ends_at_call(rt.alloc(), row, call, kind), call);
    }
}

#[test]
fn a_reader_that_fails_once(rt: HostRuntime) {
    const ROWS: [Calls; 4] = [
        (&EXAMPLE_DUMP, 1, 53),
        (&EXAMPLE_DUMP, 64, 2),
        (&RECORDED_DUMP, 7, 26),
        (&RECORDED_DUMP, 200, 2),
    ];
    for row in &ROWS {
        expect_end_of_reading(&rt, row, ErrorKind::Interrupted);
        expect_end_of_reading(&rt, row, ErrorKind::Other);
        assert_for(&rt, reads_all(&rt, row), row.2);
    }
}

// A text with byte 255 at an offset, its fault, the number of bytes per call, and the number of calls that bring the fault.
type Fault = (&'static [u8], usize, DumpError, usize, usize);

// Whether the fault comes first where the reader would fail after these calls.
fn comes_first(rt: &(impl Abort + AllocGlobal), row: &Fault) -> bool {
    let &(text, offset, fault, at_once, calls) = row;
    let text = changed(rt, text, offset, 255);
    let mut source = Source::new(&text, at_once, Some((calls, ErrorKind::Other)));
    let first = ends_reading(rt.alloc(), &mut source, fault, calls);
    drop(text);
    first
}

#[test]
fn a_fault_before_a_failure(rt: HostRuntime) {
    // Byte 23 ends the size of element 0, and byte 163 the index of the move.
    const ROWS: [Fault; 2] = [
        (&EXAMPLE_DUMP, 20, DumpError::Size(0), 1, 24),
        (&RECORDED_DUMP, 160, DumpError::Move(0), 7, 24),
    ];
    for row in &ROWS {
        assert_for(&rt, comes_first(&rt, row), row.1);
    }
}

// Whether the writing of a text of a dump ends at the call at which the writer fails in this way. It has a start of the text then.
fn ends_writing(
    rt: &impl AllocGlobal,
    dump: &Dump,
    row: &Calls,
    call: usize,
    error: Option<ErrorKind>,
) -> bool {
    let mut sink = Sink::new(rt, row.1, call, error);
    let fault = write(&mut sink, dump, row.0).err();
    let ends = sink.calls == call.saturating_add(1) && row.0.starts_with(&sink.taken);
    drop(sink);
    ends && fault == Some(DumpError::Write)
}

// A writer has to end the writing at each call at which it fails in this way.
fn expect_end_of_writing(
    rt: &(impl Abort + AllocGlobal),
    dump: &Dump,
    row: &Calls,
    error: Option<ErrorKind>,
) {
    for call in 0..row.2 {
        assert_for(rt, ends_writing(rt, dump, row, call, error), call);
    }
}

// Whether a writer that would fail after its last call has the whole text.
fn writes_all(rt: &impl AllocGlobal, dump: &Dump, row: &Calls) -> bool {
    let mut sink = Sink::new(rt, row.1, row.2, None);
    let written = write(&mut sink, dump, row.0).is_ok();
    let all = sink.calls == row.2 && same(&sink.taken, row.0);
    drop(sink);
    written && all
}

#[test]
fn a_writer_that_fails_once(rt: HostRuntime) {
    // Of LBD1 the head of 16 bytes is written first, and then the three elements. Of LBD2 each list is written by a call, and
    // each number outside of one: 16, 48, 4, 4, 8, 12, 4, 12, 8, 16, 16, 8, 4 and 12 bytes.
    const ROWS: [Calls; 4] = [
        (&EXAMPLE_DUMP, 1, 52),
        (&EXAMPLE_DUMP, 64, 2),
        (&RECORDED_DUMP, 5, 41),
        (&RECORDED_DUMP, 200, 14),
    ];
    let dump = dump(&rt, &EXAMPLE, Some(&DECIDED));
    for row in &ROWS {
        expect_end_of_writing(&rt, &dump, row, None);
        expect_end_of_writing(&rt, &dump, row, Some(ErrorKind::Interrupted));
        assert_for(&rt, writes_all(&rt, &dump, row), row.2);
    }
    drop(dump);
}
