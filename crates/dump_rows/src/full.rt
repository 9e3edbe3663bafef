//! The most elements in both formats, encoded, written and read, and loads that are too great for the format LBD1. The texts
//! have more than one block of the writer and more than one piece of the reader.

use crate::feeding::is_read_so;
use crate::fixtures::{comes_to, list, push, same, spells, write};
use crate::parts::{Elements, snapshot};
use crate::rows::assert_for;
use dump_format::{Dump, DumpError, Recorded};
use dump_writing::{encode, encode_dump, write_to};
use lb_dump::{decode, read_from};
use lb_snapshot::{Snapshot, Units};
use lb_strategy::{check, plan};
use row_fixtures::{Sink, Source, push_element};
use std::process::Abort;

// Whether a writer that takes this number of bytes per call has this text of a dump.
fn writes(rt: &impl AllocGlobal, at_once: usize, dump: &Dump, text: &[u8]) -> bool {
    let mut sink = Sink::new(rt, at_once, usize::MAX, None);
    let written = write(&mut sink, dump, text).is_ok() && same(&sink.taken, text);
    drop(sink);
    written
}

// Whether a text gives its dump with a reader that gives this number of bytes per call.
fn is_read(rt: &(impl Abort + AllocGlobal), text: &[u8], at_once: usize) -> bool {
    let mut source = Source::new(text, at_once, None);
    comes_to(rt, read_from(rt.alloc(), &mut source), Ok(text))
}

// The dump of a text has to have this text, and to be written so.
fn expect_text(rt: &(impl Abort + AllocGlobal), text: &[u8]) {
    let dump = decode(rt.alloc(), text).expect(rt, "no dump");
    assert_for(rt, spells(rt, &dump, text), "encoded");
    assert_for(rt, writes(rt, 1_000, &dump, text), "written");
    drop(dump);
}

// A full text has to give its dump whole, byte by byte and from a reader.
fn expect_full(rt: &(impl Abort + AllocGlobal), text: &[u8]) {
    expect_text(rt, text);
    assert_for(rt, is_read_so(rt, text, text.len(), Ok(text)), "bytes");
    assert_for(rt, is_read(rt, text, 1_000), "1,000 a call");
    assert_for(rt, is_read(rt, text, 2_000_000), "all at once");
}

// The load, the size and the place of element `i` of a full array: loads of all widths, up to the greatest size.
fn full_element(i: u32) -> (u32, u32, u32) {
    (
        i.wrapping_mul(65_537),
        1_048_576u32.saturating_sub(i),
        i % 256,
    )
}

// The text of the most elements on the most PEs, at the greatest step.
fn full_text(rt: &(impl Abort + AllocGlobal)) -> Vec<u8> {
    let mut text = list(rt, b"LBD1\xff\xff\xff\xff\0\0\x01\0\0\x01\0\0");
    for i in 0..65_536u32 {
        push_element(&mut text, full_element(i)).expect(rt, "out of memory");
    }
    text
}

#[test]
fn a_full_snapshot(rt: HostRuntime) {
    let text = full_text(&rt);
    assert_for(&rt, text.len() == 786_448, "length");
    expect_full(&rt, &text);
    drop(text);
}

// The most elements, all of them on the last PE, with a load of 1 each.
fn on_the_last_pe(rt: &(impl Abort + AllocGlobal)) -> Snapshot {
    let mut rows = Vec::new(rt.alloc());
    for i in 0..65_536u32 {
        push(rt, &mut rows, (1, 1_048_576u32.saturating_sub(i), 255));
    }
    let parts = Elements {
        step: 1,
        procs: 256,
        rows: &rows,
    };
    let snapshot = snapshot(rt, &parts);
    drop(rows);
    snapshot
}

// Its dump, with the decision that is planned for one PE less.
fn planned(rt: &(impl Abort + AllocGlobal)) -> Dump {
    let snapshot = on_the_last_pe(rt);
    let decision = plan(rt.alloc(), &snapshot, 255).expect(rt, "no plan");
    let recorded = Recorded {
        target: 255,
        decision,
    };
    Dump::new(snapshot, Some(recorded)).expect(rt, "no dump")
}

// Whether the decision of a dump moves every element, and is accepted.
fn moves_all(dump: &Dump) -> bool {
    let Some(recorded) = dump.recorded() else {
        return false;
    };
    let decision = &recorded.decision;
    decision.moves.as_slice().len() == 65_536
        && decision.division.bottleneck == 258
        && check(dump.snapshot(), recorded.target, decision).is_ok()
}

// Its text.
fn planned_text(rt: &(impl Abort + AllocGlobal)) -> Vec<u8> {
    let dump = planned(rt);
    assert_for(rt, moves_all(&dump), "moves");
    let text = encode_dump(rt.alloc(), &dump).expect(rt, "out of memory");
    drop(dump);
    text
}

#[test]
fn a_plan_that_moves_every_element(rt: HostRuntime) {
    let text = planned_text(&rt);
    assert_for(&rt, text.len() == 1_842_204, "length");
    expect_full(&rt, &text);
    drop(text);
}

// Whether LBD1 cannot represent a snapshot because of the load of this element, and nothing is written.
fn is_too_wide(rt: &impl AllocGlobal, snapshot: &Snapshot, element: u32) -> bool {
    let wide = Some(DumpError::Wide(element));
    let mut sink = Sink::new(rt, 64, usize::MAX, None);
    let written = write_to(&mut sink, snapshot).err();
    let calls = sink.calls;
    drop(sink);
    written == wide && calls == 0 && encode(rt.alloc(), snapshot).err() == wide
}

// Whether it cannot represent one with these loads.
fn are_too_wide(rt: &(impl Abort + AllocGlobal), loads: &[Units], element: u32) -> bool {
    let snapshot = with_loads(rt, loads);
    let wide = is_too_wide(rt, &snapshot, element);
    drop(snapshot);
    wide
}

// The snapshot of elements with these loads.
fn with_loads(rt: &(impl Abort + AllocGlobal), loads: &[Units]) -> Snapshot {
    let mut rows = Vec::new(rt.alloc());
    for &load in loads {
        push(rt, &mut rows, (load, 0, 0));
    }
    let parts = Elements {
        step: 0,
        procs: 1,
        rows: &rows,
    };
    let snapshot = snapshot(rt, &parts);
    drop(rows);
    snapshot
}

#[test]
fn the_first_load_that_is_too_wide(rt: HostRuntime) {
    const ROWS: [(&[Units], u32); 2] = [
        (&[4_294_967_295, 4_294_967_296, 4_294_967_296], 1),
        (&[140_737_488_355_327, 4_294_967_295], 0),
    ];
    for row in &ROWS {
        assert_for(&rt, are_too_wide(&rt, row.0, row.1), "another fault");
    }
}
