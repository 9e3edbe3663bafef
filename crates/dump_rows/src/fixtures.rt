//! What the tests use: how a result is judged, the parts of a decision, and texts by their numbers. What cannot be made ends
//! the test.

use dump_format::{Dump, DumpError};
use dump_writing::{encode, encode_dump, write_dump, write_to};
use lb_snapshot::Snapshot;
use row_fixtures::Sink;
use std::process::Abort;

/// Whether these lists are the same.
pub(crate) fn same<T: PartialEq>(some: &[T], others: &[T]) -> bool {
    some == others
}

/// A copy of a list.
pub(crate) fn list<T: Copy>(rt: &(impl Abort + AllocGlobal), items: &[T]) -> Vec<T> {
    Vec::from_slice(rt.alloc(), items).expect(rt, "out of memory")
}

/// Adds an item to a list.
pub(crate) fn push<T: Copy>(rt: &impl Abort, items: &mut Vec<T>, item: T) {
    items.push(item).expect(rt, "out of memory");
}

// Whether a snapshot has this text, in the format LBD1.
fn has_text(rt: &(impl Abort + AllocGlobal), snapshot: &Snapshot, text: &[u8]) -> bool {
    let encoded = encode(rt.alloc(), snapshot).expect(rt, "no text");
    let has = same(&encoded, text);
    drop(encoded);
    has
}

// Whether a dump has this text, in the format LBD2.
fn has_dump_text(rt: &(impl Abort + AllocGlobal), dump: &Dump, text: &[u8]) -> bool {
    let encoded = encode_dump(rt.alloc(), dump).expect(rt, "out of memory");
    let has = same(&encoded, text);
    drop(encoded);
    has
}

/// Whether a dump has this text, in the format that the text has.
pub(crate) fn spells(rt: &(impl Abort + AllocGlobal), dump: &Dump, text: &[u8]) -> bool {
    if text.starts_with(b"LBD1") {
        return dump.recorded().is_none() && has_text(rt, dump.snapshot(), text);
    }
    has_dump_text(rt, dump, text)
}

/// Writes a dump in the format that this text has.
pub(crate) fn write(sink: &mut Sink, dump: &Dump, text: &[u8]) -> Result<(), DumpError> {
    if text.starts_with(b"LBD1") {
        return write_to(sink, dump.snapshot());
    }
    write_dump(sink, dump)
}

/// Whether a dump was found that has this text, or this fault.
pub(crate) fn comes_to(
    rt: &(impl Abort + AllocGlobal),
    found: Result<Dump, DumpError>,
    expected: Result<&[u8], DumpError>,
) -> bool {
    let same = match (&found, expected) {
        (Ok(dump), Ok(text)) => spells(rt, dump, text),
        (Err(found), Err(fault)) => *found == fault,
        _ => false,
    };
    drop(found);
    same
}

/// A text with this byte at an offset.
pub(crate) fn changed(
    rt: &(impl Abort + AllocGlobal),
    text: &[u8],
    offset: usize,
    byte: u8,
) -> Vec<u8> {
    let mut changed = list(rt, text);
    if offset < changed.len() {
        changed[offset] = byte;
    }
    changed
}
