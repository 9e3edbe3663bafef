//! Worked texts in both formats: read whole and in pieces, cut and changed; and the faults by their numbers and texts.

use crate::feeding::{expect_in_any_pieces, expect_short_starts, is_read_so};
use crate::fixtures::{changed, comes_to, list, push, spells};
use crate::parts::{DECIDED, Decided, EXAMPLE, dump};
use crate::rows::assert_for;
use dump_format::{Dump, DumpError, format_laws};
use lb_dump::decode;
use row_fixtures::{EXAMPLE_DUMP, RECORDED_DUMP};
use std::alloc::Global;
use std::process::Abort;

// The example in the format LBD2 without a decision.
const PLAIN: [u8; 68] = *b"LBD2\
    \0\0\0\x05\0\0\0\x02\0\0\0\x03\
    \0\0\0\0\0\0\0\x01\0\0\0\x0a\0\0\0\0\
    \0\0\0\0\0\0\0\x01\0\0\0\x09\0\0\0\x01\
    \0\0\0\0\0\0\0\x02\0\0\0\x08\0\0\0\0\
    \0\0\0\0";

// The example with a decision whose floor is zero, since any floor may be recorded: the kind 0, and no stops.
const UNFENCED: [u8; 160] = *b"LBD2\
    \0\0\0\x05\0\0\0\x02\0\0\0\x03\
    \0\0\0\0\0\0\0\x01\0\0\0\x0a\0\0\0\0\
    \0\0\0\0\0\0\0\x01\0\0\0\x09\0\0\0\x01\
    \0\0\0\0\0\0\0\x02\0\0\0\x08\0\0\0\0\
    \0\0\0\x01\0\0\0\x02\
    \0\0\0\0\0\0\0\x02\0\0\0\0\0\0\0\x02\0\0\0\x03\
    \0\0\0\0\
    \0\0\0\x01\0\0\0\0\
    \0\0\0\0\0\0\0\x0a\0\0\0\0\0\0\0\x01\
    \xff\xff\xff\xff\xff\xff\xff\xff\0\0\0\0\0\0\0\0\
    \0\0\0\0\0\0\0\x0a\0\0\0\x01\
    \0\0\0\0\0\0\0\0\0\0\0\x01";

// The texts of the example, of no elements, and of one element with the greatest load of each format.
static TEXTS: [&[u8]; 8] = [
    &EXAMPLE_DUMP,
    &RECORDED_DUMP,
    &PLAIN,
    &UNFENCED,
    b"LBD1\0\0\0\x05\0\0\0\x02\0\0\0\0",
    b"LBD2\0\0\0\x05\0\0\0\x02\0\0\0\0\0\0\0\0",
    b"LBD1\0\0\0\0\0\0\0\x01\0\0\0\x01\xff\xff\xff\xff\0\0\0\0\0\0\0\0",
    b"LBD2\0\0\0\0\0\0\0\x01\0\0\0\x01\0\0\x7f\xff\xff\xff\xff\xff\0\0\0\0\0\0\0\0\0\0\0\0",
];

// Whether one more byte is the fault of a text.
fn has_end(rt: &(impl Abort + AllocGlobal), text: &[u8]) -> bool {
    let mut longer = list(rt, text);
    push(rt, &mut longer, 1);
    let fault = is_read_so(rt, &longer, text.len(), Err(DumpError::Trailing));
    drop(longer);
    fault
}

// A text has to give its dump, whole and in pieces, and not if it is shorter or longer.
fn expect_text(rt: &(impl Abort + AllocGlobal), text: &[u8]) {
    let read = is_read_so(rt, text, text.len(), Ok(text));
    assert_for(rt, read && has_end(rt, text), text.len());
    expect_in_any_pieces(rt, text);
    expect_short_starts(rt, text);
}

#[test]
fn worked_texts(rt: HostRuntime) {
    for text in &TEXTS {
        expect_text(&rt, text);
    }
}

// Whether this dump was found.
fn is_found(found: Result<Dump, DumpError>, dump: &Dump) -> bool {
    let same = match &found {
        Ok(found) => *found == *dump,
        Err(_) => false,
    };
    drop(found);
    same
}

// Whether the dump of the example with this decision or none has this text.
fn is_text_of(rt: &(impl Abort + AllocGlobal), decided: Option<&Decided<'_>>, text: &[u8]) -> bool {
    let dump = dump(rt, &EXAMPLE, decided);
    let same = is_found(decode(rt.alloc(), text), &dump) && spells(rt, &dump, text);
    drop(dump);
    same
}

#[test]
fn the_parts_of_texts(rt: HostRuntime) {
    assert_for(&rt, is_text_of(&rt, None, &EXAMPLE_DUMP), "LBD1");
    assert_for(&rt, is_text_of(&rt, None, &PLAIN), "no decision");
    let recorded = is_text_of(&rt, Some(&DECIDED), &RECORDED_DUMP);
    assert_for(&rt, recorded, "a decision");
    let mut unfenced = DECIDED;
    unfenced.stops = None;
    let unfenced = is_text_of(&rt, Some(&unfenced), &UNFENCED);
    assert_for(&rt, unfenced, "the floor zero");
}

// The fault that byte 255 at this offset of the example makes.
fn fault_of_255(offset: usize) -> Option<DumpError> {
    match offset {
        0..=3 => Some(DumpError::Magic),
        8..=10 => Some(DumpError::Procs),
        12 | 13 => Some(DumpError::Count),
        14 | 15 => Some(DumpError::Short(52)),
        20 | 21 => Some(DumpError::Size(0)),
        24..=27 => Some(DumpError::Place(0)),
        32 | 33 => Some(DumpError::Size(1)),
        36..=39 => Some(DumpError::Place(1)),
        44 | 45 => Some(DumpError::Size(2)),
        48..=51 => Some(DumpError::Place(2)),
        _ => None,
    }
}

// Whether byte 255 at this offset of the example makes its fault, or otherwise another dump.
fn is_told(rt: &(impl Abort + AllocGlobal), offset: usize) -> bool {
    let text = changed(rt, &EXAMPLE_DUMP, offset, 255);
    let expected = match fault_of_255(offset) {
        None => Ok(text.as_slice()),
        Some(fault) => Err(fault),
    };
    let told = comes_to(rt, decode(rt.alloc(), &text), expected);
    drop(text);
    told
}

#[test]
fn one_byte_is_255(rt: HostRuntime) {
    for offset in 0..52usize {
        assert_for(&rt, is_told(&rt, offset), offset);
    }
}

// A text, an offset and the byte there, the length to which it is then cut, the offset of the byte that brings the fault, and the
// fault.
type Changed = (&'static [u8], usize, u8, usize, usize, DumpError);

// Whether such a text has this fault.
fn is_fault(rt: &(impl Abort + AllocGlobal), row: &Changed) -> bool {
    let &(text, offset, byte, len, from, fault) = row;
    let text = changed(rt, text, offset, byte);
    let start = &text[..len.min(text.len())];
    let found = is_read_so(rt, start, from, Err(fault));
    drop(text);
    found
}

#[test]
fn the_first_fault(rt: HostRuntime) {
    const ROWS: [Changed; 12] = [
        (&EXAMPLE_DUMP, 1, b'X', 2, 1, DumpError::Magic),
        (&RECORDED_DUMP, 3, b'3', 5, 3, DumpError::Magic),
        (&EXAMPLE_DUMP, 11, 0, 13, 11, DumpError::Procs),
        (&EXAMPLE_DUMP, 51, 2, 52, 51, DumpError::Place(2)),
        (&RECORDED_DUMP, 18, 128, 172, 23, DumpError::Load(0)),
        (&RECORDED_DUMP, 67, 2, 172, 67, DumpError::Flag),
        (&RECORDED_DUMP, 71, 0, 172, 71, DumpError::Target),
        (&RECORDED_DUMP, 95, 2, 172, 95, DumpError::Floor),
        (&RECORDED_DUMP, 159, 4, 172, 159, DumpError::MoveCount),
        (&RECORDED_DUMP, 163, 3, 172, 163, DumpError::Move(0)),
        (&RECORDED_DUMP, 163, 3, 164, 163, DumpError::Move(0)),
        (&RECORDED_DUMP, 163, 3, 163, 163, DumpError::Short(163)),
    ];
    for row in &ROWS {
        assert_for(&rt, is_fault(&rt, row), row.1);
    }
}

// One element more than the most.
#[test]
fn one_element_too_many(rt: HostRuntime) {
    let mut text = EXAMPLE_DUMP;
    text[13] = 1;
    text[15] = 1;
    let fault = is_read_so(&rt, &text, 15, Err(DumpError::Count));
    assert_for(&rt, fault, "65,537");
}

// Whether this is the number of a fault, and this its text.
fn is_named(rt: &(impl Abort + AllocGlobal), row: &(DumpError, u8, &str)) -> bool {
    let &(fault, number, text) = row;
    let words = fault.to_string(rt.alloc()).expect(rt, "out of memory");
    let same = words.as_str() == text;
    drop(words);
    same && fault.number() == number
}

#[test]
fn numbers_and_words(rt: HostRuntime) {
    const FAULTS: [(DumpError, u8, &str); 17] = [
        (DumpError::Magic, 1, "not a dump"),
        (DumpError::Short(9), 2, "the dump ends after 9 bytes"),
        (DumpError::Procs, 3, "the number of PEs is out of range"),
        (DumpError::Count, 4, "too many elements"),
        (
            DumpError::Size(9),
            5,
            "the size of element 9 is out of range",
        ),
        (
            DumpError::Place(9),
            6,
            "the place of element 9 is out of range",
        ),
        (DumpError::Trailing, 7, "bytes follow the end"),
        (DumpError::Read, 8, "reading failed"),
        (DumpError::Write, 9, "writing failed"),
        (DumpError::OutOfMemory, 10, "out of memory"),
        (
            DumpError::Load(9),
            11,
            "the load of element 9 is out of range",
        ),
        (DumpError::Flag, 12, "the flag is out of range"),
        (DumpError::Target, 13, "the target is out of range"),
        (DumpError::Floor, 14, "the floor is out of range"),
        (DumpError::MoveCount, 15, "too many moves"),
        (DumpError::Move(9), 16, "move 9 is out of range"),
        (
            DumpError::Wide(9),
            17,
            "the load of element 9 is too great for the format",
        ),
    ];
    for row in &FAULTS {
        assert_for(&rt, is_named(&rt, row), row.2);
    }
    format_laws::<Global>();
}
