//! Ways in which a text comes to a reader, and when the reader reports its fault.

use crate::fixtures::comes_to;
use crate::rows::assert_for;
use dump_format::DumpError;
use lb_dump::{DumpReader, decode};
use std::process::Abort;

// Whether a reader takes each of these pieces.
fn takes(reader: &mut DumpReader, pieces: &[&[u8]]) -> bool {
    for &piece in pieces {
        if reader.feed(piece).is_err() {
            return false;
        }
    }
    true
}

// Whether these pieces are taken, and give a dump that has this text.
fn give(rt: &(impl Abort + AllocGlobal), pieces: &[&[u8]], text: &[u8]) -> bool {
    let mut reader = DumpReader::new(rt.alloc());
    let taken = takes(&mut reader, pieces);
    comes_to(rt, reader.end(), Ok(text)) && taken
}

/// A text has to give its dump wherever it is cut in two, with empty pieces before, between and behind.
pub(crate) fn expect_in_any_pieces(rt: &(impl Abort + AllocGlobal), text: &[u8]) {
    for cut in 0..=text.len() {
        let (start, rest) = text.split_at(cut.min(text.len()));
        let pieces: [&[u8]; 5] = [&[], start, &[], rest, &[]];
        assert_for(rt, give(rt, &pieces, text), cut);
    }
}

// Whether a reader takes each byte of a text before the one at this offset, and returns the fault from there on.
fn feeds(reader: &mut DumpReader, text: &[u8], from: usize, fault: Option<DumpError>) -> bool {
    for (offset, byte) in text.iter().enumerate() {
        let expected = if offset < from { None } else { fault };
        if reader.feed(&[*byte]).err() != expected {
            return false;
        }
    }
    true
}

// Whether it is so, a further piece without bytes is taken where all bytes were, and the end gives this dump or the fault.
fn is_fed(
    rt: &(impl Abort + AllocGlobal),
    text: &[u8],
    from: usize,
    expected: Result<&[u8], DumpError>,
) -> bool {
    let mut reader = DumpReader::new(rt.alloc());
    let fed = feeds(&mut reader, text, from, expected.err());
    let refused = reader.feed(&[]).is_err();
    comes_to(rt, reader.end(), expected) && fed && refused == (from < text.len())
}

/// Whether a text gives this dump or fault where it is decoded at once, and where it comes byte by byte, of which the one at
/// this offset is the first that is not taken.
pub(crate) fn is_read_so(
    rt: &(impl Abort + AllocGlobal),
    text: &[u8],
    from: usize,
    expected: Result<&[u8], DumpError>,
) -> bool {
    comes_to(rt, decode(rt.alloc(), text), expected) && is_fed(rt, text, from, expected)
}

/// Each start of a text has to end too soon, with its own length.
pub(crate) fn expect_short_starts(rt: &(impl Abort + AllocGlobal), text: &[u8]) {
    for len in 0..text.len() {
        let short = DumpError::Short(u32::try_from(len).unwrap_or(u32::MAX));
        assert_for(rt, is_read_so(rt, &text[..len], len, Err(short)), len);
    }
}
