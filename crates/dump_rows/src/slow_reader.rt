//! A slow reader of both formats, which takes the fields one after another, and every text that differs from an example in
//! one byte: its first fault, or the same text again.

use crate::fixtures::{changed, comes_to};
use crate::rows::assert_for;
use dump_format::DumpError;
use lb_dump::decode;
use row_fixtures::{EXAMPLE_DUMP, RECORDED_DUMP};
use std::process::Abort;

// A text that is read, and where its next field begins.
#[derive(Drop)]
struct Reading<'a> {
    text: &'a [u8],
    at: usize,
}

// The number of these bytes, the highest first.
fn number_of(bytes: &[u8]) -> u64 {
    let mut number = 0u64;
    for byte in bytes {
        number = number.wrapping_mul(256).wrapping_add(u64::from(*byte));
    }
    number
}

// The next number, of this number of bytes.
fn next(reading: &mut Reading<'_>, len: usize) -> Result<u64, DumpError> {
    let rest = reading.text.get(reading.at..).unwrap_or(&[]);
    if rest.len() < len {
        let end = u32::try_from(reading.text.len()).unwrap_or(u32::MAX);
        return Err(DumpError::Short(end));
    }
    reading.at = reading.at.saturating_add(len);
    Ok(number_of(&rest[..len]))
}

// The next number, which has this fault where it is outside a range.
fn next_in(
    reading: &mut Reading<'_>,
    len: usize,
    range: (u64, u64),
    fault: DumpError,
) -> Result<u64, DumpError> {
    let number = next(reading, len)?;
    if number < range.0 || number > range.1 {
        return Err(fault);
    }
    Ok(number)
}

// The next `count` numbers, of any value.
fn pass(reading: &mut Reading<'_>, len: usize, count: u64) -> Result<(), DumpError> {
    for _ in 0..count {
        next(reading, len)?;
    }
    Ok(())
}

// The letters of the magic, and with them the length of a load in this format.
fn read_letters(reading: &mut Reading<'_>) -> Result<usize, DumpError> {
    next_in(reading, 1, (76, 76), DumpError::Magic)?;
    next_in(reading, 1, (66, 66), DumpError::Magic)?;
    next_in(reading, 1, (68, 68), DumpError::Magic)?;
    let last = next_in(reading, 1, (49, 50), DumpError::Magic)?;
    Ok(if last == 49 { 4 } else { 8 })
}

// The `count` elements, on `procs` PEs.
fn read_elements(
    reading: &mut Reading<'_>,
    load_len: usize,
    procs: u64,
    count: u32,
) -> Result<(), DumpError> {
    for i in 0..count {
        next_in(
            reading,
            load_len,
            (0, 140_737_488_355_327),
            DumpError::Load(i),
        )?;
        next_in(reading, 4, (0, 1_048_576), DumpError::Size(i))?;
        next_in(
            reading,
            4,
            (0, procs.saturating_sub(1)),
            DumpError::Place(i),
        )?;
    }
    Ok(())
}

// What comes before the moves of a decision, up to their number.
fn read_plan(reading: &mut Reading<'_>, count: u32) -> Result<u64, DumpError> {
    let target = next_in(reading, 4, (1, 256), DumpError::Target)?;
    let ends = target.saturating_add(1);
    pass(reading, 8, 1)?;
    pass(reading, 4, ends)?;
    let floor = next_in(reading, 4, (0, 1), DumpError::Floor)?;
    pass(reading, 4, if floor == 0 { 0 } else { ends })?;
    pass(reading, 4, target)?;
    pass(reading, 8, target.saturating_mul(2).saturating_add(1))?;
    next_in(reading, 4, (0, u64::from(count)), DumpError::MoveCount)
}

// The moves, of elements below a count.
fn read_moves(reading: &mut Reading<'_>, moves: u64, count: u32) -> Result<(), DumpError> {
    let last = u64::from(count).saturating_sub(1);
    for k in 0..u32::try_from(moves).unwrap_or(u32::MAX) {
        next_in(reading, 4, (0, last), DumpError::Move(k))?;
        next_in(reading, 4, (0, 255), DumpError::Move(k))?;
        next_in(reading, 4, (0, 255), DumpError::Move(k))?;
    }
    Ok(())
}

// What comes after the elements of LBD2.
fn read_ending(reading: &mut Reading<'_>, count: u32) -> Result<(), DumpError> {
    if next_in(reading, 4, (0, 1), DumpError::Flag)? == 0 {
        return Ok(());
    }
    let moves = read_plan(reading, count)?;
    read_moves(reading, moves, count)
}

// What comes after the letters, where a load has this number of bytes.
fn read_numbers(reading: &mut Reading<'_>, load_len: usize) -> Result<(), DumpError> {
    pass(reading, 4, 1)?;
    let procs = next_in(reading, 4, (1, 256), DumpError::Procs)?;
    let count = next_in(reading, 4, (0, 65_536), DumpError::Count)?;
    let count = u32::try_from(count).unwrap_or(u32::MAX);
    read_elements(reading, load_len, procs, count)?;
    if load_len == 8 {
        read_ending(reading, count)?;
    }
    Ok(())
}

// A whole text.
fn read_text(text: &[u8]) -> Result<(), DumpError> {
    let mut reading = Reading { text, at: 0 };
    let load_len = read_letters(&mut reading)?;
    read_numbers(&mut reading, load_len)?;
    if reading.at < text.len() {
        return Err(DumpError::Trailing);
    }
    Ok(())
}

// Whether a text has the fault of the slow reader, or otherwise gives a dump that has this text.
fn agrees(rt: &(impl Abort + AllocGlobal), text: &[u8]) -> bool {
    let expected = match read_text(text) {
        Ok(()) => Ok(text),
        Err(fault) => Err(fault),
    };
    comes_to(rt, decode(rt.alloc(), text), expected)
}

// It has to be so for a text with any byte at this offset.
fn expect_to_agree(rt: &(impl Abort + AllocGlobal), text: &[u8], offset: usize) {
    for byte in 0..=255u8 {
        let text = changed(rt, text, offset, byte);
        assert_for(rt, agrees(rt, &text), offset);
        drop(text);
    }
}

#[test]
fn every_changed_byte_of_a_decision(rt: HostRuntime) {
    for offset in 0..172usize {
        expect_to_agree(&rt, &RECORDED_DUMP, offset);
    }
}

#[test]
fn every_changed_byte_of_a_narrow_dump(rt: HostRuntime) {
    for offset in 0..52usize {
        expect_to_agree(&rt, &EXAMPLE_DUMP, offset);
    }
}
