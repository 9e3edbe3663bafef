//! The numbers and the texts of refusals.

use crate::fixtures::assert_for;
use chares::SendError;
use pe_state::StepError;
use std::fmt::Display;
use std::process::Abort;

// A refusal is shown by this text.
fn expect_text<E: Display>(rt: &(impl Abort + AllocGlobal), error: &E, text: &str) {
    let shown = format!(in rt.alloc(); "{error}").expect(rt, "out of memory");
    assert_for(rt, shown.as_str() == text, text);
}

#[test]
fn refused_sends_have_their_numbers_and_texts(rt: HostRuntime) {
    const ERRORS: [(SendError, u8, &str); 4] = [
        (SendError::Stranger, 1, "there is no such element"),
        (SendError::TooLong, 2, "the body is too long"),
        (SendError::Worn, 3, "no letter number is left"),
        (SendError::OutOfMemory, 4, "out of memory"),
    ];
    for (error, number, text) in &ERRORS {
        assert_for(&rt, *error as u8 == *number, *text);
        expect_text(&rt, error, *text);
    }
}

#[test]
fn refused_steps_have_their_numbers_and_texts(rt: HostRuntime) {
    const ERRORS: [(StepError, u8, &str); 5] = [
        (StepError::OutOfMemory, 1, "out of memory"),
        (StepError::Unpack, 2, "the bytes are no state"),
        (StepError::Stranger, 3, "there is no such element"),
        (StepError::TooLong, 4, "the body is too long"),
        (StepError::Worn, 5, "no number is left"),
    ];
    for (error, number, text) in &ERRORS {
        assert_for(&rt, *error as u8 == *number, *text);
        expect_text(&rt, error, *text);
    }
}
