//! Scripts: the steps of a world, one by one, with what is told of each.

use crate::fixtures::assert_for;
use chares::Openings;
use row_scripts::{Line, ScriptEntry, are_told, event_of, is_refusal};
use rts_core::{Account, Chare, Event, World};
use std::alloc::Global;
use std::process::Abort;

// Whether an event has exactly these trace entries, or this refusal.
fn is_answered<C: Chare<Global>, H: Openings<C>>(
    world: &mut World<C, H>,
    event: Event,
    want: &[ScriptEntry],
) -> bool {
    match world.step(event) {
        Ok(reports) => are_told(reports.as_slice(), want),
        Err(error) => is_refusal(want, error),
    }
}

/// Takes the lines of a script in turn.
pub(crate) fn take<C: Chare<Global>, H: Openings<C>>(
    rt: &impl Abort,
    world: &mut World<C, H>,
    lines: &[Line],
) {
    for (at, line) in lines.iter().enumerate() {
        let event = event_of(line.0).expect(rt, "no such event");
        assert_for(rt, is_answered(world, event, line.1), at);
    }
}

/// These numbers of letters were posted, executed, and are held.
pub(crate) fn expect_account<C: Chare<Global>, H: Openings<C>>(
    rt: &impl Abort,
    world: &World<C, H>,
    want: &Account,
) {
    let told = world.account();
    assert_for(rt, told == *want, told);
}
