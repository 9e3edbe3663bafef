//! An assertion over a row, and PEs and rounds by their numbers. What cannot be made ends the test.

ghost use Rattle.std.specs.Prelude.{◌≡◌, true};

use chare_index::{Pe, Round};
use std::fmt::Debug;
use std::process::Abort;

/// Ends the test where this does not hold, with the row for which it has to hold.
pub(crate) fn assert_for<R: Debug + Copy>(rt: &impl Abort, holds: bool, row: R)
    ensures held { holds ≡ true }
{
    assert!(rt; holds, "{row:?}");
}

pub(crate) fn pe(rt: &impl Abort, number: u32) -> Pe {
    Pe::new(number).expect(rt, "no such PE")
}

pub(crate) fn round(rt: &impl Abort, number: u32) -> Round {
    Round::new(number).expect(rt, "no such round")
}
