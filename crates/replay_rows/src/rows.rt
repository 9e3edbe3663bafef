//! What all tests use: an assertion over a row.

ghost use Rattle.std.specs.Prelude.{◌≡◌, true};

use std::fmt::Debug;
use std::process::Abort;

/// Ends the test where this does not hold, with the row for which it has to hold.
pub(crate) fn assert_for<R: Debug + Copy>(rt: &impl Abort, holds: bool, row: R)
    ensures held { holds ≡ true }
{
    assert!(rt; holds, "{row:?}");
}
