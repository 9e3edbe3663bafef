//! What the tests of several modules use: an assertion over a row, and lists. What cannot be made ends the test.

ghost use Rattle.std.specs.Prelude.{◌≡◌, true};

use std::fmt::Debug;
use std::process::Abort;

/// Ends the test where this does not hold, with the row for which it has to hold.
pub(crate) fn assert_for<R: Debug + Copy>(rt: &impl Abort, holds: bool, row: R)
    ensures held { holds ≡ true }
{
    assert!(rt; holds, "{row:?}");
}

/// A list of these items.
pub(crate) fn list<T: Copy>(rt: &(impl Abort + AllocGlobal), items: &[T]) -> Vec<T> {
    Vec::from_slice(rt.alloc(), items).expect(rt, "out of memory")
}

/// Adds an item to a list.
pub(crate) fn push<T: Copy>(rt: &impl Abort, items: &mut Vec<T>, item: T) {
    items.push(item).expect(rt, "out of memory");
}

/// Whether these are the same items.
pub(crate) fn same<T: PartialEq>(some: &[T], others: &[T]) -> bool {
    some == others
}

/// Whether a list is made of these items.
pub(crate) fn is_list<T: Copy + PartialEq>(list: Vec<T>, items: &[T]) -> bool {
    same(&list, items)
}
