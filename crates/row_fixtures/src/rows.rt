//! Builds a dump row by row.

ghost use Rattle.std.specs.Prelude.{◌≡◌, ◌++◌, OnErr, OnOk};
ghost use Rattle.row_fixtures.specs.Rows.{row};

use std::alloc::AllocError;

/// Adds an element to a dump: its load, its size and its place, four bytes each, the highest first.
///
/// # Errors
///
/// Out of memory. The dump is unchanged then.
pub fn push_element(dump: &mut Vec<u8>, element: (u32, u32, u32)) -> Result<(), AllocError>
    ensures appended { OnOk result (dump.new.items ≡ dump.old.items ++ row element) }
    ensures err { OnErr result (dump.new.items ≡ dump.old.items) }
{
    let (load, size, place) = element;
    let [l0, l1, l2, l3] = load.to_be_bytes();
    let [s0, s1, s2, s3] = size.to_be_bytes();
    let [p0, p1, p2, p3] = place.to_be_bytes();
    dump.extend_from_slice(&[l0, l1, l2, l3, s0, s1, s2, s3, p0, p1, p2, p3])
}
