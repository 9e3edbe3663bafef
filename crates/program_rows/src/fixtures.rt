//! What the tests use: the worked workload, and runs from bytes to bytes.

ghost use Rattle.std.specs.Prelude.{◌≡◌, true};

use std::alloc::{Allocator, Global};
use std::fmt::Debug;
use std::io::{Read, Write};
use std::process::Abort;
use std::sync::Wait;
use std::thread::Threads;
use workload_run::{Driven, RunEnd, drive};

/// The worked workload.
pub(crate) const WORKED: &[u8] =
    b"pes 2\nrounds 2\npad 8\nchares 4\namounts 1 1 2 6\namounts 2 2 2 2\n";

/// What is printed of its run.
pub(crate) const WORKED_TEXT: &str = "round 1 bottleneck 6 moved 40\n\
    round 2 bottleneck 4 moved 40\n\
    sums 8 3 3 4\n\
    posted 8 executed 8 held 0\n";

// The number of idle turns after which a worker gives up.
const TURNS: u64 = 1_000_000_000;

/// Ends the test where this does not hold, and shows the row that it should hold for.
pub(crate) fn assert_for<R: Debug + Copy>(rt: &impl Abort, holds: bool, row: R)
    ensures held { holds ≡ true }
{
    assert!(rt; holds, "{row:?}");
}

/// Runs the workload of a reader.
pub(crate) fn drive_from<
    T: Threads + Wait + Sync,
    R: Read,
    W: Write,
    A: Allocator + Copy + Send + Sync,
>(rt: &T, alloc: A, reader: &mut R, writer: &mut W) -> Driven<A> {
    drive(rt, alloc, reader, writer, TURNS)
}

/// The result of a workload, and what was written.
pub(crate) fn driven<R: Threads + Wait + Sync + Abort + AllocGlobal>(
    rt: &R,
    workload: &[u8],
) -> (Driven<Global>, Vec<u8>) {
    let mut reader = workload;
    let mut text = Vec::new(rt.alloc());
    let driven = drive_from(rt, rt.alloc(), &mut reader, &mut text);
    (driven, text)
}

/// The result of the worked workload.
pub(crate) fn worked<R: Threads + Wait + Sync + Abort + AllocGlobal>(rt: &R) -> Driven<Global> {
    driven(rt, WORKED).0
}

/// A workload, how its run ends, the status, and what is written.
pub(crate) type Row<'a> = (&'a [u8], RunEnd, u8, &'a str);

/// Whether the run of a workload ends as in its row, and writes exactly that.
pub(crate) fn tells<R: Threads + Wait + Sync + Abort + AllocGlobal>(rt: &R, row: &Row<'_>) -> bool {
    let (workload, ended, status, text) = *row;
    let (driven, written) = driven(rt, workload);
    let right = driven.ended == ended && driven.status() == status;
    drop(driven);
    right && written.as_slice() == text.as_bytes()
}
