//! The texts of the worked dump, and how a replay or a check ends.

ghost use Rattle.lb_replay.specs.Requests.{MayRun};

use lb_replay::{Ended, Task, Way, simulate, simulate_by, verify};
use row_fixtures::{Sink, Source};
use std::alloc::Global;
use std::io::{Read, Write};

/// The text of the example.
pub(crate) const TEXT: &str = "step 5 procs 2 elements 3\n\
    bottleneck 2\n\
    fence 0 1 2\n\
    block 0 0..2 load 2 pe 1\n\
    block 1 2..3 load 2 pe 0\n\
    moved 10\n";

/// The text of the example on one PE.
pub(crate) const ON_ONE: &str = "step 5 procs 1 elements 3\n\
    bottleneck 4\n\
    fence 0 2\n\
    block 0 0..3 load 4 pe 0\n\
    moved 9\n";

/// The line where the decision is right.
pub(crate) const RIGHT: &str = "check: ok\n";

/// A replay for the number of PEs of the dump.
pub(crate) const REPLAY: Task = Task::Replay(None);

/// Whether a writer has had this number of calls, and has the first bytes of this text, `len` of them.
pub(crate) fn has(sink: &Sink, calls: usize, text: &str, len: usize) -> bool {
    let taken = sink.taken.as_slice();
    sink.calls == calls && taken.len() == len && text.as_bytes().starts_with(taken)
}

/// How a replay or a check from this reader to this writer ends.
pub(crate) fn ended<R: Read, W: Write>(
    alloc: Global,
    task: Task,
    reader: &mut R,
    writer: &mut W,
) -> Ended
    requires { MayRun task }
{
    match task {
        Task::Replay(procs) => simulate(alloc, reader, writer, procs),
        Task::Refine(procs, tolerance) => {
            simulate_by(alloc, reader, writer, procs, Way::Within(tolerance))
        }
        Task::RefineInOrder(procs, tolerance) => {
            simulate_by(alloc, reader, writer, procs, Way::InOrder(tolerance))
        }
        Task::RefineInAnyOrder(procs, tolerance) => {
            simulate_by(alloc, reader, writer, procs, Way::InAnyOrder(tolerance))
        }
        Task::Check => verify(alloc, reader, writer),
    }
}

/// Whether these are the bytes of this text.
pub(crate) fn same(written: &[u8], text: &str) -> bool {
    written == text.as_bytes()
}

/// Whether a replay or a check, by how it ended and the bytes that it wrote, has this end and this text.
pub(crate) fn is_end(found: Ended, written: &[u8], ended: Ended, text: &str) -> bool {
    found == ended && same(written, text)
}

/// Whether a replay or a check from this reader writes this text and has this end.
pub(crate) fn ends<R: Read>(
    rt: &impl AllocGlobal,
    task: Task,
    reader: &mut R,
    text: &str,
    end: Ended,
) -> bool
    requires { MayRun task }
{
    let mut written = Vec::new(rt.alloc());
    let found = ended(rt.alloc(), task, reader, &mut written);
    let ends = is_end(found, &written, end, text);
    drop(written);
    ends
}

/// Whether a replay of these bytes, seven at a time, writes this text and has this end.
pub(crate) fn replays(rt: &impl AllocGlobal, bytes: &[u8], text: &str, end: Ended) -> bool {
    ends(rt, REPLAY, &mut Source::new(bytes, 7, None), text, end)
}

/// Whether a check of these bytes, seven at a time, writes this line and has this end.
pub(crate) fn checks(rt: &impl AllocGlobal, bytes: &[u8], line: &str, end: Ended) -> bool {
    ends(rt, Task::Check, &mut Source::new(bytes, 7, None), line, end)
}
