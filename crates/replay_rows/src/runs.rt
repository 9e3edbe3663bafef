//! Runs, and the status for each end.

ghost use Rattle.lb_replay.specs.Requests.{MayRun};

use crate::fixtures::{ON_ONE, REPLAY, RIGHT, TEXT, same};
use crate::rows::assert_for;
use dump_format::DumpError;
use lb_certificates::Flaw;
use lb_replay::{Ended, Task, run};
use lb_strategy::PlanError;
use row_fixtures::{EXAMPLE_DUMP, RECORDED_DUMP, Source};
use std::io::{self, ErrorKind, Read};

// Whether a run on a file writes this text, and has this end and a reason of this kind, or none.
fn runs<R: Read + Drop>(
    rt: &impl AllocGlobal,
    task: Task,
    file: io::Result<R>,
    text: &str,
    expected: (Ended, Option<ErrorKind>),
) -> bool
    requires { MayRun task }
{
    let mut written = Vec::new(rt.alloc());
    let (ended, reason) = run(rt.alloc(), task, file, &mut written);
    let same = ended == expected.0 && same(&written, text);
    drop(written);
    same && kind(reason) == expected.1
}

// The kind of a reason.
fn kind(reason: Option<io::Error>) -> Option<ErrorKind> {
    Some(reason?.kind())
}

// Whether a run on these bytes prints this text.
fn prints(rt: &impl AllocGlobal, task: Task, bytes: &[u8], text: &str) -> bool
    requires { MayRun task }
{
    runs(rt, task, Ok(bytes), text, (Ended::Printed, None))
}

#[test]
fn runs_that_print(rt: HostRuntime) {
    assert_for(&rt, prints(&rt, REPLAY, &EXAMPLE_DUMP, TEXT), TEXT);
    let one = prints(&rt, Task::Replay(Some(1)), &EXAMPLE_DUMP, ON_ONE);
    assert_for(&rt, one, ON_ONE);
    assert_for(&rt, prints(&rt, Task::Check, &RECORDED_DUMP, RIGHT), RIGHT);
}

// Whether a run returns the reason where its file is not opened.
fn tells_missing(rt: &impl AllocGlobal, task: Task) -> bool
    requires { MayRun task }
{
    let missing: io::Result<&[u8]> = Err(io::Error::from(ErrorKind::NotFound));
    let end = (Ended::Dump(DumpError::Read), Some(ErrorKind::NotFound));
    runs(rt, task, missing, "dump: read failed\n", end)
}

// Whether it returns the reason where a read of this dump fails.
fn tells_failed(rt: &impl AllocGlobal, task: Task, dump: &[u8]) -> bool
    requires { MayRun task }
{
    let failing = Ok(Source::new(dump, 20, Some((1, ErrorKind::Interrupted))));
    let end = (Ended::Dump(DumpError::Read), Some(ErrorKind::Interrupted));
    runs(rt, task, failing, "dump: read failed\n", end)
}

#[test]
fn a_run_hands_the_reason_on(rt: HostRuntime) {
    assert_for(&rt, tells_missing(&rt, REPLAY), "no file to replay");
    assert_for(&rt, tells_missing(&rt, Task::Check), "no file to check");
    assert_for(&rt, tells_failed(&rt, REPLAY, &EXAMPLE_DUMP), "a replay");
    assert_for(
        &rt,
        tells_failed(&rt, Task::Check, &RECORDED_DUMP),
        "a check",
    );
}

#[test]
fn statuses(rt: HostRuntime) {
    const ENDS: [(Ended, u8); 8] = [
        (Ended::Printed, 0),
        (Ended::Dump(DumpError::Magic), 3),
        (Ended::Dump(DumpError::Read), 3),
        (Ended::Dump(DumpError::OutOfMemory), 5),
        (Ended::Plan(PlanError::OutOfMemory), 5),
        (Ended::Flawed(Flaw::CutCount), 4),
        (Ended::NoDecision, 4),
        (Ended::WriteFailed, 5),
    ];
    for row in &ENDS {
        assert_for(&rt, row.0.status() == row.1, row.0);
    }
}
