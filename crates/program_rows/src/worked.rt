//! Worked workloads: what is printed of their runs, and the line of each fault of a workload.

use crate::fixtures::{Row, WORKED, WORKED_TEXT, assert_for, tells};
use workload::WorkError;
use workload_run::RunEnd;

static ROWS: [Row<'static>; 9] = [
    (WORKED, RunEnd::Ran(None), 0, WORKED_TEXT),
    (
        b"pes 3\nrounds 1\npad 0\nchares 0\namounts\n",
        RunEnd::Ran(None),
        0,
        "sums\nposted 0 executed 0 held 0\n",
    ),
    (
        b"pes 256\nrounds 1\npad 0\nchares 3\namounts 4 5 6\n",
        RunEnd::Ran(None),
        0,
        "round 1 bottleneck 6 moved 0\nsums 6 4 5\nposted 3 executed 3 held 0\n",
    ),
    (
        b"pes 2\nrounds 2\npad 0\nchares 1\namounts 3\namounts 0\n",
        RunEnd::Ran(None),
        0,
        "round 1 bottleneck 3 moved 0\nround 2 bottleneck 0 moved 0\nsums 3\nposted 2 executed 2 held 0\n",
    ),
    (
        b"pes 2\nrounds 0\npad 1\nchares 2\n",
        RunEnd::Ran(None),
        0,
        "sums 0 0\nposted 0 executed 0 held 0\n",
    ),
    (
        b"",
        RunEnd::Refused(WorkError::Form(1)),
        3,
        "workload: line 1\n",
    ),
    (
        b"pes 02\n",
        RunEnd::Refused(WorkError::Form(1)),
        3,
        "workload: line 1\n",
    ),
    (
        b"pes 257\n",
        RunEnd::Refused(WorkError::Limit(1)),
        3,
        "workload: limit in line 1\n",
    ),
    (
        b"pes 2\nrounds 1001\n",
        RunEnd::Refused(WorkError::Limit(2)),
        3,
        "workload: limit in line 2\n",
    ),
];

#[test]
fn workloads_and_what_is_printed(rt: HostRuntime) {
    for row in &ROWS {
        assert_for(&rt, tells(&rt, row), row.3);
    }
}
