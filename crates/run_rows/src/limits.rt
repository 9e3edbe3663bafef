//! Numbers of a run past their limits, and at them.

use crate::fixtures::{assert_for, patient};
use chare_index::NoGate;
use row_chares::Errand;
use rts_run::{Config, RunError, run};
use std::process::Abort;
use std::sync::Wait;
use std::thread::Threads;

// Why a run of one chare that finishes as it starts is refused, or `None` where it ends without a fault.
fn refusal<R: Threads + Wait + Sync + Abort + AllocGlobal>(
    rt: &R,
    config: &Config,
) -> Option<RunError> {
    let chares = vec![in rt.alloc(); Errand::none()].expect(rt, "out of memory");
    match run(rt, rt.alloc(), config, &NoGate, chares) {
        Ok(outcome) => {
            assert_for(rt, outcome.fault() == None, outcome.fault());
            None
        }
        Err(error) => Some(error),
    }
}

#[test]
fn no_pe_and_one_too_many(rt: HostRuntime) {
    const ROWS: [(u32, Option<RunError>); 4] = [
        (0, Some(RunError::Config)),
        (1, None),
        (256, None),
        (257, Some(RunError::Config)),
    ];
    for (pes, want) in &ROWS {
        assert_for(&rt, refusal(&rt, &patient(*pes, 1)) == *want, *pes);
    }
}
