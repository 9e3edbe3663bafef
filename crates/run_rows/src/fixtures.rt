//! What the tests use: numbers of a run, runs, and assertions over a row. A value that cannot be made ends the test.

ghost use Rattle.std.specs.Prelude.{◌≡◌, true};

use chare_index::{Gate, Index};
use rts_core::{Account, Chare};
use rts_run::{Config, Outcome, run};
use std::alloc::Global;
use std::fmt::Debug;
use std::process::Abort;
use std::sync::Wait;
use std::thread::Threads;

/// Ends the test where this does not hold, and shows the row that it should hold for.
pub(crate) fn assert_for<R: Debug + Copy>(rt: &impl Abort, holds: bool, row: R)
    ensures held { holds ≡ true }
{
    assert!(rt; holds, "{row:?}");
}

pub(crate) fn index(rt: &impl Abort, place: u32) -> Index {
    Index::new(place).expect(rt, "no such element")
}

/// A run on this number of PEs, with this capacity of each queue, whose workers are patient and decide alone.
pub(crate) fn patient(pes: u32, capacity: u32) -> Config {
    Config {
        pes,
        capacity,
        turns: 1_000_000_000,
        probe_workers: 1,
    }
}

/// The account with these numbers.
pub(crate) fn account(posted: u64, executed: u64, held: u64) -> Account {
    Account {
        posted,
        executed,
        held,
    }
}

/// Runs these chares past a gate.
pub(crate) fn run_past<
    C: Chare<Global> + Send,
    G: Gate + Sync,
    R: Threads + Wait + Sync + Abort + AllocGlobal,
>(rt: &R, config: &Config, gate: &G, chares: Vec<C>) -> Outcome<C> {
    run(rt, rt.alloc(), config, gate, chares).expect(rt, "the run did not begin")
}
