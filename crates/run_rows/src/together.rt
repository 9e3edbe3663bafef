//! Gates that see when handlers run: two at the same time, and none too early.

use crate::fixtures::{assert_for, patient, run_past};
use chare_index::Gate;
use row_chares::Errand;
use std::process::Abort;
use std::sync::Wait;
use std::sync::atomic::{AtomicU64, Ordering};
use std::thread::Threads;

// Runs two chares of this number of rounds on two PEs, without a fault.
fn run_two<G: Gate + Sync, R: Threads + Wait + Sync + Abort + AllocGlobal>(
    rt: &R,
    gate: &G,
    rounds: u32,
) {
    let first = Errand {
        rounds,
        ..Errand::none()
    };
    let second = Errand {
        rounds,
        ..Errand::none()
    };
    let errands = vec![in rt.alloc(); first, second].expect(rt, "out of memory");
    let outcome = run_past(rt, &patient(2, 1_024), gate, errands);
    assert_for(rt, outcome.fault() == None, outcome.fault());
    assert_for(rt, outcome.rounds().len() == rounds as usize, rounds);
}

// How many turns a handler waits for the other.
const TURNS: u64 = 1_000_000_000;

// A gate that holds each of two elements until the other has been seen. Their numbers are 1,000 and 1,001; those below
// are of workers, and pass. Each has 1 once it was seen, and 2 once it has seen the other.
#[derive(Drop)]
struct Meeting {
    first: AtomicU64,
    second: AtomicU64,
}

impl Gate for Meeting {
    fn pass(&self, who: u32) {
        let (own, other) = match who {
            1_000 => (&self.first, &self.second),
            1_001 => (&self.second, &self.first),
            _ => return,
        };
        own.store(1, Ordering::SeqCst);
        for _ in 0..TURNS {
            if other.load(Ordering::SeqCst) >= 1 {
                own.store(2, Ordering::SeqCst);
                return;
            }
        }
    }
}

#[test]
fn two_pes_overlap(rt: HostRuntime) {
    let gate = Meeting {
        first: AtomicU64::new(0),
        second: AtomicU64::new(0),
    };
    run_two(&rt, &gate, 0);
    let seen = (
        gate.first.load(Ordering::SeqCst),
        gate.second.load(Ordering::SeqCst),
    );
    assert_for(&rt, seen == (2, 2), seen);
}

// How many turns the start of element 0 is held.
const HELD: u64 = 100_000_000;

// A gate that holds the start of element 0, whose number is 1,000, and sees after how many of its turns element 1 goes on
// after round 1, with 1,003.
#[derive(Drop)]
struct Late {
    turns: AtomicU64,
    gone_on: AtomicU64,
}

impl Gate for Late {
    fn pass(&self, who: u32) {
        if who == 1_000 {
            for _ in 0..HELD {
                self.turns.fetch_add(1, Ordering::SeqCst);
            }
        }
        if who == 1_003 {
            let turns = self.turns.load(Ordering::SeqCst);
            self.gone_on.fetch_add(turns, Ordering::SeqCst);
        }
    }
}

#[test]
fn no_early_resume(rt: HostRuntime) {
    let gate = Late {
        turns: AtomicU64::new(0),
        gone_on: AtomicU64::new(0),
    };
    run_two(&rt, &gate, 1);
    let gone_on = gate.gone_on.load(Ordering::SeqCst);
    assert_for(&rt, gone_on == HELD, "once, and after all turns");
}
