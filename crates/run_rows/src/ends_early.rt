//! Runs that end early, each with its fault, and what they leave.

use crate::fixtures::{account, assert_for, index, patient, run_past};
use chare_index::{Gate, NoGate};
use chares::{Carried, Chare};
use pe_state::PeEnd;
use row_chares::{Courier, Errand};
use row_fixtures::pe;
use rts_core::Account;
use rts_run::{Config, Fault, Outcome};
use std::alloc::Global;
use std::process::Abort;
use std::sync::Wait;
use std::sync::atomic::{AtomicU64, Ordering};
use std::thread::Threads;

// Whether a run met this fault, decided no round, and has this account.
fn is_ended<C: Chare<Global>>(outcome: &Outcome<C>, fault: Fault, account: Account) -> bool {
    let ended = outcome.fault() == Some(fault) && outcome.account() == account;
    ended && outcome.rounds().is_empty()
}

// Whether the element 0 has started, if it is on PE 0.
fn started<C: Chare<Global>>(rt: &impl Abort, outcome: &Outcome<C>) -> Option<bool> {
    let element = outcome.ends().first()?.room().element(index(rt, 0))?;
    Some(element.progress().started)
}

// A run of errands on one PE, whose workers give up after this number of turns.
fn run_on_one<R: Threads + Wait + Sync + Abort + AllocGlobal>(
    rt: &R,
    turns: u64,
    errands: Vec<Errand>,
) -> Outcome<Errand> {
    let config = Config {
        turns,
        ..patient(1, 1)
    };
    run_past(rt, &config, &NoGate, errands)
}

#[test]
fn a_chare_that_never_finishes(rt: HostRuntime) {
    let waits = Errand {
        wanted: 1,
        ..Errand::none()
    };
    let errands = vec![in rt.alloc(); waits].expect(&rt, "out of memory");
    let outcome = run_on_one(&rt, 1_000, errands);
    let ended = is_ended(&outcome, Fault::Idle, account(0, 0, 0));
    assert!(rt; ended && started(&rt, &outcome) == Some(true));
}

// Whether the hand of a PE has the first letter of PE 0, for element 1, and nothing else waits there.
fn in_hand<C: Chare<Global>>(rt: &impl Abort, end: &PeEnd<C>) -> bool {
    let Some(item) = end.hand() else {
        return false;
    };
    let found = match &item.parcel {
        Carried::Letter(letter) => letter.id() == (pe(0), 0) && letter.to() == index(rt, 1),
        Carried::Element(_) => false,
    };
    found && end.outbox().is_empty() && end.shelf().is_empty()
}

#[test]
fn a_letter_to_no_element_while_one_is_handled(rt: HostRuntime) {
    let first = Errand {
        to: 1,
        letters: 1,
        wanted: 1,
        ..Errand::none()
    };
    let second = Errand {
        to: 9,
        replies: 1,
        wanted: 1,
        ..Errand::none()
    };
    let errands = vec![in rt.alloc(); first, second].expect(&rt, "out of memory");
    let outcome = run_on_one(&rt, 1_000_000_000, errands);
    let ended = is_ended(&outcome, Fault::Stranger, account(1, 0, 1));
    let end = outcome.ends().first().expect(&rt, "no PE 0");
    assert!(rt; ended && in_hand(&rt, end));
    drop(outcome);
}

#[test]
fn a_body_that_is_too_long(rt: HostRuntime) {
    let chare = Courier::with_zeros(rt.alloc(), 0, 0, 1_025).expect(&rt, "out of memory");
    let chares = vec![in rt.alloc(); chare].expect(&rt, "out of memory");
    let outcome = run_past(&rt, &patient(1, 1_024), &NoGate, chares);
    let ended = is_ended(&outcome, Fault::TooLong, account(0, 0, 0));
    assert!(rt; ended && started(&rt, &outcome) == Some(false));
}

// How many turns the start of an element is held.
const HELD: u64 = 1_000_000_000;

// A gate that holds the start of element 1, whose number is 1,001.
#[derive(Drop)]
struct Stalling {
    let_go: AtomicU64,
}

impl Gate for Stalling {
    fn pass(&self, who: u32) {
        if who == 1_001 {
            for _ in 0..HELD {
                if self.let_go.load(Ordering::Relaxed) == 1 {
                    return;
                }
            }
            self.let_go.store(1, Ordering::SeqCst);
        }
    }
}

#[test]
fn a_start_that_is_stalled(rt: HostRuntime) {
    let gate = Stalling {
        let_go: AtomicU64::new(0),
    };
    let config = Config {
        turns: 1_000,
        ..patient(2, 1_024)
    };
    let first = Errand {
        to: 1,
        letters: 3,
        wanted: 1,
        ..Errand::none()
    };
    let second = Errand {
        wanted: 3,
        ..Errand::none()
    };
    let errands = vec![in rt.alloc(); first, second].expect(&rt, "out of memory");
    let outcome = run_past(&rt, &config, &gate, errands);
    let (fault, found) = (outcome.fault(), outcome.account());
    drop(outcome);
    assert_for(&rt, fault == Some(Fault::Idle), fault);
    let all = found.posted == 3 && found.executed.saturating_add(found.held) == 3;
    assert_for(&rt, all, found);
}
