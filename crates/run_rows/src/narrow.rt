//! A thousand letters each way, through queues with capacity for one parcel.

use crate::fixtures::{account, assert_for, patient, run_past};
use chare_index::NoGate;
use row_chares::Errand;

// A chare that sends a thousand letters to this element, and has to get as many.
fn sender(to: u32) -> Errand {
    Errand {
        to,
        letters: 1_000,
        wanted: 1_000,
        ..Errand::none()
    }
}

#[test]
fn a_thousand_letters_each_way(rt: HostRuntime) {
    let errands = vec![in rt.alloc(); sender(1), sender(0)].expect(&rt, "out of memory");
    let outcome = run_past(&rt, &patient(2, 1), &NoGate, errands);
    let found = (outcome.fault(), outcome.account());
    drop(outcome);
    assert_for(&rt, found == (None, account(2_000, 2_000, 0)), found);
}
