//! Worlds of couriers, event by event: starts that are refused, events that are not enabled, letters that wait, and an
//! element that has finished.

ghost use Rattle.std.specs.Prelude.{◌≡◌};

use crate::fixtures::{assert_for, opened, pe};
use crate::steps::{expect_account, take};
use ScriptEntry::{Departed, Executed, Installed, Posted, Refused, Resumed, Shelved, Synced};
use ScriptEvent::{Act, Decide, Deliver, Depart, Flush, Look, Report, Resume, Start};
use chares::Openings;
use pe_state::StepError;
use row_chares::Courier;
use row_scripts::{Line, ScriptEntry, ScriptEvent};
use rts_core::{Account, World};
use std::marker::Brand;
use std::process::Abort;

/// A number of couriers, the element that they all send to, 1 where they go on after a send that is refused, and the
/// length of what they send.
pub(crate) type Couriers = (u32, u32, u32, usize);

/// These couriers.
pub(crate) fn couriers(rt: &(impl Abort + AllocGlobal), of: &Couriers) -> Vec<Courier> {
    let (n, to, goes_on, len) = of;
    let mut chares = Vec::new(rt.alloc());
    for _ in 0..*n {
        let next = Courier::with_zeros(rt.alloc(), *to, *goes_on, *len);
        let next = next.expect(rt, "no courier");
        chares.push(next).expect(rt, "out of memory");
    }
    chares
}

// A number of PEs, the couriers that open on them, a script, and the account after it.
type Row = (u32, Couriers, &'static [Line], Account);

const NONE: Account = Account {
    posted: 0,
    executed: 0,
    held: 0,
};

static ROWS: [Row; 7] = [
    // A letter to no element.
    (
        1,
        (1, 1, 0, 0),
        &[(Start(0, 0), &[Refused(StepError::Stranger)])],
        NONE,
    ),
    // A body that is too long.
    (
        1,
        (1, 0, 0, 1_025),
        &[(Start(0, 0), &[Refused(StepError::TooLong)])],
        NONE,
    ),
    // An element passes over a refused send. It starts once.
    (
        1,
        (1, 1, 1, 0),
        &[
            (Start(0, 0), &[Resumed(0, 0)]),
            (Start(0, 0), &[]),
            (Report(0), &[Synced(0, 1)]),
        ],
        NONE,
    ),
    // Events on a PE or of an element that is not there, and events that are not enabled before anything has started.
    (
        3,
        (3, 0, 0, 4),
        &[
            (Look(3), &[]),
            (Flush(3), &[]),
            (Deliver(3), &[]),
            (Act(3), &[]),
            (Report(3), &[]),
            (Start(3, 0), &[]),
            (Depart(3, 0), &[]),
            (Resume(3, 0), &[]),
            (Start(0, 3), &[]),
            (Depart(0, 3), &[]),
            (Resume(0, 3), &[]),
            (Start(1, 0), &[]),
            (Resume(0, 0), &[]),
            (Look(0), &[]),
            (Flush(0), &[]),
            (Deliver(0), &[]),
            (Act(0), &[]),
            (Report(0), &[]),
            (Decide, &[]),
        ],
        NONE,
    ),
    // A letter waits in the hand for its element to start.
    (
        3,
        (3, 1, 0, 4),
        &[
            (Start(0, 0), &[Resumed(0, 0), Posted(0, 0, 1)]),
            (Look(0), &[]),
            (Flush(0), &[]),
            (Deliver(1), &[]),
            (Look(1), &[]),
            (Act(1), &[]),
            (Start(1, 1), &[Resumed(1, 0), Posted(1, 0, 1)]),
            (Act(1), &[Executed(0, 0, 1)]),
        ],
        Account {
            posted: 2,
            executed: 1,
            held: 1,
        },
    ),
    // Letters from each PE arrive at PE 0 before their element, and leave its shelf in the order in which they arrived.
    // With no load, all elements belong there.
    (
        3,
        (3, 2, 0, 4),
        &[
            (Start(0, 0), &[Resumed(0, 0), Posted(0, 0, 2)]),
            (Start(1, 1), &[Resumed(1, 0), Posted(1, 0, 2)]),
            (Start(2, 2), &[Resumed(2, 0), Posted(2, 0, 2)]),
            (Report(0), &[Synced(0, 1)]),
            (Report(1), &[Synced(1, 1)]),
            (Report(2), &[Synced(2, 1)]),
            (Decide, &[ScriptEntry::Decided(1)]),
            (Depart(2, 2), &[Departed(2)]),
            (Look(1), &[]),
            (Flush(1), &[]),
            (Deliver(0), &[]),
            (Look(0), &[]),
            (Act(0), &[Shelved(1, 0)]),
            (Look(0), &[]),
            (Flush(0), &[]),
            (Deliver(0), &[]),
            (Look(0), &[]),
            (Act(0), &[Shelved(0, 0)]),
            (Look(2), &[]),
            (Flush(2), &[]),
            (Flush(2), &[]),
            (Deliver(0), &[]),
            (Look(0), &[]),
            (Act(0), &[Shelved(2, 0)]),
            (Deliver(0), &[]),
            (Act(0), &[Installed(2)]),
            (Flush(0), &[]),
            (Deliver(0), &[]),
            (Act(0), &[Executed(1, 0, 2)]),
            (Flush(0), &[]),
            (Deliver(0), &[]),
            (Act(0), &[Executed(0, 0, 2)]),
            (Flush(0), &[]),
            (Deliver(0), &[]),
            (Act(0), &[Executed(2, 0, 2)]),
        ],
        Account {
            posted: 3,
            executed: 3,
            held: 0,
        },
    ),
    // Element 1 gets its letter, and so finishes, while it waits for the end of round 1. It departs and goes on all the
    // same, and syncs no more.
    (
        3,
        (3, 1, 0, 4),
        &[
            (Start(0, 0), &[Resumed(0, 0), Posted(0, 0, 1)]),
            (Report(0), &[Synced(0, 1)]),
            (Start(1, 1), &[Resumed(1, 0), Posted(1, 0, 1)]),
            (Report(1), &[Synced(1, 1)]),
            (Start(2, 2), &[Resumed(2, 0), Posted(2, 0, 1)]),
            (Report(2), &[Synced(2, 1)]),
            (Decide, &[ScriptEntry::Decided(1)]),
            (Look(1), &[]),
            (Flush(1), &[]),
            (Deliver(1), &[]),
            (Act(1), &[Executed(1, 0, 1)]),
            (Report(1), &[]),
            (Depart(1, 1), &[Departed(1)]),
            (Flush(1), &[]),
            (Deliver(0), &[]),
            (Act(0), &[Installed(1)]),
            (Resume(0, 1), &[Resumed(1, 1), Posted(0, 1, 1)]),
            (Report(0), &[]),
        ],
        Account {
            posted: 4,
            executed: 1,
            held: 3,
        },
    ),
];

// A world of this number of PEs opens with these chares, and takes a script.
fn plays<H: Openings<Courier>>(
    rt: &(impl Abort + AllocGlobal),
    pes: u32,
    chares: Vec<Courier>,
    lines: &[Line],
    account: &Account,
)
    requires run { pes ≡ H.pes }
    requires opened { chares.items ≡ H.opened }
{
    let mut world = opened::<Courier, H>(rt, pes, chares);
    take(rt, &mut world, lines);
    expect_account(rt, &world, account);
    drop(world);
}

fn play(rt: &(impl Abort + AllocGlobal), row: &Row) {
    let (pes, of, lines, account) = row;
    plays::<Brand>(rt, *pes, couriers(rt, of), *lines, account);
}

#[test]
fn couriers_start_wait_and_move(rt: HostRuntime) {
    for row in &ROWS {
        play(&rt, row);
    }
}

// The next steps of a script on one PE, and whether what that then owes the board first is a finish.
static OWED: [(&[Line], bool); 2] = [
    // A courier to itself waits for the end of the first round, and finishes on its letter.
    (&[(Start(0, 0), &[Resumed(0, 0), Posted(0, 0, 0)])], false),
    (
        &[
            (Report(0), &[Synced(0, 1)]),
            (Look(0), &[]),
            (Flush(0), &[]),
            (Deliver(0), &[]),
            (Act(0), &[Executed(0, 0, 0)]),
        ],
        true,
    ),
];

fn owes_finish<H: Openings<Courier>>(rt: &impl Abort, world: &World<Courier, H>) -> Option<bool> {
    let note = world.pe(pe(rt, 0))?.next_note()?;
    Some(note.is_finish())
}

fn owes<H: Openings<Courier>>(rt: &(impl Abort + AllocGlobal), chares: Vec<Courier>)
    requires run { H.pes ≡ 1 }
    requires opened { chares.items ≡ H.opened }
{
    let mut world = opened::<Courier, H>(rt, 1, chares);
    for (lines, want) in &OWED {
        take(rt, &mut world, *lines);
        let owed = owes_finish(rt, &world);
        assert_for(rt, owed == Some(*want), owed);
    }
    drop(world);
}

#[test]
fn notes_of_a_wait_and_of_a_finish(rt: HostRuntime) {
    let chares = couriers(&rt, &(1, 0, 0, 4));
    owes::<Brand>(&rt, chares);
}
