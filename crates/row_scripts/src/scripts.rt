//! The scripts of three tallies on three PEs.

use crate::steps::Line;
use crate::steps::ScriptEntry::{
    Decided, Departed, Executed, Forwarded, Installed, Posted, Resumed, Shelved, Synced,
};
use crate::steps::ScriptEvent::{Act, Decide, Deliver, Depart, Flush, Look, Report, Resume, Start};

/// Each tally starts, and posts its first amount to its neighbor, which gets it.
pub const START: &[Line] = &[
    (Start(0, 0), &[Resumed(0, 0), Posted(0, 0, 1)]),
    (Start(1, 1), &[Resumed(1, 0), Posted(1, 0, 2)]),
    (Start(2, 2), &[Resumed(2, 0), Posted(2, 0, 0)]),
    (Look(0), &[]),
    (Flush(0), &[]),
    (Look(1), &[]),
    (Flush(1), &[]),
    (Look(2), &[]),
    (Flush(2), &[]),
    (Deliver(0), &[]),
    (Act(0), &[Executed(2, 0, 0)]),
    (Deliver(1), &[]),
    (Act(1), &[Executed(0, 0, 1)]),
    (Deliver(2), &[]),
    (Act(2), &[Executed(1, 0, 2)]),
];

/// The first round is decided, and the tally that stays where it is goes on.
pub const DECIDE: &[Line] = &[
    (Report(0), &[Synced(0, 1)]),
    (Report(1), &[Synced(1, 1)]),
    (Report(2), &[Synced(2, 1)]),
    (Decide, &[Decided(1)]),
    (Resume(2, 2), &[Resumed(2, 1), Posted(2, 1, 0)]),
];

/// A letter to element 0 is looked up after the element has departed, and arrives before it.
pub const BEFORE: &[Line] = &[
    (Depart(0, 0), &[Departed(0)]),
    (Look(2), &[]),
    (Flush(2), &[]),
    (Deliver(1), &[]),
    (Look(1), &[]),
    (Act(1), &[Shelved(2, 1)]),
    (Flush(0), &[]),
    (Deliver(1), &[]),
    (Act(1), &[Installed(0)]),
    (Flush(1), &[]),
    (Deliver(1), &[]),
    (Act(1), &[Executed(2, 1, 0)]),
];

/// The letter is looked up before the element departs, and arrives where it was.
pub const AFTER: &[Line] = &[
    (Look(2), &[]),
    (Depart(0, 0), &[Departed(0)]),
    (Flush(2), &[]),
    (Deliver(0), &[]),
    (Look(0), &[]),
    (Act(0), &[Forwarded(2, 1)]),
    (Flush(0), &[]),
    (Flush(0), &[]),
    (Deliver(1), &[]),
    (Act(1), &[Installed(0)]),
    (Deliver(1), &[]),
    (Act(1), &[Executed(2, 1, 0)]),
];
