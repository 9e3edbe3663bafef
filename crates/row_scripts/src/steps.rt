//! The events of a script and what is told of each, by their numbers.

use chare_index::{Index, Pe, Round};
use chares::{LetterId, TraceEntry};
use pe_state::StepError;
use rts_core::Event;

/// An event, by the numbers of its PE and its element.
#[derive(Clone, Copy)]
pub enum ScriptEvent {
    /// An element on a PE starts.
    Start(u32, u32),
    /// A PE looks up where a letter goes.
    Look(u32),
    /// The front of a PE's outbox goes to a queue.
    Flush(u32),
    /// The front of a PE's queue goes to its hand.
    Deliver(u32),
    /// A PE acts on what is in its hand.
    Act(u32),
    /// A PE hands a note to the board.
    Report(u32),
    /// The board decides.
    Decide,
    /// An element leaves a PE.
    Depart(u32, u32),
    /// An element on a PE goes on.
    Resume(u32, u32),
}

/// A trace entry, or a refusal, by its numbers: those of a letter are its PE, its number there, and the element that it is
/// for.
#[derive(Clone, Copy)]
pub enum ScriptEntry {
    /// A letter was posted.
    Posted(u32, u32, u32),
    /// A letter was executed.
    Executed(u32, u32, u32),
    /// An element, and the round after which it goes on.
    Resumed(u32, u32),
    /// A letter went to a shelf.
    Shelved(u32, u32),
    /// A letter was sent on.
    Forwarded(u32, u32),
    /// An element arrived.
    Installed(u32),
    /// An element, and the round that it reports for.
    Synced(u32, u32),
    /// A round was decided.
    Decided(u32),
    /// An element left.
    Departed(u32),
    /// The event was refused.
    Refused(StepError),
}

/// A step, and all that is told of it, in order.
pub type Line = (ScriptEvent, &'static [ScriptEntry]);

/// The event of a step, or `None` where a number of it is past its limit.
pub fn event_of(step: ScriptEvent) -> Option<Event> {
    let event = match step {
        ScriptEvent::Start(p, e) => Event::Start(Pe::new(p)?, Index::new(e)?),
        ScriptEvent::Look(p) => Event::Look(Pe::new(p)?),
        ScriptEvent::Flush(p) => Event::Flush(Pe::new(p)?),
        ScriptEvent::Deliver(p) => Event::Deliver(Pe::new(p)?),
        ScriptEvent::Act(p) => Event::Act(Pe::new(p)?),
        ScriptEvent::Report(p) => Event::Report(Pe::new(p)?),
        ScriptEvent::Decide => Event::Decide,
        ScriptEvent::Depart(p, e) => Event::Depart(Pe::new(p)?, Index::new(e)?),
        ScriptEvent::Resume(p, e) => Event::Resume(Pe::new(p)?, Index::new(e)?),
    };
    Some(event)
}

fn letter(p: u32, number: u32) -> Option<LetterId> {
    Some((Pe::new(p)?, number))
}

// The trace entry with these numbers, or `None` where they are of a refusal, or past a limit.
fn entry(told: ScriptEntry) -> Option<TraceEntry> {
    let entry = match told {
        ScriptEntry::Posted(p, k, e) => TraceEntry::Posted(letter(p, k)?, Index::new(e)?),
        ScriptEntry::Executed(p, k, e) => TraceEntry::Executed(letter(p, k)?, Index::new(e)?),
        ScriptEntry::Resumed(e, r) => TraceEntry::Resumed(Index::new(e)?, Round::new(r)?),
        ScriptEntry::Shelved(p, k) => TraceEntry::Shelved(letter(p, k)?),
        ScriptEntry::Forwarded(p, k) => TraceEntry::Forwarded(letter(p, k)?),
        ScriptEntry::Installed(e) => TraceEntry::Installed(Index::new(e)?),
        ScriptEntry::Synced(e, r) => TraceEntry::Synced(Index::new(e)?, Round::new(r)?),
        ScriptEntry::Decided(r) => TraceEntry::Decided(Round::new(r)?),
        ScriptEntry::Departed(e) => TraceEntry::Departed(Index::new(e)?),
        ScriptEntry::Refused(_) => return None,
    };
    Some(entry)
}

/// Whether these are exactly the trace entries that are to be told.
pub fn are_told(found: &[TraceEntry], want: &[ScriptEntry]) -> bool {
    let mut same = found.len() == want.len();
    for (one, told) in found.iter().zip(want.iter()) {
        same &= entry(*told) == Some(*one);
    }
    same
}

/// Whether only this refusal is told.
pub fn is_refusal(told: &[ScriptEntry], error: StepError) -> bool {
    match told {
        [ScriptEntry::Refused(want)] => *want == error,
        _ => false,
    }
}
