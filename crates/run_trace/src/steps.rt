//! What happened in an event of a world.

ghost use Rattle.std.specs.Prelude.{◌≡◌};
ghost use Rattle.run_trace.specs.Steps.{decision_in, action_in, event_happening, event_what, posts_from, posts_in};

use crate::happening::{Action, Happening, What};
use chares::TraceEntry;
use rts_core::Event;

/// How long an event takes, in nanoseconds.
const EVENT_DURATION: u64 = 1_000;

/// What happened in the event with this number, counted from 0, whose trace entries are these: it began at its number in
/// microseconds, and took one. Looks, flushes and deliveries are left out.
pub fn happening_of(event: &Event, entries: &[TraceEntry], number: u64) -> Option<Happening>
    ensures value { result ≡ event_happening event.now entries.now number }
{
    let what = what_of(event, entries)?;
    Some(Happening {
        at: number.saturating_mul(EVENT_DURATION),
        duration: EVENT_DURATION,
        what,
    })
}

// What happened in an event.
fn what_of(event: &Event, entries: &[TraceEntry]) -> Option<What>
    ensures value { result ≡ event_what event.now entries.now }
{
    let Some(pe) = event.pe() else {
        return decision_in(entries);
    };
    let (first, end) = posts_in(entries);
    let action = match event {
        Event::Report(_) => Some(Action::Reported),
        Event::Start(_, element) => Some(Action::Started(*element)),
        _ => action_in(entries),
    };
    Some(What::Done(pe, action?, first, end))
}

// The decision that the first of these entries reports.
fn decision_in(entries: &[TraceEntry]) -> Option<What>
    ensures value { result ≡ decision_in entries.now }
{
    match entries.first()? {
        TraceEntry::Decided(round) => Some(What::Decided(*round)),
        _ => None,
    }
}

// What a PE did, as the first of these entries reports it.
fn action_in(entries: &[TraceEntry]) -> Option<Action>
    ensures value { result ≡ action_in entries.now }
{
    match entries.first()? {
        TraceEntry::Executed(letter, element) => Some(Action::Executed(*letter, *element)),
        TraceEntry::Shelved(letter) => Some(Action::Shelved(*letter)),
        TraceEntry::Forwarded(letter) => Some(Action::Forwarded(*letter)),
        TraceEntry::Installed(element) => Some(Action::Installed(*element)),
        TraceEntry::Departed(element) => Some(Action::Departed(*element)),
        TraceEntry::Resumed(element, round) => Some(Action::Resumed(*element, *round)),
        TraceEntry::Posted(_, _) | TraceEntry::Synced(_, _) | TraceEntry::Decided(_) => None,
    }
}

// The letters that were posted: the number of the first, and one more than the number of the last.
fn posts_in(entries: &[TraceEntry]) -> (u32, u32)
    ensures value { result ≡ posts_in entries.now }
{
    let mut first = 0u32;
    let mut end = 0u32;
    for entry in entries {
        if let TraceEntry::Posted((_, number), _) = entry {
            if first == end {
                first = *number;
            }
            end = number.saturating_add(1);
        }
    }
    (first, end)
}
