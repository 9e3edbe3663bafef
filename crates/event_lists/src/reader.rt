//! Reads a list of events from its text.

ghost use Rattle.std.specs.Prelude.{◌≡◌, ◌⊎◌, List, [], MatchResult};
ghost use Rattle.rts_core.specs.declared.event.Event.{Event};
ghost use Rattle.event_lists.specs.declared.error.EventListError.{EventListError};
ghost use Rattle.event_lists.specs.declared.error.EventListError.TheVariants.{OutOfMemory};
ghost use Rattle.event_lists.specs.Faults.{IsFault};
ghost use Rattle.event_lists.specs.Reading.{IsRefusal};
ghost use Rattle.event_lists.specs.Text.{IsText};

use crate::error::EventListError;
use crate::form::EventListLimits;
use crate::line::read_line;
use rts_core::Event;
use std::alloc::Allocator;

/// The events of this text, in order.
///
/// # Errors
///
/// The fault of the first faulty line, which is [`Form`](EventListError::Form) before [`Limit`](EventListError::Limit);
/// [`TooLong`](EventListError::TooLong) where anything follows 16,777,216 good lines; and
/// [`OutOfMemory`](EventListError::OutOfMemory) where a request for memory is refused before that fault is met.
pub fn read_events<A: Allocator>(alloc: A, bytes: &[u8]) -> Result<Vec<Event, A>, EventListError>
    ensures answer { MatchResult result (λ v. IsText v.items bytes.now) (λ e. IsRefusal bytes.now e) }
    ensures again { (events : List Event) → IsText events bytes.now → MatchResult result (λ v. v.items ≡ events) (λ e. e ≡ OutOfMemory) }
    ensures first { (e : EventListError) → IsFault bytes.now e → MatchResult result (λ _. ⊥) (λ f. (f ≡ OutOfMemory) ⊎ (f ≡ e)) }
{
    let mut events = Vec::new(alloc);
    read_onto(&mut events, bytes)?;
    Ok(events)
}

// Reads the events of a text onto a list that is empty.
fn read_onto<A: Allocator>(events: &mut Vec<Event, A>, bytes: &[u8]) -> Result<(), EventListError>
    requires empty { events.old.items ≡ [] }
    ensures { MatchResult result (λ _. IsText events.new.items bytes.now) (λ e. IsRefusal bytes.now e) }
{
    let mut rest = bytes;
    while !rest.is_empty() {
        if events.len() == EventListLimits::EVENTS {
            return Err(EventListError::TooLong);
        }
        match read_line(rest, events.len() as u32 + 1) {
            Ok((event, behind)) => {
                let Ok(()) = events.push(event) else {
                    return Err(EventListError::OutOfMemory);
                };
                rest = behind;
            }
            Err(fault) => return Err(fault),
        }
    }
    Ok(())
}
