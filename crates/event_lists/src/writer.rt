//! Writes a list of events as its text.

ghost use Rattle.std.specs.Prelude.{◌≡◌, ◌++◌, ◌≤◌, length, All, IfOk, OnOk};
ghost use Rattle.std.specs.String.{string_bytes};
ghost use Rattle.event_lists.specs.declared.form.TheConstants.EventListLimits.{EVENTS};
ghost use Rattle.event_lists.specs.Text.{event_line, events_text, numbers_line, IsText, IsWithin};

use rts_core::Event;
use std::alloc::{AllocError, Allocator};

/// The text of these events, in order. [`read_events`](crate::read_events) returns the same events from it, where they are
/// no more than [`EVENTS`](crate::EventListLimits::EVENTS).
///
/// # Errors
///
/// Memory was refused.
pub fn write_events<A: Allocator>(alloc: A, events: &[Event]) -> Result<String<A>, AllocError>
    ensures text { IfOk result (λ text. string_bytes text ≡ events_text events.now) }
    ensures readable { length events.now ≤ EVENTS → IfOk result (λ text. IsText events.now (string_bytes text)) }
{
    let mut text = String::new(alloc);
    push_events(&mut text, events)?;
    Ok(text)
}

// Writes the lines of these events.
fn push_events<A: Allocator>(text: &mut String<A>, events: &[Event]) -> Result<(), AllocError>
    ensures lines { OnOk result (string_bytes text.new ≡ string_bytes text.old ++ events_text events.now) }
    ensures within { OnOk result (All IsWithin events.now) }
{
    for event in events {
        push_event(text, *event)?;
    }
    Ok(())
}

// Writes the line of an event.
fn push_event<A: Allocator>(text: &mut String<A>, event: Event) -> Result<(), AllocError>
    ensures line { OnOk result (string_bytes text.new ≡ string_bytes text.old ++ event_line event) }
    ensures within { OnOk result (IsWithin event) }
{
    match event {
        Event::Start(p, e) => push_line(text, "Start", &[p.get(), e.get()]),
        Event::Look(p) => push_line(text, "Look", &[p.get()]),
        Event::Flush(p) => push_line(text, "Flush", &[p.get()]),
        Event::Deliver(p) => push_line(text, "Deliver", &[p.get()]),
        Event::Act(p) => push_line(text, "Act", &[p.get()]),
        Event::Report(p) => push_line(text, "Report", &[p.get()]),
        Event::Decide => push_line(text, "Decide", &[]),
        Event::Depart(p, e) => push_line(text, "Depart", &[p.get(), e.get()]),
        Event::Resume(p, e) => push_line(text, "Resume", &[p.get(), e.get()]),
    }
}

// Writes a name and its numbers.
fn push_line<A: Allocator>(
    text: &mut String<A>,
    name: &str,
    numbers: &[u32],
) -> Result<(), AllocError>
    ensures { OnOk result (string_bytes text.new ≡ string_bytes text.old ++ (name.now ++ numbers_line numbers.now)) }
{
    text.push_str(name)?;
    for number in numbers {
        write!(text, " {number}")?;
    }
    text.push_str("\n")
}
