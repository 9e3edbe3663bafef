//! The text of events.

ghost use Rattle.std.specs.Prelude.{◌≡◌, ◌++◌, ◌∷◌, IfOk, OnOk, Some, codes};
ghost use Rattle.std.specs.String.{string_bytes};
ghost use Rattle.serde_json.specs.Read.{read};
ghost use Rattle.run_trace.specs.Events.{event_data};
ghost use Rattle.run_trace.specs.Lines.{AddsLine, AddsLines, IsTrace};
ghost use Rattle.run_trace.specs.declared.text.TheConstants.{START, END};

use crate::event::TraceEvent;
use crate::value::event_value;
use std::alloc::{AllocError, Global};

// The start of a trace. Its one event names the process, and each other event follows after a comma.
const START: &str =
    "{\"traceEvents\":[\n{\"args\":{\"name\":\"tezgumi\"},\"name\":\"process_name\",\"ph\":\"M\",\"pid\":1}";

// The end of a trace.
const END: &str = "\n]}\n";

/// The text of an event: JSON that reads back as the event, without blanks and without a newline. docs/BINDINGS.md says
/// what is in it.
///
/// # Errors
///
/// Memory was refused.
#[tactic(auto, using(crate::proofs::Depths::shallow))]
pub fn event_text(alloc: Global, event: &TraceEvent) -> Result<String, AllocError>
    ensures reads { IfOk result (λ text. read (string_bytes text) ≡ Some (event_data event.now)) }
{
    event_value(alloc, event)?.to_string(alloc)
}

/// The text of a trace with these events, in order: an object whose `traceEvents` are an event that names the process, and
/// these events, each on a line of its own.
///
/// # Errors
///
/// Memory was refused.
pub fn events_text(alloc: Global, events: &[TraceEvent]) -> Result<String, AllocError>
    ensures trace { IfOk result (λ text. IsTrace START.now END.now events.now (string_bytes text)) }
{
    let mut text = String::from_str(alloc, START)?;
    push_events(alloc, &mut text, events)?;
    text.push_str(END)?;
    Ok(text)
}

// Adds a line for each of these events.
fn push_events(alloc: Global, text: &mut String, events: &[TraceEvent]) -> Result<(), AllocError>
    ensures lines { OnOk result (AddsLines (string_bytes text.old) events.now (string_bytes text.new)) }
{
    for event in events {
        push_event(alloc, text, *event)?;
    }
    Ok(())
}

// Adds a line.
fn push_event(alloc: Global, text: &mut String, event: TraceEvent) -> Result<(), AllocError>
    ensures line { OnOk result (AddsLine (string_bytes text.old) event (string_bytes text.new)) }
{
    let line = event_text(alloc, &event)?;
    text.push_str(",\n")?;
    text.push_str(&line)
}
