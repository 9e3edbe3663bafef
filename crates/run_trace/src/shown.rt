//! The events of a trace that show what happened.

ghost use Rattle.std.specs.Prelude.{◌≡◌, ◌++◌, ◌∷◌, [], OnOk};
ghost use Rattle.std.specs.List.{flat_map};
ghost use Rattle.run_trace.specs.declared.event.TraceEvent.TheVariants.{Slice, Instant};
ghost use Rattle.run_trace.specs.Shown.{action_events, post_events, rows, shown};

use crate::event::{Flow, Sign, TraceEvent, Work};
use crate::happening::{Action, Happening, What};
use chare_index::{Index, Pe};
use std::alloc::{AllocError, Allocator};

/// Adds a row for each PE.
pub(crate) fn push_rows<A: Allocator>(
    events: &mut Vec<TraceEvent, A>,
    pes: u32,
) -> Result<(), AllocError>
    ensures rows { OnOk result (events.new.items ≡ events.old.items ++ rows pes) }
{
    for pe in 0..pes {
        events.push(TraceEvent::Row(pe))?;
    }
    Ok(())
}

/// Adds the events that show what happened, in order.
pub(crate) fn push_happenings<A: Allocator>(
    events: &mut Vec<TraceEvent, A>,
    happenings: &[Happening],
) -> Result<(), AllocError>
    ensures shown { OnOk result (events.new.items ≡ events.old.items ++ flat_map shown happenings.now) }
{
    for happening in happenings {
        push_happening(events, happening)?;
    }
    Ok(())
}

// Adds the events that show what happened.
fn push_happening<A: Allocator>(
    events: &mut Vec<TraceEvent, A>,
    happening: &Happening,
) -> Result<(), AllocError>
    ensures shown { OnOk result (events.new.items ≡ events.old.items ++ shown happening.now) }
{
    let at = happening.at;
    match happening.what {
        What::Done(pe, action, first, end) => {
            push_action(events, at, happening.duration, pe, &action)?;
            push_posts(events, at, pe, first, end)
        }
        What::Decided(round) => push(
            events,
            TraceEvent::Decision {
                at,
                round: round.get(),
            },
        ),
    }
}

// Adds what a PE did: a slice, an instant, or both, with the arrow that ends or begins there.
fn push_action<A: Allocator>(
    events: &mut Vec<TraceEvent, A>,
    at: u64,
    duration: u64,
    pe: Pe,
    action: &Action,
) -> Result<(), AllocError>
    ensures shown { OnOk result (events.new.items ≡ events.old.items ++ action_events at duration pe action.now) }
{
    let pe = pe.get();
    match action {
        Action::Started(e) => push_slice(events, at, duration, pe, Work::Start, *e),
        Action::Executed((from, n), e) => {
            let (from, n) = (from.get(), *n);
            push_slice(events, at, duration, pe, Work::Letter(from, n), *e)?;
            let flow = Flow::Letter(from, n);
            push(events, TraceEvent::Comes { pe, at, flow })
        }
        Action::Installed(e) => {
            push_slice(events, at, duration, pe, Work::Arrive, *e)?;
            let flow = Flow::Element(e.get());
            push(events, TraceEvent::Comes { pe, at, flow })
        }
        Action::Departed(e) => {
            push_slice(events, at, duration, pe, Work::Depart, *e)?;
            let flow = Flow::Element(e.get());
            push(events, TraceEvent::Leaves { pe, at, flow })
        }
        Action::Resumed(e, round) => {
            push_sign(events, at, pe, Sign::Resumption)?;
            push_slice(events, at, duration, pe, Work::Resume(round.get()), *e)
        }
        Action::Shelved(_) => push_sign(events, at, pe, Sign::Shelve),
        Action::Forwarded(_) => push_sign(events, at, pe, Sign::Forward),
        Action::Reported => push_sign(events, at, pe, Sign::Report),
    }
}

fn push<A: Allocator>(events: &mut Vec<TraceEvent, A>, event: TraceEvent) -> Result<(), AllocError>
    ensures event { OnOk result (events.new.items ≡ events.old.items ++ event ∷ []) }
{
    Ok(events.push(event)?)
}

fn push_slice<A: Allocator>(
    events: &mut Vec<TraceEvent, A>,
    at: u64,
    duration: u64,
    pe: u32,
    work: Work,
    element: Index,
) -> Result<(), AllocError>
    ensures slice { OnOk result (events.new.items ≡ events.old.items ++ Slice pe at duration work element ∷ []) }
{
    let element = element.get();
    push(
        events,
        TraceEvent::Slice {
            pe,
            at,
            duration,
            work,
            element,
        },
    )
}

fn push_sign<A: Allocator>(
    events: &mut Vec<TraceEvent, A>,
    at: u64,
    pe: u32,
    sign: Sign,
) -> Result<(), AllocError>
    ensures sign { OnOk result (events.new.items ≡ events.old.items ++ Instant pe at sign ∷ []) }
{
    push(events, TraceEvent::Instant { pe, at, sign })
}

// Adds an arrow for each letter that a PE posted.
fn push_posts<A: Allocator>(
    events: &mut Vec<TraceEvent, A>,
    at: u64,
    pe: Pe,
    first: u32,
    end: u32,
) -> Result<(), AllocError>
    ensures posts { OnOk result (events.new.items ≡ events.old.items ++ post_events at pe first end) }
{
    let pe = pe.get();
    for number in first..end {
        let flow = Flow::Letter(pe, number);
        events.push(TraceEvent::Leaves { pe, at, flow })?;
    }
    Ok(())
}
