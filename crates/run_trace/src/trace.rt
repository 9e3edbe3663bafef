//! The trace of a run.

ghost use Rattle.std.specs.Prelude.{◌≡◌, ◌++◌, ℕ, List, Option, Some, Err, IfErr, IfOk, IsErrAnd};
ghost use Rattle.std.specs.List.{flat_map};
ghost use Rattle.run_trace.specs.Shown.{all_events, rows, shown};
ghost use Rattle.run_trace.specs.Writing.{WritesTrace};
ghost use Rattle.run_trace.specs.declared.error.TraceError.TheVariants.{OutOfMemory};

use crate::error::TraceError;
use crate::event::TraceEvent;
use crate::happening::Happening;
use crate::loads::push_loads;
use crate::lost::LostTrace;
use crate::shown::{push_happenings, push_rows};
use crate::text::events_text;
use lb_snapshot::Snapshot;
use lb_strategy::Decision;
use std::alloc::{AllocError, Allocator, Global};
use std::io::{self, Write};
use streams::{Noted, write_out};

/// The events of the trace of a run on this number of PEs. There is a row for each PE; a slice for each handler, and for each
/// part of a move; an arrow for each letter, from the handler that posted it to the one that executed it, and for each element
/// that moved; an instant for each report, resumption and decision, and for each letter that was put aside or sent on. After all
/// that happened come the loads of each PE in each round that was decided, as the snapshots of the rounds have them.
///
/// # Errors
///
/// Memory was refused.
pub fn trace_of<A: Allocator, B: Allocator + Copy>(
    alloc: B,
    pes: u32,
    happenings: &[Happening],
    rounds: &[(Snapshot<A>, Decision<A>)],
) -> Result<Vec<TraceEvent, B>, AllocError>
    ensures shown { IfOk result (λ events. events.items ≡ all_events pes happenings.now rounds.now) }
{
    let mut events = shown_in(alloc, pes, happenings)?;
    push_loads(alloc, &mut events, happenings, rounds)?;
    Ok(events)
}

// The rows, and what happened.
fn shown_in<B: Allocator>(
    alloc: B,
    pes: u32,
    happenings: &[Happening],
) -> Result<Vec<TraceEvent, B>, AllocError>
    ensures shown { IfOk result (λ events. events.items ≡ rows pes ++ flat_map shown happenings.now) }
{
    let mut events = Vec::new(alloc);
    push_rows(&mut events, pes)?;
    push_happenings(&mut events, happenings)?;
    Ok(events)
}

/// Writes the text of [`trace_of`], and flushes the writer. All of it is made before any of it is written.
///
/// # Errors
///
/// [`OutOfMemory`](TraceError::OutOfMemory), on which nothing was written, and [`Write`](TraceError::Write), perhaps after a
/// part of the trace: a write that failed is not repeated.
pub fn write_trace<A: Allocator, W: Write>(
    alloc: Global,
    writer: &mut W,
    pes: u32,
    happenings: &[Happening],
    rounds: &[(Snapshot<A>, Decision<A>)],
) -> Result<(), TraceError>
    ensures written { IfOk result (λ _. WritesTrace (W.contents writer.old) (W.contents writer.new) (all_events pes happenings.now rounds.now)) }
    ensures untouched { result ≡ Err OutOfMemory → writer.new ≡ writer.old }
{
    let events = trace_of(alloc, pes, happenings, rounds)?;
    let text = events_text(alloc, &events)?;
    if !write_out(writer, text.as_bytes()) {
        return Err(TraceError::Write);
    }
    Ok(())
}

/// Writes the trace to a file as [`write_trace`] does, and lets go of the file. One that could not be made is a trace that was not
/// written.
///
/// # Errors
///
/// What was wrong, with the system's reason, where it gave one: that the file could not be made, or the last one of its writes.
pub fn keep_trace<A: Allocator, W: Write + Drop>(
    alloc: Global,
    file: io::Result<W>,
    pes: u32,
    happenings: &[Happening],
    rounds: &[(Snapshot<A>, Decision<A>)],
) -> Result<(), LostTrace>
    ensures kept { IfOk result (λ _. IfOk file (λ file. (left : Option (List ℕ)) × WritesTrace (W.contents file) left (all_events pes happenings.now rounds.now))) }
    ensures unmade { IfErr file (λ reason. IsErrAnd result (λ lost. lost.reason ≡ Some reason)) }
{
    match file {
        Ok(file) => write_noted(alloc, file, pes, happenings, rounds),
        Err(reason) => Err(LostTrace {
            error: TraceError::Write,
            reason: Some(reason),
        }),
    }
}

// Writes the trace to a file that was made.
fn write_noted<A: Allocator, W: Write + Drop>(
    alloc: Global,
    file: W,
    pes: u32,
    happenings: &[Happening],
    rounds: &[(Snapshot<A>, Decision<A>)],
) -> Result<(), LostTrace>
    ensures kept { IfOk result (λ _. (left : Option (List ℕ)) × WritesTrace (W.contents file) left (all_events pes happenings.now rounds.now)) }
{
    let mut noted = Noted::new(file);
    match write_trace(alloc, &mut noted, pes, happenings, rounds) {
        Ok(()) => Ok(()),
        Err(error) => Err(LostTrace {
            error,
            reason: noted.failure(),
        }),
    }
}
