//! What is written of a run, or of a workload that was not run.

ghost use Rattle.std.specs.Prelude.{◌≡◌};
ghost use Rattle.run_text.specs.Sums.{AreTallies};
ghost use Rattle.run_text.specs.Text.{outcome_text};
ghost use Rattle.streams.specs.Logs.{HasRefused};
ghost use Rattle.workload_run.specs.Lines.{memory_line};
ghost use Rattle.workload_run.specs.Telling.{HasUnwritten, ReportsFault, TellsOutcome, WritesText};
ghost use Rattle.workload_run.specs.declared.ended.RunEnd.TheVariants.{OutOfMemory};

use crate::ended::RunEnd;
use crate::line::{NO_MEMORY, fault_line};
use rts_run::Outcome;
use run_text::outcome_text;
use std::alloc::Allocator;
use std::io::Write;
use streams::{CallLog, write_out_logged};
use tally::Tally;
use workload::WorkError;

/// Writes the text of what a run of this number of chares left, or the line for refused memory, and returns how the run
/// ended.
pub fn tell_outcome<W: Write, A: Allocator + Copy>(
    alloc: A,
    chares: usize,
    outcome: &Outcome<Tally<A>, A>,
    writer: &mut W,
) -> RunEnd
    requires tallies { AreTallies chares outcome.now }
    ensures told { TellsOutcome (outcome_text chares outcome.now) (W.contents writer.old) (W.contents writer.new) outcome.now.fault result }
{
    tell_outcome_logged(alloc, chares, outcome, writer, &mut CallLog::new())
}

/// Writes what [`tell_outcome`] does, with the calls of the writer in a log.
pub(crate) fn tell_outcome_logged<W: Write, A: Allocator + Copy>(
    alloc: A,
    chares: usize,
    outcome: &Outcome<Tally<A>, A>,
    writer: &mut W,
    log: &mut CallLog,
) -> RunEnd
    requires tallies { AreTallies chares outcome.now }
    ensures told { TellsOutcome (outcome_text chares outcome.now) (W.contents writer.old) (W.contents writer.new) outcome.now.fault result }
    ensures unwritten { HasUnwritten result → HasRefused log.new }
{
    let Ok(text) = outcome_text(alloc, chares, outcome) else {
        return report_memory_logged(writer, log);
    };
    report_text_logged(writer, text.as_bytes(), RunEnd::Ran(outcome.fault()), log)
}

/// Writes the line of a fault of a workload, or the one for refused memory, and returns the end for that.
pub fn report_fault<A: Allocator, W: Write>(alloc: A, writer: &mut W, fault: WorkError) -> RunEnd
    ensures reported { ReportsFault fault (W.contents writer.old) (W.contents writer.new) result }
{
    report_fault_logged(alloc, writer, fault, &mut CallLog::new())
}

/// Writes what [`report_fault`] does, with the calls of the writer in a log.
pub(crate) fn report_fault_logged<A: Allocator, W: Write>(
    alloc: A,
    writer: &mut W,
    fault: WorkError,
    log: &mut CallLog,
) -> RunEnd
    ensures reported { ReportsFault fault (W.contents writer.old) (W.contents writer.new) result }
    ensures unwritten { HasUnwritten result → HasRefused log.new }
{
    if fault == WorkError::OutOfMemory {
        return report_memory_logged(writer, log);
    }
    let Ok(line) = fault_line(alloc, fault) else {
        return report_memory_logged(writer, log);
    };
    report_text_logged(writer, line.as_bytes(), RunEnd::Refused(fault), log)
}

/// Writes the line for refused memory, and returns the end for that.
pub fn report_memory<W: Write>(writer: &mut W) -> RunEnd
    ensures written { WritesText memory_line OutOfMemory (W.contents writer.old) (W.contents writer.new) result }
{
    report_memory_logged(writer, &mut CallLog::new())
}

/// Writes what [`report_memory`] does, with the calls of the writer in a log.
pub(crate) fn report_memory_logged<W: Write>(writer: &mut W, log: &mut CallLog) -> RunEnd
    ensures written { WritesText memory_line OutOfMemory (W.contents writer.old) (W.contents writer.new) result }
    ensures unwritten { HasUnwritten result → HasRefused log.new }
{
    report_text_logged(writer, NO_MEMORY.as_bytes(), RunEnd::OutOfMemory, log)
}

/// Writes a text, and returns `ended`, or that the writer failed.
pub fn report_text<W: Write>(writer: &mut W, text: &[u8], ended: RunEnd) -> RunEnd
    ensures written { WritesText text.now ended (W.contents writer.old) (W.contents writer.new) result }
{
    if write_out_logged(writer, text, &mut CallLog::new()) {
        ended
    } else {
        RunEnd::WriteFailed
    }
}

// Writes a text, whose end is not that the writer failed, with the calls of the writer in a log.
fn report_text_logged<W: Write>(
    writer: &mut W,
    text: &[u8],
    ended: RunEnd,
    log: &mut CallLog,
) -> RunEnd
    requires { HasUnwritten ended → ⊥ }
    ensures written { WritesText text.now ended (W.contents writer.old) (W.contents writer.new) result }
    ensures unwritten { HasUnwritten result → HasRefused log.new }
{
    if write_out_logged(writer, text, log) {
        ended
    } else {
        RunEnd::WriteFailed
    }
}
