//! Replays a dump: reads it, decides, and writes the text of the decision.

ghost use Rattle.std.specs.Prelude.{◌≡◌, ◌≤◌, ◌⊎◌, ℕ, List, Option, Some, IfOk, IfErr};
ghost use Rattle.std.specs.Option.{ForSome};
ghost use Rattle.std.specs.String.{string_bytes};
ghost use Rattle.lb_strategy.specs.declared.error.PlanError.TheVariants.{OutOfMemory};
ghost use Rattle.lb_replay.specs.Text.{fault_line};
ghost use Rattle.lb_replay.specs.declared.fault.Fault.TheVariants.{Plan};
ghost use Rattle.lb_replay.specs.declared.way.Way.TheVariants.{Least};
ghost use Rattle.lb_dump.specs.Reading.{ReaderHasFailed};
ghost use Rattle.lb_replay.specs.Internal.{IsUnread, without_memory};
ghost use Rattle.lb_replay.specs.Ended.{HasUnread, HasUnwritten};
ghost use Rattle.streams.specs.Logs.{HasRefused};
ghost use Rattle.lb_replay.specs.Simulation.{EndsReplay, HasOneText, IsDecided, IsInAnyOrder, IsInOrder, IsPlanned, IsReplay, IsReplayFault, IsWithin, ReportsFault, ReportsUnread};

use crate::ended::Ended;
use crate::fault::{Fault, NO_MEMORY, fault_line};
use crate::text::{decision_text, refined_text};
use crate::way::Way;
use chain_refinement::Tolerance;
use chare_index::{Limits, Pes};
use dump_format::DumpError;
use lb_any_order::refine_in_any_order;
use lb_dump::read_from_logged;
use lb_refinement::{refine, refine_keeping_order};
use lb_snapshot::Snapshot;
use lb_strategy::{PlanError, plan};
use std::alloc::Allocator;
use std::io::{self, Read, Write};
use streams::{CallLog, write_out_logged};

/// Replays a dump offline: reads it, decides its balancing step for `procs` PEs (1 to 256), or for the number of PEs of the
/// dump, and writes the text of the decision, or the one line of a fault, and nothing else. The decision is the least one, that of
/// [`plan`]. A decision in the dump is read, and ignored.
///
/// Out of memory is a fault of the dump while that is read, and a fault of the plan after that. The line is the same.
///
/// What is printed is a function of the bytes read and the number of PEs: the clause `one_text`.
pub fn simulate<A: Allocator + Copy, R: Read, W: Write>(
    alloc: A,
    reader: &mut R,
    writer: &mut W,
    procs: Option<u32>,
) -> Ended
    requires some_pe { ForSome procs (λ p. 1 ≤ p) }
    requires few_pes { ForSome procs (λ p. p ≤ Limits.PES) }
    ensures ends { EndsReplay A (R.remaining reader.old) (R.remaining reader.new) procs Least (W.contents writer.old) (W.contents writer.new) result }
    ensures one_text { (bytes text other : List ℕ) → IsReplay A (Some bytes) procs Least text → IsReplay A (Some bytes) procs Least other → text ≡ other }
{
    simulate_by(alloc, reader, writer, procs, Way::Least)
}

/// Replays a dump as [`simulate`] does. The way says which decision that is: the least one, or the one within a tolerance, that of
/// [`refine`], of [`refine_keeping_order`] or of [`refine_in_any_order`].
///
/// What is printed is a function of the bytes read, the number of PEs and the way: the clause `one_text`. Only in any order of the PEs
/// that is not proved: several decisions may move the fewest bytes.
pub fn simulate_by<A: Allocator + Copy, R: Read, W: Write>(
    alloc: A,
    reader: &mut R,
    writer: &mut W,
    procs: Option<u32>,
    way: Way,
) -> Ended
    requires some_pe { ForSome procs (λ p. 1 ≤ p) }
    requires few_pes { ForSome procs (λ p. p ≤ Limits.PES) }
    ensures ends { EndsReplay A (R.remaining reader.old) (R.remaining reader.new) procs way (W.contents writer.old) (W.contents writer.new) result }
    ensures one_text { (bytes text other : List ℕ) → HasOneText way → IsReplay A (Some bytes) procs way text
        → IsReplay A (Some bytes) procs way other → text ≡ other }
{
    let mut read = CallLog::new();
    let mut written = CallLog::new();
    simulate_logged(alloc, reader, writer, procs, way, &mut read, &mut written)
}

/// Replays a dump as [`simulate_by`] does, with the calls of the reader and those of the writer in logs. Where the end is that the dump
/// was not read, the log of the reader has an error, or 16,777,216 calls; where it is that the writer failed, the log of the writer has
/// an error, or that nothing was taken.
pub fn simulate_logged<A: Allocator + Copy, R: Read, W: Write>(
    alloc: A,
    reader: &mut R,
    writer: &mut W,
    procs: Option<u32>,
    way: Way,
    read: &mut CallLog,
    written: &mut CallLog,
) -> Ended
    requires some_pe { ForSome procs (λ p. 1 ≤ p) }
    requires few_pes { ForSome procs (λ p. p ≤ Limits.PES) }
    ensures ends { EndsReplay A (R.remaining reader.old) (R.remaining reader.new) procs way (W.contents writer.old) (W.contents writer.new) result }
    ensures failed { HasUnread result → ReaderHasFailed read.new }
    ensures unwritten { HasUnwritten result → HasRefused written.new }
{
    match replay(alloc, reader, procs, way, read) {
        Ok(text) if write_out_logged(writer, text.as_bytes(), written) => Ended::Printed,
        Ok(_) => Ended::WriteFailed,
        Err(fault) => report(alloc, writer, fault, written),
    }
}

/// Replays the dump in a file as [`simulate_by`] does, and returns also the system's reason where a read failed. A file
/// that could not be opened is reported as a dump that was not read.
pub fn replay_file<A: Allocator + Copy, R: Read + Drop, W: Write>(
    alloc: A,
    file: io::Result<R>,
    writer: &mut W,
    procs: Option<u32>,
    way: Way,
) -> (Ended, Option<io::Error>)
    requires some_pe { ForSome procs (λ p. 1 ≤ p) }
    requires few_pes { ForSome procs (λ p. p ≤ Limits.PES) }
    ensures opened { IfOk file (λ file. (rest : Option (List ℕ))
        × EndsReplay A (R.remaining file) rest procs way (W.contents writer.old) (W.contents writer.new) result.0) }
    ensures unopened { IfErr file (λ _. ReportsUnread (W.contents writer.old) (W.contents writer.new) result.0) }
    ensures reason { IfErr file (λ reason. result.1 ≡ Some reason) }
{
    match file {
        Ok(mut reader) => {
            let mut read = CallLog::new();
            let mut written = CallLog::new();
            let ended = simulate_logged(
                alloc,
                &mut reader,
                writer,
                procs,
                way,
                &mut read,
                &mut written,
            );
            (ended, read.failure())
        }
        Err(reason) => {
            let fault = Fault::Dump(DumpError::Read);
            let ended = report(alloc, writer, fault, &mut CallLog::new());
            (ended, Some(reason))
        }
    }
}

// The whole text of the decision, or the fault because of which there is none.
fn replay<A: Allocator + Copy, R: Read>(
    alloc: A,
    reader: &mut R,
    procs: Option<u32>,
    way: Way,
    log: &mut CallLog,
) -> Result<String<A>, Fault>
    requires some_pe { ForSome procs (λ p. 1 ≤ p) }
    requires few_pes { ForSome procs (λ p. p ≤ Limits.PES) }
    ensures text { IfOk result (λ text. IsReplay A (R.remaining reader.old) procs way (string_bytes text)) }
    ensures fault { IfErr result (IsReplayFault A (R.remaining reader.old) (R.remaining reader.new)) }
    ensures failed { IfErr result (λ fault. IsUnread fault → ReaderHasFailed log.new) }
{
    match read_from_logged(alloc, reader, log) {
        Ok(dump) => {
            let snapshot = dump.snapshot();
            let pes = procs.unwrap_or(snapshot.procs());
            let text = decided_text(alloc, snapshot, Pes::of(pes), way);
            drop(dump);
            text
        }
        Err(fault) => Err(Fault::Dump(fault)),
    }
}

// The text of the decision for a snapshot, or out of memory.
fn decided_text<A: Allocator + Copy, B: Allocator>(
    alloc: A,
    snapshot: &Snapshot<B>,
    pes: Pes,
    way: Way,
) -> Result<String<A>, Fault>
    ensures text { IfOk result (λ text. IsDecided A snapshot.now pes way (string_bytes text)) }
    ensures fault { IfErr result (λ fault. fault ≡ Plan OutOfMemory) }
{
    match way {
        Way::Least => planned_text(alloc, snapshot, pes),
        Way::Within(tolerance) => text_within(alloc, snapshot, pes, tolerance),
        Way::InOrder(tolerance) => text_in_order(alloc, snapshot, pes, tolerance),
        Way::InAnyOrder(tolerance) => text_in_any_order(alloc, snapshot, pes, tolerance),
    }
}

// The text of the decision within a tolerance, or out of memory.
#[tactic(auto, using(crate::proofs::RefinedTexts::printable_from_refined))]
fn text_within<A: Allocator + Copy, B: Allocator>(
    alloc: A,
    snapshot: &Snapshot<B>,
    pes: Pes,
    tolerance: Tolerance,
) -> Result<String<A>, Fault>
    ensures text { IfOk result (λ text. IsWithin A snapshot.now pes tolerance (string_bytes text)) }
    ensures fault { IfErr result (λ fault. fault ≡ Plan OutOfMemory) }
{
    match refine(alloc, snapshot, pes, tolerance) {
        Ok(decision) => refined_text(alloc, snapshot, pes.get(), tolerance, false, &decision),
        Err(_) => Err(Fault::Plan(PlanError::OutOfMemory)),
    }
}

// The text of the decision within a tolerance that keeps the order of the PEs, or out of memory.
#[tactic(auto, using(crate::proofs::RefinedTexts::printable_from_ordered))]
fn text_in_order<A: Allocator + Copy, B: Allocator>(
    alloc: A,
    snapshot: &Snapshot<B>,
    pes: Pes,
    tolerance: Tolerance,
) -> Result<String<A>, Fault>
    ensures text { IfOk result (λ text. IsInOrder A snapshot.now pes tolerance (string_bytes text)) }
    ensures fault { IfErr result (λ fault. fault ≡ Plan OutOfMemory) }
{
    match refine_keeping_order(alloc, snapshot, pes, tolerance) {
        Ok(decision) => refined_text(alloc, snapshot, pes.get(), tolerance, false, &decision),
        Err(_) => Err(Fault::Plan(PlanError::OutOfMemory)),
    }
}

// The text of the decision within a tolerance in any order of the PEs, or out of memory.
#[tactic(auto, using(crate::proofs::RefinedTexts::printable_from_reordering))]
fn text_in_any_order<A: Allocator + Copy, B: Allocator>(
    alloc: A,
    snapshot: &Snapshot<B>,
    pes: Pes,
    tolerance: Tolerance,
) -> Result<String<A>, Fault>
    ensures text { IfOk result (λ text. IsInAnyOrder A snapshot.now pes tolerance (string_bytes text)) }
    ensures fault { IfErr result (λ fault. fault ≡ Plan OutOfMemory) }
{
    match refine_in_any_order(alloc, snapshot, pes, tolerance) {
        Ok(decision) => refined_text(alloc, snapshot, pes.get(), tolerance, true, &decision),
        Err(_) => Err(Fault::Plan(PlanError::OutOfMemory)),
    }
}

// The text of the decision that is planned for a snapshot, or out of memory.
fn planned_text<A: Allocator + Copy, B: Allocator>(
    alloc: A,
    snapshot: &Snapshot<B>,
    pes: Pes,
) -> Result<String<A>, Fault>
    ensures text { IfOk result (λ text. IsPlanned A snapshot.now pes (string_bytes text)) }
    ensures fault { IfErr result (λ fault. fault ≡ Plan OutOfMemory) }
{
    let number = pes.get();
    match plan(alloc, snapshot, number) {
        Ok(decision) => decision_text(alloc, snapshot, number, &decision),
        Err(fault) => Err(Fault::Plan(fault)),
    }
}

/// Writes the line of a fault, or the one for out of memory.
pub(crate) fn report<A: Allocator, W: Write>(
    alloc: A,
    writer: &mut W,
    fault: Fault,
    log: &mut CallLog,
) -> Ended
    ensures reported { ReportsFault (W.contents writer.old) (W.contents writer.new) fault result
        ⊎ ReportsFault (W.contents writer.old) (W.contents writer.new) (without_memory fault) result }
    ensures unwritten { HasUnwritten result → HasRefused log.new }
{
    let Ok(line) = fault_line(alloc, fault) else {
        return report_line(writer, fault.without_memory(), NO_MEMORY.as_bytes(), log);
    };
    report_line(writer, fault, line.as_bytes(), log)
}

fn report_line<W: Write>(writer: &mut W, fault: Fault, line: &[u8], log: &mut CallLog) -> Ended
    requires { line.now ≡ fault_line fault }
    ensures reported { ReportsFault (W.contents writer.old) (W.contents writer.new) fault result }
    ensures unwritten { HasUnwritten result → HasRefused log.new }
{
    if write_out_logged(writer, line, log) {
        Ended::at(fault)
    } else {
        Ended::WriteFailed
    }
}
