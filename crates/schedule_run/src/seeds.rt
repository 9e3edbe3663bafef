//! Runs of a workload by many seeds.

ghost use Rattle.std.specs.Prelude.{◌≡◌, ◌++◌, IfOk, OnOk, length};
ghost use Rattle.std.specs.String.{string_bytes};
ghost use Rattle.schedule_run.specs.Seeds.{AreVerdicts, TellsSeeds, TriesSeeds, count_line, fault_count, fault_line, fault_lines, fault_of_first, faults_among, seeds_text};
ghost use Rattle.workload.specs.Text.{IsWithin};

use crate::cast::TallyCast;
use crate::running::schedule_of;
use crate::verdict::{Verdict, verdict_of};
use chares::Chare;
use pe_worker::Fault;
use pup_pack::Pup;
use run_text::fault_word;
use schedules::{Cast, Schedule};
use std::alloc::{AllocError, Allocator};
use std::io::Write;
use sync_board::Strategy;
use tally::Tally;
use workload::Workload;
use workload_run::{RunEnd, report_memory, report_text};

/// Runs a workload by each of the seeds 1 to `seeds`, as [`search`](crate::search) does, and writes what [`tell_seeds`] does.
pub fn drive_seeds<W: Write, A: Allocator + Copy>(
    alloc: A,
    workload: &Workload<A>,
    strategy: Strategy,
    seeds: u32,
    writer: &mut W,
) -> RunEnd
    requires within { IsWithin workload.now }
    ensures tried { TriesSeeds A ⟦<Tally<A> as Pup<A>>⟧.fits ⟦<Tally<A> as Pup<A>>⟧.unpack workload.now strategy seeds
        (W.contents writer.old) (W.contents writer.new) result }
{
    let schedule = schedule_of(workload.pes, strategy);
    let cast = TallyCast::new(workload);
    tell_seeds(alloc, &schedule, &cast, seeds, writer)
}

/// Runs chares by each of the seeds 1 to `seeds`, as [`explore`](schedules::explore) does under this schedule, and writes a line for
/// each run that a fault ended, with the number of letters that it left, and the number of such runs. A run without a fault leaves
/// no letters.
///
/// The fault that is returned is that of the first run that ended with one.
pub fn tell_seeds<C: Chare<A>, K: Cast<C, A>, W: Write, A: Allocator + Copy>(
    alloc: A,
    schedule: &Schedule,
    cast: &K,
    seeds: u32,
    writer: &mut W,
) -> RunEnd
    ensures tried { TellsSeeds A C.step C.fits C.pack C.refuses C.unpack (K.chares cast.now) schedule.now seeds
        (W.contents writer.old) (W.contents writer.new) result }
{
    let Ok(verdicts) = try_seeds(alloc, schedule, cast, seeds) else {
        return report_memory(writer);
    };
    let Ok(text) = seeds_text(alloc, &verdicts) else {
        return report_memory(writer);
    };
    report_text(writer, text.as_bytes(), RunEnd::Ran(first_fault(&verdicts)))
}

// How the runs of these chares by the seeds 1 to `seeds` ended.
fn try_seeds<C: Chare<A>, K: Cast<C, A>, A: Allocator + Copy>(
    alloc: A,
    schedule: &Schedule,
    cast: &K,
    seeds: u32,
) -> Result<Vec<Verdict, A>, AllocError>
    ensures verdicts { IfOk result (λ verdicts.
        AreVerdicts A C.step C.fits C.pack C.refuses C.unpack (K.chares cast.now) schedule.now 1 verdicts.items) }
    ensures each { IfOk result (λ verdicts. length verdicts.items ≡ seeds) }
{
    let mut verdicts = Vec::new(alloc);
    for before in 0..seeds {
        let seed = u64::from(before) + 1;
        verdicts.push(verdict_of(alloc, schedule, cast, seed)?)?;
    }
    Ok(verdicts)
}

// The first fault that ended a run.
fn first_fault(verdicts: &[Verdict]) -> Option<Fault>
    ensures first { result ≡ fault_of_first verdicts.now }
{
    let mut first: Option<Fault> = None;
    for verdict in verdicts {
        first = first.or(verdict.fault);
    }
    first
}

// The text of runs by the seeds from 1 on. The only error is that memory was refused.
fn seeds_text<A: Allocator>(alloc: A, verdicts: &[Verdict]) -> Result<String<A>, AllocError>
    ensures text { IfOk result (λ text. string_bytes text ≡ seeds_text verdicts.now) }
{
    let mut text = String::new(alloc);
    let faults = push_faults(&mut text, verdicts)?;
    push_count(&mut text, verdicts.len(), faults)?;
    Ok(text)
}

// Writes the lines of the runs that a fault ended, and returns how many there are.
fn push_faults<A: Allocator>(text: &mut String<A>, verdicts: &[Verdict]) -> Result<u64, AllocError>
    ensures lines { OnOk result (string_bytes text.new ≡ string_bytes text.old ++ fault_lines 1 verdicts.now) }
    ensures faults { IfOk result (λ faults. faults ≡ faults_among verdicts.now) }
{
    let mut faults = 0;
    for (i, verdict) in verdicts.iter().enumerate() {
        faults += push_fault(text, i + 1, verdict)?;
    }
    Ok(faults)
}

// Writes the line of a run by this seed, if a fault ended it, and returns the number of lines, 0 or 1.
fn push_fault<A: Allocator>(
    text: &mut String<A>,
    seed: usize,
    verdict: &Verdict,
) -> Result<u64, AllocError>
    ensures line { OnOk result (string_bytes text.new ≡ string_bytes text.old ++ fault_line seed verdict.now.held verdict.now.fault) }
    ensures count { IfOk result (λ count. count ≡ fault_count verdict.now.fault) }
{
    let Some(fault) = verdict.fault else {
        return Ok(0);
    };
    let word = fault_word(fault);
    let held = verdict.held;
    writeln!(text, "seed {seed} fault {word} held {held}")?;
    Ok(1)
}

fn push_count<A: Allocator>(
    text: &mut String<A>,
    seeds: usize,
    faults: u64,
) -> Result<(), AllocError>
    ensures { OnOk result (string_bytes text.new ≡ string_bytes text.old ++ count_line seeds faults) }
{
    writeln!(text, "seeds {seeds} faults {faults}")
}
