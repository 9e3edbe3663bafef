//! Runs that keep checkpoints, and those that go on from one.

ghost use Rattle.std.specs.Prelude.{IfOk};
ghost use Rattle.run_checkpoint.specs.Text.{IsWithin};

use crate::inputs::{open_watched, tell_workload};
use crate::kept_files::KeptFiles;
use crate::{TURNS, options_of};
use chare_index::Pes;
use checkpointed_runs::{
    Checkpoints, drive_from, finish_kept, on_pes, opening_of, read_checkpoint,
};
use program_files::open_input;
use program_words::BAD_FILE;
use progress_line::ShownProgress;
use run_checkpoint::Checkpoint;
use run_command_line::CharmRunOptions;
use schedule_run::read_workload;
use std::alloc::{AllocError, Global};
use std::fs::Files;
use std::io::{self, Input, Write};
use std::sync::Wait;
use std::thread::Threads;
use std::time::Clock;
use streams::Advice;
use workload_reasons::LineWitness;
use workload_run::report_memory;

/// What to do about a checkpoint with a fault.
const RESTART_ADVICE: Advice<'static> = Advice {
    program: "charm_run",
    unread: "give a file with a checkpoint that you may read, or - for the standard input",
    wrong: "give a checkpoint: charm_run --checkpoint CHECKPOINT writes one",
};

/// Whether a run keeps checkpoints, or goes on from one.
pub(crate) fn has_checkpoints(asked: &CharmRunOptions<'_>) -> bool {
    asked.restart || asked.checkpoint.is_some()
}

/// Runs what is left of the workload or of the checkpoint over threads, keeps the checkpoints that are asked for, and returns the
/// status. What was wrong with a file goes to `errors`.
pub(crate) fn run_kept<
    R: Threads + Wait + Sync + Files + Input + Clock + Print + Eprint + AllocGlobal,
    E: Write,
    W: Write,
>(
    rt: &R,
    asked: &CharmRunOptions<'_>,
    progress: ShownProgress<'_, R>,
    errors: &mut E,
    writer: &mut W,
) -> u8 {
    let from = match open_start(rt, asked, errors, writer) {
        Ok(from) => from,
        Err(status) => return status,
    };
    let every = asked.every.unwrap_or(1);
    let files = KeptFiles(rt);
    let mut checkpoints = Checkpoints::new(rt.alloc(), files, asked.checkpoint, every);
    let options = options_of(asked);
    let driven = drive_from(
        rt,
        rt.alloc(),
        from,
        writer,
        TURNS,
        &options,
        &progress,
        &mut checkpoints,
    );
    progress.finish();
    let failed = checkpoints.failed();
    if let Some(reason) = failed {
        tell_lost(rt, asked.checkpoint.unwrap_or(""), reason);
    }
    finish_kept(driven.status(), failed.is_some(), writer)
}

// Writes the name of a checkpoint that was not kept, and why.
fn tell_lost<R: Eprint>(rt: &R, name: &str, reason: io::Error) {
    let _ = eprintln!(rt; "charm_run: {name}: {reason}");
}

// What the run begins from; or otherwise writes what is wrong, and returns the status.
fn open_start<R: Files + Input + AllocGlobal, E: Write, W: Write>(
    rt: &R,
    asked: &CharmRunOptions<'_>,
    errors: &mut E,
    writer: &mut W,
) -> Result<Checkpoint<Global>, u8>
    ensures within { IfOk result IsWithin }
{
    let start = if asked.restart {
        open_checkpoint(rt, asked, errors, writer)?
    } else {
        open_workload(rt, asked, errors, writer)?
    };
    match start {
        Ok(start) => Ok(start),
        Err(_) => Err(report_memory(writer).status()),
    }
}

// What the run of the workload begins from.
fn open_workload<R: Files + Input + AllocGlobal, E: Write, W: Write>(
    rt: &R,
    asked: &CharmRunOptions<'_>,
    errors: &mut E,
    writer: &mut W,
) -> Result<Result<Checkpoint<Global>, AllocError>, u8>
    ensures within { IfOk result (λ start. IfOk start IsWithin) }
{
    let mut lines = LineWitness::new();
    let file = open_watched(rt, asked.file, &mut lines);
    let (workload, reason) = read_workload(rt.alloc(), file, writer);
    match workload {
        Ok(workload) => Ok(opening_of(rt.alloc(), workload)),
        Err(ended) => {
            tell_workload(rt, errors, asked.file, reason, &lines, ended);
            Err(ended.status())
        }
    }
}

// What the run from the checkpoint begins from, on as many PEs as are asked for.
fn open_checkpoint<R: Files + Input + AllocGlobal, E: Write, W: Write>(
    rt: &R,
    asked: &CharmRunOptions<'_>,
    errors: &mut E,
    writer: &mut W,
) -> Result<Result<Checkpoint<Global>, AllocError>, u8>
    ensures within { IfOk result (λ start. IfOk start IsWithin) }
{
    let (checkpoint, reason) = read_checkpoint(rt.alloc(), open_input(rt, asked.file), writer);
    match checkpoint {
        Ok(checkpoint) => Ok(on_asked_pes(rt.alloc(), checkpoint, asked.procs)),
        Err(unread) => {
            let status = unread.status();
            let advice = &RESTART_ADVICE;
            let _told = advice.tell(rt.alloc(), errors, asked.file, reason, status == BAD_FILE);
            Err(status)
        }
    }
}

// Moves the run to the number of PEs that was asked for, if one was. The command line has already checked that number.
fn on_asked_pes(
    alloc: Global,
    checkpoint: Checkpoint<Global>,
    procs: Option<u32>,
) -> Result<Checkpoint<Global>, AllocError>
    requires within { IsWithin checkpoint }
    ensures within { IfOk result IsWithin }
{
    let Some(count) = procs else {
        return Ok(checkpoint);
    };
    let Some(pes) = Pes::new(count) else {
        return Ok(checkpoint);
    };
    on_pes(alloc, checkpoint, pes.get())
}
