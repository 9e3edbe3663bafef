//! `charm_run [--dump PREFIX] [--lbd1] [--progress] [--tolerance T] [--no-journal] FILE` runs the chares of a workload over threads: it
//! prints what each round decided, what each chare added up, and where every letter is. With `--seed S`, `--seeds N` or `--replay LIST` it runs them on
//! one thread, in an order of events that can be repeated; `--events LIST` writes that order. `--trace FILE` writes what happened.
//! `charm_run --checkpoint CHECKPOINT [--every K] FILE` keeps checkpoints meanwhile, and `charm_run --restart [--procs P] CHECKPOINT` goes on
//! from one.
//!
//! - `program_words::on_words`: the arguments of the command line, and the status. `run_command_line::asked`: what the arguments
//!   ask for; `CharmRunOptions::task`: how the chares are run, if the options go together; `program_words::refused`: the status where the
//!   arguments ask for no run.
//! - `workload_run::drive_file`: the run of a workload, from a file to its text; `write_asked`: the dumps of its rounds, and
//!   the status; `write_beside`: the list of events, where it is asked for and there was a run.
//! - `one_thread`: the runs on one thread, by the crate `schedule_run`. `traces`: the trace of a run, by `run_trace::keep_trace`.
//!   `files`: the files of the system. `checkpoints`: the runs that keep checkpoints or go on from one, by the crate `checkpointed_runs`;
//!   `kept_files`: how a new checkpoint takes the place of the one before.
//! - `inputs`: what is printed of a workload with a fault, by the crate `workload_reasons`. `outputs`: which files cannot be written, before
//!   the run, and what is printed where the standard output takes nothing.
//! - `progress_line::ShownProgress`: what is written to the standard error meanwhile; `streams::Advice`: what is printed about a
//!   file with a fault.
#![tactic(auto)]

mod checkpoints;
mod files;
mod inputs;
mod kept_files;
mod one_thread;
mod outputs;
mod traces;

use crate::checkpoints::{has_checkpoints, run_kept};
use crate::files::{early_dumps, finish_dumps, write_dumps};
use crate::inputs::{open_watched, tell_workload};
use crate::one_thread::{run_by_list, run_by_seed, run_by_seeds};
use crate::outputs::{tell_output, try_outputs};
use crate::traces::{Onlookers, keep_recorded, lose_trace};
use program_words::{on_words, refused};
use progress_line::ShownProgress;
use rts_run::{History, Options};
use run_command_line::{CharmRunOptions, Task, asked, refuse};
use run_trace::Tracing;
use std::fs::Files;
use std::io::{self, Input, IsTerminal, Write};
use std::process::ExitCode;
use std::sync::Wait;
use std::thread::Threads;
use std::time::Clock;
use streams::{Advice, Noted};
use sync_board::Strategy;
use workload_reasons::LineWitness;
use workload_run::{drive_file, status_beside};

/// The number of idle turns in a row after which a worker gives up.
pub(crate) const TURNS: u64 = 1_000_000_000;

/// What to do about a file with a fault.
pub(crate) const ADVICE: Advice<'static> = Advice {
    program: "charm_run",
    unread: "give a file with a workload that you may read, or - for the standard input",
    wrong: "give a workload: pes, rounds, pad and chares, a line each, and then the amounts of each round",
};

fn main(rt: HostRuntime) -> ExitCode {
    on_words(&rt, |words| match asked(rt.alloc(), words) {
        Ok(asked) => {
            let progress = asked.progress || rt.stderr().is_terminal();
            run_asked(&rt, &asked, progress, &mut rt.stderr())
        }
        Err(error) => refused(&rt, &error),
    })
}

// Does what is asked for, and returns the status. No file is opened where the options do not go together. Where the standard output
// takes nothing, that is told too.
fn run_asked<
    R: Threads + Wait + Sync + Files + Input + Clock + Print + Eprint + AllocGlobal,
    E: Write,
>(rt: &R, asked: &CharmRunOptions<'_>, progress: bool, errors: &mut E) -> u8 {
    match asked.task() {
        Ok(task) => {
            try_outputs(rt, asked);
            let mut writer = Noted::new(io::writer(rt));
            let status = run_task(rt, asked, task, progress, errors, &mut writer);
            tell_output(rt, writer.failure());
            status
        }
        Err(clash) => refuse(errors, clash),
    }
}

// Runs the workload as the task says, and returns the status.
fn run_task<
    R: Threads + Wait + Sync + Files + Input + Clock + Print + Eprint + AllocGlobal,
    E: Write,
    W: Write,
>(
    rt: &R,
    asked: &CharmRunOptions<'_>,
    task: Task<'_>,
    progress: bool,
    errors: &mut E,
    writer: &mut W,
) -> u8 {
    match task {
        Task::Threads => run_on_threads(rt, asked, progress, errors, writer),
        Task::Seed(seed) => run_by_seed(rt, asked, seed, errors, writer),
        Task::Seeds(seeds) => run_by_seeds(rt, asked, seeds, errors, writer),
        Task::Replay(list) => run_by_list(rt, asked, list, errors, writer),
    }
}

// Runs the workload, or what is left after a checkpoint, over threads, with its progress line and its recorder, and returns the status.
fn run_on_threads<
    R: Threads + Wait + Sync + Files + Input + Clock + Print + Eprint + AllocGlobal,
    E: Write,
    W: Write,
>(rt: &R, asked: &CharmRunOptions<'_>, progress: bool, errors: &mut E, writer: &mut W) -> u8 {
    let progress = ShownProgress::new(rt, progress).unwrap_or(ShownProgress::Off);
    if has_checkpoints(asked) {
        return run_kept(rt, asked, progress, errors, writer);
    }
    match Tracing::new(rt, rt.alloc(), asked.trace.is_some()) {
        Ok(tracing) => run_watched(rt, asked, Onlookers { progress, tracing }, errors, writer),
        Err(error) => lose_trace(rt, asked, error, writer),
    }
}

// Opens the workload, runs it to the writer, writes the dumps and the trace that are asked for, and returns the status. What was wrong
// with a file goes to `errors`.
fn run_watched<
    R: Threads + Wait + Sync + Files + Input + Clock + Print + Eprint + AllocGlobal,
    E: Write,
    W: Write,
>(
    rt: &R,
    asked: &CharmRunOptions<'_>,
    onlookers: Onlookers<'_, R>,
    errors: &mut E,
    writer: &mut W,
) -> u8 {
    let options = options_of(asked);
    let mut lines = LineWitness::new();
    let file = open_watched(rt, asked.file, &mut lines);
    let mut dumps = early_dumps(rt, asked);
    let (driven, reason) = drive_file(
        rt,
        rt.alloc(),
        file,
        writer,
        TURNS,
        &options,
        &onlookers,
        &mut dumps,
    );
    let Onlookers { progress, tracing } = onlookers;
    progress.finish();
    tell_workload(rt, errors, asked.file, reason, &lines, driven.ended);
    let is_lost = keep_recorded(rt, asked.trace, tracing, &driven, writer);
    let status = if dumps.is_on() {
        finish_dumps(rt, asked, &driven, dumps, writer)
    } else {
        write_dumps(rt, asked, &driven, writer)
    };
    status_beside(status, is_lost)
}

/// How rounds are decided, and whether elements keep what they have handled.
pub(crate) fn options_of(asked: &CharmRunOptions<'_>) -> Options {
    let history = if asked.no_journal {
        History::Dropped
    } else {
        History::Kept
    };
    Options {
        strategy: Strategy::within(asked.tolerance),
        history,
        ..Options::usual()
    }
}
