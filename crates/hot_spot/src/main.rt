//! `hot_spot [--elements N] [--pes P] [--rounds R] [--work W] [--static] [--tolerance T] [--trace FILE] [--no-journal]
//! [--quiet]` runs a chain of strips whose work wanders. It prints the loads of each round and the checksum of all cells, and to the standard error how long the
//! run took.
//!
//! - `program_words::on_words`: the arguments of the command line, and the status.
//! - `hot_spot_run::run_chain_watched`: the run. `hot_spot_run::text_of`: what is printed. `run_trace::keep_trace`: the trace
//!   of the run.
#![tactic(auto)]

mod help;
mod words;

use crate::words::{RunOptions, read_options};
use hot_spot_run::{ending_of, run_chain_watched, text_of};
use hot_spot_strip::{Mode, Strip, StripChain, StripChainError};
use pe_worker::Watch;
use program_files::why_unwritable;
use program_words::{NO_OUTPUT, RUN_FAULT, on_words, refused};
use rts_run::{Config, History, Idle, Options, Outcome};
use run_trace::{LostTrace, Tracing, keep_trace};
use std::alloc::AllocError;
use std::fs::{File, Files};
use std::io;
use std::process::ExitCode;
use std::sync::Wait;
use std::thread::Threads;
use std::time::{Clock, Instant};
use streams::write_out;
use sync_board::Strategy;

/// Cells of each strip.
const CELLS: u32 = 16;

fn main(rt: HostRuntime) -> ExitCode {
    on_words(&rt, |words| match read_options(rt.alloc(), words) {
        Ok(options) => run_asked(&rt, &options),
        Err(error) => refused(&rt, &error),
    })
}

// Runs the chain, and returns the status.
fn run_asked<R: Threads + Wait + Sync + Files + Clock + Print + Eprint + AllocGlobal>(
    rt: &R,
    options: &RunOptions<'_>,
) -> u8 {
    let Ok(cells) = cells_of(rt, options.elements) else {
        return NO_OUTPUT;
    };
    try_trace(rt, options);
    let chain = StripChain {
        mode: if options.is_static {
            Mode::Static
        } else {
            Mode::Balanced
        },
        rounds: options.rounds,
        work: options.work,
        cells: &cells,
    };
    match run_traced(rt, &chain, options) {
        Ok(status) => status,
        Err(lost) => {
            let _ = eprintln!(rt; "hot_spot: {}: {lost}", options.trace.unwrap_or(""));
            NO_OUTPUT
        }
    }
}

// Tells that the trace cannot be written now, before the run, which then goes on: the file is tried again after it.
fn try_trace<R: Files + Eprint>(rt: &R, options: &RunOptions<'_>) {
    let Some(name) = options.trace else {
        return;
    };
    if let Some(reason) = why_unwritable(rt, name) {
        let _ = eprintln!(rt;
            "hot_spot: {name}: {reason}; the run goes on: stop it, or see to it that this can be written by then"
        );
    }
}

// How many cells each strip has.
fn cells_of<R: AllocGlobal>(rt: &R, strips: u32) -> Result<Vec<u32>, AllocError> {
    let mut cells = Vec::new(rt.alloc());
    cells.resize(strips as usize, CELLS)?;
    Ok(cells)
}

// Runs a chain, prints what it left, and keeps its trace, if one is asked for.
fn run_traced<R: Threads + Wait + Sync + Files + Clock + Print + Eprint + AllocGlobal>(
    rt: &R,
    chain: &StripChain<'_>,
    options: &RunOptions<'_>,
) -> Result<u8, LostTrace> {
    let tracing = Tracing::new(rt, rt.alloc(), options.trace.is_some())?;
    let (outcome, status) = match run_and_print(rt, chain, options, &tracing) {
        Ok(left) => left,
        Err(error) => {
            let _ = eprintln!(rt; "hot_spot: {error}");
            return Ok(NO_OUTPUT);
        }
    };
    let (Some(path), Some(timeline)) = (options.trace, tracing.into_timeline()?) else {
        return Ok(status);
    };
    let file = File::create(rt, path);
    let (happenings, rounds) = (timeline.happenings(), outcome.rounds());
    keep_trace(rt.alloc(), file, options.pes, happenings, rounds)?;
    Ok(status)
}

// Runs a chain and prints what it left. Returns the outcome, with the status for the case that nothing fails later.
fn run_and_print<V: Watch + Sync, R: Threads + Wait + Sync + Clock + Print + Eprint + AllocGlobal>(
    rt: &R,
    chain: &StripChain<'_>,
    options: &RunOptions<'_>,
    watch: &V,
) -> Result<(Outcome<Strip>, u8), StripChainError> {
    let config = Config::usual(options.pes);
    let wanted = Options {
        strategy: Strategy::within(options.tolerance),
        history: if options.no_journal {
            History::Dropped
        } else {
            History::Kept
        },
        idle: Idle::Quiet,
        ..Options::usual()
    };
    let start = Instant::now(rt);
    let outcome = run_chain_watched(rt, rt.alloc(), &config, &wanted, watch, chain)?;
    if let Ok(start) = start {
        tell_time(rt, &start, outcome.account().executed, options.is_static);
    }
    let text = if options.is_quiet {
        ending_of(rt.alloc(), chain, &outcome)?
    } else {
        text_of(rt.alloc(), chain, options.pes, &outcome)?
    };
    if !write_out(&mut io::writer(rt), text.as_bytes()) {
        return Ok((outcome, NO_OUTPUT));
    }
    let status = if outcome.fault().is_some() {
        RUN_FAULT
    } else {
        0
    };
    Ok((outcome, status))
}

// Prints to the standard error how long a run took, how many letters it handled in a second, and how to see the other time.
fn tell_time<R: Clock + Eprint>(rt: &R, start: &Instant, letters: u64, is_static: bool) {
    let Ok(elapsed) = start.elapsed(rt) else {
        return;
    };
    let micros = u64::try_from(elapsed.as_micros())
        .unwrap_or(u64::MAX)
        .max(1);
    let rate = letters.saturating_mul(1_000_000) / micros;
    let other = if is_static {
        "without --static, which balances"
    } else {
        "with --static, which balances nothing"
    };
    let _ = eprintln!(rt;
        "hot_spot: {micros} microseconds, {letters} letters, {rate} a second; compare {other}"
    );
}
