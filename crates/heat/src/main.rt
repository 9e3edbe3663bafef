//! `heat [--elements N] [--pes P] [--steps S] [--every K] [--small E]` computes a rod on fire. It prints how many steps it took, the
//! residual of the last one, and a checksum of all cells. `examples/heat.c` computes the same numbers by a plain loop.
//!
//! - `heat_run::read_options`: the arguments of the command line. `heat_run::run_rod`: the run. `heat_run::text_of`: what is printed.
//! - `heat_rod::RodStrip`: the chare.
#![tactic(auto)]

use heat_rod::RodChare;
use heat_run::{RodOptions, read_options, run_rod, text_of};
use program_words::{NO_OUTPUT, RUN_FAULT, on_words, refused};
use rts_run::{Config, Idle, Options, Outcome, RunError};
use std::alloc::Global;
use std::io;
use std::process::ExitCode;
use std::sync::Wait;
use std::thread::Threads;
use streams::write_out;

fn main(rt: HostRuntime) -> ExitCode {
    on_words(&rt, |words| match read_options(rt.alloc(), words) {
        Ok(options) => run_asked(&rt, options),
        Err(error) => refused(&rt, &error),
    })
}

// Runs the rod, and returns the status.
fn run_asked<R: Threads + Wait + Sync + Print + Eprint + AllocGlobal>(
    rt: &R,
    options: RodOptions,
) -> u8 {
    match run_and_print(rt, options) {
        Ok(status) => status,
        Err(error) => {
            let _ = eprintln!(rt; "heat: {error}");
            NO_OUTPUT
        }
    }
}

// Runs the rod, and prints what it left. Returns the status.
fn run_and_print<R: Threads + Wait + Sync + Print + Eprint + AllocGlobal>(
    rt: &R,
    options: RodOptions,
) -> Result<u8, RunError> {
    let config = Config::usual(options.pes);
    let wanted = Options {
        idle: Idle::Quiet,
        ..Options::usual()
    };
    let outcome = run_rod(rt, rt.alloc(), &config, &wanted, &options.rod)?;
    tell_rounds(rt, &outcome);
    let text = text_of(rt.alloc(), options.rod.strips, &outcome)?;
    if !write_out(&mut io::writer(rt), text.as_bytes()) {
        return Ok(NO_OUTPUT);
    }
    if outcome.fault().is_some() {
        return Ok(RUN_FAULT);
    }
    Ok(0)
}

// Prints to the standard error how often the strips were balanced, and how many bytes moved.
fn tell_rounds<R: Eprint>(rt: &R, outcome: &Outcome<RodChare<Global>>) {
    let rounds = outcome.rounds().len();
    let mut moved = 0u64;
    for (_, decision) in outcome.rounds() {
        moved = moved.saturating_add(decision.moved);
    }
    let _ = eprintln!(rt; "heat: balanced {rounds} times, {moved} bytes moved");
}
