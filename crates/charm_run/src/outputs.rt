//! Outputs that cannot be written: files, before the run, and the standard output, after it.

use crate::kept_files::KeptFiles;
use checkpointed_runs::CheckpointFiles;
use program_files::why_unwritable;
use run_command_line::CharmRunOptions;
use std::fs::Files;
use std::io;

/// Tells of each file that is asked for and cannot be written now, before the run, which then goes on: the file is tried again where it is
/// written. Nothing is left behind.
pub(crate) fn try_outputs<R: Files + Eprint + AllocGlobal>(rt: &R, asked: &CharmRunOptions<'_>) {
    if let Some(prefix) = asked.dump {
        if let Ok(name) = format!(in rt.alloc(); "{prefix}.1") {
            try_file(rt, &name);
        }
    }
    if let Some(name) = asked.events {
        try_file(rt, name);
    }
    if let Some(name) = asked.trace {
        try_file(rt, name);
    }
    if let Some(name) = asked.checkpoint {
        try_checkpoint(rt, name);
    }
}

// Tells of a file that cannot be written.
fn try_file<R: Files + Eprint>(rt: &R, name: &str) {
    if let Some(reason) = why_unwritable(rt, name) {
        tell_unwritable(rt, name, reason);
    }
}

// Tells of a checkpoint beside which no new one can be made.
fn try_checkpoint<R: Files + Eprint + AllocGlobal>(rt: &R, name: &str) {
    let mut files = KeptFiles(rt);
    match files.create_beside(name) {
        Ok(new) => files.remove(new),
        Err(reason) => tell_unwritable(rt, name, reason),
    }
}

// Writes the name of a file that cannot be written, why, and what to do.
fn tell_unwritable<R: Eprint>(rt: &R, name: &str, reason: io::Error) {
    let _ = eprintln!(rt;
        "charm_run: {name}: {reason}; the run goes on: stop it, or see to it that this can be written by then"
    );
}

/// Writes why the standard output did not take the whole text, where it did not, and what to do.
pub(crate) fn tell_output<R: Eprint>(rt: &R, failure: Option<io::Error>) {
    if let Some(reason) = failure {
        let _ = eprintln!(rt;
            "charm_run: standard output: {reason}; give it a place that takes all of the text"
        );
    }
}
