//! The workload that is read, and what is printed where it has a fault.

use crate::ADVICE;
use program_files::{InputFile, Watched, open_input};
use program_words::BAD_FILE;
use std::fs::Files;
use std::io::{self, Input, Write};
use streams::Advice;
use workload_reasons::{LineWitness, said_of_fault};
use workload_run::RunEnd;

/// Opens the file of this name, or the standard input for `-`, whose lines are seen as they are read.
pub(crate) fn open_watched<'a, R: Files + Input>(
    rt: &R,
    name: &str,
    lines: &'a mut LineWitness,
) -> io::Result<Watched<'a, InputFile<R::File, R::Reader>, LineWitness>> {
    match open_input(rt, name) {
        Ok(file) => Ok(Watched::new(file, lines)),
        Err(reason) => Err(reason),
    }
}

/// Writes why a workload was not read: the system's reason, or what is wrong with which line, and what to do. Where it was read, nothing is
/// written.
pub(crate) fn tell_workload<R: AllocGlobal, E: Write>(
    rt: &R,
    errors: &mut E,
    name: &str,
    reason: Option<io::Error>,
    lines: &LineWitness,
    ended: RunEnd,
) {
    let is_fault = ended.status() == BAD_FILE;
    let Some(wrong) = wrong_of(rt, lines, ended) else {
        let _told = ADVICE.tell(rt.alloc(), errors, name, reason, is_fault);
        return;
    };
    let advice = Advice {
        wrong: &wrong,
        ..ADVICE
    };
    let _told = advice.tell(rt.alloc(), errors, name, reason, is_fault);
}

// What is wrong with which line of the workload, and what to do about it.
fn wrong_of<R: AllocGlobal>(rt: &R, lines: &LineWitness, ended: RunEnd) -> Option<String> {
    let RunEnd::Refused(fault) = ended else {
        return None;
    };
    let said = said_of_fault(rt.alloc(), lines, fault)?;
    let todo = ADVICE.wrong;
    format!(in rt.alloc(); "{said}; {todo}").ok()
}
