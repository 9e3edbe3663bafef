//! Runs on one thread: by a seed, by many, or by a list of events.

ghost use Rattle.std.specs.Prelude.{IfOk};
ghost use Rattle.workload.specs.Text.{IsWithin};

use crate::files::{keep_file, write_dumps};
use crate::inputs::{open_watched, tell_workload};
use crate::traces::{keep_trace, tell_lost_trace};
use program_files::open_input;
use program_words::BAD_FILE;
use run_command_line::CharmRunOptions;
use run_trace::{LostTrace, Timeline};
use schedule_run::{
    DrivenOnOne, ListFault, drive_events, drive_seed, drive_seeds, read_list, read_workload,
    report_list, write_list,
};
use schedules::Explored;
use std::alloc::Global;
use std::fs::Files;
use std::io::{self, Input, Write};
use streams::Advice;
use sync_board::Strategy;
use tally::Tally;
use workload::Workload;
use workload_reasons::LineWitness;
use workload_run::{Beside, BesideText, status_beside};

/// What to do about a list of events with a fault.
const LIST_ADVICE: Advice<'static> = Advice {
    program: "charm_run",
    unread: "give a file with a list of events that you may read, or - for the standard input",
    wrong: "give a list of the events of a run of this workload: charm_run --seed S --events LIST writes one",
};

/// Runs the workload by a seed, writes what is asked for of that, and returns the status.
pub(crate) fn run_by_seed<R: Files + Input + Eprint + AllocGlobal, E: Write, W: Write>(
    rt: &R,
    asked: &CharmRunOptions<'_>,
    seed: u64,
    errors: &mut E,
    writer: &mut W,
) -> u8 {
    match open_workload(rt, asked, errors, writer) {
        Ok(workload) => {
            let driven = drive_seed(rt.alloc(), &workload, strategy_of(asked), seed, writer);
            write_left(rt, asked, driven, writer)
        }
        Err(status) => status,
    }
}

/// Runs the workload by each of the seeds from 1 to this number, and returns the status.
pub(crate) fn run_by_seeds<R: Files + Input + Eprint + AllocGlobal, E: Write, W: Write>(
    rt: &R,
    asked: &CharmRunOptions<'_>,
    seeds: u32,
    errors: &mut E,
    writer: &mut W,
) -> u8 {
    match open_workload(rt, asked, errors, writer) {
        Ok(workload) => {
            drive_seeds(rt.alloc(), &workload, strategy_of(asked), seeds, writer).status()
        }
        Err(status) => status,
    }
}

/// Runs the workload by the events of a list, writes what is asked for of that, and returns the status.
pub(crate) fn run_by_list<R: Files + Input + Eprint + AllocGlobal, E: Write, W: Write>(
    rt: &R,
    asked: &CharmRunOptions<'_>,
    list: &str,
    errors: &mut E,
    writer: &mut W,
) -> u8 {
    let (events, reason) = read_list(rt.alloc(), open_input(rt, list));
    let events = match events {
        Ok(events) => events,
        Err(fault) => return refuse_list(rt, list, fault, reason, errors, writer),
    };
    let workload = match open_workload(rt, asked, errors, writer) {
        Ok(workload) => workload,
        Err(status) => return status,
    };
    match drive_events(rt.alloc(), &workload, strategy_of(asked), &events, writer) {
        Ok(driven) => write_left(rt, asked, driven, writer),
        Err(number) => {
            let fault = ListFault::NotEnabled(number);
            refuse_list(rt, list, fault, None, errors, writer)
        }
    }
}

// Writes what is wrong with a list of events, and returns the status.
fn refuse_list<R: AllocGlobal, E: Write, W: Write>(
    rt: &R,
    list: &str,
    fault: ListFault,
    reason: Option<io::Error>,
    errors: &mut E,
    writer: &mut W,
) -> u8 {
    let status = report_list(rt.alloc(), writer, fault);
    let _told = LIST_ADVICE.tell(rt.alloc(), errors, list, reason, status == BAD_FILE);
    status
}

// Returns the workload of the file that is asked for; or otherwise writes what is wrong with it, and returns the status.
fn open_workload<R: Files + Input + AllocGlobal, E: Write, W: Write>(
    rt: &R,
    asked: &CharmRunOptions<'_>,
    errors: &mut E,
    writer: &mut W,
) -> Result<Workload<Global>, u8>
    ensures within { IfOk result IsWithin }
{
    let mut lines = LineWitness::new();
    let file = open_watched(rt, asked.file, &mut lines);
    let (workload, reason) = read_workload(rt.alloc(), file, writer);
    match workload {
        Ok(workload) => Ok(workload),
        Err(ended) => {
            tell_workload(rt, errors, asked.file, reason, &lines, ended);
            Err(ended.status())
        }
    }
}

fn strategy_of(asked: &CharmRunOptions<'_>) -> Strategy {
    Strategy::within(asked.tolerance)
}

// Writes the list of events, the trace and the dumps that are asked for, and returns the status.
fn write_left<R: Files + Eprint + AllocGlobal, W: Write>(
    rt: &R,
    asked: &CharmRunOptions<'_>,
    driven: DrivenOnOne<Global>,
    writer: &mut W,
) -> u8 {
    let is_unlisted = keep_events(rt, asked, &driven, writer);
    let is_untraced = keep_steps(rt, asked, &driven, writer);
    let status = write_dumps(rt, asked, &driven.into_driven(), writer);
    status_beside(status, is_unlisted || is_untraced)
}

// Writes the trace to the file that is asked for, by the numbers of the events. Returns whether it was lost.
fn keep_steps<R: Files + Eprint + AllocGlobal, W: Write>(
    rt: &R,
    asked: &CharmRunOptions<'_>,
    driven: &DrivenOnOne<Global>,
    writer: &mut W,
) -> bool {
    let (Some(_name), Some(explored)) = (asked.trace, &driven.explored) else {
        return false;
    };
    match Timeline::of_steps(rt.alloc(), explored.steps()) {
        Ok(timeline) => keep_trace(rt, asked.trace, explored.outcome(), &timeline, writer),
        Err(error) => {
            tell_lost_trace(rt, asked.trace, LostTrace::from(error), writer);
            true
        }
    }
}

// What a run on one thread left for the list of its events.
#[derive(Drop)]
struct Listed<'a> {
    alloc: Global,
    explored: &'a Explored<Tally>,
}

impl BesideText for Listed<'_> {
    fn write_to<W: Write>(&self, writer: &mut W) -> bool {
        write_list(self.alloc, self.explored, writer)
    }
}

// Writes the list of events to the file that is asked for. Returns whether it was lost.
fn keep_events<R: Files + Eprint + AllocGlobal, W: Write>(
    rt: &R,
    asked: &CharmRunOptions<'_>,
    driven: &DrivenOnOne<Global>,
    writer: &mut W,
) -> bool {
    let Some(explored) = &driven.explored else {
        return false;
    };
    let listed = Listed {
        alloc: rt.alloc(),
        explored,
    };
    keep_file(rt, Beside::Events, asked.events, Some(&listed), writer)
}
