//! The trace of a run, in the file that is asked for.

use chare_index::{Pe, Round};
use pe_worker::{PeStep, Watch};
use progress_line::ShownProgress;
use rts_run::Outcome;
use run_command_line::CharmRunOptions;
use run_trace::{LostTrace, Timeline, TraceError, Tracing};
use std::alloc::Global;
use std::fs::{File, Files};
use std::io::Write;
use std::sync::Wait;
use std::time::Clock;
use tally::Tally;
use workload_run::{Beside, Driven, Onlooker, report_lost, status_beside};

/// The watches of a run over threads: the progress line, and the recorder of a trace.
#[derive(Drop)]
pub(crate) struct Onlookers<'a, R> {
    pub(crate) progress: ShownProgress<'a, R>,
    pub(crate) tracing: Tracing<'a, R>,
}

impl<R: Clock + Eprint + Wait> Watch for Onlookers<'_, R> {
    fn decided(&self, round: Round, executed: u64) {
        self.progress.decided(round, executed);
        self.tracing.decided(round, executed);
    }

    fn wants_stop(&self) -> bool {
        self.progress.wants_stop()
    }

    fn follows_steps(&self) -> bool {
        self.tracing.follows_steps()
    }

    fn begins_step(&self, pe: Pe) {
        self.tracing.begins_step(pe);
    }

    fn made_step(&self, pe: Pe, step: PeStep, posted: u64) {
        self.tracing.made_step(pe, step, posted);
    }
}

impl<R: Clock + Eprint + Wait> Onlooker for Onlookers<'_, R> {
    fn expects(&self, rounds: u32) {
        self.progress.expects(rounds);
    }
}

/// Writes the trace of a run over threads, where one is asked for and there was a run. Returns whether it was lost.
pub(crate) fn keep_recorded<R: Clock + Files + Eprint + AllocGlobal, W: Write>(
    rt: &R,
    name: Option<&str>,
    tracing: Tracing<'_, R>,
    driven: &Driven<Global>,
    writer: &mut W,
) -> bool {
    let Some(outcome) = &driven.outcome else {
        return false;
    };
    match tracing.into_timeline() {
        Ok(Some(timeline)) => keep_trace(rt, name, outcome, &timeline, writer),
        Ok(None) => false,
        Err(error) => {
            tell_lost_trace(rt, name, LostTrace::from(error), writer);
            true
        }
    }
}

/// Writes the trace of a run, where one is asked for. Returns whether it was lost.
pub(crate) fn keep_trace<R: Files + Eprint + AllocGlobal, W: Write>(
    rt: &R,
    name: Option<&str>,
    outcome: &Outcome<Tally>,
    timeline: &Timeline<Global>,
    writer: &mut W,
) -> bool {
    let Some(path) = name else {
        return false;
    };
    let pes = u32::try_from(outcome.ends().len()).unwrap_or(u32::MAX);
    let file = File::create(rt, path);
    let (happenings, rounds) = (timeline.happenings(), outcome.rounds());
    let Err(lost) = run_trace::keep_trace(rt.alloc(), file, pes, happenings, rounds) else {
        return false;
    };
    tell_lost_trace(rt, name, lost, writer);
    true
}

/// Writes that a trace cannot be kept, and returns the status.
pub(crate) fn lose_trace<R: Eprint, W: Write>(
    rt: &R,
    asked: &CharmRunOptions<'_>,
    error: TraceError,
    writer: &mut W,
) -> u8 {
    tell_lost_trace(rt, asked.trace, LostTrace::from(error), writer);
    status_beside(0, true)
}

// Writes that a trace was lost, and why.
pub(crate) fn tell_lost_trace<R: Eprint, W: Write>(
    rt: &R,
    name: Option<&str>,
    lost: LostTrace,
    writer: &mut W,
) {
    report_lost(Beside::Trace, writer);
    let _ = eprintln!(rt; "charm_run: {}: {lost}", name.unwrap_or(""));
}
