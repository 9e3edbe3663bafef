//! A watch that keeps what happened.

ghost use Rattle.std.specs.Prelude.{◌≡◌, IfOk, map};

use crate::error::TraceError;
use crate::pe_trace::PeTrace;
use crate::timeline::Timeline;
use chare_index::{Limits, Pe, Round};
use chares::Chare;
use pe_state::PeEnd;
use pe_worker::{PeStep, Watch};
use std::alloc::{AllocError, Allocator, Global};
use std::collections::VecDeque;
use std::sync::{Mutex, Wait};
use std::time::{Clock, Instant};

/// Watches a run over threads, and keeps what each PE does, with its time by the monotonic clock: one reading of the clock as a
/// step begins and one as it ends. Each worker keeps this in a row of its own, whose lock no other worker takes. Where memory is
/// refused the run goes on, and [`into_timeline`](Recorder::into_timeline) returns the error. Where the clock cannot be read,
/// the time is that of the PE's last reading.
#[derive(Drop)]
pub struct Recorder<'a, R, A: Allocator = Global> {
    rt: &'a R,
    start: Instant,
    rows: VecDeque<Mutex<PeTrace<A>>, A>,
    decisions: Mutex<PeTrace<A>>,
}

impl<'a, R: Clock, A: Allocator + Copy> Recorder<'a, R, A> {
    /// A recorder of a run that begins now. Of one that is carried on use [`after`](Recorder::after).
    ///
    /// # Errors
    ///
    /// [`Clock`](TraceError::Clock) where the clock cannot be read, and then [`OutOfMemory`](TraceError::OutOfMemory).
    pub fn new(rt: &'a R, alloc: A) -> Result<Self, TraceError> {
        Self::after_posts(rt, alloc, &[])
    }

    /// A recorder of a run that is carried on now, from what an earlier one left on its PEs, in order. The letters that the earlier run
    /// posted are not among what happens now.
    ///
    /// # Errors
    ///
    /// Those of [`new`](Recorder::new).
    pub fn after<C: Chare<B>, B: Allocator>(
        rt: &'a R,
        alloc: A,
        ends: &[PeEnd<C, B>],
    ) -> Result<Self, TraceError> {
        let posted = posted_on(alloc, ends)?;
        Self::after_posts(rt, alloc, &posted)
    }

    // A recorder of a run in which each PE has posted this number of letters before; none where no number is given.
    fn after_posts(rt: &'a R, alloc: A, posted: &[u64]) -> Result<Self, TraceError> {
        let Ok(start) = Instant::now(rt) else {
            return Err(TraceError::Clock);
        };
        Ok(Recorder {
            rt,
            start,
            rows: rows(alloc, posted)?,
            decisions: Mutex::new(PeTrace::after(alloc, 0)),
        })
    }

    /// What happened, in order of time, once the run has ended.
    ///
    /// # Errors
    ///
    /// Memory was refused now, or was refused during the run for something that happened.
    pub fn into_timeline(self) -> Result<Timeline<A>, AllocError> {
        let Recorder {
            rt: _,
            start: _,
            rows,
            decisions,
        } = self;
        let mut rows = rows;
        let mut happenings = decisions.into_inner().into_happenings()?;
        while let Some(row) = rows.pop_front() {
            let more = row.into_inner().into_happenings()?;
            happenings.extend_from_slice(&more)?;
        }
        Timeline::sorted(happenings)
    }

    // The nanoseconds since the run began, where the clock can be read.
    fn now(&self) -> Option<u64> {
        let elapsed = self.start.elapsed(self.rt).ok()?;
        Some(u64::try_from(elapsed.as_nanos()).unwrap_or(u64::MAX))
    }
}

// A row for each PE that a run may have, with what it has posted before.
fn rows<A: Allocator + Copy>(
    alloc: A,
    posted: &[u64],
) -> Result<VecDeque<Mutex<PeTrace<A>>, A>, AllocError> {
    let mut rows = VecDeque::new(alloc);
    for pe in 0..Limits::PES {
        let before = posted.get(pe as usize).copied().unwrap_or(0);
        rows.push_back(Mutex::new(PeTrace::after(alloc, before)))?;
    }
    Ok(rows)
}

// How many letters each of these PEs has posted.
fn posted_on<C: Chare<B>, A: Allocator, B: Allocator>(
    alloc: A,
    ends: &[PeEnd<C, B>],
) -> Result<Vec<u64, A>, AllocError>
    ensures value { IfOk result (λ posted. posted.items ≡ map (λ pe. pe.count) ends.now) }
{
    let mut posted = Vec::new(alloc);
    for end in ends {
        posted.push(end.count())?;
    }
    Ok(posted)
}

impl<R: Clock + Wait, A: Allocator + Copy> Watch for Recorder<'_, R, A> {
    fn decided(&self, round: Round, _executed: u64) {
        let now = self.now();
        self.decisions.lock(self.rt).decide(round, now);
    }

    fn follows_steps(&self) -> bool {
        true
    }

    fn begins_step(&self, pe: Pe) {
        let now = self.now();
        if let Some(row) = self.rows.get(pe.get() as usize) {
            row.lock(self.rt).begin(now);
        }
    }

    fn made_step(&self, pe: Pe, step: PeStep, posted: u64) {
        let now = self.now();
        if let Some(row) = self.rows.get(pe.get() as usize) {
            row.lock(self.rt).end(pe, step, posted, now);
        }
    }
}
