//! A recorder, or none.

ghost use Rattle.std.specs.Prelude.{◌≡◌, ◌≢◌, IfOk, Ok, false, true};
ghost use Rattle.run_trace.specs.declared.tracing.Tracing.TheVariants.{Off};

use crate::error::TraceError;
use crate::recorder::Recorder;
use crate::timeline::Timeline;
use chare_index::{Pe, Round};
use pe_worker::{PeStep, Watch};
use std::alloc::{AllocError, Allocator, Global};
use std::sync::Wait;
use std::time::Clock;

/// A recorder, or none, which costs nothing.
#[derive(Drop)]
pub enum Tracing<'a, R, A: Allocator = Global> {
    /// No recorder.
    Off,
    /// Each step is kept.
    On(Recorder<'a, R, A>),
}

impl<'a, R: Clock, A: Allocator + Copy> Tracing<'a, R, A> {
    /// A recorder of a run that begins now, or [`Off`](Tracing::Off) where none is wanted.
    ///
    /// # Errors
    ///
    /// Those of [`Recorder::new`], where it is wanted.
    pub fn new(rt: &'a R, alloc: A, is_wanted: bool) -> Result<Self, TraceError>
        ensures wanted { is_wanted ≡ true → IfOk result (λ tracing. tracing ≢ Off) }
        ensures unwanted { is_wanted ≡ false → result ≡ Ok Off }
    {
        if !is_wanted {
            return Ok(Tracing::Off);
        }
        Ok(Tracing::On(Recorder::new(rt, alloc)?))
    }

    /// What happened, as [`Recorder::into_timeline`] returns it; `None` where no recorder is on.
    pub fn into_timeline(self) -> Result<Option<Timeline<A>>, AllocError> {
        match self {
            Tracing::Off => Ok(None),
            Tracing::On(recorder) => Ok(Some(recorder.into_timeline()?)),
        }
    }
}

impl<R: Clock + Wait, A: Allocator + Copy> Watch for Tracing<'_, R, A> {
    fn decided(&self, round: Round, executed: u64) {
        if let Tracing::On(recorder) = self {
            recorder.decided(round, executed);
        }
    }

    fn follows_steps(&self) -> bool {
        match self {
            Tracing::Off => false,
            Tracing::On(recorder) => recorder.follows_steps(),
        }
    }

    fn begins_step(&self, pe: Pe) {
        if let Tracing::On(recorder) = self {
            recorder.begins_step(pe);
        }
    }

    fn made_step(&self, pe: Pe, step: PeStep, posted: u64) {
        if let Tracing::On(recorder) = self {
            recorder.made_step(pe, step, posted);
        }
    }
}
