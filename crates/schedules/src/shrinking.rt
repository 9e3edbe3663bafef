//! A shorter list of events that is still bad. Source: A. Zeller and R. Hildebrandt, "Simplifying and isolating failure-inducing
//! input", IEEE Transactions on Software Engineering 28(2), 2002: chunks are left out, at first of half the list, and in the end
//! single events.

ghost use Rattle.std.specs.Prelude.{◌≡◌, ◌≤◌, ◌<◌, ◌↔◌, IfErr, IfOk, IfSome, IsTrue, MatchOption, length, true};
ghost use Rattle.schedules.specs.Courses.{IsExplored};
ghost use Rattle.schedules.specs.Replays.{PicksFrom};
ghost use Rattle.schedules.specs.Shrinking.{IsCutOff, IsWell, IsWhole, RefusesShrinking};

use crate::explored::Explored;
use crate::replaying::replay_enabled;
use crate::schedule::Schedule;
use chares::Chare;
use pe_worker::Fault;
use rts_core::Event;
use rts_run::RunError;
use std::alloc::{AllocError, Allocator};

/// The chares that a run opens with, made anew for each run.
pub trait Cast<C, A: Allocator> {
    ghost use Rattle.std.specs.Prelude.{◌≡◌, IfOk, List};

    /// The chares.
    ghost chares: { Self → List C };

    /// Makes them. The only error is that memory was refused.
    fn chares(&self, alloc: A) -> Result<Vec<C, A>, AllocError>
        ensures value { IfOk result (λ made. made.items ≡ Self.chares self.now) };
}

/// What is looked for in runs: what makes a run bad.
pub trait Suspect<C: Chare<A>, A: Allocator> {
    ghost use Rattle.std.specs.Prelude.{◌≡◌, Bool};
    ghost use Rattle.schedules.specs.Courses.{ExploredView};

    /// Whether this run is bad.
    ghost is_bad: { Self → ExploredView C A → Bool };

    /// Whether this run is bad. The answer depends on nothing else.
    fn is_bad(&self, explored: &Explored<C, A>) -> bool
        ensures value { result ≡ Self.is_bad self.now explored.now };
}

/// Finds a shorter list of events whose run is still bad, and returns that run; or `None`, and only where the run by those of these
/// events that are enabled is not bad: the clause `answer`. Neither is a run that ended because memory was refused: the clause
/// `whole`. Chunks of the list are left out. Each candidate is run anew, which also leaves out events that are no longer enabled, and
/// is kept where it is shorter and still bad. In the end each single step was left out, and the run without it was not bad, or no
/// shorter, since an event that was refused happened in it. So the answer need not lose its badness by leaving out a step, and a list
/// that is still shorter may lack two steps or more. The event that was refused, where there is one, stays the last of each
/// candidate, also where the run without it would be bad.
///
/// # Errors
///
/// Those of [`explore`](crate::explore). [`OutOfMemory`](RunError::OutOfMemory) comes also where a run that is tried ends because
/// memory was refused in it.
pub fn shrink<C: Chare<A>, K: Cast<C, A>, S: Suspect<C, A>, A: Allocator + Copy>(
    alloc: A,
    schedule: &Schedule,
    cast: &K,
    events: &[Event],
    suspect: &S,
) -> Result<Option<Explored<C, A>>, RunError>
    ensures answer { IfOk result (λ found. MatchOption found
        (IsWell C.step C.fits C.pack C.refuses C.unpack (K.chares cast.now) schedule.now.pes schedule.now.strategy (S.is_bad suspect.now) events.now)
        (λ x. S.is_bad suspect.now x ≡ true)) }
    ensures explored { IfOk result (λ found. IfSome found
        (IsExplored C.step C.fits C.pack C.unpack (K.chares cast.now) schedule.now.pes schedule.now.strategy)) }
    ensures whole { IfOk result (λ found. IfSome found
        (IsWhole C.step C.fits C.pack C.refuses C.unpack (K.chares cast.now) schedule.now.pes schedule.now.strategy)) }
    ensures few { IfOk result (λ found. IfSome found (λ x. length x.steps ≤ length events.now)) }
    ensures refused { IfErr result (RefusesShrinking schedule.now (length (K.chares cast.now))) }
{
    let Some(first) = bad_run(alloc, schedule, cast, events, suspect)? else {
        return Ok(None);
    };
    let mut best = first;
    let mut size = best.steps().len() / 2;
    while size > 1 {
        best = without_chunks(alloc, schedule, cast, suspect, best, size)?;
        size /= 2;
    }
    for _pass in 0..best.steps().len() {
        let before = best.steps().len();
        best = without_chunks(alloc, schedule, cast, suspect, best, 1)?;
        if best.steps().len() == before {
            break;
        }
    }
    Ok(Some(best))
}

// The run by those of these events that are enabled, where it is bad.
fn bad_run<C: Chare<A>, K: Cast<C, A>, S: Suspect<C, A>, A: Allocator + Copy>(
    alloc: A,
    schedule: &Schedule,
    cast: &K,
    events: &[Event],
    suspect: &S,
) -> Result<Option<Explored<C, A>>, RunError>
    ensures answer { IfOk result (λ found. MatchOption found
        (IsWell C.step C.fits C.pack C.refuses C.unpack (K.chares cast.now) schedule.now.pes schedule.now.strategy (S.is_bad suspect.now) events.now)
        (λ x. S.is_bad suspect.now x ≡ true)) }
    ensures whole { IfOk result (λ found. IfSome found
        (IsWhole C.step C.fits C.pack C.refuses C.unpack (K.chares cast.now) schedule.now.pes schedule.now.strategy)) }
    ensures few { IfOk result (λ found. IfSome found (λ x. length x.steps ≤ length events.now)) }
    ensures refused { IfErr result (RefusesShrinking schedule.now (length (K.chares cast.now))) }
{
    let explored = whole_run(alloc, schedule, cast, events)?;
    if suspect.is_bad(&explored) {
        return Ok(Some(explored));
    }
    Ok(None)
}

// The run by those of these events that are enabled. The errors are those of `shrink`.
fn whole_run<C: Chare<A>, K: Cast<C, A>, A: Allocator + Copy>(
    alloc: A,
    schedule: &Schedule,
    cast: &K,
    events: &[Event],
) -> Result<Explored<C, A>, RunError>
    ensures whole { IfOk result (IsWhole C.step C.fits C.pack C.refuses C.unpack (K.chares cast.now) schedule.now.pes schedule.now.strategy) }
    ensures picks { IfOk result (PicksFrom C.step C.pack C.unpack (K.chares cast.now) schedule.now.pes schedule.now.strategy events.now) }
    ensures few { IfOk result (λ x. length x.steps ≤ length events.now) }
    ensures refused { IfErr result (RefusesShrinking schedule.now (length (K.chares cast.now))) }
{
    let chares = cast.chares(alloc)?;
    let explored = replay_enabled(alloc, schedule, chares, events)?;
    if is_cut_off(&explored) {
        return Err(RunError::OutOfMemory);
    }
    Ok(explored)
}

// Whether a run ended because memory was refused.
fn is_cut_off<C: Chare<A>, A: Allocator>(explored: &Explored<C, A>) -> bool
    ensures answer { IsTrue result ↔ IsCutOff explored.now }
{
    matches!(explored.fault(), Some(Fault::OutOfMemory))
}

// A run that is still bad without some chunks of this size: each chunk is left out in turn, and stays out where the run without
// it is shorter and bad.
fn without_chunks<C: Chare<A>, K: Cast<C, A>, S: Suspect<C, A>, A: Allocator + Copy>(
    alloc: A,
    schedule: &Schedule,
    cast: &K,
    suspect: &S,
    bad: Explored<C, A>,
    size: usize,
) -> Result<Explored<C, A>, RunError>
    requires bad { S.is_bad suspect.now bad ≡ true }
    requires whole { IsWhole C.step C.fits C.pack C.refuses C.unpack (K.chares cast.now) schedule.now.pes schedule.now.strategy bad }
    ensures bad { IfOk result (λ x. S.is_bad suspect.now x ≡ true) }
    ensures whole { IfOk result (IsWhole C.step C.fits C.pack C.refuses C.unpack (K.chares cast.now) schedule.now.pes schedule.now.strategy) }
    ensures few { IfOk result (λ x. length x.steps ≤ length bad.steps) }
    ensures refused { IfErr result (RefusesShrinking schedule.now (length (K.chares cast.now))) }
{
    let mut best = bad;
    let mut at = 0;
    for _turn in 0..best.steps().len() {
        if best.steps().len() <= at {
            break;
        }
        let (run, next) = without_chunk(alloc, schedule, cast, suspect, best, at, size)?;
        best = run;
        at = next;
    }
    Ok(best)
}

// A run that is still bad without a chunk of this size from step `at` on, and the step at which the next chunk begins; or the
// given run where it is not bad without the chunk, or no shorter.
fn without_chunk<C: Chare<A>, K: Cast<C, A>, S: Suspect<C, A>, A: Allocator + Copy>(
    alloc: A,
    schedule: &Schedule,
    cast: &K,
    suspect: &S,
    bad: Explored<C, A>,
    at: usize,
    size: usize,
) -> Result<(Explored<C, A>, usize), RunError>
    requires bad { S.is_bad suspect.now bad ≡ true }
    requires whole { IsWhole C.step C.fits C.pack C.refuses C.unpack (K.chares cast.now) schedule.now.pes schedule.now.strategy bad }
    ensures bad { IfOk result (λ next. S.is_bad suspect.now next.0 ≡ true) }
    ensures whole { IfOk result (λ next. IsWhole C.step C.fits C.pack C.refuses C.unpack (K.chares cast.now) schedule.now.pes schedule.now.strategy next.0) }
    ensures few { IfOk result (λ next. length next.0.steps ≤ length bad.steps) }
    ensures refused { IfErr result (RefusesShrinking schedule.now (length (K.chares cast.now))) }
{
    let candidate = events_without(alloc, &bad, at, size)?;
    let Some(run) = bad_run(alloc, schedule, cast, &candidate, suspect)? else {
        return Ok((bad, at.saturating_add(size)));
    };
    if bad.steps().len() <= run.steps().len() {
        return Ok((bad, at.saturating_add(size)));
    }
    Ok((run, at))
}

// The events of a run except a chunk of this size from step `at` on, and the event that was refused.
fn events_without<C: Chare<A>, A: Allocator + Copy>(
    alloc: A,
    run: &Explored<C, A>,
    at: usize,
    size: usize,
) -> Result<Vec<Event, A>, AllocError> {
    let end = at.saturating_add(size);
    let mut events = Vec::new(alloc);
    for (place, step) in run.steps().iter().enumerate() {
        if place < at || end <= place {
            events.push(step.event())?;
        }
    }
    if let Some(event) = run.refused() {
        events.push(event)?;
    }
    Ok(events)
}
