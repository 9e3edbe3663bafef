//! Runs by a list of events.

ghost use Rattle.std.specs.Prelude.{◌≡◌, ◌≤◌, [], IfErr, IfNone, IfOk, IfSome, MatchResult, None, length};
ghost use Rattle.courses.specs.Courses.{events_of};
ghost use Rattle.courses.specs.Picks.{PicksUpTo};
ghost use Rattle.schedules.specs.Courses.{IsExplored};
ghost use Rattle.schedules.specs.Endings.{EndsCourse, EndsList, refused_in};
ghost use Rattle.schedules.specs.Replays.{Follows, FollowsTo, PicksFrom, RefusesReplay, StopsAt};
ghost use Rattle.schedules.specs.Schedules.{MayExplore, RefusesSchedule};

use crate::error::ReplayError;
use crate::explored::Explored;
use crate::leaving::{Ending, is_done, leave};
use crate::schedule::Schedule;
use chare_index::Pes;
use chares::{Chare, Openings};
use courses::Course;
use rts_core::{Event, World};
use rts_run::RunError;
use std::alloc::{AllocError, Allocator};
use std::marker::Brand;

/// Runs chares by a list of events, one after another, and returns what that left. The events of an [`Explored`] lead to the
/// same world again. Of the schedule only the number of PEs and the strategy matter.
///
/// Where a handler refuses an event the run ends with that fault, and the rest of the list is not run. Without such a fault all
/// events have happened, and the run is [`Stopped`](pe_worker::Fault::Stopped) where it is not done. The clause `ends` says so, and
/// that each other fault has its cause in the event that was refused.
///
/// # Errors
///
/// The first that applies: [`Config`](ReplayError::Config) where the number of PEs is out of its limits, or there are too many
/// chares; [`OutOfMemory`](ReplayError::OutOfMemory) before the first step or after the last;
/// [`NotEnabled`](ReplayError::NotEnabled) at the first event that is not enabled.
pub fn replay<C: Chare<A>, A: Allocator + Copy>(
    alloc: A,
    schedule: &Schedule,
    chares: Vec<C, A>,
    events: &[Event],
) -> Result<Explored<C, A>, ReplayError>
    ensures answer { MatchResult result (λ _. MayExplore schedule.now (length chares.items))
        (RefusesReplay A C.step C.pack C.unpack chares.items schedule.now events.now) }
    ensures explored { IfOk result (IsExplored C.step C.fits C.pack C.unpack chares.items schedule.now.pes schedule.now.strategy) }
    ensures follows { IfOk result (Follows events.now) }
    ensures ends { IfOk result (EndsList C.step C.pack C.refuses C.unpack) }
{
    if let Some(setting) = schedule.first_outside(chares.len()) {
        return Err(ReplayError::Config(setting));
    }
    replay_as::<C, Brand, A>(alloc, schedule, chares, events)
}

/// Runs chares by those events of a list that are enabled, each after those before it, and leaves out the others: the clause
/// `picks`. It ends as [`replay`] does.
///
/// # Errors
///
/// Those of [`explore`](crate::explore).
pub fn replay_enabled<C: Chare<A>, A: Allocator + Copy>(
    alloc: A,
    schedule: &Schedule,
    chares: Vec<C, A>,
    events: &[Event],
) -> Result<Explored<C, A>, RunError>
    ensures answer { MatchResult result (λ _. MayExplore schedule.now (length chares.items)) (RefusesSchedule schedule.now (length chares.items)) }
    ensures explored { IfOk result (IsExplored C.step C.fits C.pack C.unpack chares.items schedule.now.pes schedule.now.strategy) }
    ensures picks { IfOk result (PicksFrom C.step C.pack C.unpack chares.items schedule.now.pes schedule.now.strategy events.now) }
    ensures ends { IfOk result (EndsList C.step C.pack C.refuses C.unpack) }
    ensures few { IfOk result (λ x. length x.steps ≤ length events.now) }
{
    if let Some(_setting) = schedule.first_outside(chares.len()) {
        return Err(RunError::Config);
    }
    match replay_enabled_as::<C, Brand, A>(alloc, schedule, chares, events) {
        Ok(explored) => Ok(explored),
        Err(_) => Err(RunError::OutOfMemory),
    }
}

// The run of the chares that `H` names by all of these events.
fn replay_as<C: Chare<A>, H: Openings<C>, A: Allocator + Copy>(
    alloc: A,
    schedule: &Schedule,
    chares: Vec<C, A>,
    events: &[Event],
) -> Result<Explored<C, A>, ReplayError>
    requires may { MayExplore schedule.now (length chares.items) }
    requires run { schedule.now.pes ≡ H.pes }
    requires opened { chares.items ≡ H.opened }
    ensures refused { IfErr result (RefusesReplay A C.step C.pack C.unpack H.opened schedule.now events.now) }
    ensures explored { IfOk result (IsExplored C.step C.fits C.pack C.unpack H.opened H.pes schedule.now.strategy) }
    ensures follows { IfOk result (Follows events.now) }
    ensures ends { IfOk result (EndsList C.step C.pack C.refuses C.unpack) }
{
    let pes = Pes::of(schedule.pes);
    let mut course = Course::<C, H, A>::new(alloc, pes, chares, schedule.strategy)?;
    match follow(&mut course, events) {
        Some(ending) => Ok(leave(alloc, course, ending)?),
        None => Err(ReplayError::NotEnabled(course.steps().len())),
    }
}

// Takes these events one after another, or returns `None` at the first that is not enabled.
fn follow<C: Chare<A>, H: Openings<C>, A: Allocator + Copy>(
    course: &mut Course<C, H, A>,
    events: &[Event],
) -> Option<Ending>
    requires fresh { course.old.steps ≡ [] }
    ensures strategy { course.new.strategy ≡ course.old.strategy }
    ensures follows { IfSome result (λ ending. FollowsTo events.now (events_of course.new.steps) (refused_in ending)) }
    ensures ends { IfSome result (EndsCourse C.step C.pack C.refuses C.unpack course.new.world ⊥ (Unit {0})) }
    ensures stops { IfNone result (StopsAt C.step C.pack C.unpack events.now course.new (length course.new.steps)) }
{
    for event in events {
        match course.take(event) {
            Ok(true) => {}
            Ok(false) => return None,
            Err(refusal) => return Some(Ending::Refused(refusal)),
        }
    }
    Some(at_last(course.world()))
}

// How a course ends whose events are used up.
fn at_last<C: Chare<A>, H: Openings<C>, A: Allocator>(world: &World<C, H, A>) -> Ending
    ensures ends { EndsCourse C.step C.pack C.refuses C.unpack world.now ⊥ (Unit {0}) result }
    ensures refused { refused_in result ≡ None }
{
    if is_done(world) {
        return Ending::Done;
    }
    Ending::Stopped
}

// The run of the chares that `H` names by those of these events that are enabled.
fn replay_enabled_as<C: Chare<A>, H: Openings<C>, A: Allocator + Copy>(
    alloc: A,
    schedule: &Schedule,
    chares: Vec<C, A>,
    events: &[Event],
) -> Result<Explored<C, A>, AllocError>
    requires may { MayExplore schedule.now (length chares.items) }
    requires run { schedule.now.pes ≡ H.pes }
    requires opened { chares.items ≡ H.opened }
    ensures explored { IfOk result (IsExplored C.step C.fits C.pack C.unpack H.opened H.pes schedule.now.strategy) }
    ensures picks { IfOk result (PicksFrom C.step C.pack C.unpack H.opened H.pes schedule.now.strategy events.now) }
    ensures ends { IfOk result (EndsList C.step C.pack C.refuses C.unpack) }
    ensures few { IfOk result (λ x. length x.steps ≤ length events.now) }
{
    let pes = Pes::of(schedule.pes);
    let mut course = Course::<C, H, A>::new(alloc, pes, chares, schedule.strategy)?;
    let ending = follow_enabled(&mut course, events);
    leave(alloc, course, ending)
}

// Takes those of these events that are enabled, up to the first that is refused.
fn follow_enabled<C: Chare<A>, H: Openings<C>, A: Allocator + Copy>(
    course: &mut Course<C, H, A>,
    events: &[Event],
) -> Ending
    requires fresh { course.old.steps ≡ [] }
    ensures strategy { course.new.strategy ≡ course.old.strategy }
    ensures picks { PicksUpTo C.step C.pack C.unpack course.old.world events.now (refused_in result) course.new.steps course.new.world }
    ensures ends { EndsCourse C.step C.pack C.refuses C.unpack course.new.world ⊥ (Unit {0}) result }
    ensures few { length course.new.steps ≤ length events.now }
{
    for event in events {
        match course.take(event) {
            Ok(_) => {}
            Err(refusal) => return Ending::Refused(refusal),
        }
    }
    at_last(course.world())
}
