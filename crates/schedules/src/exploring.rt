//! Runs by a seed.

ghost use Rattle.std.specs.Prelude.{◌≡◌, ◌≤◌, ◌↔◌, [], IfOk, IsTrue, MatchResult, length};
ghost use Rattle.courses.specs.Courses.{IsIdle, trace_of};
ghost use Rattle.rts_core.specs.Worlds.{opening_world};
ghost use Rattle.schedules.specs.Choices.{Knows, turn_of};
ghost use Rattle.schedules.specs.Counting.{Counts};
ghost use Rattle.schedules.specs.Courses.{IsDone, IsExplored};
ghost use Rattle.schedules.specs.Drawn.{DrawsTo, IsDrawn};
ghost use Rattle.schedules.specs.Endings.{EndsCourse, EndsRun, refused_in};
ghost use Rattle.schedules.specs.Schedules.{MayExplore, RefusesSchedule};

use crate::chooser::Chooser;
use crate::drawing::draw_step;
use crate::explored::Explored;
use crate::leaving::{Ending, is_done, leave};
use crate::letter_count::LetterCount;
use crate::schedule::Schedule;
use chare_index::{Limits, Pes};
use chares::{Chare, Openings};
use courses::Course;
use rts_run::RunError;
use std::alloc::{AllocError, Allocator};
use std::marker::Brand;

/// Runs chares on one thread until every element has finished and no letter is held, the events of the schedule are used up,
/// nothing is enabled, or a handler meets a fault; and returns what that left. Element `i` is the `i`-th chare, and opens on PE
/// `i * pes / n`, rounded down, of `n` elements. Each next event is drawn among those that are enabled, by a generator with this
/// seed: docs/RUNS.md says how. The same schedule, seed and chares always lead to the same steps.
///
/// The clause `explored` says of the result: the steps lead from the opening to the world that is left, each of them enabled;
/// each letter that was posted is in one place or was executed once, by its own element; each element is what its journal says;
/// and without a fault every element has finished and no letter is held. The clause `ends` says why it ended: as
/// [`Idle`](pe_worker::Fault::Idle) only where no event at all is enabled, as [`Stopped`](pe_worker::Fault::Stopped) only where it
/// has taken as many steps as the schedule allows, and with any other fault only where the event that was refused has a cause for
/// it in the world that is left: a handler that may return it, the last round, or memory. The clause `drawn` says that each step has
/// the event that the seed draws there under the bias, and so has the event that was refused. None was taken, and none refused, once
/// every element had finished and no letter was held: the run ends there.
///
/// # Errors
///
/// The first that applies: [`Config`](RunError::Config) where the number of PEs is out of its limits, or there are more than
/// [`Limits::ELEMENTS`] chares; [`OutOfMemory`](RunError::OutOfMemory) before the first step or after the last. Where memory is
/// refused in a step, the result is a run that ends with that fault.
pub fn explore<C: Chare<A>, A: Allocator + Copy>(
    alloc: A,
    schedule: &Schedule,
    seed: u64,
    chares: Vec<C, A>,
) -> Result<Explored<C, A>, RunError>
    ensures answer { MatchResult result (λ _. MayExplore schedule.now (length chares.items)) (RefusesSchedule schedule.now (length chares.items)) }
    ensures explored { IfOk result (IsExplored C.step C.fits C.pack C.unpack chares.items schedule.now.pes schedule.now.strategy) }
    ensures few { IfOk result (λ x. length x.steps ≤ schedule.now.steps) }
    ensures ends { IfOk result (EndsRun C.step C.pack C.refuses C.unpack schedule.now.steps) }
    ensures drawn { IfOk result (IsDrawn C.step C.pack C.unpack schedule.now.bias seed
        (opening_world schedule.now.pes chares.items schedule.now.strategy)) }
{
    if let Some(_setting) = schedule.first_outside(chares.len()) {
        return Err(RunError::Config);
    }
    match explore_as::<C, Brand, A>(alloc, schedule, seed, chares) {
        Ok(explored) => Ok(explored),
        Err(_) => Err(RunError::OutOfMemory),
    }
}

// The run of the chares that `H` names.
fn explore_as<C: Chare<A>, H: Openings<C>, A: Allocator + Copy>(
    alloc: A,
    schedule: &Schedule,
    seed: u64,
    chares: Vec<C, A>,
) -> Result<Explored<C, A>, AllocError>
    requires may { MayExplore schedule.now (length chares.items) }
    requires run { schedule.now.pes ≡ H.pes }
    requires opened { chares.items ≡ H.opened }
    ensures explored { IfOk result (IsExplored C.step C.fits C.pack C.unpack H.opened H.pes schedule.now.strategy) }
    ensures few { IfOk result (λ x. length x.steps ≤ schedule.now.steps) }
    ensures ends { IfOk result (EndsRun C.step C.pack C.refuses C.unpack schedule.now.steps) }
    ensures drawn { IfOk result (IsDrawn C.step C.pack C.unpack schedule.now.bias seed (opening_world H.pes H.opened schedule.now.strategy)) }
{
    let pes = Pes::of(schedule.pes);
    let mut course = Course::<C, H, A>::new(alloc, pes, chares, schedule.strategy)?;
    let mut chooser = Chooser::new(alloc, course.world(), seed, schedule.bias)?;
    let ending = draw_steps(&mut course, &mut chooser, schedule.steps);
    leave(alloc, course, ending)
}

// Takes one step after another, until the course is done, and up to the limit of the schedule.
fn draw_steps<C: Chare<A>, H: Openings<C>, A: Allocator + Copy>(
    course: &mut Course<C, H, A>,
    chooser: &mut Chooser<A>,
    steps: u64,
) -> Ending
    requires some_pe { 1 ≤ H.pes }
    requires fresh { course.old.steps ≡ [] }
    requires knows { Knows course.old.world chooser.old.choices }
    ensures strategy { course.new.strategy ≡ course.old.strategy }
    ensures few { length course.new.steps ≤ steps }
    ensures ends { EndsCourse C.step C.pack C.refuses C.unpack course.new.world
        (IsIdle C.step C.pack C.unpack course.new.world) (length course.new.steps ≡ steps) result }
    ensures drawn { DrawsTo C.step C.pack C.unpack chooser.old.bias (turn_of course.old.world chooser.old) course.new.steps
        course.new.world (refused_in result) }
{
    let mut letters = LetterCount::of_no_step();
    for _step in 0..steps {
        if is_over(course, letters) {
            return Ending::Done;
        }
        match draw_step(course, chooser) {
            Ok(true) => letters = letters.with_last(course.steps()),
            Ok(false) => return Ending::Idle,
            Err(refusal) => return Ending::Refused(refusal),
        }
    }
    if is_done(course.world()) {
        return Ending::Done;
    }
    Ending::Stopped
}

// Whether a course is done whose letters have been counted. Their places are visited only where as many were executed as were posted.
fn is_over<C: Chare<A>, H: Openings<C>, A: Allocator>(
    course: &Course<C, H, A>,
    letters: LetterCount,
) -> bool
    requires some_pe { 1 ≤ H.pes }
    requires counts { Counts (trace_of course.now.steps) letters }
    ensures answer { IsTrue result ↔ IsDone course.now.world }
{
    let _led = course.steps();
    letters.is_balanced() && is_done(course.world())
}
