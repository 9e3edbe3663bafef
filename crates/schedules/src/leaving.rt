//! What a course leaves.

ghost use Rattle.std.specs.Prelude.{◌≡◌, ◌≤◌, ◌↔◌, IfOk, IsTrue, map};
ghost use Rattle.lb_database.specs.Measuring.{elements};
ghost use Rattle.rts_core.specs.Worlds.{opening_words};
ghost use Rattle.schedules.specs.Courses.{IsDone, IsExplored, left_by};
ghost use Rattle.schedules.specs.Endings.{fault_in, fault_of, refused_in};
ghost use Rattle.schedules.specs.declared.leaving.Ending.TheVariants.{Done};

use crate::explored::Explored;
use chare_index::{Limits, Pe, Pes};
use chares::{Chare, Openings};
use courses::{Course, Refusal};
use pe_state::{HeldParcel, PeEnd, PeState, StepError, into_held};
use pe_worker::Fault;
use rts_core::{Event, Queue, World, opening_words};
use rts_run::Outcome;
use run_account::take_next;
use std::alloc::{AllocError, Allocator};
use std::collections::VecDeque;
use sync_board::Board;

/// How a course ended.
#[derive(Clone, Copy)]
pub(crate) enum Ending {
    /// Every element has finished, and no letter is held.
    Done,
    /// It is not done, and no event is enabled.
    Idle,
    /// It is not done, and its events are used up.
    Stopped,
    /// An event was refused.
    Refused(Refusal),
}

impl Ending {
    /// Why the run ended early.
    fn fault(&self) -> Option<Fault>
        ensures value { result ≡ fault_in self.now }
    {
        match self {
            Ending::Done => None,
            Ending::Idle => Some(Fault::Idle),
            Ending::Stopped => Some(Fault::Stopped),
            Ending::Refused(refusal) => Some(fault_of(refusal.error)),
        }
    }

    /// The event that was refused, if there was one.
    fn refused(&self) -> Option<Event>
        ensures value { result ≡ refused_in self.now }
    {
        match self {
            Ending::Refused(refusal) => Some(refusal.event),
            _ => None,
        }
    }
}

// The fault for a step that was refused.
fn fault_of(error: StepError) -> Fault
    ensures value { result ≡ fault_of error }
{
    match error {
        StepError::OutOfMemory => Fault::OutOfMemory,
        StepError::Unpack => Fault::Unpack,
        StepError::Stranger => Fault::Stranger,
        StepError::TooLong => Fault::TooLong,
        StepError::Worn => Fault::Worn,
    }
}

/// Whether every element has finished and no letter is held.
pub(crate) fn is_done<C: Chare<A>, H: Openings<C>, A: Allocator>(world: &World<C, H, A>) -> bool
    ensures answer { IsTrue result ↔ IsDone world.now }
{
    world.board().all_finished() && world.account().held == 0
}

/// What a course left that ended in this way.
pub(crate) fn leave<C: Chare<A>, H: Openings<C>, A: Allocator + Copy>(
    alloc: A,
    course: Course<C, H, A>,
    ending: Ending,
) -> Result<Explored<C, A>, AllocError>
    requires done { ending ≡ Done → IsDone course.world }
    ensures explored { IfOk result (IsExplored C.step C.fits C.pack C.unpack H.opened H.pes course.strategy) }
    ensures world { IfOk result (λ x. left_by x ≡ course.world) }
    ensures steps { IfOk result (λ x. x.steps ≡ course.steps) }
    ensures refused { IfOk result (λ x. x.refused ≡ refused_in ending) }
    ensures fault { IfOk result (λ x. x.outcome.fault ≡ fault_in ending) }
{
    let (world, steps) = course.into_parts();
    let (pes, queues, words, board) = world.into_parts();
    let homes = homes_of(alloc, &board)?;
    let ends = ends_of(alloc, pes)?;
    let left = left_in(alloc, queues)?;
    let fault = ending.fault();
    let refused = ending.refused();
    let outcome = Outcome::new(homes, ends, left, board, fault);
    Ok(Explored::new(outcome, words, steps, refused))
}

// The PE on which each element of a board opened.
fn homes_of<A: Allocator + Copy>(alloc: A, board: &Board<A>) -> Result<Vec<Pe, A>, AllocError>
    requires few { elements board.now.database ≤ Limits.ELEMENTS }
    requires some_pe { 1 ≤ board.now.pes }
    requires few_pes { board.now.pes ≤ Limits.PES }
    ensures value { IfOk result (λ homes. homes.items ≡ opening_words (elements board.now.database) board.now.pes) }
{
    opening_words(alloc, board.len() as u32, Pes::of(board.pes()))
}

// The ends of these PEs.
fn ends_of<C: Chare<A>, H: Openings<C>, A: Allocator + Copy>(
    alloc: A,
    pes: Vec<PeState<C, H, A>, A>,
) -> Result<Vec<PeEnd<C, A>, A>, AllocError>
    ensures value { IfOk result (λ ends. ends.items ≡ pes.items) }
{
    let mut ends = Vec::new(alloc);
    let mut states = VecDeque::from_vec(pes);
    while let Some(pe) = take_next(&mut states) {
        ends.push(pe.into_end())?;
    }
    Ok(ends)
}

// What is left in these queues.
fn left_in<C: Chare<A>, H: Openings<C>, A: Allocator + Copy>(
    alloc: A,
    queues: Vec<Queue<C, H, A>, A>,
) -> Result<Vec<Vec<HeldParcel<A>, A>, A>, AllocError>
    ensures value { IfOk result (λ left. map (λ q. q.items) left.items ≡ queues.items) }
{
    let mut left = Vec::new(alloc);
    let mut queues = VecDeque::from_vec(queues);
    while let Some(queue) = take_next(&mut queues) {
        left.push(parcels_of(alloc, queue)?)?;
    }
    Ok(left)
}

// What is left in a queue.
fn parcels_of<C: Chare<A>, H: Openings<C>, A: Allocator + Copy>(
    alloc: A,
    queue: Queue<C, H, A>,
) -> Result<Vec<HeldParcel<A>, A>, AllocError>
    ensures value { IfOk result (λ left. left.items ≡ queue) }
{
    let mut left = Vec::new(alloc);
    let mut parcels = queue.into_parcels();
    while let Some(parcel) = take_next(&mut parcels) {
        left.push(into_held(parcel))?;
    }
    Ok(left)
}
