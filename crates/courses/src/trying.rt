//! An event that happens where it is enabled.

ghost use Rattle.std.specs.Prelude.{◌≡◌, IfErr, IfOk, IsSome, OnErr, MatchBool, MatchOption, true};
ghost use Rattle.rts_core.specs.Events.{Happens, board_after};
ghost use Rattle.rts_core.specs.Refusals.{RefusesEvent};
ghost use Rattle.courses.specs.Courses.{IsEnabled, is_silent};

use chare_index::Pe;
use chares::{Chare, Note, Openings};
use pe_state::StepError;
use rts_core::{Event, Reports, World};
use std::alloc::Allocator;
use sync_board::Board;

/// Makes an event happen, and returns its trace entries; or returns `None`, and changes nothing, where it is not enabled.
///
/// # Errors
///
/// Those of [`World::step`], on which the world is unchanged.
#[tactic(auto, using(crate::proofs::TriedEvents::was_enabled, crate::proofs::TriedEvents::was_not))]
pub(crate) fn try_step<C: Chare<A>, H: Openings<C>, A: Allocator + Copy>(
    world: &mut World<C, H, A>,
    event: &Event,
) -> Result<Option<Reports<A>>, StepError>
    ensures tried { IfOk result (λ tried. MatchOption tried (¬ (IsEnabled C.step C.pack C.unpack world.old event.now) × (world.new ≡ world.old))
        (λ reports. IsEnabled C.step C.pack C.unpack world.old event.now × Happens C.step C.pack C.unpack world.old event.now (world.new, reports))) }
    ensures refused { IfErr result (RefusesEvent C.step C.pack C.refuses C.unpack world.old event.now) }
    ensures err { OnErr result (world.new ≡ world.old) }
{
    if is_silent(event) {
        return try_silent(world, event);
    }
    let reports = world.step(*event)?;
    if reports.is_empty() {
        return Ok(None);
    }
    Ok(Some(reports))
}

// Whether an event may have no trace entry that shows that it happened.
fn is_silent(event: &Event) -> bool
    ensures value { result ≡ is_silent event.now }
{
    matches!(
        event,
        Event::Look(_) | Event::Flush(_) | Event::Deliver(_) | Event::Report(_)
    )
}

// Tries an event that may have no trace entry.
fn try_silent<C: Chare<A>, H: Openings<C>, A: Allocator + Copy>(
    world: &mut World<C, H, A>,
    event: &Event,
) -> Result<Option<Reports<A>>, StepError>
    requires silent { is_silent event.now ≡ true }
    ensures tried { IfOk result (λ tried. MatchOption tried (¬ (IsEnabled C.step C.pack C.unpack world.old event.now) × (world.new ≡ world.old))
        (λ reports. IsEnabled C.step C.pack C.unpack world.old event.now × Happens C.step C.pack C.unpack world.old event.now (world.new, reports))) }
    ensures refused { IfErr result (RefusesEvent C.step C.pack C.refuses C.unpack world.old event.now) }
    ensures err { OnErr result (world.new ≡ world.old) }
{
    if !may_happen(world, event) {
        return Ok(None);
    }
    let reports = world.step(*event)?;
    Ok(Some(reports))
}

// Whether an event that may have no trace entry is enabled.
fn may_happen<C: Chare<A>, H: Openings<C>, A: Allocator>(
    world: &World<C, H, A>,
    event: &Event,
) -> bool
    requires silent { is_silent event.now ≡ true }
    ensures answer { MatchBool result (IsEnabled C.step C.pack C.unpack world.now event.now) (¬ (IsEnabled C.step C.pack C.unpack world.now event.now)) }
{
    match event {
        Event::Look(p) => may_look(world, *p),
        Event::Flush(p) => may_flush(world, *p),
        Event::Deliver(p) => may_deliver(world, *p),
        Event::Report(p) => may_report(world, *p),
        _ => false,
    }
}

// Whether PE p has to look up an element, which has a location word.
fn may_look<C: Chare<A>, H: Openings<C>, A: Allocator>(world: &World<C, H, A>, p: Pe) -> bool
    ensures answer { MatchBool result (IsEnabled C.step C.pack C.unpack world.now (Event.Look p)) (¬ (IsEnabled C.step C.pack C.unpack world.now (Event.Look p))) }
{
    let Some(pe) = world.pe(p) else {
        return false;
    };
    let Some(element) = pe.wants() else {
        return false;
    };
    world.word(element).is_some()
}

// Whether the front of the outbox of PE p has an address, and this PE has a queue.
fn may_flush<C: Chare<A>, H: Openings<C>, A: Allocator>(world: &World<C, H, A>, p: Pe) -> bool
    ensures answer { MatchBool result (IsEnabled C.step C.pack C.unpack world.now (Event.Flush p)) (¬ (IsEnabled C.step C.pack C.unpack world.now (Event.Flush p))) }
{
    let Some(pe) = world.pe(p) else {
        return false;
    };
    let Some(to) = pe.front_out() else {
        return false;
    };
    world.queue(to).is_some()
}

// Whether the hand of PE p is empty, and its queue is not.
fn may_deliver<C: Chare<A>, H: Openings<C>, A: Allocator>(world: &World<C, H, A>, p: Pe) -> bool
    ensures answer { MatchBool result (IsEnabled C.step C.pack C.unpack world.now (Event.Deliver p)) (¬ (IsEnabled C.step C.pack C.unpack world.now (Event.Deliver p))) }
{
    let Some(pe) = world.pe(p) else {
        return false;
    };
    let Some(queue) = world.queue(p) else {
        return false;
    };
    pe.as_end().hand().is_none() && !queue.parcels().is_empty()
}

// Whether PE p owes a note that the board takes.
fn may_report<C: Chare<A>, H: Openings<C>, A: Allocator>(world: &World<C, H, A>, p: Pe) -> bool
    ensures answer { MatchBool result (IsEnabled C.step C.pack C.unpack world.now (Event.Report p)) (¬ (IsEnabled C.step C.pack C.unpack world.now (Event.Report p))) }
{
    let Some(pe) = world.pe(p) else {
        return false;
    };
    let Some(note) = pe.next_note() else {
        return false;
    };
    takes(world.board(), &note)
}

// Whether the board takes a note.
fn takes<A: Allocator>(board: &Board<A>, note: &Note) -> bool
    ensures answer { MatchBool result (IsSome (board_after board.now note.now)) (¬ (IsSome (board_after board.now note.now))) }
{
    let database = board.database();
    match note {
        Note::Sync(element, round, _, _, at) => {
            at.get() < board.pes()
                && (element.get() as usize) < database.len()
                && *round == database.round()
                && database.reported(element.get()).is_none()
        }
        Note::Finish(element) => (element.get() as usize) < board.len(),
    }
}
