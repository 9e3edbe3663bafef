//! What is enabled in a world, of one PE or of one element.

ghost use Rattle.std.specs.Prelude.{◌≡◌, false, slice_get};
ghost use Rattle.std.specs.Option.{option_map_or};
ghost use Rattle.schedules.specs.Draws.{element_event, goes_to, is_waiting, may_act_on, moves_at, moves_of, place_of};

use chare_index::{Index, Pe, Round};
use chares::{Carried, Chare, Openings};
use pe_state::PeState;
use rts_core::{Event, World};
use std::alloc::Allocator;
use sync_board::Board;

/// Which steps a PE may make that name no element.
#[derive(Clone, Copy, Debug)]
pub(crate) struct Moves {
    pub(crate) look: bool,
    pub(crate) flush: bool,
    pub(crate) deliver: bool,
    pub(crate) act: bool,
    pub(crate) report: bool,
}

/// Which steps a PE may make, or none where there is no such PE.
pub(crate) fn moves_at<C: Chare<A>, H: Openings<C>, A: Allocator>(
    world: &World<C, H, A>,
    p: Pe,
) -> Moves
    ensures value { result ≡ moves_at world.now p }
{
    let Some(pe) = world.pe(p) else {
        return Moves {
            look: false,
            flush: false,
            deliver: false,
            act: false,
            report: false,
        };
    };
    Moves {
        look: pe.wants().is_some(),
        flush: pe.front_out().is_some(),
        deliver: is_waiting(world, p) && pe.as_end().hand().is_none(),
        act: may_act(pe),
        report: pe.next_note().is_some(),
    }
}

// Whether a parcel waits before a PE.
fn is_waiting<C: Chare<A>, H: Openings<C>, A: Allocator>(world: &World<C, H, A>, p: Pe) -> bool
    ensures value { result ≡ option_map_or is_waiting (slice_get world.now.queues p) false }
{
    match world.queue(p) {
        Some(queue) => !queue.parcels().is_empty(),
        None => false,
    }
}

// Whether a PE may act on what is in its hand: not on a letter whose element has not started, or that has to be looked up
// first.
fn may_act<C: Chare<A>, H: Openings<C>, A: Allocator>(pe: &PeState<C, H, A>) -> bool
    ensures value { result ≡ may_act_on pe.now pe.now.hand }
{
    let Some(item) = pe.as_end().hand() else {
        return false;
    };
    let Carried::Letter(letter) = &item.parcel else {
        return true;
    };
    match pe.room().element(letter.to()) {
        Some(element) => element.progress().started,
        None => item.address.is_some(),
    }
}

/// The event by which an element starts, departs or goes on, where it is on this PE and may do so.
pub(crate) fn element_event<C: Chare<A>, H: Openings<C>, A: Allocator>(
    world: &World<C, H, A>,
    element: Index,
    at: Pe,
) -> Option<Event>
    ensures value { result ≡ element_event world.now element at }
{
    let pe = world.pe(at)?;
    if !pe.room().element(element)?.progress().started {
        return Some(Event::Start(at, element));
    }
    let round = pe.waits_for(element)?;
    let place = place_in(world.board(), round, element)?;
    Some(going(at, element, place))
}

// The place of an element in the decision of a round.
fn place_in<A: Allocator>(board: &Board<A>, round: Round, element: Index) -> Option<Pe>
    ensures value { result ≡ place_of board.now round element }
{
    let _elements = board.len();
    board.place_for(round, element)
}

// The event by which an element goes on or departs.
fn going(at: Pe, element: Index, place: Pe) -> Event
    ensures value { result ≡ goes_to at element place }
{
    if place == at {
        Event::Resume(at, element)
    } else {
        Event::Depart(at, element)
    }
}
