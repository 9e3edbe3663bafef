//! Whether anything was left to do when a run ended.

ghost use Rattle.std.specs.Prelude.{◌≡◌, ◌↔◌, All, IsTrue, [], map};
ghost use Rattle.round_marks.specs.Quiet.{IsAtRest, IsQuiet, IsQuietPe};

use chare_index::Round;
use chares::{Chare, Element};
use pe_state::{HeldParcel, PeEnd};
use std::alloc::Allocator;
use sync_board::Board;

/// Whether nothing was left to do in a run: its board waits for reports, every element has started, none waits for the end of a round
/// that is decided, no note is owed, and no parcel is anywhere but on a shelf. The check takes no memory, and time linear in the
/// number of elements and PEs.
pub fn run_is_quiet<C: Chare<A>, A: Allocator>(
    board: &Board<A>,
    ends: &[PeEnd<C, A>],
    left: &[Vec<HeldParcel<A>, A>],
) -> bool
    ensures quiet { IsTrue result ↔ IsQuiet board.now ends.now (map (λ queue. queue.items) left.now) }
{
    if board.is_complete() {
        return false;
    }
    pes_are_quiet(board, ends) && queues_are_empty(left)
}

// Whether nothing is left to do at these PEs.
fn pes_are_quiet<C: Chare<A>, A: Allocator>(board: &Board<A>, pes: &[PeEnd<C, A>]) -> bool
    ensures { IsTrue result ↔ All (IsQuietPe board.now) pes.now }
{
    for pe in pes {
        if !pe_is_quiet(board, pe) {
            return false;
        }
    }
    true
}

// Whether these queues are empty.
fn queues_are_empty<A: Allocator>(queues: &[Vec<HeldParcel<A>, A>]) -> bool
    ensures { IsTrue result ↔ All (λ queue. queue ≡ []) (map (λ queue. queue.items) queues.now) }
{
    for queue in queues {
        if !is_vacant(queue.as_slice()) {
            return false;
        }
    }
    true
}

// Whether a queue has no parcel.
fn is_vacant<A: Allocator>(queue: &[HeldParcel<A>]) -> bool
    ensures { IsTrue result ↔ (queue.now ≡ []) }
{
    queue.is_empty()
}

// Whether nothing is left to do at a PE.
fn pe_is_quiet<C: Chare<A>, A: Allocator>(board: &Board<A>, pe: &PeEnd<C, A>) -> bool
    ensures { IsTrue result ↔ IsQuietPe board.now pe.now }
{
    if pe.hand().is_some() || !pe.outbox().is_empty() || !pe.notes().is_empty() {
        return false;
    }
    room_rests(board, pe)
}

// Whether all elements in the room of a PE are at rest.
fn room_rests<C: Chare<A>, A: Allocator>(board: &Board<A>, pe: &PeEnd<C, A>) -> bool
    ensures { IsTrue result ↔ All (λ x. IsAtRest board.now x.1) pe.now.room }
{
    for (_, element) in pe.room().iter() {
        if !is_at_rest(board, element) {
            return false;
        }
    }
    true
}

// Whether an element is at rest.
fn is_at_rest<C: Chare<A>, A: Allocator>(board: &Board<A>, element: &Element<C, A>) -> bool
    ensures { IsTrue result ↔ IsAtRest board.now element.now }
{
    let progress = element.progress();
    if !progress.started {
        return false;
    }
    if !progress.synced {
        return true;
    }
    let round = Round::new(progress.round.get() + 1).unwrap();
    board.kept_for(round).is_none()
}
