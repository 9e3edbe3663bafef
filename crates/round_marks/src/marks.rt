//! The marks of one element.

ghost use Rattle.std.specs.Prelude.{◌≡◌, ◌+◌, ◌<◌, ◌≤◌, ◌-◌, ◌↔◌, All, IsTrue, IfSome, Some, length, slice_get};
ghost use Rattle.std.specs.List.Sorted.{IsStrictlyIncreasing};
ghost use Rattle.lb_database.specs.Measuring.{elements};
ghost use Rattle.round_marks.specs.Marked.{AreMarked, AreSynced, IsMeasuredAs, IsResumption, IsResumptionMark, IsSyncOf, StandsAsMarked, round_reached, rounds_resumed};

use chare_index::{Index, Limits, Pe, Round};
use chares::{KeptMark, Mark, Note};
use lb_snapshot::{Snapshot, Units};
use std::alloc::Allocator;
use sync_board::Board;

/// Whether the marks of element `e` agree with what the board decided. The element opens on the PE `home`, and is in the
/// room of the PE `place`, or is packed where there is none. The check takes no memory, and time linear in the number of
/// marks.
///
/// It returns `true` where all of this holds. The element is one of the board's. It reached AtSync once for each round that
/// is decided, with the load, the size and the PE that the round's snapshot has of it, and perhaps once more for the round
/// under way, in the order of the rounds. If it was started, that was at home; and it was resumed only after decided rounds,
/// in the order of the rounds, after none of them twice, and each time at its place in the decision. If its last mark is of
/// a resumption, it is on the PE of that mark.
pub fn marks_agree<A: Allocator>(
    board: &Board<A>,
    e: Index,
    home: Pe,
    place: Option<Pe>,
    marks: &[KeptMark],
) -> bool
    ensures agree { IsTrue result ↔ AreMarked board.now e home place marks.now }
{
    (e.get() as usize) < board.len()
        && are_right(board, e, home, marks)
        && stands_as_marked(place, marks)
}

// Whether element `e` reached AtSync for the rounds as their snapshots say, and each resumption is where it may be and after
// a later round than the one before.
fn are_right<A: Allocator>(board: &Board<A>, e: Index, home: Pe, marks: &[KeptMark]) -> bool
    requires member { e < elements board.now.database }
    ensures { IsTrue result ↔ (AreSynced board.now e marks.now × All (IsResumptionMark board.now e home) marks.now × IsStrictlyIncreasing (rounds_resumed marks.now)) }
{
    let mut reached = 0;
    let mut least = 0;
    for mark in marks {
        match mark.get() {
            Mark::Synced(note) => {
                if !is_next_sync(board, e, reached, &note) {
                    return false;
                }
                reached += 1;
            }
            Mark::Resumed(round, pe) => {
                if !is_next_resumption(board, e, home, least, round, pe) {
                    return false;
                }
                least = round.get() + 1;
            }
        }
    }
    board.rounds().len() <= reached as usize
}

// Whether this note is right, and for the round after the `reached` rounds before it.
fn is_next_sync<A: Allocator>(board: &Board<A>, e: Index, reached: u32, note: &Note) -> bool
    requires few { reached ≤ Limits.ROUND }
    ensures value { IsTrue result ↔ (IsSyncOf board.now e note.now × (round_reached (Mark.Synced note.now) ≡ Some (reached + 1))) }
    ensures below { IsTrue result → reached < Limits.ROUND }
{
    let Note::Sync(index, round, units, bytes, pe) = note else {
        return false;
    };
    if *index != e || round.get() != reached + 1 {
        return false;
    }
    let Some((snapshot, _)) = board.kept_for(*round) else {
        return reached as usize == board.rounds().len();
    };
    is_measured_as(snapshot, e, *units, bytes.get(), *pe)
}

// Whether a snapshot has this of element `e`.
fn is_measured_as<A: Allocator>(
    snapshot: &Snapshot<A>,
    e: Index,
    units: Units,
    bytes: u32,
    pe: Pe,
) -> bool
    ensures { IsTrue result ↔ IsMeasuredAs snapshot.now e units bytes pe }
{
    let i = e.get() as usize;
    let Some(load) = snapshot.loads().as_slice().get(i) else {
        return false;
    };
    let Some((size, place)) = snapshot.sizes().as_slice().get(i) else {
        return false;
    };
    *load == units && *size == bytes && *place == pe
}

// Whether element `e` may be resumed after this round, which is not below `least`, on this PE.
fn is_next_resumption<A: Allocator>(
    board: &Board<A>,
    e: Index,
    home: Pe,
    least: u32,
    round: Round,
    pe: Pe,
) -> bool
    requires member { e < elements board.now.database }
    ensures { IsTrue result ↔ ((least ≤ round) × IsResumption board.now e home round pe) }
{
    least <= round.get() && is_resumption(board, e, home, round, pe)
}

// Whether element `e` may be resumed after this round on this PE.
fn is_resumption<A: Allocator>(board: &Board<A>, e: Index, home: Pe, round: Round, pe: Pe) -> bool
    requires member { e < elements board.now.database }
    ensures { IsTrue result ↔ IsResumption board.now e home round pe }
{
    if round.get() == 0 {
        return pe == home;
    }
    board.place_for(round, e) == Some(pe)
}

// Whether an element is where its last mark says, if that is of a resumption.
fn stands_as_marked(place: Option<Pe>, marks: &[KeptMark]) -> bool
    ensures { IsTrue result ↔ IfSome (slice_get marks.now (length marks.now - 1)) (StandsAsMarked place) }
{
    let Some(last) = marks.last() else {
        return true;
    };
    match last.get() {
        Mark::Synced(_) => true,
        Mark::Resumed(_, pe) => place == Some(pe),
    }
}
