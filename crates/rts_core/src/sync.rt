//! The events between a PE and the board.

ghost use Rattle.std.specs.Prelude.{◌≡◌, ◌<◌, ℕ, List, [], ◌∷◌, length, IfOk, IfErr, OnOk, OnErr, IfSome, IsSome, None, Some, MatchBool, All, slice_get};
ghost use Rattle.lb_database.specs.Measuring.{elements};
ghost use Rattle.chares.specs.declared.trace_entry.TraceEntry.{TraceEntry};
ghost use Rattle.chares.specs.declared.note.Note.{Note};
ghost use Rattle.pe_state.specs.Pes.{PeView};
ghost use Rattle.pe_state.specs.Rooms.{found};
ghost use Rattle.pe_state.specs.declared.error.StepError.TheVariants.{OutOfMemory};
ghost use Rattle.rts_core.specs.Events.{report_event, board_after, note_entries, depart_event, MayDecide};
ghost use Rattle.rts_core.specs.Parts.{or_same};
ghost use Rattle.rts_core.specs.Refusals.{RefusesDecide};

use crate::handlers::due_at;
use crate::reports::Reports;
use chare_index::{Index, Limits, Pe, Round};
use chares::{Chare, Note, Openings, StateBytes, TraceEntry};
use lb_snapshot::Units;
use pe_state::{PeState, StepError};
use std::alloc::{AllocError, Allocator};
use sync_board::Board;

/// Report: the first note that the PE owes goes to the board.
pub(crate) fn report<C: Chare<A>, H: Openings<C>, A: Allocator + Copy>(
    alloc: A,
    pe: &mut PeState<C, H, A>,
    board: &mut Board<A>,
) -> Result<Reports<A>, AllocError>
    ensures ok { IfOk result (λ reports. (pe.new, board.new, reports) ≡ or_same (pe.old, board.old, []) (report_event pe.old board.old)) }
    ensures err { OnErr result (pe.new ≡ pe.old) }
    ensures same_board { OnErr result (board.new ≡ board.old) }
    ensures enabled { OnErr result (IsSome (slice_get pe.old.notes 0)) }
{
    let Some(note) = pe.next_note() else {
        return Ok(Reports::none(alloc));
    };
    let reports = entries_of_note(alloc, &note)?;
    if !report_note(board, &note) {
        return Ok(Reports::none(alloc));
    }
    pe.note_done();
    Ok(reports)
}

// The trace entries of a note.
fn entries_of_note<A: Allocator>(alloc: A, note: &Note) -> Result<Reports<A>, AllocError>
    ensures { IfOk result (λ reports. reports ≡ note_entries note.now) }
{
    let mut reports = Vec::new(alloc);
    if let Note::Sync(e, round, _, _, _) = note {
        reports.push(TraceEntry::Synced(*e, *round))?;
    }
    Ok(Reports::of(reports))
}

// Gives a note to the board, and returns whether the board takes it.
fn report_note<A: Allocator>(board: &mut Board<A>, note: &Note) -> bool
    ensures taken { MatchBool result (board_after board.old note.now ≡ Some board.new) (board_after board.old note.now ≡ None) }
    ensures refused { MatchBool result (Unit {0}) (board.new ≡ board.old) }
{
    match note {
        Note::Sync(e, round, units, bytes, at) => {
            report_sync(board, *e, *round, *units, *bytes, *at)
        }
        Note::Finish(e) => report_finish(board, *e),
    }
}

// Reports to the board that an element waits for the end of its round.
#[tactic(auto, using(crate::proofs::Notes::sync_taken, crate::proofs::Notes::sync_refused, crate::proofs::Notes::sync_elsewhere))]
fn report_sync<A: Allocator>(
    board: &mut Board<A>,
    e: Index,
    round: Round,
    units: Units,
    bytes: StateBytes,
    at: Pe,
) -> bool
    ensures taken { MatchBool result (board_after board.old (Note.Sync e round units bytes at) ≡ Some board.new)
        (board_after board.old (Note.Sync e round units bytes at) ≡ None) }
    ensures refused { MatchBool result (Unit {0}) (board.new ≡ board.old) }
{
    if board.pes() <= at.get() {
        return false;
    }
    board.report(e.get(), round, units, bytes.get(), at).is_ok()
}

// Reports to the board that an element has finished.
#[tactic(auto, using(crate::proofs::Notes::finish_taken, crate::proofs::Notes::finish_refused))]
fn report_finish<A: Allocator>(board: &mut Board<A>, e: Index) -> bool
    ensures taken { MatchBool result (board_after board.old (Note.Finish e) ≡ Some board.new) (board_after board.old (Note.Finish e) ≡ None) }
    ensures refused { MatchBool result (Unit {0}) (board.new ≡ board.old) }
{
    board.finish(e.get()).is_ok()
}

/// Decide: the board decides its round.
pub(crate) fn decide<A: Allocator + Copy>(
    alloc: A,
    board: &mut Board<A>,
) -> Result<Reports<A>, StepError>
    ensures ok { IfOk result (λ reports. MayDecide board.old board.new reports) }
    ensures err { OnErr result (board.new ≡ board.old) }
    ensures refused { IfErr result (RefusesDecide board.old.database) }
    ensures counted { elements board.new.database ≡ elements board.old.database }
    ensures pes { board.new.pes ≡ board.old.pes }
{
    let mut reports = Vec::new(alloc);
    if !board.is_complete() {
        return Ok(Reports::of(reports));
    }
    if board.database().round().get() == Limits::ROUND {
        return Err(StepError::Worn);
    }
    reports.reserve(1)?;
    let Ok(round) = board.decide() else {
        return Err(StepError::OutOfMemory);
    };
    let Ok(()) = reports.push(TraceEntry::Decided(round)) else {
        unreachable!()
    };
    Ok(Reports::of(reports))
}

/// Depart: an element leaves for its place, and its location word names that.
pub(crate) fn depart<C: Chare<A>, H: Openings<C>, A: Allocator + Copy>(
    alloc: A,
    p: Pe,
    pe: &mut PeState<C, H, A>,
    words: &mut [Pe],
    board: &Board<A>,
    e: Index,
) -> Result<Reports<A>, StepError>
    requires same_array { elements board.now.database ≡ length H.opened }
    requires same_pes { board.now.pes ≡ H.pes }
    requires worded { length words.old ≡ length H.opened }
    requires named { All (λ q. q < H.pes) words.old }
    ensures ok { IfOk result (λ reports. (pe.new, words.new, reports) ≡ or_same (pe.old, words.old, []) (depart_event C.step C.pack p pe.old words.old board.now e)) }
    ensures err { OnErr result (pe.new ≡ pe.old) }
    ensures same_words { OnErr result (words.new ≡ words.old) }
    ensures enabled { OnErr result (IsSome (depart_event C.step C.pack p pe.old words.old board.now e)) }
    ensures only_memory { IfErr result (λ error. error ≡ OutOfMemory) }
    ensures named { All (λ q. q < H.pes) words.new }
    ensures fits { IfSome (found e pe.old.room) (λ el. C.fits el.chare) }
{
    meet_chare(pe, e);
    let mut reports = Vec::new(alloc);
    let Some((_, place)) = due_at(pe, board, e) else {
        return Ok(Reports::of(reports));
    };
    if place == p {
        return Ok(Reports::of(reports));
    }
    reports.reserve(1)?;
    pe.depart(e, place)?;
    words[e.get() as usize] = place;
    let Ok(()) = reports.push(TraceEntry::Departed(e)) else {
        unreachable!()
    };
    Ok(Reports::of(reports))
}

// Needed for the clause `fits` alone: a chare that has a packed length is a value of its type. A world computes this length
// also where the element may not depart; a run does not, since its workers call `PeState::depart`, which packs at once.
fn meet_chare<C: Chare<A>, H: Openings<C>, A: Allocator>(pe: &PeState<C, H, A>, e: Index)
    ensures { IfSome (found e pe.now.room) (λ el. C.fits el.chare) }
{
    let Some(element) = pe.room().element(e) else {
        return;
    };
    let _len = element.chare().packed_len();
}
