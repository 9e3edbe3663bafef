//! The steps between a seated PE and the board: its notes, and the elements that go on once a round is decided.

ghost use Rattle.std.specs.Prelude.{◌≡◌, ◌<◌, length, IfErr, IfOk, IfSome, IsSome, OnErr, OnOk, MatchBool, MatchOption, Some, None, is_some, slice_get, true};
ghost use Rattle.chares.specs.declared.note.Note.{Note};
ghost use Rattle.pe_state.specs.Pes.{may_depart, may_resume};
ghost use Rattle.pe_state.specs.Refusals.{RefusesResume, RefusesStep};
ghost use Rattle.rts_core.specs.Events.{board_after};
ghost use Rattle.pe_worker.specs.Causes.{MayRefuse};
ghost use Rattle.pe_worker.specs.Steps.{ReportsNote, due_by, after_round};

use crate::seated::{OfRun, RunBeginning, SeatedPe};
use barrier::{BoardSize, BoardStart, RoundPlaces, RunBoard};
use chare_index::{Gate, Index, Limits, Pe, Round};
use chares::{Chare, Note, Openings, StateBytes};
use lb_snapshot::Units;
use pe_queues::Locations;
use pe_state::StepError;
use std::alloc::Allocator;

// Gives a note to the board, and returns whether the board takes it.
fn report_note<J: BoardSize<A>, A: Allocator>(board: &mut RunBoard<J, A>, note: &Note) -> bool
    ensures taken { MatchBool result (board_after board.old note.now ≡ Some board.new) (board_after board.old note.now ≡ None) }
    ensures refused { MatchBool result (Unit {0}) (board.new ≡ board.old) }
{
    match note {
        Note::Sync(e, round, units, bytes, at) => {
            report_sync(board, *e, *round, *units, *bytes, *at)
        }
        Note::Finish(e) => report_finish(board, *e),
    }
}

// Reports to the board that an element waits for the end of its round.
#[tactic(auto, using(rts_core::proofs::Notes::sync_taken, rts_core::proofs::Notes::sync_refused, rts_core::proofs::Notes::sync_elsewhere))]
fn report_sync<J: BoardSize<A>, A: Allocator>(
    board: &mut RunBoard<J, A>,
    e: Index,
    round: Round,
    units: Units,
    bytes: StateBytes,
    at: Pe,
) -> bool
    ensures taken { MatchBool result (board_after board.old (Note.Sync e round units bytes at) ≡ Some board.new)
        (board_after board.old (Note.Sync e round units bytes at) ≡ None) }
    ensures refused { MatchBool result (Unit {0}) (board.new ≡ board.old) }
{
    if board.pes() <= at.get() {
        return false;
    }
    board.report(e.get(), round, units, bytes.get(), at).is_ok()
}

// Tells the board that an element has finished.
#[tactic(auto, using(rts_core::proofs::Notes::finish_taken, rts_core::proofs::Notes::finish_refused))]
fn report_finish<J: BoardSize<A>, A: Allocator>(board: &mut RunBoard<J, A>, e: Index) -> bool
    ensures taken { MatchBool result (board_after board.old (Note.Finish e) ≡ Some board.new) (board_after board.old (Note.Finish e) ≡ None) }
    ensures refused { MatchBool result (Unit {0}) (board.new ≡ board.old) }
{
    board.finish(e.get()).is_ok()
}

impl<C: Chare<A>, H: Openings<C> + BoardStart<A>, J: RunBeginning<C>, A: Allocator + Copy> SeatedPe<
    C,
    H,
    J,
    A,
> {
    /// Report: gives the first note that is owed to the board, under whose lock the caller is, and returns it. It returns
    /// `None`, and changes nothing, where no note is owed, or where the board refuses it, which then stays owed.
    pub fn report(&mut self, board: &mut RunBoard<OfRun<C, H>, A>) -> Option<Note>
        ensures step { MatchOption result ((self.new ≡ self.old) × (board.new ≡ board.old)) (ReportsNote self.old self.new board.old board.new) }
        ensures refused { MatchOption result (IfSome (slice_get self.old.pe.notes 0) (λ note. board_after board.old note ≡ None)) (λ _. Unit {0}) }
        ensures same_me { self.new.pe.me ≡ self.old.pe.me }
    {
        self.pe.known();
        let note = self.pe.next_note()?;
        if !report_note(board, &note) {
            return None;
        }
        self.pe.note_done();
        Some(note)
    }

    /// Resume or Depart: lets an element that stands here and waits for the end of this round go on, here where its place
    /// is here, and otherwise it departs for its place, which its word names from now on. Returns whether it did; it
    /// changes nothing where the element does not wait for that round.
    ///
    /// # Errors
    ///
    /// The PE is as it was on any of them: out of memory, or what the handler returns.
    pub fn go_on<G: Gate>(
        &mut self,
        gate: &G,
        words: &Locations<OfRun<C, H>, A>,
        places: &RoundPlaces<OfRun<C, H>, A>,
        element: Index,
    ) -> Result<bool, StepError>
        requires run_pes { words.now.pes ≡ H.pes }
        requires run_elements { words.now.elements ≡ length H.opened }
        ensures ok { OnOk result (self.new ≡ record self.old { pe = after_round C.step C.pack self.old.pe places.now element (due_by self.old.pe places.now element) }) }
        ensures done { IfOk result (λ done. done ≡ is_some (due_by self.old.pe places.now element)) }
        ensures err { OnErr result (self.new ≡ self.old) }
        ensures enabled { OnErr result (IsSome (due_by self.old.pe places.now element)) }
        ensures refused { IfErr result (RefusesStep (RefusesResume C.refuses self.old.pe element places.now.round)) }
        ensures cause { IfErr result (RefusesStep (MayRefuse C.step C.pack C.refuses H.opened)) }
        ensures same_me { self.new.pe.me ≡ self.old.pe.me }
    {
        self.pe.known();
        let Some(place) = self.due_at(places, element) else {
            return Ok(false);
        };
        if place == self.pe.me() {
            self.pe.resume(gate, element, places.round())?;
            return Ok(true);
        }
        self.pe.depart(element, place)?;
        words.set(element, place);
        Ok(true)
    }

    // The place of an element that stands here and waits for the end of this round.
    fn due_at(&self, places: &RoundPlaces<OfRun<C, H>, A>, element: Index) -> Option<Pe>
        ensures value { result ≡ due_by self.now.pe places.now element }
        ensures below { IfSome result (λ place. place < H.pes) }
        ensures resumes { IfSome result (λ place. may_resume self.now.pe element places.now.round ≡ true) }
        ensures before_last_round { IfSome result (λ place. places.now.round < Limits.ROUND) }
        ensures departs { IfSome result (λ place. may_depart self.now.pe element ≡ true) }
        ensures within { IfSome result (λ place. element < length H.opened) }
    {
        let round = self.pe.waits_for(element)?;
        if round != places.round() {
            return None;
        }
        places.place_of(element)
    }
}
