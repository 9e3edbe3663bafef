//! What elements tell the board, and what it is asked.

ghost use Rattle.std.specs.Prelude.{◌≡◌, ◌<◌, ◌↔◌, IsTrue, MatchResult, OnOk, OnErr, true};
ghost use Rattle.sync_board.specs.Boards.{HaveFinished, after_finish, after_report};
ghost use Rattle.lb_database.specs.Measuring.{IsComplete, elements};
ghost use Rattle.board_handle.specs.Calls.{IsSame, IsTaken, RefusesClosed, RefusesFinish, RefusesReport};

use crate::error::HandleError;
use crate::handle::BoardHandle;
use chare_index::{Pe, Round};
use std::alloc::Global;
use sync_board::Board;

/// What an element tells as it begins to wait for the end of a round: which element and round, the work units that it did in it, up
/// to [`Limits::LOAD`](chare_index::Limits::LOAD), the bytes that it packs into, and the PE that it is on.
#[derive(Clone, Copy, Debug)]
pub struct Report {
    /// The element.
    pub element: u32,
    /// The round that it waits for.
    pub round: u32,
    /// Its work units in the round.
    pub units: u64,
    /// The bytes that it packs into.
    pub bytes: u32,
    /// The PE that it is on.
    pub pe: u32,
}

impl BoardHandle {
    /// Takes the report of an element.
    ///
    /// # Errors
    ///
    /// In this order: [`IsClosed`](HandleError::IsClosed); [`BadInput`](HandleError::BadInput) where the PE is not one of the board's, or
    /// the round is past [`Limits::ROUND`](chare_index::Limits::ROUND); [`Stranger`](HandleError::Stranger);
    /// [`WrongRound`](HandleError::WrongRound) where the board is in another round; [`Twice`](HandleError::Twice);
    /// [`TooLarge`](HandleError::TooLarge).
    pub fn report(&mut self, alloc: Global, report: Report) -> Result<(), HandleError>
        ensures answer { MatchResult result
            (λ _. IsTaken self.old.is_open self.old.board report.element report.round report.bytes report.pe)
            (RefusesReport self.old.is_open self.old.board report.element report.round report.bytes report.pe) }
        ensures ok { OnOk result ((self.new.is_open ≡ true)
            × (self.new.board ≡ after_report self.old.board report.element report.units report.bytes report.pe)) }
        ensures err { OnErr result (IsSame self.old.is_open self.old.board self.new.is_open self.new.board) }
    {
        let Some(mut board) = self.take(alloc) else {
            return Err(HandleError::IsClosed);
        };
        let taken = take_report(&mut board, report);
        self.put(board);
        taken
    }

    /// Marks an element as finished. Idempotent.
    ///
    /// # Errors
    ///
    /// In this order: [`IsClosed`](HandleError::IsClosed), [`Stranger`](HandleError::Stranger).
    pub fn finish(&mut self, alloc: Global, element: u32) -> Result<(), HandleError>
        ensures answer { MatchResult result (λ _. (self.old.is_open ≡ true) × (element < elements self.old.board.database))
            (RefusesFinish self.old.is_open self.old.board element) }
        ensures ok { OnOk result ((self.new.is_open ≡ true) × (self.new.board ≡ after_finish self.old.board element)) }
        ensures err { OnErr result (IsSame self.old.is_open self.old.board self.new.is_open self.new.board) }
    {
        let Some(mut board) = self.take(alloc) else {
            return Err(HandleError::IsClosed);
        };
        let finished = board.finish(element).is_ok();
        self.put(board);
        if !finished {
            return Err(HandleError::Stranger);
        }
        Ok(())
    }

    /// Whether every element has reported for the present round. The only error is [`IsClosed`](HandleError::IsClosed).
    pub fn is_complete(&mut self, alloc: Global) -> Result<bool, HandleError>
        ensures answer { MatchResult result (λ yes. (self.old.is_open ≡ true) × (IsTrue yes ↔ IsComplete self.old.board.database))
            (RefusesClosed self.old.is_open) }
        ensures same { IsSame self.old.is_open self.old.board self.new.is_open self.new.board }
    {
        let Some(board) = self.take(alloc) else {
            return Err(HandleError::IsClosed);
        };
        let complete = board.is_complete();
        self.put(board);
        Ok(complete)
    }

    /// Whether every element has finished. The only error is [`IsClosed`](HandleError::IsClosed).
    pub fn all_finished(&mut self, alloc: Global) -> Result<bool, HandleError>
        ensures answer { MatchResult result (λ yes. (self.old.is_open ≡ true) × (IsTrue yes ↔ HaveFinished self.old.board))
            (RefusesClosed self.old.is_open) }
        ensures same { IsSame self.old.is_open self.old.board self.new.is_open self.new.board }
    {
        let Some(board) = self.take(alloc) else {
            return Err(HandleError::IsClosed);
        };
        let finished = board.all_finished();
        self.put(board);
        Ok(finished)
    }

    /// The round that the board is in. The only error is [`IsClosed`](HandleError::IsClosed).
    pub fn round(&mut self, alloc: Global) -> Result<u32, HandleError>
        ensures answer { MatchResult result (λ round. (self.old.is_open ≡ true) × (round ≡ self.old.board.database.round))
            (RefusesClosed self.old.is_open) }
        ensures same { IsSame self.old.is_open self.old.board self.new.is_open self.new.board }
    {
        let Some(board) = self.take(alloc) else {
            return Err(HandleError::IsClosed);
        };
        let round = board.database().round().get();
        self.put(board);
        Ok(round)
    }
}

// Has the board take a report.
#[tactic(auto, using(crate::proofs::Refused::report_refused))]
fn take_report(board: &mut Board, report: Report) -> Result<(), HandleError>
    ensures answer { MatchResult result (λ _. IsTaken true board.old report.element report.round report.bytes report.pe)
        (RefusesReport true board.old report.element report.round report.bytes report.pe) }
    ensures ok { OnOk result (board.new ≡ after_report board.old report.element report.units report.bytes report.pe) }
    ensures err { OnErr result (board.new ≡ board.old) }
{
    let Some(pe) = Pe::new(report.pe) else {
        // A board has no more PEs than there can be.
        let _rounds = board.rounds();
        return Err(HandleError::BadInput);
    };
    if pe.get() >= board.pes() {
        return Err(HandleError::BadInput);
    }
    let Some(round) = Round::new(report.round) else {
        return Err(HandleError::BadInput);
    };
    board.report(report.element, round, report.units, report.bytes, pe)?;
    Ok(())
}
