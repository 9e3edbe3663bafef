//! Deciding a round.

ghost use Rattle.std.specs.Prelude.{◌≡◌, IfErr, IfOk, MatchResult, OnOk, OnErr, true};
ghost use Rattle.sync_board.specs.Boards.{Decides};
ghost use Rattle.board_handle.specs.Calls.{IsSame, RefusesDecision};

use crate::error::HandleError;
use crate::handle::BoardHandle;
use std::alloc::Global;
use sync_board::Board;

impl BoardHandle {
    /// Decides the present round, in which every element has to have reported, and begins the next one. Returns the round that was
    /// decided.
    ///
    /// # Errors
    ///
    /// In this order: [`IsClosed`](HandleError::IsClosed); [`Incomplete`](HandleError::Incomplete) where an element has not reported;
    /// [`Worn`](HandleError::Worn) in the last round, which is never decided; [`OutOfMemory`](HandleError::OutOfMemory).
    pub fn decide(&mut self, alloc: Global) -> Result<u32, HandleError>
        ensures answer { MatchResult result (λ round. (self.old.is_open ≡ true) × (round ≡ self.old.board.database.round))
            (RefusesDecision self.old.is_open self.old.board) }
        ensures ok { OnOk result ((self.new.is_open ≡ true) × Decides self.old.board self.new.board) }
        ensures err { OnErr result (IsSame self.old.is_open self.old.board self.new.is_open self.new.board) }
    {
        let Some(mut board) = self.take(alloc) else {
            return Err(HandleError::IsClosed);
        };
        let decided = decide_round(&mut board);
        self.put(board);
        decided
    }
}

// Has the board decide its round.
#[tactic(auto, using(crate::proofs::Refused::decision_refused))]
fn decide_round(board: &mut Board) -> Result<u32, HandleError>
    ensures answer { IfErr result (RefusesDecision true board.old) }
    ensures round { IfOk result (λ round. round ≡ board.old.database.round) }
    ensures ok { OnOk result (Decides board.old board.new) }
    ensures err { OnErr result (board.new ≡ board.old) }
{
    let round = board.decide()?;
    Ok(round.get())
}
