//! The dump of a round.

ghost use Rattle.std.specs.Prelude.{◌≡◌, MatchResult, true};
ghost use Rattle.board_handle.specs.Calls.{IsSame, RefusesDump};
ghost use Rattle.board_handle.specs.Dumps.{IsDump};

use crate::error::HandleError;
use crate::handle::BoardHandle;
use crate::reading::round_of;
use dump_format::{Dump, Recorded};
use dump_writing::encode_dump;
use std::alloc::Global;
use sync_board::Board;

impl BoardHandle {
    /// The dump of a round that is decided, in the format LBD2: what was reported, and what
    /// [`Recorded::of_round`](dump_format::Recorded::of_round) records of its decision.
    ///
    /// # Errors
    ///
    /// In this order: [`IsClosed`](HandleError::IsClosed), [`Undecided`](HandleError::Undecided),
    /// [`OutOfMemory`](HandleError::OutOfMemory).
    pub fn dump(&mut self, alloc: Global, round: u32) -> Result<Vec<u8>, HandleError>
        ensures answer { MatchResult result (λ text. (self.old.is_open ≡ true) × IsDump self.old.board round text.items)
            (RefusesDump self.old.is_open self.old.board round) }
        ensures same { IsSame self.old.is_open self.old.board self.new.is_open self.new.board }
    {
        let Some(board) = self.take(alloc) else {
            return Err(HandleError::IsClosed);
        };
        let text = dump_of(alloc, &board, round);
        self.put(board);
        text
    }
}

// The dump of a round.
#[tactic(auto, using(crate::proofs::Dumped::may_record))]
fn dump_of(alloc: Global, board: &Board, round: u32) -> Result<Vec<u8>, HandleError>
    ensures answer { MatchResult result (λ text. IsDump board.now round text.items) (RefusesDump true board.now round) }
{
    let round = round_of(board, round)?;
    let _rounds = board.rounds();
    let Some((snapshot, decision)) = board.kept_for(round) else {
        return Err(HandleError::Undecided);
    };
    let Ok(recorded) = Recorded::of_round(snapshot, decision) else {
        return Err(HandleError::OutOfMemory);
    };
    let _sizes = snapshot.sizes();
    let Ok(copy) = snapshot.clone() else {
        return Err(HandleError::OutOfMemory);
    };
    let dump = Dump::new(copy, recorded).unwrap();
    match encode_dump(alloc, &dump) {
        Ok(text) => Ok(text),
        Err(_) => Err(HandleError::OutOfMemory),
    }
}
