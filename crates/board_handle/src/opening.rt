//! Opening and closing.

ghost use Rattle.std.specs.Prelude.{◌≡◌, ◌≤◌, ◌↔◌, IfOk, IfSome, IsSome, MatchResult, OnOk, OnErr, true, false};
ghost use Rattle.sync_board.specs.Boards.{new_board};
ghost use Rattle.board_handle.specs.Calls.{AreCounts, IsSame, RefusesClosed, RefusesOpen, strategy_in};

use crate::error::HandleError;
use crate::handle::BoardHandle;
use chain_refinement::Tolerance;
use chare_index::Limits;
use std::alloc::Global;
use sync_board::{Board, Strategy};

impl BoardHandle {
    /// Opens a closed handle: it has a board for `n` elements on `pes` PEs, in round 1. Rounds are decided for the least bottleneck, or
    /// within a tolerance, in thousandths above it.
    ///
    /// # Errors
    ///
    /// In this order: [`IsOpen`](HandleError::IsOpen); [`BadInput`](HandleError::BadInput) where there are more than
    /// [`Limits::ELEMENTS`] elements, not 1 to [`Limits::PES`] PEs, or the tolerance is above [`Tolerance::MOST`];
    /// [`OutOfMemory`](HandleError::OutOfMemory).
    pub fn open(
        &mut self,
        alloc: Global,
        n: u32,
        pes: u32,
        within: Option<u32>,
    ) -> Result<(), HandleError>
        ensures answer { MatchResult result (λ _. (self.old.is_open ≡ false) × AreCounts n pes within) (RefusesOpen self.old.is_open n pes within) }
        ensures ok { OnOk result ((self.new.is_open ≡ true) × (self.new.board ≡ new_board n pes (strategy_in within))) }
        ensures err { OnErr result (IsSame self.old.is_open self.old.board self.new.is_open self.new.board) }
    {
        if let Some(board) = self.take(alloc) {
            self.put(board);
            return Err(HandleError::IsOpen);
        }
        let board = made(alloc, n, pes, within)?;
        self.put(board);
        Ok(())
    }

    /// Closes an open handle, and frees the board. The only error is [`IsClosed`](HandleError::IsClosed).
    pub fn close(&mut self, alloc: Global) -> Result<(), HandleError>
        ensures answer { MatchResult result (λ _. self.old.is_open ≡ true) (RefusesClosed self.old.is_open) }
        ensures is_closed { self.new.is_open ≡ false }
    {
        match self.take(alloc) {
            Some(_) => Ok(()),
            None => Err(HandleError::IsClosed),
        }
    }
}

// A new board.
fn made(alloc: Global, n: u32, pes: u32, within: Option<u32>) -> Result<Box<Board>, HandleError>
    ensures answer { MatchResult result (λ _. AreCounts n pes within) (RefusesOpen false n pes within) }
    ensures board { IfOk result (λ board. board.value ≡ new_board n pes (strategy_in within)) }
{
    if n > Limits::ELEMENTS || pes == 0 || pes > Limits::PES {
        return Err(HandleError::BadInput);
    }
    let Some(strategy) = strategy_of(within) else {
        return Err(HandleError::BadInput);
    };
    let Ok(board) = Board::with_strategy(alloc, n, pes, strategy) else {
        return Err(HandleError::OutOfMemory);
    };
    match Box::new(alloc, board) {
        Ok(board) => Ok(board),
        Err(_) => Err(HandleError::OutOfMemory),
    }
}

// How rounds are to be decided, or nothing where the tolerance is too great.
fn strategy_of(within: Option<u32>) -> Option<Strategy>
    ensures value { IfSome result (λ strategy. strategy ≡ strategy_in within) }
    ensures when { IsSome result ↔ IfSome within (λ t. t ≤ 1000) }
{
    let Some(thousandths) = within else {
        return Some(Strategy::Least);
    };
    let tolerance = Tolerance::new(thousandths)?;
    Some(Strategy::Refine(tolerance))
}
