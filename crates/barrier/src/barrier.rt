//! The lock around the board of a run. Every thread of the run calls the board through it.

ghost use Rattle.std.specs.Prelude.{◌≡◌, ◌<◌, ◌≤◌, IfErr, IfSome};
ghost use Rattle.lb_database.specs.Measuring.{elements};
ghost use Rattle.sync_board.specs.Boards.{IsBoard};
ghost use Rattle.barrier.specs.Refusals.{IsRefusedDecision};
ghost use Rattle.barrier.specs.Rounds.{BeginWith};

use crate::board_size::BoardSize;
use crate::run_board::RunBoard;
use chare_index::{Gate, Index, Limits, Pe, Round};
use lb_snapshot::Units;
use std::alloc::{Allocator, Global};
use std::sync::{Mutex, MutexGuard, Wait};
use std::thread::Threads;
use sync_board::{Board, BoardError};

/// The board of a run, which threads share. Each call waits for the lock, makes one call of the [`RunBoard`] under
/// it, and releases the lock; [`lock`](Barrier::lock) is for several calls under one lock. A call returns what the
/// `RunBoard` returns in the state that other threads have left it in, so that contracts know only what holds of each
/// board of this size.
#[derive(Drop)]
pub struct Barrier<J: BoardSize<A>, A: Allocator = Global> {
    board: Mutex<RunBoard<J, A>>,
}

impl<J: BoardSize<A>, A: Allocator> Barrier<J, A> {
    /// Puts a board of this size under a lock.
    pub fn new(board: Board<A>) -> Self
        requires counted { elements board.database ≡ J.elements }
        requires on_pes { board.pes ≡ J.pes }
        requires by_strategy { board.strategy ≡ J.strategy }
        requires earlier { BeginWith J.earlier board.rounds }
    {
        Barrier {
            board: Mutex::new(RunBoard::new(board)),
        }
    }

    /// Waits for the lock, and holds it until the guard is dropped.
    pub fn lock<R: Wait>(&self, rt: &R) -> MutexGuard<'_, RunBoard<J, A>> {
        self.board.lock(rt)
    }

    /// Charges `units` to element `i`, and notes that it waits at its place `pe` for the end of `round`: see
    /// [`RunBoard::report`].
    pub fn report<R: Wait>(
        &self,
        rt: &R,
        i: u32,
        round: Round,
        units: Units,
        bytes: u32,
        pe: Pe,
    ) -> Result<(), BoardError>
        requires below_pes { pe < J.pes }
    {
        self.lock(rt).report(i, round, units, bytes, pe)
    }

    /// Whether every element has reported in the present round: see [`RunBoard::is_complete`].
    pub fn is_complete<R: Wait>(&self, rt: &R) -> bool {
        self.lock(rt).is_complete()
    }

    /// Decides the present round: see [`RunBoard::decide`].
    pub fn decide<R: Wait>(&self, rt: &R) -> Result<Round, BoardError>
    where
        A: Copy,
        ensures refused { IfErr result (IsRefusedDecision J.elements) }
    {
        self.lock(rt).decide()
    }

    /// Decides the present round by 1 to [`Limits::PROBE_WORKERS`] workers, while the lock is held: see
    /// [`RunBoard::decide_with`].
    pub fn decide_with<R: Threads + Wait + Sync, G: Gate + Sync>(
        &self,
        rt: &R,
        workers: u32,
        gate: &G,
    ) -> Result<Round, BoardError>
    where
        A: Copy,
        requires some_worker { 1 ≤ workers }
        requires few_workers { workers ≤ Limits.PROBE_WORKERS }
        ensures refused { IfErr result (IsRefusedDecision J.elements) }
    {
        self.lock(rt).decide_with(rt, workers, gate)
    }

    /// The place of element `i` in the decision of a round, which is one of the run's PEs: see
    /// [`RunBoard::place_for`].
    pub fn place_for<R: Wait>(&self, rt: &R, round: Round, i: Index) -> Option<Pe>
        ensures below { IfSome result (λ pe. pe < J.pes) }
        ensures before_last_round { IfSome result (λ pe. round < Limits.ROUND) }
    {
        self.lock(rt).place_for(round, i)
    }

    /// Notes that element `i` has finished: see [`RunBoard::finish`].
    pub fn finish<R: Wait>(&self, rt: &R, i: u32) -> Result<(), BoardError> {
        self.lock(rt).finish(i)
    }

    /// Whether every element has finished: see [`RunBoard::all_finished`].
    pub fn all_finished<R: Wait>(&self, rt: &R) -> bool {
        self.lock(rt).all_finished()
    }

    /// The board, once no thread uses it any more. It still has its size, and each decision that it keeps is the best
    /// for what was reported.
    pub fn into_board(self) -> Board<A>
        ensures counted { elements result.database ≡ J.elements }
        ensures on_pes { result.pes ≡ J.pes }
        ensures by_strategy { result.strategy ≡ J.strategy }
        ensures earlier { BeginWith J.earlier result.rounds }
        ensures board { IsBoard result }
    {
        let Barrier { board } = self;
        board.into_inner().into_board()
    }
}
