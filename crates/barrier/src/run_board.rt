//! The board of a run, of the size that its type names: what the lock of the barrier guards.

ghost use Rattle.std.specs.Prelude.{◌≡◌, ℕ, ◌<◌, ◌≤◌, ◌↔◌, IfOk, IfErr, IfSome, IsTrue, IsFalse, IsSome, None, MatchResult, OnOk, OnErr};
ghost use Rattle.std.specs.Option.{option_copied};
ghost use Rattle.lb_database.specs.Measuring.{IsComplete, elements};
ghost use Rattle.lb_database.specs.Refusals.{IsReport, RefusesReport};
ghost use Rattle.sync_board.specs.Boards.{Decides, HaveFinished, IsBoard, after_finish, after_report, decision_of, kept_of, place_in};
ghost use Rattle.sync_board.specs.Refusals.{RefusesDecision, RefusesFinish, database_error_of};
ghost use Rattle.barrier.specs.Places.{place_among, places_by};
ghost use Rattle.barrier.specs.Refusals.{IsRefusedDecision};
ghost use Rattle.barrier.specs.Rounds.{BeginWith};

use crate::board_size::BoardSize;
use crate::round_places::RoundPlaces;
use chare_index::{Gate, Index, Limits, Pe, Round};
use lb_snapshot::{Snapshot, Units};
use lb_strategy::Decision;
use std::alloc::{Allocator, Global};
use std::marker::{Model, PhantomData};
use std::thread::Threads;
use sync_board::{Board, BoardError};

/// The [`Board`] of a run, of the size that the type `J` names. Contracts see it as the record of that board. Its calls
/// are those of the board, and so are their errors. A call that is refused leaves it unchanged.
#[derive(Drop)]
pub struct RunBoard<J: BoardSize<A>, A: Allocator = Global> {
    board: Board<A>,
    size: PhantomData<J>,
}

impl<J: BoardSize<A>, A: Allocator> Model for RunBoard<J, A> {
    ghost use Rattle.std.specs.Prelude.{◌≡◌};
    ghost use Rattle.sync_board.specs.Boards.{BoardState};
    ghost use Rattle.lb_database.specs.Measuring.{elements};
    ghost use Rattle.barrier.specs.Rounds.{BeginWith};

    ghost Value = { BoardState A };

    ghost view = { λ b. b.board };

    ghost invariant = { λ b. (elements b.board.database ≡ J.elements) × (b.board.pes ≡ J.pes) × (b.board.strategy ≡ J.strategy)
        × BeginWith J.earlier b.board.rounds };
}

impl<J: BoardSize<A>, A: Allocator> RunBoard<J, A> {
    /// Makes a board of this size that of a run.
    pub(crate) fn new(board: Board<A>) -> Self
        requires counted { elements board.database ≡ J.elements }
        requires on_pes { board.pes ≡ J.pes }
        requires by_strategy { board.strategy ≡ J.strategy }
        requires earlier { BeginWith J.earlier board.rounds }
        ensures value { result ≡ board }
    {
        RunBoard {
            board,
            size: PhantomData,
        }
    }

    /// Charges `units` to element `i`, and notes that it waits at its place `pe` for the end of `round`, with a packed
    /// state of `bytes` bytes, as [`Board::report`] does. The errors are [`Stranger`](BoardError::Stranger),
    /// [`WrongRound`](BoardError::WrongRound), [`Twice`](BoardError::Twice) and [`TooLarge`](BoardError::TooLarge), the
    /// first that applies.
    pub fn report(
        &mut self,
        i: u32,
        round: Round,
        units: Units,
        bytes: u32,
        pe: Pe,
    ) -> Result<(), BoardError>
        requires below_pes { pe < J.pes }
        ensures answer { MatchResult result (λ _. IsReport self.old.database i round bytes)
            (λ error. RefusesReport self.old.database i round bytes (database_error_of error)) }
        ensures ok { OnOk result (self.new ≡ after_report self.old i units bytes pe) }
        ensures err { OnErr result (self.new ≡ self.old) }
    {
        self.board.report(i, round, units, bytes, pe)
    }

    /// How many PEs the elements run on.
    pub fn pes(&self) -> u32
        ensures value { result ≡ self.now.pes }
        ensures on_pes { result ≡ J.pes }
    {
        self.board.pes()
    }

    /// Whether every element has reported in the present round, as [`Board::is_complete`] says.
    pub fn is_complete(&self) -> bool
        ensures value { IsTrue result ↔ IsComplete self.now.database }
    {
        self.board.is_complete()
    }

    /// Decides the present round, as [`Board::decide`] does. The errors are [`Incomplete`](BoardError::Incomplete),
    /// [`Worn`](BoardError::Worn) and [`OutOfMemory`](BoardError::OutOfMemory), the first that applies.
    #[tactic(auto, using(crate::proofs::Rounds::grown))]
    pub fn decide(&mut self) -> Result<Round, BoardError>
    where
        A: Copy,
        ensures answer { IfErr result (RefusesDecision self.old.database) }
        ensures refused { IfErr result (IsRefusedDecision J.elements) }
        ensures round { IfOk result (λ round. round ≡ self.old.database.round) }
        ensures ok { OnOk result (Decides self.old self.new) }
        ensures err { OnErr result (self.new ≡ self.old) }
    {
        self.board.decide()
    }

    /// Decides the present round by 1 to [`Limits::PROBE_WORKERS`] workers, as [`Board::decide_with`] does. The errors
    /// are those of [`decide`](RunBoard::decide).
    #[tactic(auto, using(crate::proofs::Rounds::grown))]
    pub fn decide_with<R: Threads + Sync, G: Gate + Sync>(
        &mut self,
        rt: &R,
        workers: u32,
        gate: &G,
    ) -> Result<Round, BoardError>
    where
        A: Copy,
        requires some_worker { 1 ≤ workers }
        requires few_workers { workers ≤ Limits.PROBE_WORKERS }
        ensures answer { IfErr result (RefusesDecision self.old.database) }
        ensures refused { IfErr result (IsRefusedDecision J.elements) }
        ensures round { IfOk result (λ round. round ≡ self.old.database.round) }
        ensures ok { OnOk result (Decides self.old self.new) }
        ensures err { OnErr result (self.new ≡ self.old) }
    {
        self.board.decide_with(rt, workers, gate)
    }

    /// The snapshot and the decision of a round, as [`Board::kept_for`] gives them, or `None` where the round is not decided.
    pub fn kept_for(&self, round: Round) -> Option<&(Snapshot<A>, Decision<A>)>
        ensures value { option_copied result ≡ kept_of self.now.rounds round }
    {
        self.board.kept_for(round)
    }

    /// The place of element `i` in the decision of a round, as [`Board::place_for`] gives it: one of the run's PEs, or
    /// `None` where the round is not decided or there is no such element.
    pub fn place_for(&self, round: Round, i: Index) -> Option<Pe>
        ensures value { i < J.elements → result ≡ place_in self.now round i }
        ensures stranger { J.elements ≤ i → result ≡ None }
        ensures below { IfSome result (λ pe. pe < J.pes) }
        ensures before_last_round { IfSome result (λ pe. round < Limits.ROUND) }
    {
        self.board.place_for(round, i)
    }

    /// Copies the places of a round, so that they can be read without the board. Returns whether the round is decided;
    /// where it is not, the copy is unchanged. This takes no memory.
    pub fn copy_places(&self, round: Round, into: &mut RoundPlaces<J, A>) -> bool
        ensures answer { IsTrue result ↔ IsSome (decision_of self.now round) }
        ensures copied { IsTrue result → IfSome (decision_of self.now round) (λ decision. into.new ≡ places_by round decision) }
        ensures places { IsTrue result → (i : ℕ) → i < J.elements → place_among into.new i ≡ place_in self.now round i }
        ensures same { IsFalse result → into.new ≡ into.old }
    {
        // These say of every board that a round which is decided comes before the last.
        let (_rounds, _len) = (self.board.rounds(), self.board.len());
        let Some(decision) = self.board.decision_for(round) else {
            return false;
        };
        into.copy(
            round,
            decision.division.cuts.as_slice(),
            decision.naming.as_slice(),
        );
        true
    }

    /// Notes that element `i` has finished, as [`Board::finish`] does. The only error is
    /// [`Stranger`](BoardError::Stranger).
    pub fn finish(&mut self, i: u32) -> Result<(), BoardError>
        ensures answer { MatchResult result (λ _. i < elements self.old.database) (RefusesFinish self.old.database i) }
        ensures ok { OnOk result (self.new ≡ after_finish self.old i) }
        ensures err { OnErr result (self.new ≡ self.old) }
    {
        self.board.finish(i)
    }

    /// Whether every element has finished, as [`Board::all_finished`] says.
    pub fn all_finished(&self) -> bool
        ensures value { IsTrue result ↔ HaveFinished self.now }
    {
        self.board.all_finished()
    }

    /// The board itself. Whatever threads have done to it, each decision that it keeps is the best for what was
    /// reported, and the rounds that it began with are its first ones.
    pub fn into_board(self) -> Board<A>
        ensures value { result ≡ self }
        ensures counted { elements result.database ≡ J.elements }
        ensures on_pes { result.pes ≡ J.pes }
        ensures by_strategy { result.strategy ≡ J.strategy }
        ensures earlier { BeginWith J.earlier result.rounds }
        ensures board { IsBoard result }
    {
        let RunBoard { board, size: _ } = self;
        let _rounds = board.rounds();
        board
    }
}
