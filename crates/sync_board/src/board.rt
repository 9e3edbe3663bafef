//! The board, after AtSync of Charm++: nothing is decided until every element waits.

ghost use Rattle.std.specs.Prelude.{◌≡◌, ℕ, ◌+◌, ◌++◌, ◌∷◌, [], ◌<◌, ◌≤◌, ◌↔◌, IfOk, IfErr, IfSome, IsTrue, None, false, MatchResult, OnOk, OnErr, replicate, slice_get};
ghost use Rattle.std.specs.Option.{option_copied};
ghost use Rattle.lb_database.specs.Measuring.{IsComplete, IsMeasured, IsSnapshotOf, StandBelow, elements, opening};
ghost use Rattle.lb_database.specs.Refusals.{HasNextRound, IsReport, RefusesReport};
ghost use Rattle.sync_board.specs.declared.strategy.Strategy.TheVariants.{Least};
ghost use Rattle.sync_board.specs.Boards.{AreDecided, Decides, IsDecided, HaveFinished, IsBoard, IsKeptIn, IsProvedIn, after_finish, after_report, decision_of, item_of, kept_of, nearness_of, new_board, place_in};
ghost use Rattle.sync_board.specs.Strategies.{AreProved, IsDecidedBy};
ghost use Rattle.sync_board.specs.Refusals.{RefusesDecision, RefusesFinish, database_error_of};

use crate::error::BoardError;
use crate::strategy::Strategy;
use chare_index::{Gate, Index, Limits, Pe, Pes, Round};
use lb_database::LoadDb;
use lb_refinement::{Nearness, Refined};
use lb_snapshot::{Snapshot, Units};
use lb_strategy::Decision;
use std::alloc::{AllocError, Allocator, Global};
use std::marker::Model;
use std::thread::Threads;

/// Where the reports of a chare array meet, where the decision of each round is kept, and who has finished. It has at
/// most [`Limits::ELEMENTS`] elements, which run on 1 to [`Limits::PES`] PEs. It takes memory where it is made and
/// where a round is decided, and nowhere else. A call that is refused leaves it unchanged.
///
/// Contracts see it as the record `BoardState`. The decisions of every board are right: of each round that was decided, the
/// snapshot is one of all elements, and the decision is what the board's [`Strategy`] decides for it.
#[derive(Drop)]
#[derive_where(Debug)]
pub struct Board<A: Allocator = Global> {
    // How many PEs the elements run on.
    pes: Pes,
    // How rounds are decided.
    strategy: Strategy,
    // The reports of the present round, all of them of places below `pes`.
    database: LoadDb<A>,
    // The snapshot and the decision of each round before the present one.
    rounds: Vec<(Snapshot<A>, Decision<A>), A>,
    // What proves each of these decisions.
    nearness: Vec<Nearness<A>, A>,
    // Whether each element has finished.
    finished: Vec<bool, A>,
    // How many elements have not finished, so that no search is needed.
    running: usize,
}

impl<A: Allocator> Model for Board<A> {
    ghost use Rattle.std.specs.Prelude.{◌≡◌, count_by, not};
    ghost use Rattle.sync_board.specs.Boards.{BoardState, IsBoard};

    ghost Value = { BoardState A };

    ghost view = { λ b. record { pes = b.pes; strategy = b.strategy; database = b.database; rounds = b.rounds.items; nearness = b.nearness.items; finished = b.finished.items } };

    ghost invariant = { λ b.
        IsBoard (record { pes = b.pes; strategy = b.strategy; database = b.database; rounds = b.rounds.items; nearness = b.nearness.items; finished = b.finished.items })
        × (b.running ≡ count_by not b.finished.items) };
}

impl<A: Allocator> Board<A> {
    /// A board for `n` elements on `pes` PEs, in round 1: nothing is reported or decided, and nobody has finished. It decides
    /// its rounds by [`Strategy::Least`]. It runs out of memory only where there is an element.
    pub fn new(alloc: A, n: u32, pes: u32) -> Result<Self, AllocError>
    where
        A: Copy,
        requires few { n ≤ Limits.ELEMENTS }
        requires some_pe { 1 ≤ pes }
        requires few_pes { pes ≤ Limits.PES }
        ensures made { IfOk result (λ board. board ≡ new_board n pes Least) }
        ensures refused { OnErr result (0 < n) }
    {
        Board::with_strategy(alloc, n, pes, Strategy::Least)
    }

    /// A board as [`new`](Board::new) makes it, which decides its rounds by `strategy`.
    pub fn with_strategy(alloc: A, n: u32, pes: u32, strategy: Strategy) -> Result<Self, AllocError>
    where
        A: Copy,
        requires few { n ≤ Limits.ELEMENTS }
        requires some_pe { 1 ≤ pes }
        requires few_pes { pes ≤ Limits.PES }
        ensures made { IfOk result (λ board. board ≡ new_board n pes strategy) }
        ensures refused { OnErr result (0 < n) }
    {
        let Ok(database) = LoadDb::new(alloc, n) else {
            return Err(AllocError);
        };
        let pes = Pes::of(pes);
        let n = n as usize;
        Ok(Board {
            pes,
            strategy,
            database,
            rounds: Vec::new(alloc),
            nearness: Vec::new(alloc),
            finished: all_running(alloc, n)?,
            running: n,
        })
    }

    /// Charges `units` to element `i`, and notes in the same step that it waits at its place `pe` for the end of `round`,
    /// with a packed state of `bytes` bytes.
    ///
    /// # Errors
    ///
    /// The first that applies: [`Stranger`](BoardError::Stranger), [`WrongRound`](BoardError::WrongRound) where the
    /// board is in another round, [`Twice`](BoardError::Twice), and [`TooLarge`](BoardError::TooLarge) above
    /// [`Limits::STATE_BYTES`]. Then nothing is charged either.
    #[tactic(auto, using(crate::proofs::Unrefused::charged))]
    pub fn report(
        &mut self,
        i: u32,
        round: Round,
        units: Units,
        bytes: u32,
        pe: Pe,
    ) -> Result<(), BoardError>
        requires below_pes { pe < self.old.pes }
        ensures answer { MatchResult result (λ _. IsReport self.old.database i round bytes)
            (λ error. RefusesReport self.old.database i round bytes (database_error_of error)) }
        ensures ok { OnOk result (self.new ≡ after_report self.old i units bytes pe) }
        ensures err { OnErr result (self.new ≡ self.old) }
    {
        self.database.report(i, round, bytes, pe)?;
        self.database.charge(i, units).unwrap();
        Ok(())
    }

    /// Whether every element has reported in the present round. It holds at once where there is no element.
    pub fn is_complete(&self) -> bool
        ensures value { IsTrue result ↔ IsComplete self.now.database }
    {
        self.database.is_complete()
    }

    /// Decides the present round, in which every element has to have reported: keeps the snapshot of what was reported and
    /// what the board's strategy decides for it, begins the next round, and returns the round that was decided.
    ///
    /// # Errors
    ///
    /// The first that applies: [`Incomplete`](BoardError::Incomplete) where an element has not reported,
    /// [`Worn`](BoardError::Worn) in round [`Limits::ROUND`], which is never decided, and
    /// [`OutOfMemory`](BoardError::OutOfMemory).
    pub fn decide(&mut self) -> Result<Round, BoardError>
    where
        A: Copy,
        ensures answer { IfErr result (RefusesDecision self.old.database) }
        ensures round { IfOk result (λ round. round ≡ self.old.database.round) }
        ensures ok { OnOk result (Decides self.old self.new) }
        ensures err { OnErr result (self.new ≡ self.old) }
    {
        let made = decided(
            *self.rounds.allocator(),
            &self.database,
            self.pes,
            self.strategy,
        )?;
        let round = self.database.round();
        keep(
            &mut self.database,
            &mut self.rounds,
            &mut self.nearness,
            made,
        )?;
        Ok(round)
    }

    /// Decides the present round as [`decide`](Board::decide) does. The least division is found by 1 to 64 workers, each of
    /// which calls the gate with its number. If a thread cannot be started, the others do its work.
    ///
    /// # Errors
    ///
    /// Those of [`decide`](Board::decide), in their order.
    pub fn decide_with<R: Threads + Sync, G: Gate + Sync>(
        &mut self,
        rt: &R,
        workers: u32,
        gate: &G,
    ) -> Result<Round, BoardError>
    where
        A: Copy,
        requires some_worker { 1 ≤ workers }
        requires few_workers { workers ≤ Limits.PROBE_WORKERS }
        ensures answer { IfErr result (RefusesDecision self.old.database) }
        ensures round { IfOk result (λ round. round ≡ self.old.database.round) }
        ensures ok { OnOk result (Decides self.old self.new) }
        ensures err { OnErr result (self.new ≡ self.old) }
    {
        let alloc = *self.rounds.allocator();
        let strategy = self.strategy;
        let made = decided_with(rt, alloc, &self.database, self.pes, strategy, workers, gate)?;
        let round = self.database.round();
        keep(
            &mut self.database,
            &mut self.rounds,
            &mut self.nearness,
            made,
        )?;
        Ok(round)
    }

    /// The decision of a round, in constant time, or `None` where the round is not decided.
    pub fn decision_for(&self, round: Round) -> Option<&Decision<A>>
        ensures value { option_copied result ≡ decision_of self.now round }
        ensures decided { IfSome result (λ decision. IsKeptIn self.now round decision.now) }
    {
        let (_, decision) = kept_for(self.rounds(), round.get())?;
        Some(decision)
    }

    /// What proves the decision of a round within a tolerance, in constant time, or `None` where the round is not decided.
    pub fn nearness_for(&self, round: Round) -> Option<&Nearness<A>>
        ensures value { option_copied result ≡ nearness_of self.now round }
        ensures proved { IfSome result (λ near. IsProvedIn self.now round near.now) }
    {
        nearness_for(self.nearness(), round.get())
    }

    /// The snapshot and the decision of a round, in constant time, or `None` where the round is not decided.
    pub fn kept_for(&self, round: Round) -> Option<&(Snapshot<A>, Decision<A>)>
        ensures value { option_copied result ≡ kept_of self.now.rounds round }
    {
        kept_for(&self.rounds, round.get())
    }

    /// The place of element `i` in the decision of a round, which is one of the board's PEs, or `None` where the round is
    /// not decided or there is no such element.
    pub fn place_for(&self, round: Round, i: Index) -> Option<Pe>
        ensures value { i < elements self.now.database → result ≡ place_in self.now round i }
        ensures stranger { elements self.now.database ≤ i → result ≡ None }
        ensures below { IfSome result (λ pe. pe < self.now.pes) }
        ensures before_last_round { IfSome result (λ pe. round < Limits.ROUND) }
    {
        let _rounds = self.rounds();
        if self.len() <= i.get() as usize {
            return None;
        }
        let decision = self.decision_for(round)?;
        Some(decision.place_of(i))
    }

    /// Notes that element `i` has finished. A second time changes nothing. The only refusal is
    /// [`Stranger`](BoardError::Stranger).
    #[tactic(auto, using(crate::proofs::Finished::set_again))]
    pub fn finish(&mut self, i: u32) -> Result<(), BoardError>
        ensures answer { MatchResult result (λ _. i < elements self.old.database) (RefusesFinish self.old.database i) }
        ensures ok { OnOk result (self.new ≡ after_finish self.old i) }
        ensures err { OnErr result (self.new ≡ self.old) }
    {
        let finished = self
            .finished
            .get_mut(i as usize)
            .ok_or(BoardError::Stranger)?;
        if *finished {
            return Ok(());
        }
        *finished = true;
        self.running -= 1;
        Ok(())
    }

    /// Whether every element has finished. It holds at once where there is no element.
    #[tactic(auto, using(crate::proofs::Finished::none_running, crate::proofs::Finished::all_finished))]
    pub fn all_finished(&self) -> bool
        ensures value { IsTrue result ↔ HaveFinished self.now }
    {
        self.running == 0
    }

    /// Whether element `i` has finished, or `None` where there is no such element.
    pub fn has_finished(&self, i: u32) -> Option<bool>
        ensures value { result ≡ slice_get self.now.finished i }
    {
        self.finished.get(i as usize).copied()
    }

    /// How rounds are decided.
    pub fn strategy(&self) -> Strategy
        ensures value { result ≡ self.now.strategy }
    {
        self.strategy
    }

    /// How many PEs the elements run on.
    pub fn pes(&self) -> u32
        ensures value { result ≡ self.now.pes }
    {
        self.pes.get()
    }

    /// How many elements there are.
    pub fn len(&self) -> usize
        ensures value { result ≡ elements self.now.database }
        ensures within_limits { IsMeasured self.now.database }
    {
        self.database.len()
    }

    /// Whether there is no element.
    pub fn is_empty(&self) -> bool
        ensures value { IsTrue result ↔ (elements self.now.database ≡ 0) }
    {
        self.database.is_empty()
    }

    /// The reports of the present round.
    pub fn database(&self) -> &LoadDb<A>
        ensures value { result.now ≡ self.now.database }
    {
        &self.database
    }

    /// The snapshot and the decision of each round that was decided, from round 1 on. The clause `consistent` says
    /// what holds of every board, for a caller that knows nothing else of this one.
    pub fn rounds(&self) -> &[(Snapshot<A>, Decision<A>)]
        ensures value { result.now ≡ self.now.rounds }
        ensures consistent { IsBoard self.now }
    {
        &self.rounds
    }

    /// What proves each of these decisions, from round 1 on.
    pub fn nearness(&self) -> &[Nearness<A>]
        ensures value { result.now ≡ self.now.nearness }
        ensures consistent { IsBoard self.now }
    {
        &self.nearness
    }

    /// The snapshot and the decision of each round that was decided, from round 1 on.
    pub fn into_rounds(self) -> Vec<(Snapshot<A>, Decision<A>), A>
        ensures value { result.items ≡ self.rounds }
        ensures decided { AreDecided (elements self.database) self.pes self.strategy self.rounds }
    {
        self.into_proved_rounds().0
    }

    /// The snapshot and the decision of each round that was decided, from round 1 on, and what proves each of these decisions.
    pub fn into_proved_rounds(self) -> (Vec<(Snapshot<A>, Decision<A>), A>, Vec<Nearness<A>, A>)
        ensures rounds { result.0.items ≡ self.rounds }
        ensures nearness { result.1.items ≡ self.nearness }
        ensures decided { AreDecided (elements self.database) self.pes self.strategy self.rounds }
        ensures proved { AreProved self.pes self.strategy self.rounds self.nearness }
    {
        let Board {
            pes: _,
            strategy: _,
            database: _,
            rounds,
            nearness,
            finished: _,
            running: _,
        } = self;
        (rounds, nearness)
    }
}

// A list that says of each of `n` elements that it has not finished.
fn all_running<A: Allocator>(alloc: A, n: usize) -> Result<Vec<bool, A>, AllocError>
    ensures items { IfOk result (λ finished. finished.items ≡ replicate n false) }
    ensures refused { OnErr result (0 < n) }
{
    let mut finished = Vec::with_capacity(alloc, n)?;
    finished.resize(n, false)?;
    Ok(finished)
}

// What is to be kept of the round that was measured.
#[tactic(auto, using(crate::proofs::Rounds::decided_by))]
fn decided<A: Allocator + Copy>(
    alloc: A,
    database: &LoadDb<A>,
    pes: Pes,
    strategy: Strategy,
) -> Result<(Snapshot<A>, Refined<A>), BoardError>
    requires placed { StandBelow pes database.now }
    ensures answer { MatchResult result (λ _. HasNextRound database.now) (RefusesDecision database.now) }
    ensures reported { IfOk result (λ made. IsSnapshotOf database.now database.now.round pes made.0) }
    ensures decided { IfOk result (λ made. IsDecided (elements database.now) pes strategy database.now.round (made.0, made.1.decision)) }
    ensures proved { IfOk result (λ made. IsDecidedBy strategy made.0.loads made.0.sizes pes made.1.decision made.1.nearness) }
{
    let snapshot = measured(database, pes)?;
    let refined = strategy.decide(alloc, &snapshot, pes)?;
    Ok((snapshot, refined))
}

// Takes the snapshot of the present round, and decides it by several workers.
#[tactic(auto, using(crate::proofs::Rounds::decided_by))]
fn decided_with<R: Threads + Sync, G: Gate + Sync, A: Allocator + Copy>(
    rt: &R,
    alloc: A,
    database: &LoadDb<A>,
    pes: Pes,
    strategy: Strategy,
    workers: u32,
    gate: &G,
) -> Result<(Snapshot<A>, Refined<A>), BoardError>
    requires some_worker { 1 ≤ workers }
    requires few_workers { workers ≤ Limits.PROBE_WORKERS }
    requires placed { StandBelow pes database.now }
    ensures answer { MatchResult result (λ _. HasNextRound database.now) (RefusesDecision database.now) }
    ensures reported { IfOk result (λ made. IsSnapshotOf database.now database.now.round pes made.0) }
    ensures decided { IfOk result (λ made. IsDecided (elements database.now) pes strategy database.now.round (made.0, made.1.decision)) }
    ensures proved { IfOk result (λ made. IsDecidedBy strategy made.0.loads made.0.sizes pes made.1.decision made.1.nearness) }
{
    let snapshot = measured(database, pes)?;
    let refined = strategy.decide_with(rt, alloc, &snapshot, pes, workers, gate)?;
    Ok((snapshot, refined))
}

// The snapshot of the round, which has to be complete and not the last.
fn measured<A: Allocator + Copy>(database: &LoadDb<A>, pes: Pes) -> Result<Snapshot<A>, BoardError>
    requires placed { StandBelow pes database.now }
    ensures answer { MatchResult result (λ _. HasNextRound database.now) (RefusesDecision database.now) }
    ensures reported { IfOk result (IsSnapshotOf database.now database.now.round pes) }
{
    if !database.is_complete() {
        return Err(BoardError::Incomplete);
    }
    let round = database.round().get();
    if round == Limits::ROUND {
        return Err(BoardError::Worn);
    }
    Ok(database.snapshot(round, pes.get())?)
}

// Adds what is to be kept of the round that was measured, and then begins the next one.
#[tactic(auto, using(crate::proofs::Unrefused::begun))]
fn keep<A: Allocator>(
    database: &mut LoadDb<A>,
    rounds: &mut Vec<(Snapshot<A>, Decision<A>), A>,
    nearness: &mut Vec<Nearness<A>, A>,
    made: (Snapshot<A>, Refined<A>),
) -> Result<(), AllocError>
    requires { HasNextRound database.old }
    ensures added { OnOk result (rounds.new.items ≡ rounds.old.items ++ (made.0, made.1.decision) ∷ []) }
    ensures proved { OnOk result (nearness.new.items ≡ nearness.old.items ++ made.1.nearness ∷ []) }
    ensures begun { OnOk result (database.new ≡ opening (database.old.round + 1) (elements database.old)) }
    ensures same_rounds { OnErr result (rounds.new.items ≡ rounds.old.items) }
    ensures same_nearness { OnErr result (nearness.new.items ≡ nearness.old.items) }
    ensures same_database { OnErr result (database.new ≡ database.old) }
{
    rounds.reserve(1)?;
    nearness.reserve(1)?;
    let (snapshot, refined) = made;
    let Refined {
        decision,
        nearness: near,
    } = refined;
    let Ok(()) = rounds.push((snapshot, decision)) else {
        unreachable!()
    };
    let Ok(()) = nearness.push(near) else {
        unreachable!()
    };
    database.next_round().unwrap();
    Ok(())
}

// What is kept of a round.
fn kept_for<A: Allocator>(
    rounds: &[(Snapshot<A>, Decision<A>)],
    round: u32,
) -> Option<&(Snapshot<A>, Decision<A>)>
    ensures { option_copied result ≡ kept_of rounds.now round }
{
    if round == 0 {
        return None;
    }
    rounds.get(round as usize - 1)
}

// What proves the decision of a round.
fn nearness_for<A: Allocator>(nearness: &[Nearness<A>], round: u32) -> Option<&Nearness<A>>
    ensures { option_copied result ≡ item_of nearness.now round }
{
    if round == 0 {
        return None;
    }
    nearness.get(round as usize - 1)
}
