//! Checkpoints that are written where a run pauses.

ghost use Rattle.std.specs.Prelude.{◌≡◌, ◌≢◌, ◌<◌, ◌≤◌, None, Some, IfOk, IfSome, IsFalse, IsTrue, IsSome, ◌↔◌, ℕ, length};
ghost use Rattle.std.specs.Option.{option_copied, option_map};
ghost use Rattle.sync_board.specs.Boards.{decision_of};
ghost use Rattle.checkpointed_runs.specs.Lines.{not_kept_line};
ghost use Rattle.checkpointed_runs.specs.Pausing.{IsDue, KeepsAt, KeepsNoted, all_decided, first_failure, last_places, places_by};
ghost use Rattle.lb_database.specs.Measuring.{elements};
ghost use Rattle.lb_strategy.specs.Moves.{HasPlace};
ghost use Rattle.pe_worker.specs.declared.fault.Fault.TheVariants.{Mismatch};
ghost use Rattle.streams.specs.Writing.{WritesPrefix};

use crate::files::{CheckpointFiles, replace};
use carried_runs::Pauses;
use chare_index::{Index, Limits, Pe, Round};
use chares::Chare;
use lb_snapshot::Snapshot;
use lb_strategy::Decision;
use pe_worker::Fault;
use rts_run::Outcome;
use run_checkpoint::DecidedRound;
use std::alloc::{AllocError, Allocator, Global};
use std::io::{self, Write};
use streams::write_out;
use sync_board::Board;
use workload::Workload;

/// The line where a checkpoint was not kept.
const NO_CHECKPOINT: &str = "checkpoint: write failed\n";

/// The status where a checkpoint was not kept.
const NO_OUTPUT: u8 = 5;

/// Writes checkpoints of a run of a workload: one before the run, one at each pause, which comes after a given number of rounds,
/// and one where the run ends early.
#[derive(Drop)]
pub struct Checkpoints<'a, F, A: Allocator = Global> {
    alloc: A,
    files: F,
    // The name of the file; none where no checkpoint is written.
    name: Option<&'a str>,
    // After how many rounds one is written.
    every: usize,
    // What was decided for each round before the run.
    before: Vec<DecidedRound, A>,
    // How many rounds of the run were decided when the last checkpoint was tried.
    written: usize,
    // The workload, while it runs.
    workload: Option<Workload<A>>,
    failed: Option<io::Error>,
}

impl<'a, F: CheckpointFiles + Drop, A: Allocator + Copy> Checkpoints<'a, F, A> {
    /// Checkpoints in the file of this name, or none without a name, written each time `every` more rounds were decided. Rounds that are
    /// decided while the run pauses count with those before.
    pub fn new(alloc: A, files: F, name: Option<&'a str>, every: u32) -> Self
        ensures files { result.files ≡ files }
        ensures name { result.name ≡ name.entry }
        ensures every { result.every ≡ every }
        ensures not_begun { result.workload ≡ None }
        ensures none_failed { result.failed ≡ None }
    {
        Checkpoints {
            alloc,
            files,
            name,
            every: every as usize,
            before: Vec::new(alloc),
            written: 0,
            workload: None,
            failed: None,
        }
    }

    /// Whether checkpoints are written.
    pub fn is_on(&self) -> bool
        ensures value { IsTrue result ↔ IsSome self.now.name }
    {
        self.name.is_some()
    }

    /// The first reason why a checkpoint was not kept, if there is one. Those after it are written all the same.
    pub fn failed(&self) -> Option<io::Error>
        ensures value { result ≡ self.now.failed }
    {
        self.failed
    }

    /// A run of a workload begins, of which these rounds were decided before, and whose chares are in these places. Writes the checkpoint of
    /// that. The workload is kept only where checkpoints are written.
    pub fn begin(&mut self, places: &[Pe], before: Vec<DecidedRound, A>, workload: Workload<A>)
        ensures off { self.old.name ≡ None → self.new ≡ self.old }
        ensures asked { KeepsNoted (option_map (λ name. name.now) self.old.name) (Some workload) before.items places.now
            (F.asked self.old.files) (F.asked self.new.files) self.old.failed self.new.failed }
        ensures begun { IsSome self.old.name → self.new
            ≡ record self.old { files = self.new.files; before = before; written = 0; workload = Some workload; failed = self.new.failed } }
    {
        if !self.is_on() {
            return;
        }
        self.workload = Some(workload);
        self.written = 0;
        let kept = self.keep(&before, places);
        self.before = before;
        self.note(kept);
    }

    /// The run has paused, and has left this so far. Writes the checkpoint after its last round, where enough rounds were decided since the
    /// one before.
    pub fn follow<C: Chare<A>>(&mut self, outcome: &Outcome<C, A>)
        ensures off { self.old.name ≡ None → self.new ≡ self.old }
        ensures early { ¬ (IsDue self.old.written self.old.every (length outcome.now.board.rounds)) → self.new ≡ self.old }
        ensures asked { IsDue self.old.written self.old.every (length outcome.now.board.rounds) →
            KeepsNoted (option_map (λ name. name.now) self.old.name) self.old.workload (all_decided self.old.before.items outcome.now.board.rounds)
            (last_places outcome.now.board) (F.asked self.old.files) (F.asked self.new.files) self.old.failed self.new.failed }
        ensures counted { IsSome self.old.name → IsDue self.old.written self.old.every (length outcome.now.board.rounds) →
            self.new ≡ record self.old { files = self.new.files; written = length outcome.now.board.rounds; failed = self.new.failed } }
    {
        self.keep_due(outcome, self.every);
    }

    /// The run has ended with this. Where it ended early, the checkpoint after its last round is written, if it was not tried before. After a
    /// [`Mismatch`](Fault::Mismatch) none is: elements and rounds do not agree then, and the last checkpoint stays.
    pub fn end<C: Chare<A>>(&mut self, outcome: &Outcome<C, A>)
        ensures off { self.old.name ≡ None → self.new ≡ self.old }
        ensures well { outcome.now.fault ≡ None → self.new ≡ self.old }
        ensures mismatch { outcome.now.fault ≡ Some Mismatch → self.new ≡ self.old }
        ensures early { ¬ (IsDue self.old.written 1 (length outcome.now.board.rounds)) → self.new ≡ self.old }
        ensures asked { IsSome outcome.now.fault → outcome.now.fault ≢ Some Mismatch → IsDue self.old.written 1 (length outcome.now.board.rounds) →
            KeepsNoted (option_map (λ name. name.now) self.old.name) self.old.workload (all_decided self.old.before.items outcome.now.board.rounds)
            (last_places outcome.now.board) (F.asked self.old.files) (F.asked self.new.files) self.old.failed self.new.failed }
        ensures counted { IsSome outcome.now.fault → outcome.now.fault ≢ Some Mismatch → IsSome self.old.name
            → IsDue self.old.written 1 (length outcome.now.board.rounds)
            → self.new ≡ record self.old { files = self.new.files; written = length outcome.now.board.rounds; failed = self.new.failed } }
    {
        match outcome.fault() {
            None | Some(Fault::Mismatch) => {}
            Some(_) => self.keep_due(outcome, 1),
        }
    }

    // Writes a checkpoint where this many rounds were decided since the last one, and notes why where it was not kept.
    fn keep_due<C: Chare<A>>(&mut self, outcome: &Outcome<C, A>, least: usize)
        ensures off { self.old.name ≡ None → self.new ≡ self.old }
        ensures early { ¬ (IsDue self.old.written least (length outcome.now.board.rounds)) → self.new ≡ self.old }
        ensures asked { IsDue self.old.written least (length outcome.now.board.rounds) →
            KeepsNoted (option_map (λ name. name.now) self.old.name) self.old.workload (all_decided self.old.before.items outcome.now.board.rounds)
            (last_places outcome.now.board) (F.asked self.old.files) (F.asked self.new.files) self.old.failed self.new.failed }
        ensures counted { IsSome self.old.name → IsDue self.old.written least (length outcome.now.board.rounds) →
            self.new ≡ record self.old { files = self.new.files; written = length outcome.now.board.rounds; failed = self.new.failed } }
    {
        let rounds = outcome.rounds().len();
        if self.is_on() && is_due(self.written, least, rounds) {
            self.written = rounds;
            let kept = self.keep_after(outcome);
            self.note(kept);
        }
    }

    // Writes the checkpoint after the rounds that a run has decided so far.
    fn keep_after<C: Chare<A>>(&mut self, outcome: &Outcome<C, A>) -> io::Result<()>
        ensures asked { KeepsAt (option_map (λ name. name.now) self.old.name) self.old.workload (all_decided self.old.before.items outcome.now.board.rounds)
            (last_places outcome.now.board) (F.asked self.old.files) (F.asked self.new.files) result }
        ensures same { self.new ≡ record self.old { files = self.new.files } }
    {
        let decided = all_decided(self.alloc, &self.before, outcome.rounds())?;
        let places = last_places(self.alloc, outcome.board())?;
        self.keep(&decided, &places)
    }

    // Writes the checkpoint with these rounds and these places.
    fn keep(&mut self, decided: &[DecidedRound], places: &[Pe]) -> io::Result<()>
        ensures asked { KeepsAt (option_map (λ name. name.now) self.old.name) self.old.workload decided.now places.now
            (F.asked self.old.files) (F.asked self.new.files) result }
        ensures same { self.new ≡ record self.old { files = self.new.files } }
    {
        let (Some(name), Some(workload)) = (self.name, &self.workload) else {
            return Ok(());
        };
        replace(self.alloc, &mut self.files, name, decided, places, workload)
    }

    // Notes why a checkpoint was not kept, if it was not, and if it is the first.
    fn note(&mut self, kept: io::Result<()>)
        ensures noted { self.new ≡ record self.old { failed = first_failure self.old.failed kept } }
    {
        if let (None, Err(reason)) = (self.failed, kept) {
            self.failed = Some(reason);
        }
    }
}

impl<F: CheckpointFiles + Drop, C: Chare<A>, A: Allocator + Copy> Pauses<C, A>
    for Checkpoints<'_, F, A> {
    fn are_wanted(&self) -> bool
        ensures value { IsTrue result ↔ IsSome self.now.name }
    {
        self.is_on()
    }

    fn paused(&mut self, outcome: &Outcome<C, A>)
        ensures off { self.old.name ≡ None → self.new ≡ self.old }
        ensures early { ¬ (IsDue self.old.written self.old.every (length outcome.now.board.rounds)) → self.new ≡ self.old }
        ensures asked { IsDue self.old.written self.old.every (length outcome.now.board.rounds) →
            KeepsNoted (option_map (λ name. name.now) self.old.name) self.old.workload (all_decided self.old.before.items outcome.now.board.rounds)
            (last_places outcome.now.board) (F.asked self.old.files) (F.asked self.new.files) self.old.failed self.new.failed }
        ensures counted { IsSome self.old.name → IsDue self.old.written self.old.every (length outcome.now.board.rounds) →
            self.new ≡ record self.old { files = self.new.files; written = length outcome.now.board.rounds; failed = self.new.failed } }
    {
        self.follow(outcome);
    }
}

// Whether a checkpoint is due once this many rounds of a run were decided: at least one since the last checkpoint, and at least `least` in all.
fn is_due(written: usize, least: usize, rounds: usize) -> bool
    ensures value { IsTrue result ↔ IsDue written least rounds }
{
    written < rounds && least <= rounds - written
}

// What was decided for each round, before the run and by it. The only error is that memory was refused.
fn all_decided<A: Allocator>(
    alloc: A,
    before: &[DecidedRound],
    rounds: &[(Snapshot<A>, Decision<A>)],
) -> Result<Vec<DecidedRound, A>, AllocError>
    ensures value { IfOk result (λ all. all.items ≡ all_decided before.now rounds.now) }
{
    let mut all = Vec::from_slice(alloc, before)?;
    for kept in rounds {
        all.push(round_of(&kept.1))?;
    }
    Ok(all)
}

// What a checkpoint keeps of a round.
fn round_of<A: Allocator>(decision: &Decision<A>) -> DecidedRound
    ensures value { result ≡ record { bottleneck = decision.now.division.bottleneck; moved = decision.now.moved } }
{
    DecidedRound {
        bottleneck: decision.division.bottleneck,
        moved: decision.moved,
    }
}

// Where the last decision of a board has each element; nowhere without one. The only error is that memory was refused.
fn last_places<A: Allocator>(alloc: A, board: &Board<A>) -> Result<Vec<Pe, A>, AllocError>
    ensures value { IfOk result (λ places. places.items ≡ last_places board.now) }
{
    let n = board.len() as u32;
    match last_decision(board) {
        Some(decision) => places_by(alloc, decision, n),
        None => Ok(Vec::new(alloc)),
    }
}

// The decision of the last round of a board.
fn last_decision<A: Allocator>(board: &Board<A>) -> Option<&Decision<A>>
    ensures value { option_copied result ≡ decision_of board.now (length board.now.rounds) }
    ensures placed { IfSome result (λ d. (e : ℕ) → e < elements board.now.database → HasPlace d.now.division.cuts d.now.naming e) }
{
    let _measured = board.len();
    let rounds = board.rounds();
    let count = rounds.len() as u32;
    let round = Round::new(count).unwrap();
    board.decision_for(round)
}

// Where a decision has each of `n` elements. The only error is that memory was refused.
fn places_by<A: Allocator>(
    alloc: A,
    decision: &Decision<A>,
    n: u32,
) -> Result<Vec<Pe, A>, AllocError>
    requires few { n ≤ Limits.ELEMENTS }
    requires placed { (e : ℕ) → e < n → HasPlace decision.now.division.cuts decision.now.naming e }
    ensures value { IfOk result (λ places. places.items ≡ places_by decision.now n) }
{
    let mut places = Vec::new(alloc);
    for e in 0..n {
        let index = Index::new(e).unwrap();
        places.push(decision.place_of(index))?;
    }
    Ok(places)
}

/// The status that a program exits with whose checkpoints were written as the run went on: this one, or 5 where one was not kept. In
/// that case the writer gets the line `checkpoint: write failed`, or a prefix of it where it fails.
pub fn finish_kept<W: Write>(status: u8, has_failed: bool, writer: &mut W) -> u8
    ensures kept { IsFalse has_failed → (result ≡ status) × (W.contents writer.new ≡ W.contents writer.old) }
    ensures failed { IsTrue has_failed → (result ≡ 5) × WritesPrefix (W.contents writer.old) (W.contents writer.new) not_kept_line }
{
    if !has_failed {
        return status;
    }
    let _told = write_out(writer, NO_CHECKPOINT.as_bytes());
    NO_OUTPUT
}
