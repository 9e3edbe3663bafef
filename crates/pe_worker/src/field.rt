//! The shared state of the workers of a run.

ghost use Rattle.std.specs.Prelude.{◌≡◌, ◌≤◌, IfOk, length};
ghost use Rattle.sync_board.specs.Boards.{IsBoard};
ghost use Rattle.lb_database.specs.Measuring.{elements};
ghost use Rattle.barrier.specs.Rounds.{BeginWith};

use crate::agenda::last_round;
use crate::ballot::Ballot;
use crate::seated::{OfRun, RunBeginning};
use barrier::{Barrier, BoardStart};
use chare_index::{Limits, Round};
use chares::{Chare, History, Openings};
use pe_queues::{Locations, Post};
use pe_state::Parcel;
use std::alloc::{AllocError, Allocator, Global};
use std::marker::{Model, PhantomData};
use std::sync::Wait;
use std::sync::atomic::Ordering::SeqCst;
use std::sync::atomic::{AtomicBool, AtomicU64};
use sync_board::Board;

// With fewer PEs than this, a walk over the chain is done before a thread for it has started.
const PES_WORTH_THREADS: u32 = 128;

/// What the workers of a run share: the queues, the words, the board under its lock, and three hints, which workers only
/// raise and which save them the lock: the last round that was decided, that every element has finished, and that all are
/// to stop; and how many executed letters they have counted, for who looks on. No clause rests on a hint or on that
/// number. Contracts see the queues.
#[derive(Drop)]
pub struct Field<
    C: Chare<A>,
    H: Openings<C> + BoardStart<A>,
    J: RunBeginning<C>,
    A: Allocator = Global,
> {
    pub(crate) post: Post<Parcel<C, H, A>, A>,
    pub(crate) words: Locations<OfRun<C, H>, A>,
    pub(crate) barrier: Barrier<OfRun<C, H>, A>,
    decided: AtomicU64,
    finished: AtomicBool,
    stopped: AtomicBool,
    executed: AtomicU64,
    // What the workers say of their idle turns.
    pub(crate) ballot: Ballot<A>,
    // After how many turns in a row without a step a worker gives up.
    pub(crate) turns: u64,
    // Whether the worker of PE 0 looks whether nothing is left to do, once it has been idle for a while.
    pub(crate) looks_quiet: bool,
    // Whether elements keep what they have handled.
    pub(crate) history: History,
    probe_workers: u32,
    of: PhantomData<J>,
}

impl<C: Chare<A>, H: Openings<C> + BoardStart<A>, J: RunBeginning<C>, A: Allocator> Model
    for Field<C, H, J, A> {
    ghost use Rattle.std.specs.Prelude.{◌≡◌, ◌≤◌, IfOk, length};
    ghost use Rattle.chare_index.specs.declared.limits.TheConstants.Limits.{PROBE_WORKERS};
    ghost use Rattle.pe_queues.specs.Seats.{PostView};

    ghost Value = { PostView };

    ghost view = { λ f. f.post };

    ghost invariant = { λ f.
        (f.post ≡ J.beginning.post) × (f.words.pes ≡ H.pes) × (f.words.elements ≡ length H.opened)
        × (1 ≤ f.probe_workers) × (f.probe_workers ≤ PROBE_WORKERS) };
}

impl<C: Chare<A>, H: Openings<C> + BoardStart<A>, J: RunBeginning<C>, A: Allocator> Field<
    C,
    H,
    J,
    A,
> {
    /// The queues, words and board of a run as it opens, or as it is opened again, which takes some bytes for each PE: the only
    /// error is that memory was refused. Its workers give up after so many idle turns, and before, where they look for that, once
    /// nothing is left to do. Its elements keep or drop what they have handled, and a round is decided by at most so many probe
    /// workers, 1 to 64, and by one where its PEs are few.
    pub fn new(
        alloc: A,
        post: Post<Parcel<C, H, A>, A>,
        words: Locations<OfRun<C, H>, A>,
        board: Board<A>,
        turns: u64,
        looks_quiet: bool,
        history: History,
        probe_workers: u32,
    ) -> Result<Self, AllocError>
        requires own { post ≡ J.beginning.post }
        requires run_pes { words.pes ≡ H.pes }
        requires run_elements { words.elements ≡ length H.opened }
        requires counted { elements board.database ≡ length H.opened }
        requires on_pes { board.pes ≡ H.pes }
        requires by_strategy { board.strategy ≡ H.strategy }
        requires earlier { BeginWith H.earlier board.rounds }
        requires some_worker { 1 ≤ probe_workers }
        requires few_workers { probe_workers ≤ Limits.PROBE_WORKERS }
        ensures post { IfOk result (λ field. field ≡ post) }
    {
        let decided = AtomicU64::new(u64::from(last_round(&board).get()));
        let finished = AtomicBool::new(board.all_finished());
        let ballot = Ballot::new(alloc, post.pes())?;
        Ok(Field {
            post,
            words,
            barrier: Barrier::new(board),
            decided,
            finished,
            stopped: AtomicBool::new(false),
            executed: AtomicU64::new(0),
            ballot,
            turns,
            looks_quiet,
            history,
            probe_workers,
            of: PhantomData,
        })
    }

    /// The flag that lets all workers stop.
    pub fn stop_flag(&self) -> &AtomicBool {
        &self.stopped
    }

    /// The queues.
    pub fn post(&self) -> &Post<Parcel<C, H, A>, A>
        ensures value { result.now ≡ self.now }
        ensures own { result.now ≡ J.beginning.post }
    {
        &self.post
    }

    /// How many threads search for the division of a round.
    pub(crate) fn probe_workers(&self) -> u32
        ensures some_worker { 1 ≤ result }
        ensures few_workers { result ≤ Limits.PROBE_WORKERS }
    {
        if self.post.pes() < PES_WORTH_THREADS {
            return 1;
        }
        self.probe_workers
    }

    /// Lets all workers stop.
    pub(crate) fn stop(&self) {
        self.stopped.store(true, SeqCst);
    }

    /// Whether all are to stop.
    pub(crate) fn is_stopped(&self) -> bool {
        self.stopped.load(SeqCst)
    }

    /// Tells the others that a round is decided.
    pub(crate) fn tell_decided(&self, round: Round) {
        self.decided.fetch_max(u64::from(round.get()), SeqCst);
    }

    /// The last round that is known to be decided, or 0.
    pub(crate) fn last_decided(&self) -> Option<Round> {
        let round = u32::try_from(self.decided.load(SeqCst)).ok()?;
        Round::new(round)
    }

    /// Tells that this many more letters were executed.
    pub(crate) fn tell_executed(&self, letters: u64) {
        self.executed.fetch_add(letters, SeqCst);
    }

    /// How many letters were executed, as far as the workers have counted them.
    pub(crate) fn executed(&self) -> u64 {
        self.executed.load(SeqCst)
    }

    /// Tells the others that every element has finished.
    pub(crate) fn tell_finished(&self) {
        self.finished.store(true, SeqCst);
    }

    /// Whether every element has finished. The board is asked only once the hint says so.
    pub(crate) fn all_finished<R: Wait>(&self, rt: &R) -> bool {
        self.finished.load(SeqCst) && self.barrier.all_finished(rt)
    }

    /// The queues and the board again, once no thread uses them any more. Each decision that the board keeps is right, and the rounds
    /// that were decided before are its first ones.
    pub fn into_parts(self) -> (Post<Parcel<C, H, A>, A>, Board<A>)
        ensures post { result.0 ≡ self }
        ensures own { result.0 ≡ J.beginning.post }
        ensures counted { elements result.1.database ≡ length H.opened }
        ensures on_pes { result.1.pes ≡ H.pes }
        ensures by_strategy { result.1.strategy ≡ H.strategy }
        ensures earlier { BeginWith H.earlier result.1.rounds }
        ensures board { IsBoard result.1 }
    {
        let Field {
            post,
            words: _,
            barrier,
            decided: _,
            finished: _,
            stopped: _,
            executed: _,
            ballot: _,
            turns: _,
            looks_quiet: _,
            history: _,
            probe_workers: _,
            of: _,
        } = self;
        (post, barrier.into_board())
    }
}
