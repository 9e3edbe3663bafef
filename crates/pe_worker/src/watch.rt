//! The trait of an observer, who sees the steps of a run and may ask it to stop.

use chare_index::{Index, Pe, Round};
use chares::LetterId;
use lb_snapshot::Snapshot;
use lb_strategy::Decision;
use std::alloc::Allocator;

/// What a worker did with its PE in one step. Posts are counted beside it: see [`Watch::made_step`].
#[derive(Clone, Copy, Debug, PartialEq, Eq)]
pub enum PeStep {
    /// The element started: its handler ran for round 0.
    Started(Index),
    /// The element executed the letter: its handler ran.
    Executed(LetterId, Index),
    /// The letter came before its element, and waits on the shelf.
    Shelved(LetterId),
    /// The letter was forwarded to where its element has gone.
    Forwarded(LetterId),
    /// The element arrived.
    Installed(Index),
    /// The worker handed notes of its elements to the board.
    Reported,
    /// The element left for this PE, its place in the round that was decided.
    Departed(Index, Pe),
    /// The element went on after this round: its handler ran.
    Resumed(Index, Round),
}

/// Who looks on at a run, and may ask it to stop. Nothing else in the run depends on it.
pub trait Watch {
    /// A round was decided, and this many letters have been executed, as far as the workers have counted them by then. It is called by
    /// the worker that has decided the round, without a lock; the next round may be decided meanwhile.
    fn decided(&self, round: Round, executed: u64);

    /// Whether [`made_round`](Watch::made_round) is called.
    fn follows_rounds(&self) -> bool {
        false
    }

    /// A round was decided: its snapshot, and what was decided for it. The worker that has decided it calls this under the lock of
    /// the board, before [`decided`](Watch::decided) and before any other worker is told. So the rounds come in order, and the run
    /// waits meanwhile.
    fn made_round<B: Allocator + Copy>(&self, _snapshot: &Snapshot<B>, _decision: &Decision<B>) {}

    /// Whether the run is to stop, as after a signal or when its time is up. Each worker asks before it starts an
    /// element and before each of its turns, of up to 64 letters, without a lock, so the answer has to come fast. Where it is
    /// yes, the run ends with the fault [`Stopped`](crate::Fault::Stopped), and loses nothing. A handler that is under way is
    /// not cut off, and a run whose elements have all finished ends as it would have.
    fn wants_stop(&self) -> bool {
        false
    }

    /// Whether [`begins_step`](Watch::begins_step) and [`made_step`](Watch::made_step) are called. A run whose watch answers
    /// no pays nothing for them.
    fn follows_steps(&self) -> bool {
        false
    }

    /// The worker of this PE begins a step that may run a handler. If the step turns out not to be enabled, no
    /// [`made_step`](Watch::made_step) follows.
    fn begins_step(&self, _pe: Pe) {}

    /// The worker of this PE made this step, after which the PE has posted this many letters, numbered from 0 on. Each worker
    /// calls it for its own PE, without a lock, and the run waits meanwhile.
    fn made_step(&self, _pe: Pe, _step: PeStep, _posted: u64) {}
}

/// Nobody looks on, and nobody asks the run to stop.
#[derive(Clone, Copy, Debug, Drop)]
pub struct NoWatch;

impl Watch for NoWatch {
    fn decided(&self, _round: Round, _executed: u64) {}
}
