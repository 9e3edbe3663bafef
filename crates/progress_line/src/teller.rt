//! The line that is overwritten again and again.

ghost use Rattle.std.specs.Prelude.{◌≡◌, ◌≢◌, ◌≤◌, IfSome, SomeIff};
ghost use Rattle.progress_line.specs.Turns.{next_turn};

use crate::text::{Line, Standing};
use chare_index::Round;
use pe_worker::Watch;
use std::io;
use std::sync::atomic::{AtomicU64, Ordering};
use std::time::{Clock, Instant};

/// The least time between two lines, in milliseconds.
pub(crate) const GAP: u64 = 100;

/// Writes to the standard error how far a run is, in one line that is overwritten again and again. Several threads may report
/// the rounds that are decided. It takes no memory except its own. A line that cannot be written is dropped, and changes
/// nothing.
#[derive(Drop)]
pub struct ProgressLine<'a, R> {
    rt: &'a R,
    start: Instant,
    /// How many rounds there will be, and 0 where that is not known.
    rounds: AtomicU64,
    /// The greatest round so far.
    round: AtomicU64,
    executed: AtomicU64,
    /// The time from which the next line may be written, in milliseconds from the start. It is 0 before the first line.
    turn: AtomicU64,
}

impl<'a, R: Clock + Eprint> ProgressLine<'a, R> {
    /// A line of a run that starts now, and whose number of rounds is not known yet.
    ///
    /// # Errors
    ///
    /// The clock cannot be read.
    pub fn new(rt: &'a R) -> io::Result<Self> {
        Ok(ProgressLine {
            rt,
            start: Instant::now(rt)?,
            rounds: AtomicU64::new(0),
            round: AtomicU64::new(0),
            executed: AtomicU64::new(0),
            turn: AtomicU64::new(0),
        })
    }

    /// Sets how many rounds there will be.
    pub fn expect(&self, rounds: u32) {
        self.rounds.store(u64::from(rounds), Ordering::SeqCst);
    }

    /// Writes the last standing once more, and ends the line, if any was written.
    pub fn finish(&self) {
        if self.turn.swap(0, Ordering::SeqCst) == 0 {
            return;
        }
        let _ = match self.elapsed() {
            Some(now) => eprintln!(self.rt; "{}", Line(self.standing(now))),
            None => eprintln!(self.rt),
        };
    }

    // The milliseconds since the start, where the clock can be read.
    fn elapsed(&self) -> Option<u64> {
        let elapsed = self.start.elapsed(self.rt).ok()?;
        Some(u64::try_from(elapsed.as_millis()).unwrap_or(u64::MAX))
    }

    // What is known of the run.
    fn standing(&self, now: u64) -> Standing
        ensures now { result.milliseconds ≡ now }
        ensures rounds { IfSome result.rounds (λ rounds. rounds ≢ 0) }
    {
        let rounds = self.rounds.load(Ordering::SeqCst);
        Standing {
            round: self.round.load(Ordering::SeqCst),
            rounds: (rounds != 0).then_some(rounds),
            executed: self.executed.load(Ordering::SeqCst),
            milliseconds: now,
        }
    }

    // Whether this thread is to write a line now. Of several that ask at the same time one is.
    fn takes_turn(&self, now: u64) -> bool {
        let turn = self.turn.load(Ordering::SeqCst);
        let Some(next) = turn_after(turn, now) else {
            return false;
        };
        let taken = self
            .turn
            .compare_exchange(turn, next, Ordering::SeqCst, Ordering::SeqCst);
        taken.is_ok()
    }
}

// The time of the turn after this one, if this one has come.
fn turn_after(turn: u64, now: u64) -> Option<u64>
    ensures { SomeIff result (turn ≤ now) (next_turn now) }
{
    (turn <= now).then_some(now.saturating_add(GAP))
}

impl<R: Clock + Eprint> Watch for ProgressLine<'_, R> {
    fn decided(&self, round: Round, executed: u64) {
        self.round
            .fetch_max(u64::from(round.get()), Ordering::SeqCst);
        self.executed.fetch_max(executed, Ordering::SeqCst);
        let Some(now) = self.elapsed() else {
            return;
        };
        if self.takes_turn(now) {
            let line = Line(self.standing(now));
            let _ = eprint!(self.rt; "{line}");
        }
    }
}
