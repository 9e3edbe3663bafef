//! The progress line as an observer of a run, or none.

ghost use Rattle.std.specs.Prelude.{◌≡◌, ◌≢◌, IfOk, Ok, false, true};
ghost use Rattle.progress_line.specs.declared.watcher.ShownProgress.TheVariants.{Off};

use crate::teller::ProgressLine;
use chare_index::Round;
use pe_worker::Watch;
use std::io;
use std::time::Clock;

/// The progress line of a run, or none.
#[derive(Drop)]
pub enum ShownProgress<'a, R> {
    /// No progress line.
    Off,
    /// A line in which a person reads how far the run is.
    On(ProgressLine<'a, R>),
}

impl<'a, R: Clock + Eprint> ShownProgress<'a, R> {
    /// The progress line of a run that starts now, or [`Off`](ShownProgress::Off) where none is wanted.
    ///
    /// # Errors
    ///
    /// One is wanted, and the clock cannot be read. A caller that runs all the same uses [`ShownProgress::Off`].
    pub fn new(rt: &'a R, is_wanted: bool) -> io::Result<Self>
        ensures wanted { is_wanted ≡ true → IfOk result (λ progress. progress ≢ Off) }
        ensures unwanted { is_wanted ≡ false → result ≡ Ok Off }
    {
        if !is_wanted {
            return Ok(ShownProgress::Off);
        }
        Ok(ShownProgress::On(ProgressLine::new(rt)?))
    }

    /// Sets how many rounds there will be.
    pub fn expect(&self, rounds: u32) {
        if let ShownProgress::On(line) = self {
            line.expect(rounds);
        }
    }

    /// Writes the last standing once more, and ends the line, if any was written.
    pub fn finish(&self) {
        if let ShownProgress::On(line) = self {
            line.finish();
        }
    }
}

impl<R: Clock + Eprint> Watch for ShownProgress<'_, R> {
    fn decided(&self, round: Round, executed: u64) {
        if let ShownProgress::On(line) = self {
            line.decided(round, executed);
        }
    }
}
