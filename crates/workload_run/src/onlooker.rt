//! The trait of an observer of a workload's run, who is told how many rounds there are.

use pe_worker::{NoWatch, Watch};
use progress_line::ShownProgress;
use std::time::Clock;

/// A watch of the run of a workload. What is written does not depend on it, unless it asks the run to stop.
pub trait Onlooker: Watch {
    /// The workload was read, and has this number of rounds.
    fn expects(&self, rounds: u32);
}

impl Onlooker for NoWatch {
    fn expects(&self, _rounds: u32) {}
}

impl<R: Clock + Eprint> Onlooker for ShownProgress<'_, R> {
    fn expects(&self, rounds: u32) {
        self.expect(rounds);
    }
}
