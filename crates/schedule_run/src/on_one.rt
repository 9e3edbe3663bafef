//! The result of running a workload on one thread.

ghost use Rattle.std.specs.Prelude.{◌≡◌};
ghost use Rattle.std.specs.Option.{option_map};
ghost use Rattle.workload_run.specs.Statuses.{status_of};

use schedules::Explored;
use std::alloc::{Allocator, Global};
use tally::Tally;
use workload_run::{Driven, RunEnd};

/// The result of a workload on one thread: how it ended, and what its run left, if there was one.
#[derive(Drop)]
pub struct DrivenOnOne<A: Allocator + Copy = Global> {
    /// How it ended.
    pub ended: RunEnd,
    /// What the run left; `None` where memory was refused before it or after it.
    pub explored: Option<Explored<Tally<A>, A>>,
}

impl<A: Allocator + Copy> DrivenOnOne<A> {
    /// The status that a program exits with.
    pub fn status(&self) -> u8
        ensures value { result ≡ status_of self.now.ended }
    {
        self.ended.status()
    }

    /// Turns it into the result of a run over threads, whose rounds can be dumped. The steps are dropped.
    pub fn into_driven(self) -> Driven<A>
        ensures ended { result.ended ≡ self.ended }
        ensures outcome { result.outcome ≡ option_map (λ x. x.outcome) self.explored }
    {
        let DrivenOnOne { ended, explored } = self;
        let outcome = match explored {
            Some(explored) => Some(explored.into_parts().0),
            None => None,
        };
        Driven { ended, outcome }
    }
}
