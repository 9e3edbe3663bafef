//! The result of running a workload.

ghost use Rattle.std.specs.Prelude.{◌≡◌, []};
ghost use Rattle.std.specs.Option.{option_map_or};
ghost use Rattle.workload_run.specs.Statuses.{status_of};

use crate::ended::RunEnd;
use lb_snapshot::Snapshot;
use lb_strategy::Decision;
use rts_run::Outcome;
use std::alloc::{Allocator, Global};
use tally::Tally;

/// The result of a workload: how it ended, and what its run left, if there was one.
#[derive(Drop)]
pub struct Driven<A: Allocator + Copy = Global> {
    /// How it ended.
    pub ended: RunEnd,
    /// What the run left; `None` where the workload was refused, or where memory ran out before the run.
    pub outcome: Option<Outcome<Tally<A>, A>>,
}

impl<A: Allocator + Copy> Driven<A> {
    /// The status that a program exits with.
    pub fn status(&self) -> u8
        ensures value { result ≡ status_of self.now.ended }
    {
        self.ended.status()
    }

    /// The snapshot and the decision of each round that was decided, from round 1 on. There are none where there was no
    /// run.
    pub fn rounds(&self) -> &[(Snapshot<A>, Decision<A>)]
        ensures value { result.now ≡ option_map_or (λ o. o.board.rounds) self.now.outcome [] }
    {
        match &self.outcome {
            Some(outcome) => outcome.rounds(),
            None => &[],
        }
    }
}
