//! How far an element has come, and how the effect of a handler changes that.

ghost use Rattle.std.specs.Prelude.{◌≡◌, ◌<◌, ◌≤◌, false};
ghost use Rattle.chare_index.specs.declared.limits.TheConstants.Limits.{ROUND};
ghost use Rattle.chares.specs.Progressing.{begun, charged, ending, ended};

use crate::chare::Effect;
use chare_index::{Limits, Round};
use lb_snapshot::Units;

/// How far an element has come.
#[derive(Clone, Copy, Debug, PartialEq, Eq)]
pub struct Progress {
    /// The round after which it was resumed last, 0 from its start on.
    pub round: Round,
    /// Whether it has started.
    pub started: bool,
    /// Whether it waits for the end of the round after that one.
    pub synced: bool,
    /// Whether it has finished.
    pub finished: bool,
    /// The work units of its handlers since it began to wait last.
    pub load: Units,
}

/// What the effect of a handler means for its element.
#[derive(Clone, Copy, Debug, PartialEq, Eq)]
pub enum Ending {
    /// The element goes on.
    Runs,
    /// The element begins to wait for the end of its round.
    Syncs,
    /// The element has finished.
    Finishes,
}

impl Progress {
    /// The progress of an element that has not started.
    pub fn opening() -> Self
        ensures value { result ≡ record { round = 0; started = false; synced = false; finished = false; load = 0 } }
    {
        Progress {
            round: Round::new(0).unwrap(),
            started: false,
            synced: false,
            finished: false,
            load: 0,
        }
    }

    /// The progress as a resumption after this round begins.
    pub fn resumed(&self, round: Round) -> Self
        ensures value { result ≡ begun self.now round }
    {
        Progress {
            round,
            started: true,
            synced: false,
            finished: self.finished,
            load: self.load,
        }
    }

    /// The progress with the units of one more handler added, up to the limit of a load.
    pub fn charged(&self, units: Units) -> Self
        ensures value { result ≡ charged self.now units }
        ensures light { result.load ≤ Limits.LOAD }
    {
        Progress {
            load: self.load.saturating_add(units).min(Limits::LOAD),
            ..*self
        }
    }

    /// What this effect of a handler means for an element with this progress.
    pub fn ending(&self, effect: Effect) -> Ending
        ensures value { result ≡ ending self.now effect }
    {
        if effect.finished {
            return if self.finished {
                Ending::Runs
            } else {
                Ending::Finishes
            };
        }
        if effect.at_sync && !self.synced && !self.finished {
            return Ending::Syncs;
        }
        Ending::Runs
    }

    /// The progress after an effect with this meaning.
    pub fn ended(&self, ending: Ending) -> Self
        ensures value { result ≡ ended self.now ending }
    {
        match ending {
            Ending::Runs => *self,
            Ending::Syncs => Progress {
                synced: true,
                load: 0,
                ..*self
            },
            Ending::Finishes => Progress {
                finished: true,
                ..*self
            },
        }
    }
}
