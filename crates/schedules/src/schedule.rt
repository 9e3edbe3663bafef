//! The settings of a run on one thread.

ghost use Rattle.std.specs.Prelude.{◌≡◌, MatchOption};
ghost use Rattle.sync_board.specs.declared.strategy.Strategy.TheVariants.{Least};
ghost use Rattle.schedules.specs.Schedules.{IsFirstOutside, MayExplore, no_bias};

use crate::bias::Bias;
use chare_index::Limits;
use rts_run::Setting;
use sync_board::Strategy;

/// The numbers of a run on one thread, and how its events are drawn.
#[derive(Clone, Copy, Debug, PartialEq)]
pub struct Schedule {
    /// The number of PEs, 1 to [`Limits::PES`].
    pub pes: u32,
    /// How each round is decided.
    pub strategy: Strategy,
    /// The number of events after which the run is stopped.
    pub steps: u64,
    /// What is drawn more often.
    pub bias: Bias,
}

impl Schedule {
    /// The usual schedule on this number of PEs, 1 to [`Limits::PES`]: rounds by [`Strategy::Least`], up to 1,000,000 events,
    /// and no bias.
    pub fn usual(pes: u32) -> Self
        ensures pes { result.pes ≡ pes }
        ensures strategy { result.strategy ≡ Least }
        ensures steps { result.steps ≡ 1_000_000 }
        ensures bias { result.bias ≡ no_bias }
    {
        Schedule {
            pes,
            strategy: Strategy::Least,
            steps: 1_000_000,
            bias: Bias::default(),
        }
    }

    /// The first number that is out of its limits in a run of this number of elements, which may be up to
    /// [`Limits::ELEMENTS`]; or `None` where each is within its limits.
    pub fn first_outside(&self, elements: usize) -> Option<Setting>
        ensures answer { MatchOption result (MayExplore self.now elements) (IsFirstOutside self.now elements) }
    {
        if self.pes < 1 || Limits::PES < self.pes {
            return Some(Setting::Pes);
        }
        if elements > Limits::ELEMENTS as usize {
            return Some(Setting::Elements);
        }
        None
    }
}
