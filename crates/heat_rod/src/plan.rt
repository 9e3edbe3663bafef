//! How many steps the strips of a rod take, and after how many they are balanced.

ghost use Rattle.std.specs.Prelude.{◌≡◌, ◌<◌, false};
ghost use Rattle.heat_rod.specs.Stages.{is_due, is_over};

use crate::stage::Stage;

/// How long the strips of a rod go on, and how often they are balanced.
#[derive(Clone, Copy, Debug)]
pub struct RodPlan {
    /// How many steps they take at most.
    pub steps: u32,
    /// The number of steps from one balancing to the next, or 0 if they are never balanced.
    pub every: u32,
    /// They end after a step in which no cell of the rod changed by so much.
    pub small: f64,
}

impl RodPlan {
    /// Whether the strips have come to their end.
    pub(crate) fn is_over(self, stage: Stage) -> bool
        ensures value { result ≡ is_over self stage }
        ensures room { result ≡ false → stage.done < 4294967295 }
    {
        self.steps <= stage.done || stage.residual < self.small
    }

    /// Whether they are to be balanced after the step that was taken last.
    pub(crate) fn is_due(self, stage: Stage) -> bool
        ensures value { result ≡ is_due self stage }
    {
        self.every != 0 && stage.done % self.every == 0
    }
}
