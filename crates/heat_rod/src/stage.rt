//! How far a strip has come.

ghost use Rattle.std.specs.Prelude.{◌≡◌, ◌+◌, ◌<◌, ◌≤◌, None};
ghost use Rattle.chare_index.specs.declared.limits.TheConstants.Limits.{ELEMENTS};
ghost use Rattle.heat_rod.specs.Stages.{begins_step, cell_of, ends_step, has_cells, heat_in, hears, is_beside, keeps, opening_stage};

use crate::ghost_cell::GhostCell;
use crate::heating::COLD;
use crate::posting::{left_of, right_of};
use chare_index::Index;

/// The residual before the first step.
pub(crate) const NO_RESIDUAL: f64 = f64::INFINITY;

/// How far a strip has come. A strip counts a step as done once it has computed its cells, and no neighbor begins the next one before all
/// strips have: so a ghost cell that comes is of the step that the strip computes next, even where the strip has not begun it.
#[derive(Clone, Copy, Debug)]
pub struct Stage {
    /// How many steps the strip has begun: it has told its neighbors of as many.
    pub(crate) begun: u32,
    /// How many steps it has computed.
    pub(crate) done: u32,
    /// The greatest change of a cell of the rod in the last step.
    pub(crate) residual: f64,
    /// The cells beside it before the step that is next, where they have come.
    pub(crate) left: Option<f64>,
    pub(crate) right: Option<f64>,
}

impl Stage {
    /// As the strip opens.
    pub(crate) fn opening() -> Stage
        ensures value { result ≡ opening_stage }
    {
        Stage {
            begun: 0,
            done: 0,
            residual: NO_RESIDUAL,
            left: None,
            right: None,
        }
    }

    /// With a ghost cell, which is ignored where it is not of the step that is next.
    pub(crate) fn keeps(self, cell: GhostCell) -> Stage
        ensures value { result ≡ keeps self cell }
    {
        if cell.step != self.done {
            return self;
        }
        if cell.from_left {
            return Stage {
                left: Some(cell.heat),
                ..self
            };
        }
        Stage {
            right: Some(cell.heat),
            ..self
        }
    }

    /// With the residual of the last step.
    pub(crate) fn hears(self, residual: f64) -> Stage
        ensures value { result ≡ hears self residual }
    {
        Stage { residual, ..self }
    }

    /// The next step is begun.
    pub(crate) fn begins_step(self) -> Stage
        requires fits { self.done < 4294967295 }
        ensures value { result ≡ begins_step self }
    {
        Stage {
            begun: self.done + 1,
            ..self
        }
    }

    /// It is computed.
    pub(crate) fn ends_step(self) -> Stage
        requires begun { self.done < self.begun }
        ensures value { result ≡ ends_step self }
    {
        Stage {
            done: self.done + 1,
            left: None,
            right: None,
            ..self
        }
    }

    /// The cell at an end of the strip, for the step that is next.
    pub(crate) fn cell(self, from_left: bool, heat: Option<f64>) -> GhostCell
        ensures value { result ≡ cell_of self from_left heat }
    {
        GhostCell {
            from_left,
            step: self.done,
            heat: heat_in(heat),
        }
    }

    /// Whether the ghost cells of strip `me` of `n` have come from all neighbors that it has.
    pub(crate) fn has_cells(self, me: Index, n: u32) -> bool
        requires few { n ≤ ELEMENTS }
        ensures value { result ≡ has_cells self me n }
    {
        is_beside(left_of(me), self.left) && is_beside(right_of(me, n), self.right)
    }
}

// Whether the ghost cell of this neighbor has come, or there is no neighbor.
fn is_beside(neighbor: Option<Index>, cell: Option<f64>) -> bool
    ensures value { result ≡ is_beside neighbor cell }
{
    !neighbor.is_some() || cell.is_some()
}

/// The temperature of a cell: beyond an end of the rod it is cold.
pub(crate) fn heat_in(cell: Option<f64>) -> f64
    ensures value { result ≡ heat_in cell }
{
    cell.unwrap_or(COLD)
}
