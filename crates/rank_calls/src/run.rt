//! The name of a run.

ghost use Rattle.rank_calls.specs.Runs.{Run};

use chares::Openings;
use foreign_chare::{Foreign, Script};
use std::marker::{Brand, PhantomData};

/// Names a run: how many elements and PEs it has, and what its handlers answer.
pub trait RunName {
    /// The run.
    ghost run: { Run };
}

impl RunName for Brand {
    ghost use Rattle.rank_calls.specs.Runs.{no_run};

    ghost run = { no_run };
}

/// Stands for the script and the opening of a run.
pub struct Told<R: RunName> {
    of: PhantomData<R>,
}

impl<R: RunName> Script for Told<R> {
    ghost use Rattle.rank_calls.specs.Runs.{answers_in};

    ghost answers = { answers_in R.run };
}

impl<R: RunName> Openings<Foreign<Told<R>>> for Told<R> {
    ghost use Rattle.rank_calls.specs.Runs.{opening};

    ghost opened = { opening R.run };

    ghost pes = { R.run.pes };
}
