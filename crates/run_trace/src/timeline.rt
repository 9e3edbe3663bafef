//! What happened in a run, in order of time.

ghost use Rattle.std.specs.Prelude.{◌≡◌, ◌++◌, IfOk, IsPermutation, OnOk};
ghost use Rattle.run_trace.specs.Steps.{event_happening, happenings_from, listed};

use crate::happening::Happening;
use crate::steps::happening_of;
use schedules::Step;
use std::alloc::{AllocError, Allocator, Global};
use std::marker::Model;

/// What happened in a run, in order of time. Contracts see it as a list.
#[derive(Drop)]
pub struct Timeline<A: Allocator = Global> {
    happenings: Vec<Happening, A>,
}

impl<A: Allocator> Model for Timeline<A> {
    ghost use Rattle.std.specs.Prelude.{List};
    ghost use Rattle.run_trace.specs.declared.happening.Happening.{Happening};

    ghost Value = { List Happening };

    ghost view = { λ timeline. timeline.happenings.items };
}

impl<A: Allocator> Timeline<A> {
    /// These happenings in order of time. Those that began at the same time keep their order.
    pub(crate) fn sorted(happenings: Vec<Happening, A>) -> Result<Self, AllocError>
        ensures same { IfOk result (λ timeline. IsPermutation happenings.items timeline) }
    {
        let mut happenings = happenings;
        happenings.sort_by_key(|happening: &Happening| happening.at)?;
        Ok(Timeline { happenings })
    }

    /// What happened in the steps of a run on one thread: step `n`, from 0 on, began at `n` microseconds and took one. Looks,
    /// flushes and deliveries are left out.
    ///
    /// # Errors
    ///
    /// Memory was refused.
    pub fn of_steps<B: Allocator>(alloc: A, steps: &[Step<B>]) -> Result<Self, AllocError>
        ensures shown { IfOk result (λ timeline. timeline ≡ happenings_from 0 steps.now) }
    {
        let mut happenings = Vec::new(alloc);
        for (number, step) in steps.iter().enumerate() {
            push_step(&mut happenings, step, number as u64)?;
        }
        Ok(Timeline { happenings })
    }

    /// What happened, in order.
    pub fn happenings(&self) -> &[Happening]
        ensures value { result.now ≡ self.now }
    {
        &self.happenings
    }
}

// Adds what happened in the step with this number.
fn push_step<A: Allocator, B: Allocator>(
    happenings: &mut Vec<Happening, A>,
    step: &Step<B>,
    number: u64,
) -> Result<(), AllocError>
    ensures added { OnOk result (happenings.new.items ≡ happenings.old.items ++ listed (event_happening step.now.0 step.now.1 number)) }
{
    let Some(happening) = happening_of(&step.event(), step.entries(), number) else {
        return Ok(());
    };
    Ok(happenings.push(happening)?)
}
