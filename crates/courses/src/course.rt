//! The course of a world, step by step.

ghost use Rattle.std.specs.Prelude.{◌≡◌, ◌≤◌, [], length, IfErr, IfOk, OnErr, MatchBool};
ghost use Rattle.rts_core.specs.Worlds.{opening_world};
ghost use Rattle.courses.specs.Courses.{IsEnabled, Leads, CourseView, RefusesTaking, TakesStep};

use crate::step::Step;
use crate::trying::try_step;
use chare_index::{Limits, Pes};
use chares::{Chare, Openings};
use pe_state::StepError;
use rts_core::{Event, World};
use std::alloc::{AllocError, Allocator, Global};
use std::marker::Model;
use sync_board::Strategy;

/// Why a step was not taken.
#[derive(Clone, Copy, Debug, PartialEq, Eq)]
pub struct Refusal {
    /// The reason.
    pub error: StepError,
    /// The event that was to happen.
    pub event: Event,
}

/// A world with the steps that led to it from its opening. Contracts see it as the record `CourseView`.
#[derive(Drop)]
pub struct Course<C: Chare<A>, H: Openings<C>, A: Allocator = Global> {
    world: World<C, H, A>,
    steps: Vec<Step<A>, A>,
    strategy: Strategy,
}

impl<C: Chare<A>, H: Openings<C>, A: Allocator> Model for Course<C, H, A> {
    ghost use Rattle.std.specs.Prelude.{◌≤◌};
    ghost use Rattle.chare_index.specs.declared.limits.TheConstants.Limits.{PES};
    ghost use Rattle.rts_core.specs.Worlds.{opening_world};
    ghost use Rattle.courses.specs.Courses.{Leads, CourseView};

    ghost Value = { CourseView C A };

    ghost view = { λ c. record { strategy = c.strategy; world = c.world; steps = c.steps.items } };

    ghost invariant = { λ c. (H.pes ≤ PES) × Leads C.step C.pack C.unpack (opening_world H.pes H.opened c.strategy) c.steps.items c.world };
}

impl<C: Chare<A>, H: Openings<C>, A: Allocator + Copy> Course<C, H, A> {
    /// A course that opens as a [`World`] does.
    pub fn new(
        alloc: A,
        pes: Pes,
        chares: Vec<C, A>,
        strategy: Strategy,
    ) -> Result<Self, AllocError>
        requires few { length chares.items ≤ Limits.ELEMENTS }
        requires run { pes ≡ H.pes }
        requires opened { chares.items ≡ H.opened }
        ensures strategy { IfOk result (λ course. course.strategy ≡ strategy) }
        ensures world { IfOk result (λ course. course.world ≡ opening_world H.pes H.opened strategy) }
        ensures steps { IfOk result (λ course. course.steps ≡ []) }
    {
        Ok(Course {
            world: World::with_strategy(alloc, pes.get(), chares, strategy)?,
            steps: Vec::new(alloc),
            strategy,
        })
    }

    /// Takes one step, and returns whether the event was enabled; where it was not, nothing changes.
    ///
    /// # Errors
    ///
    /// Those of [`World::step`], or that there was no memory for the step, on which the course is unchanged.
    #[tactic(auto, using(crate::proofs::Courses::leads_more))]
    pub fn take(&mut self, event: &Event) -> Result<bool, Refusal>
        ensures taken { IfOk result (λ taken. MatchBool taken (TakesStep C.step C.pack C.unpack self.old event.now self.new)
            (¬ (IsEnabled C.step C.pack C.unpack self.old.world event.now) × (self.new ≡ self.old))) }
        ensures refused { IfErr result (λ refusal. RefusesTaking C.step C.pack C.refuses C.unpack self.new.world refusal.event refusal.error) }
        ensures event { IfErr result (λ refusal. refusal.event ≡ event.now) }
        ensures err { OnErr result (self.new ≡ self.old) }
    {
        if self.steps.reserve(1).is_err() {
            let error = StepError::OutOfMemory;
            return Err(Refusal {
                error,
                event: *event,
            });
        }
        match try_step(&mut self.world, event) {
            Ok(Some(reports)) => {
                let step = Step::new(*event, reports);
                self.steps.push_reserved(step);
                Ok(true)
            }
            Ok(None) => Ok(false),
            Err(error) => Err(Refusal {
                error,
                event: *event,
            }),
        }
    }
}

impl<C: Chare<A>, H: Openings<C>, A: Allocator> Course<C, H, A> {
    /// Its world.
    pub fn world(&self) -> &World<C, H, A>
        ensures value { result.now ≡ self.now.world }
    {
        &self.world
    }

    /// How many PEs its world has.
    pub fn pes(&self) -> u32
        ensures value { result ≡ length self.now.world.pes }
        ensures few { result ≤ Limits.PES }
    {
        self.world.pes() as u32
    }

    /// Its steps. The clause `led` says what holds of every course, for a caller that knows nothing else of this one.
    pub fn steps(&self) -> &[Step<A>]
        ensures value { result.now ≡ self.now.steps }
        ensures led { Leads C.step C.pack C.unpack (opening_world H.pes H.opened self.now.strategy) self.now.steps self.now.world }
    {
        &self.steps
    }

    /// Its world and its steps. The clause `led` says what its type said.
    pub fn into_parts(self) -> (World<C, H, A>, Vec<Step<A>, A>)
        ensures world { result.0 ≡ self.world }
        ensures steps { result.1.items ≡ self.steps }
        ensures led { Leads C.step C.pack C.unpack (opening_world H.pes H.opened self.strategy) self.steps self.world }
    {
        let Course {
            world,
            steps,
            strategy: _,
        } = self;
        (world, steps)
    }
}
