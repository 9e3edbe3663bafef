//! What a run on one thread left.

ghost use Rattle.std.specs.Prelude.{◌≡◌, ◌+◌, IfOk, slice_get};
ghost use Rattle.std.specs.Option.{option_copied};
ghost use Rattle.sync_board.specs.Boards.{IsBoard};
ghost use Rattle.pe_state.specs.InOrder.{element_on};
ghost use Rattle.rts_core.specs.Accounts.{posted_count, executed_count, held_count};
ghost use Rattle.schedules.specs.Courses.{events_tried, left_by};

use chare_index::{Index, Pe};
use chares::{Chare, Element};
use courses::Step;
use lb_snapshot::Snapshot;
use lb_strategy::Decision;
use pe_worker::Fault;
use rts_core::{Account, Event};
use rts_run::Outcome;
use std::alloc::{AllocError, Allocator, Global};
use std::marker::Model;

/// What a run on one thread left: the outcome, as of a run over threads, and each step that led to it. The clauses of
/// [`explore`](crate::explore) and of [`replay`](crate::replay) say what holds of it. Contracts see it as the record
/// `ExploredView`.
#[derive(Drop)]
pub struct Explored<C: Chare<A>, A: Allocator = Global> {
    outcome: Outcome<C, A>,
    words: Vec<Pe, A>,
    steps: Vec<Step<A>, A>,
    refused: Option<Event>,
}

impl<C: Chare<A>, A: Allocator> Model for Explored<C, A> {
    ghost use Rattle.schedules.specs.Courses.{ExploredView};

    ghost Value = { ExploredView C A };

    ghost view = { λ x. record { outcome = x.outcome; words = x.words.items; steps = x.steps.items; refused = x.refused } };
}

impl<C: Chare<A>, A: Allocator> Explored<C, A> {
    pub(crate) fn new(
        outcome: Outcome<C, A>,
        words: Vec<Pe, A>,
        steps: Vec<Step<A>, A>,
        refused: Option<Event>,
    ) -> Self
        ensures made { result ≡ record { outcome = outcome; words = words.items; steps = steps.items; refused = refused } }
    {
        Explored {
            outcome,
            words,
            steps,
            refused,
        }
    }

    /// The outcome: PEs, queues, board, and why the run ended early, if it did.
    pub fn outcome(&self) -> &Outcome<C, A>
        ensures value { result.now ≡ self.now.outcome }
    {
        &self.outcome
    }

    /// The outcome and the steps by value.
    pub fn into_parts(self) -> (Outcome<C, A>, Vec<Step<A>, A>)
        ensures outcome { result.0 ≡ self.outcome }
        ensures steps { result.1.items ≡ self.steps }
    {
        let Explored {
            outcome,
            words: _,
            steps,
            refused: _,
        } = self;
        (outcome, steps)
    }

    /// The steps, in order.
    pub fn steps(&self) -> &[Step<A>]
        ensures value { result.now ≡ self.now.steps }
    {
        &self.steps
    }

    /// The events of its steps, and the one that was refused, if there was one. By them [`replay`](crate::replay) leads to the
    /// same world and the same fault, except that a run that ended as [`Idle`](Fault::Idle) ends as [`Stopped`](Fault::Stopped),
    /// and that an event for which memory was refused may happen now.
    pub fn events<B: Allocator>(&self, alloc: B) -> Result<Vec<Event, B>, AllocError>
        ensures value { IfOk result (λ events. events.items ≡ events_tried self.now) }
    {
        let mut events = Vec::new(alloc);
        for step in &self.steps {
            events.push(step.event())?;
        }
        if let Some(event) = self.refused {
            events.push(event)?;
        }
        Ok(events)
    }

    /// The event that was refused, which ended the run: its handler met a fault, or it was out of memory.
    pub fn refused(&self) -> Option<Event>
        ensures value { result ≡ self.now.refused }
    {
        self.refused
    }

    /// Why the run ended early: what a handler or the memory refused; [`Idle`](Fault::Idle) where nothing was enabled, and
    /// [`Stopped`](Fault::Stopped) where its events were used up. `None` where every element has finished and no letter is held.
    pub fn fault(&self) -> Option<Fault>
        ensures value { result ≡ self.now.outcome.fault }
    {
        self.outcome.fault()
    }

    /// The PE in the location word of an element, where letters to it are sent.
    pub fn word(&self, element: Index) -> Option<Pe>
        ensures value { result ≡ slice_get self.now.words element }
    {
        self.words.get(element.get() as usize).copied()
    }

    /// The element with this index, on the PE where it is; `None` where there is none, or it is on its way, packed.
    pub fn element(&self, index: Index) -> Option<&Element<C, A>>
        ensures value { option_copied result ≡ element_on index self.now.outcome.ends }
    {
        self.outcome.element(index)
    }

    /// The snapshot and the decision of each round that was decided, from round 1 on.
    pub fn rounds(&self) -> &[(Snapshot<A>, Decision<A>)]
        ensures value { result.now ≡ self.now.outcome.board.rounds }
        ensures consistent { IsBoard self.now.outcome.board }
    {
        self.outcome.rounds()
    }

    /// How many letters were posted, how many of them were executed, and how many are held.
    pub fn account(&self) -> Account
        ensures posted { result.posted ≡ posted_count (left_by self.now) }
        ensures executed { result.executed ≡ executed_count (left_by self.now) }
        ensures held { result.held ≡ held_count (left_by self.now) }
        ensures balanced { result.posted ≡ result.executed + result.held }
    {
        self.outcome.account()
    }
}
