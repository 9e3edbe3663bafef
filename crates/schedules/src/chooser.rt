//! Which event happens next. docs/RUNS.md says how it is drawn.

ghost use Rattle.std.specs.Prelude.{◌≡◌, ◌*◌, ◌≤◌, IfOk, MatchOption, length, sum_by};
ghost use Rattle.rts_core.specs.Events.{pe_of};
ghost use Rattle.schedules.specs.Choices.{Knows, KnowsBut, turn_of};
ghost use Rattle.schedules.specs.Draws.{drawn, drawn_once, events_of, is_starved, kinds, picked, places_after, share};

use crate::bias::{Bias, Kind};
use crate::choices::Choices;
use crate::generator::SplitMix64;
use chare_index::{Limits, Pe};
use chares::{Chare, Openings, TraceEntry};
use rts_core::{Event, World};
use std::alloc::{AllocError, Allocator, Global};
use std::marker::Model;

// The kinds of events, in the order in which a number that is drawn goes through them.
const KINDS: [Kind; 7] = [
    Kind::Look,
    Kind::Flush,
    Kind::Deliver,
    Kind::Act,
    Kind::Report,
    Kind::Element,
    Kind::Decide,
];

// How often an event of a PE that is starved is drawn again.
const REDRAWS: u32 = 15;

/// What is enabled in a world, and the generator that draws from it. Contracts see it as the record `ChooserView`.
#[derive(Drop)]
pub(crate) struct Chooser<A: Allocator = Global> {
    generator: SplitMix64,
    bias: Bias,
    choices: Choices<A>,
}

impl<A: Allocator> Model for Chooser<A> {
    ghost use Rattle.schedules.specs.Choices.{ChooserView};

    ghost Value = { ChooserView };

    ghost view = { λ c. record { state = c.generator; bias = c.bias; choices = c.choices } };
}

impl<A: Allocator + Copy> Chooser<A> {
    /// The chooser for a world as it opens, with a generator of this seed.
    pub(crate) fn new<C: Chare<A>, H: Openings<C>>(
        alloc: A,
        world: &World<C, H, A>,
        seed: u64,
        bias: Bias,
    ) -> Result<Self, AllocError>
        requires few_pes { length world.now.pes ≤ Limits.PES }
        requires few { length world.now.words ≤ Limits.ELEMENTS }
        ensures state { IfOk result (λ chooser. chooser.state ≡ seed) }
        ensures bias { IfOk result (λ chooser. chooser.bias ≡ bias) }
        ensures places { IfOk result (λ chooser. chooser.choices.places ≡ world.now.words) }
        ensures knows { IfOk result (λ chooser. Knows world.now chooser.choices) }
    {
        Ok(Chooser {
            generator: SplitMix64::new(seed),
            bias,
            choices: Choices::new(alloc, world)?,
        })
    }
}

impl<A: Allocator> Chooser<A> {
    /// Draws one of the events that are enabled, or returns `None` where none is.
    pub(crate) fn draw<C: Chare<A>, H: Openings<C>>(
        &mut self,
        world: &World<C, H, A>,
    ) -> Option<Event>
        requires knows { Knows world.now self.old.choices }
        ensures drawn { (result, self.new.state) ≡ drawn self.old.bias (turn_of world.now self.old) }
        ensures only { self.new ≡ record self.old { state = self.new.state } }
    {
        let bias = self.bias;
        for _again in 0..REDRAWS {
            let event = self.draw_any(world);
            if !is_starved(&bias, &event) {
                return event;
            }
        }
        self.draw_any(world)
    }

    /// Updates what is enabled after a step with this event and these trace entries, in the world after it. `to` is the PE whose queue
    /// it put a parcel into.
    pub(crate) fn see<C: Chare<A>, H: Openings<C>>(
        &mut self,
        world: &World<C, H, A>,
        event: &Event,
        to: Option<Pe>,
        entries: &[TraceEntry],
    )
        requires rest { MatchOption (pe_of event.now) (length self.old.choices.looks ≡ length world.now.pes)
            (λ p. KnowsBut world.now self.old.choices p to entries.now) }
        ensures places { self.new.choices.places ≡ places_after self.old.choices.places (event.now, entries.now) }
        ensures knows { Knows world.now self.new.choices }
        ensures state { self.new.state ≡ self.old.state }
        ensures bias { self.new.bias ≡ self.old.bias }
    {
        match event.pe() {
            Some(p) => self.choices.see(world, p, to, entries),
            None => self.choices.look_again(world, event, entries),
        }
    }

    /// Looks again at everything that may be enabled, after a step that was not drawn.
    pub(crate) fn look_again<C: Chare<A>, H: Openings<C>>(
        &mut self,
        world: &World<C, H, A>,
        event: &Event,
        entries: &[TraceEntry],
    )
        requires counted { length self.old.choices.looks ≡ length world.now.pes }
        ensures places { self.new.choices.places ≡ places_after self.old.choices.places (event.now, entries.now) }
        ensures knows { Knows world.now self.new.choices }
        ensures state { self.new.state ≡ self.old.state }
        ensures bias { self.new.bias ≡ self.old.bias }
    {
        self.choices.look_again(world, event, entries);
    }

    // Draws one of the events that are enabled, of any PE.
    fn draw_any<C: Chare<A>, H: Openings<C>>(&mut self, world: &World<C, H, A>) -> Option<Event>
        requires knows { Knows world.now self.old.choices }
        ensures drawn { (result, self.new.state) ≡ drawn_once self.old.bias (events_of world.now self.old.choices.places) self.old.state }
        ensures only { self.new ≡ record self.old { state = self.new.state } }
    {
        let total = self.total(world);
        if total == 0 {
            return None;
        }
        let left = self.generator.below(total);
        self.pick(world, left)
    }

    // The event at a number, in the shares of the kinds.
    fn pick<C: Chare<A>, H: Openings<C>>(
        &self,
        world: &World<C, H, A>,
        number: u64,
    ) -> Option<Event>
        requires knows { Knows world.now self.now.choices }
        ensures value { result ≡ picked self.now.bias (events_of world.now self.now.choices.places) kinds number }
    {
        let mut left = number;
        for kind in &KINDS {
            let share = self.share(world, *kind);
            if left < share {
                let place = left / self.bias.weight(*kind);
                return self.choices.event_at(world, *kind, place);
            }
            left -= share;
        }
        None
    }

    // The sum of the weights of everything that is enabled.
    fn total<C: Chare<A>, H: Openings<C>>(&self, world: &World<C, H, A>) -> u64
        requires knows { Knows world.now self.now.choices }
        ensures value { result ≡ sum_by (share self.now.bias (events_of world.now self.now.choices.places)) kinds }
    {
        let letters = self.share(world, Kind::Look)
            + self.share(world, Kind::Flush)
            + self.share(world, Kind::Deliver)
            + self.share(world, Kind::Act);
        let moves = self.share(world, Kind::Report)
            + self.share(world, Kind::Element)
            + self.share(world, Kind::Decide);
        letters + moves
    }

    // The weight of all events of a kind that are enabled.
    fn share<C: Chare<A>, H: Openings<C>>(&self, world: &World<C, H, A>, kind: Kind) -> u64
        requires knows { Knows world.now self.now.choices }
        ensures value { result ≡ share self.now.bias (events_of world.now self.now.choices.places) kind }
        ensures few { result ≤ 256 * Limits.ELEMENTS }
    {
        let _pes = world.pes();
        self.bias.weight(kind) * self.choices.count(kind)
    }
}

// Whether an event is one of the PE that is starved.
fn is_starved(bias: &Bias, event: &Option<Event>) -> bool
    ensures value { result ≡ is_starved bias.now event.now }
{
    let Some(event) = event else {
        return false;
    };
    let (Some(p), Some(starved)) = (event.pe(), bias.starved) else {
        return false;
    };
    p == starved
}
