//! What is enabled in a world, kept up to date from step to step.

ghost use Rattle.std.specs.Prelude.{◌≡◌, ◌≢◌, ◌<◌, ◌≤◌, ℕ, [], ◌∷◌, IfOk, IfSome, Some, length, slice_get};
ghost use Rattle.courses.specs.Courses.{Made};
ghost use Rattle.schedules.specs.Choices.{AreFlags, AreSilent, Knows, KnowsBut, KnowsElement, moves_in, named, numbers_in};
ghost use Rattle.schedules.specs.Draws.{are_reported, events_of, moves_at, places_after, settled};
ghost use Rattle.schedules.specs.NumberSets.{has, members};

use crate::bias::Kind;
use crate::moves::{Moves, element_event, moves_at};
use crate::number_set::NumberSet;
use chare_index::{Index, Limits, Pe};
use chares::{Chare, Openings, TraceEntry};
use rts_core::{Event, World};
use std::alloc::{AllocError, Allocator, Global};
use std::marker::Model;

/// What is enabled in a world: sets of PEs and of elements, in which an event is found by its number. Contracts see it as the record
/// `ChoicesView`.
#[derive(Drop)]
pub(crate) struct Choices<A: Allocator = Global> {
    // The PEs that may make each of these steps.
    looks: NumberSet<A>,
    flushes: NumberSet<A>,
    delivers: NumberSet<A>,
    acts: NumberSet<A>,
    reports: NumberSet<A>,
    // The elements that may start, depart or go on, and the PE on which each element was last.
    elements: NumberSet<A>,
    places: Vec<Pe, A>,
    decides: bool,
}

impl<A: Allocator> Model for Choices<A> {
    ghost use Rattle.schedules.specs.Choices.{AreFlags, ChoicesView};

    ghost Value = { ChoicesView };

    ghost view = { λ c. record {
      looks = c.looks;
      flushes = c.flushes;
      delivers = c.delivers;
      acts = c.acts;
      reports = c.reports;
      elements = c.elements;
      places = c.places.items;
      decides = c.decides;
    } };

    ghost invariant = { λ c. AreFlags (record {
      looks = c.looks;
      flushes = c.flushes;
      delivers = c.delivers;
      acts = c.acts;
      reports = c.reports;
      elements = c.elements;
      places = c.places.items;
      decides = c.decides;
    }) };
}

impl<A: Allocator + Copy> Choices<A> {
    /// What is enabled in a world as it opens.
    pub(crate) fn new<C: Chare<A>, H: Openings<C>>(
        alloc: A,
        world: &World<C, H, A>,
    ) -> Result<Self, AllocError>
        requires few_pes { length world.now.pes ≤ Limits.PES }
        requires few { length world.now.words ≤ Limits.ELEMENTS }
        ensures places { IfOk result (λ choices. choices.places ≡ world.now.words) }
        ensures knows { IfOk result (Knows world.now) }
    {
        let places = places_in(alloc, world)?;
        let mut choices = Self::with_places(alloc, world.pes() as u32, places)?;
        choices.see_all(world);
        Ok(choices)
    }

    // Nothing is enabled, of this number of PEs and these elements.
    fn with_places(alloc: A, pes: u32, places: Vec<Pe, A>) -> Result<Self, AllocError>
        requires few_pes { pes ≤ Limits.PES }
        requires few { length places.items ≤ Limits.ELEMENTS }
        ensures places { IfOk result (λ choices. choices.places ≡ places.items) }
        ensures pes { IfOk result (λ choices. length choices.looks ≡ pes) }
    {
        Ok(Choices {
            looks: NumberSet::new(alloc, pes)?,
            flushes: NumberSet::new(alloc, pes)?,
            delivers: NumberSet::new(alloc, pes)?,
            acts: NumberSet::new(alloc, pes)?,
            reports: NumberSet::new(alloc, pes)?,
            elements: NumberSet::new(alloc, places.len() as u32)?,
            places,
            decides: false,
        })
    }
}

impl<A: Allocator> Choices<A> {
    /// How many events of a kind are enabled.
    pub(crate) fn count(&self, kind: Kind) -> u64
        ensures flags { AreFlags self.now }
        ensures value { result ≡ length (numbers_in self.now kind) }
        ensures few { result ≤ Limits.ELEMENTS }
    {
        match kind {
            Kind::Look => self.looks.len(),
            Kind::Flush => self.flushes.len(),
            Kind::Deliver => self.delivers.len(),
            Kind::Act => self.acts.len(),
            Kind::Report => self.reports.len(),
            Kind::Element => self.elements.len(),
            Kind::Decide => u64::from(self.decides),
        }
    }

    /// The event of a kind with this number of enabled events before it in order.
    pub(crate) fn event_at<C: Chare<A>, H: Openings<C>>(
        &self,
        world: &World<C, H, A>,
        kind: Kind,
        place: u64,
    ) -> Option<Event>
        requires knows { Knows world.now self.now }
        ensures value { result ≡ slice_get (events_of world.now self.now.places kind) place }
    {
        match kind {
            Kind::Look => Some(Event::Look(pe_in(&self.looks, place)?)),
            Kind::Flush => Some(Event::Flush(pe_in(&self.flushes, place)?)),
            Kind::Deliver => Some(Event::Deliver(pe_in(&self.delivers, place)?)),
            Kind::Act => Some(Event::Act(pe_in(&self.acts, place)?)),
            Kind::Report => Some(Event::Report(pe_in(&self.reports, place)?)),
            Kind::Element => self.element_at(world, place),
            Kind::Decide if self.decides && place == 0 => Some(Event::Decide),
            Kind::Decide => None,
        }
    }

    // The event of the element with this number of elements before it that have one.
    fn element_at<C: Chare<A>, H: Openings<C>>(
        &self,
        world: &World<C, H, A>,
        place: u64,
    ) -> Option<Event>
        requires knows { Knows world.now self.now }
        ensures value { result ≡ slice_get (events_of world.now self.now.places Kind.Element) place }
    {
        let number = self.elements.nth(place)?;
        let element = Index::new(number).unwrap();
        let at = self.place_of(element)?;
        element_event(world, element, at)
    }

    /// Updates what is enabled after a step of PE p with these trace entries, in the world after it. `to` is the PE whose queue it put
    /// a parcel into.
    pub(crate) fn see<C: Chare<A>, H: Openings<C>>(
        &mut self,
        world: &World<C, H, A>,
        p: Pe,
        to: Option<Pe>,
        entries: &[TraceEntry],
    )
        requires rest { KnowsBut world.now self.old p to entries.now }
        ensures places { self.new.places ≡ settled p self.old.places entries.now }
        ensures knows { Knows world.now self.new }
    {
        self.see_pe(world, p);
        self.see_to(world, to);
        self.see_entries(world, p, entries);
        self.decides = world.board().is_complete();
    }

    /// Looks again at everything that may be enabled, after a step with this event and these trace entries.
    pub(crate) fn look_again<C: Chare<A>, H: Openings<C>>(
        &mut self,
        world: &World<C, H, A>,
        event: &Event,
        entries: &[TraceEntry],
    )
        requires counted { length self.old.looks ≡ length world.now.pes }
        ensures places { self.new.places ≡ places_after self.old.places (event.now, entries.now) }
        ensures knows { Knows world.now self.new }
    {
        if let Some(p) = event.pe() {
            self.settle(p, entries);
        }
        self.see_all(world);
    }

    // Looks at everything that may be enabled.
    fn see_all<C: Chare<A>, H: Openings<C>>(&mut self, world: &World<C, H, A>)
        requires counted { length self.old.looks ≡ length world.now.pes }
        ensures places { self.new.places ≡ self.old.places }
        ensures knows { Knows world.now self.new }
    {
        self.see_pes(world);
        self.see_elements(world);
        self.decides = world.board().is_complete();
    }

    // Updates where the elements that these entries install were last.
    fn settle(&mut self, p: Pe, entries: &[TraceEntry])
        ensures only { self.new ≡ record self.old { places = settled p self.old.places entries.now } }
    {
        for entry in entries {
            self.settle_one(p, entry);
        }
    }

    // Updates where an element was last, if this entry installs it.
    fn settle_one(&mut self, p: Pe, entry: &TraceEntry)
        ensures only { self.new ≡ record self.old { places = settled p self.old.places (entry.now ∷ []) } }
    {
        if let TraceEntry::Installed(element) = entry {
            if let Some(place) = self.places.get_mut(element.get() as usize) {
                *place = p;
            }
        }
    }

    // Updates which steps each PE may make.
    fn see_pes<C: Chare<A>, H: Openings<C>>(&mut self, world: &World<C, H, A>)
        requires counted { length self.old.looks ≡ length world.now.pes }
        ensures counted { length self.new.looks ≡ length world.now.pes }
        ensures places { self.new.places ≡ self.old.places }
        ensures moves { (k : ℕ) → moves_in self.new k ≡ moves_at world.now k }
    {
        self.known();
        for number in 0..world.pes() as u32 {
            self.see_pe(world, Pe::new(number).unwrap());
        }
        self.known();
    }

    // Updates which steps PE p may make.
    fn see_pe<C: Chare<A>, H: Openings<C>>(&mut self, world: &World<C, H, A>, p: Pe)
        requires counted { length self.old.looks ≡ length world.now.pes }
        ensures counted { length self.new.looks ≡ length self.old.looks }
        ensures here { moves_in self.new p ≡ moves_at world.now p }
        ensures others { (k : ℕ) → k ≢ p → moves_in self.new k ≡ moves_in self.old k }
        ensures elements { self.new.elements ≡ self.old.elements }
        ensures places { self.new.places ≡ self.old.places }
    {
        let moves = moves_at(world, p);
        self.put_moves(p, moves);
    }

    // Updates which steps this PE may make, if there is one.
    fn see_to<C: Chare<A>, H: Openings<C>>(&mut self, world: &World<C, H, A>, to: Option<Pe>)
        requires counted { length self.old.looks ≡ length world.now.pes }
        ensures counted { length self.new.looks ≡ length self.old.looks }
        ensures here { IfSome to (λ q. moves_in self.new q ≡ moves_at world.now q) }
        ensures others { (k : ℕ) → Some k ≢ to → moves_in self.new k ≡ moves_in self.old k }
        ensures elements { self.new.elements ≡ self.old.elements }
        ensures places { self.new.places ≡ self.old.places }
    {
        if let Some(q) = to {
            self.see_pe(world, q);
        }
    }

    // Notes which steps PE p may make.
    fn put_moves(&mut self, p: Pe, moves: Moves)
        ensures flags { AreFlags self.new }
        ensures here { p < length self.old.looks → moves_in self.new p ≡ moves }
        ensures counted { length self.new.looks ≡ length self.old.looks }
        ensures others { (k : ℕ) → k ≢ p → moves_in self.new k ≡ moves_in self.old k }
        ensures elements { self.new.elements ≡ self.old.elements }
        ensures places { self.new.places ≡ self.old.places }
    {
        let number = p.get();
        self.looks.put(number, moves.look);
        self.flushes.put(number, moves.flush);
        self.delivers.put(number, moves.deliver);
        self.acts.put(number, moves.act);
        self.reports.put(number, moves.report);
    }

    // Updates what these entries in the trace of a step of PE p change for elements.
    fn see_entries<C: Chare<A>, H: Openings<C>>(
        &mut self,
        world: &World<C, H, A>,
        p: Pe,
        entries: &[TraceEntry],
    )
        requires rest { (e : ℕ) → AreSilent e entries.now → KnowsElement world.now self.old e }
        ensures knows { (e : ℕ) → KnowsElement world.now self.new e }
        ensures only { self.new ≡ record self.old { elements = self.new.elements; places = settled p self.old.places entries.now } }
    {
        for entry in entries {
            self.settle_one(p, entry);
            self.see_entry(world, entry);
        }
    }

    // Updates what an entry changes for its element.
    fn see_entry<C: Chare<A>, H: Openings<C>>(&mut self, world: &World<C, H, A>, entry: &TraceEntry)
        ensures here { IfSome (named entry.now) (KnowsElement world.now self.new) }
        ensures others { (e : ℕ) → named entry.now ≢ Some e → has self.new.elements e ≡ has self.old.elements e }
        ensures only { self.new ≡ record self.old { elements = self.new.elements } }
    {
        match entry {
            TraceEntry::Executed(_, element)
            | TraceEntry::Installed(element)
            | TraceEntry::Resumed(element, _)
            | TraceEntry::Departed(element) => self.see_element(world, *element),
            _ => {}
        }
    }

    // Updates whether an element may start, depart or go on.
    fn see_element<C: Chare<A>, H: Openings<C>>(&mut self, world: &World<C, H, A>, element: Index)
        ensures here { KnowsElement world.now self.new element }
        ensures others { (e : ℕ) → e ≢ element → has self.new.elements e ≡ has self.old.elements e }
        ensures only { self.new ≡ record self.old { elements = self.new.elements } }
    {
        let Some(place) = self.place_of(element) else {
            return;
        };
        let may = element_event(world, element, place).is_some();
        self.elements.put(element.get(), may);
    }

    // The PE on which an element was last.
    fn place_of(&self, element: Index) -> Option<Pe>
        ensures flags { AreFlags self.now }
        ensures value { result ≡ slice_get self.now.places element }
    {
        self.places.get(element.get() as usize).copied()
    }

    // Does the same for all elements.
    fn see_elements<C: Chare<A>, H: Openings<C>>(&mut self, world: &World<C, H, A>)
        ensures knows { (e : ℕ) → KnowsElement world.now self.new e }
        ensures only { self.new ≡ record self.old { elements = self.new.elements } }
    {
        for number in 0..self.places.len() as u32 {
            self.see_element(world, Index::new(number).unwrap());
        }
        self.known();
    }

    // There is a flag for each PE, and one for each element.
    fn known(&self)
        ensures flags { AreFlags self.now }
    {
        let _looks = &self.looks;
    }
}

// The PE in a set that has this number of PEs before it.
fn pe_in<A: Allocator>(set: &NumberSet<A>, place: u64) -> Option<Pe>
    requires few { length set.now ≤ Limits.PES }
    ensures value { result ≡ slice_get (members set.now) place }
{
    let number = set.nth(place)?;
    Some(Pe::new(number).unwrap())
}

// The PE of each element as a world opens.
fn places_in<C: Chare<A>, H: Openings<C>, A: Allocator + Copy>(
    alloc: A,
    world: &World<C, H, A>,
) -> Result<Vec<Pe, A>, AllocError>
    requires few { length world.now.words ≤ Limits.ELEMENTS }
    ensures value { IfOk result (λ places. places.items ≡ world.now.words) }
{
    let mut places = Vec::with_capacity(alloc, world.board().len())?;
    for number in 0..Limits::ELEMENTS {
        let Some(place) = world.word(Index::new(number).unwrap()) else {
            return Ok(places);
        };
        places.push(place)?;
    }
    Ok(places)
}
