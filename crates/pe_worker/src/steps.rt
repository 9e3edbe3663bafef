//! The steps of a PE with its seat. Each is one event: one push or pop on one queue, one load or store of one location
//! word, one call of the board under its lock, or work on what the PE owns.

ghost use Rattle.std.specs.Prelude.{◌≡◌, ◌<◌, ◌≤◌, IfErr, IfOk, OnErr, OnOk, IfSome, IsSome, MatchBool, MatchOption, Some, true, if◌then◌else◌};
ghost use Rattle.pe_state.specs.Pes.{acted_of, acting, may_resume, wanted, pe_after, resumed};
ghost use Rattle.pe_state.specs.Refusals.{RefusesAct, RefusesResume, RefusesStep};
ghost use Rattle.pe_state.specs.declared.acted.Acted.TheVariants.{Executed};
ghost use Rattle.pe_worker.specs.Causes.{MayRefuse};
ghost use Rattle.pe_worker.specs.Steps.{Delivers, Executes, Flushes, Looks, LooksAndFlushes, Stays};

use crate::seated::{OfRun, RunBeginning, SeatedPe};
use chare_index::{Gate, Index, Round};
use chares::{Chare, History, Openings};
use pe_queues::{Locations, Post};
use pe_state::{Acted, Parcel, PeState, StepError};
use std::alloc::Allocator;

impl<C: Chare<A>, H: Openings<C>, J: RunBeginning<C>, A: Allocator + Copy> SeatedPe<C, H, J, A> {
    /// Deliver: takes the front of the queue of its PE into the hand, if that is empty, and returns whether it did. It is one
    /// attempt at a pop, which waits for nobody, and may fail where another thread is in the way.
    pub fn try_deliver(&mut self, post: &Post<Parcel<C, H, A>, A>) -> bool
        requires own { post.now ≡ J.beginning.post }
        ensures step { MatchBool result (Delivers self.old self.new) (self.new ≡ self.old) }
        ensures same_me { self.new.pe.me ≡ self.old.pe.me }
    {
        self.pe.known();
        if self.pe.as_end().hand().is_some() {
            return false;
        }
        let me = self.pe.me();
        let Some(parcel) = post.try_take(&mut self.seat, me) else {
            return false;
        };
        self.pe.receive(parcel);
        true
    }

    /// Deliver in one attempt, and then Act, where the parcel is a letter whose element stands here and has started.
    /// It returns whether it acted, or `None` where there was no parcel or another thread was in the way. A parcel that it did
    /// not act on lies in the hand.
    ///
    /// # Errors
    ///
    /// The letter was delivered and lies in the hand on any of them: out of memory, or what a handler returns.
    #[tactic(auto, using(crate::proofs::Delivering::executes_or_delivers))]
    pub fn try_deliver_and_act<G: Gate>(
        &mut self,
        gate: &G,
        post: &Post<Parcel<C, H, A>, A>,
    ) -> Result<Option<bool>, StepError>
        requires own { post.now ≡ J.beginning.post }
        ensures step { IfOk result (λ delivered. MatchOption delivered
            (self.new ≡ self.old)
            (λ acted. MatchBool acted (Executes C.step C.pack C.unpack self.old self.new) (Delivers self.old self.new))) }
        ensures err { OnErr result (Delivers self.old self.new) }
        ensures enabled { OnErr result (acted_of (acting C.step C.pack C.unpack self.new.pe) ≡ Some Executed) }
        ensures refused { IfErr result (RefusesStep (RefusesAct C.refuses self.new.pe)) }
        ensures cause { IfErr result (RefusesStep (MayRefuse C.step C.pack C.refuses H.opened)) }
        ensures same_me { self.new.pe.me ≡ self.old.pe.me }
    {
        self.pe.known();
        if self.pe.as_end().hand().is_some() {
            return Ok(None);
        }
        let me = self.pe.me();
        let Some(parcel) = post.try_take(&mut self.seat, me) else {
            return Ok(None);
        };
        let acted = self.pe.deliver_and_act(gate, parcel)?;
        Ok(Some(acted))
    }

    /// Flush: puts the front of the outbox, if it has an address, into the queue of the PE that it is addressed to, and
    /// returns whether it did. It is one attempt at a push, which waits for nobody, and may fail where another thread is in the
    /// way. Where that happens, and where the queue is full, the parcel is the front of the outbox again.
    pub fn try_flush(&mut self, post: &Post<Parcel<C, H, A>, A>) -> bool
        requires own { post.now ≡ J.beginning.post }
        ensures step { MatchBool result (Flushes self.old self.new) (Stays self.old self.new) }
        ensures same_me { self.new.pe.me ≡ self.old.pe.me }
    {
        self.pe.known();
        let Some(to) = self.pe.front_out() else {
            return false;
        };
        let parcel = self.pe.sent();
        let Err(parcel) = post.try_put(&mut self.seat, to, parcel) else {
            return true;
        };
        self.pe.hand_back(parcel);
        false
    }

    /// Look: looks for the element that the PE wants, if it wants one, and returns whether it did. It is one load of the
    /// element's word.
    pub fn look(&mut self, words: &Locations<OfRun<C, H>, A>) -> bool
        requires run_pes { words.now.pes ≡ H.pes }
        ensures step { MatchBool result (Looks self.old self.new) (self.new ≡ self.old) }
        ensures all { MatchBool result (Unit {0}) (IfSome (wanted self.old.pe) (λ element. words.now.elements ≤ element)) }
        ensures same_me { self.new.pe.me ≡ self.old.pe.me }
    {
        self.pe.known();
        let Some(element) = self.pe.wants() else {
            return false;
        };
        if words.len() <= element.get() as usize {
            return false;
        }
        self.pe.look(words.look(element));
        true
    }

    /// Look, and then Flush in one attempt, for a letter without an address at the front of the outbox, where the hand is empty.
    /// It returns whether the letter was flushed; where it was not, it has an address now. Where there is no such letter, it
    /// returns `None` and changes nothing.
    #[tactic(auto, using(crate::proofs::Delivering::looks_again, crate::proofs::Keeping::looked_keeps))]
    pub fn try_look_and_flush(
        &mut self,
        words: &Locations<OfRun<C, H>, A>,
        post: &Post<Parcel<C, H, A>, A>,
    ) -> Option<bool>
        requires own { post.now ≡ J.beginning.post }
        requires run_pes { words.now.pes ≡ H.pes }
        ensures step { MatchOption result
            (self.new ≡ self.old)
            (λ flushed. MatchBool flushed (LooksAndFlushes self.old self.new) (Looks self.old self.new)) }
        ensures same_me { self.new.pe.me ≡ self.old.pe.me }
    {
        self.pe.known();
        if self.pe.as_end().hand().is_some() {
            return None;
        }
        let element = self.pe.front_wants()?;
        if words.len() <= element.get() as usize {
            return None;
        }
        let to = words.look(element);
        let parcel = self.pe.look_and_flush(to);
        let Err(parcel) = post.try_put(&mut self.seat, to, parcel) else {
            return Some(true);
        };
        self.pe.hand_back(parcel);
        Some(false)
    }

    /// Act: executes, forwards or shelves the letter in the hand, or installs the element there, and returns which of
    /// these it did, or `None` where the hand is empty or its letter waits.
    ///
    /// # Errors
    ///
    /// The PE is as it was on any of them: out of memory, or what a handler returns.
    pub fn act<G: Gate>(&mut self, gate: &G) -> Result<Option<Acted>, StepError>
        ensures acted { IfOk result (λ acted. acted ≡ acted_of (acting C.step C.pack C.unpack self.old.pe)) }
        ensures ok { OnOk result (self.new ≡ record self.old { pe = pe_after self.old.pe (acting C.step C.pack C.unpack self.old.pe) }) }
        ensures err { OnErr result (self.new ≡ self.old) }
        ensures enabled { OnErr result (IsSome (acting C.step C.pack C.unpack self.old.pe)) }
        ensures refused { IfErr result (RefusesStep (RefusesAct C.refuses self.old.pe)) }
        ensures cause { IfErr result (RefusesStep (MayRefuse C.step C.pack C.refuses H.opened)) }
        ensures same_me { self.new.pe.me ≡ self.old.pe.me }
    {
        self.pe.known();
        self.pe.act(gate)
    }

    /// Keeps or drops what an element handles from now on, where it stands here.
    pub fn set_history(&mut self, element: Index, history: History)
        ensures same { self.new ≡ self.old }
    {
        self.pe.set_history(element, history);
    }

    /// Start: starts an element, if it stands here and has not started, and returns whether it did.
    ///
    /// # Errors
    ///
    /// The PE is as it was on any of them: out of memory, or what the handler returns.
    pub fn start<G: Gate>(&mut self, gate: &G, element: Index) -> Result<bool, StepError>
        ensures ok { IfOk result (λ done. self.new ≡ record self.old { pe = (if done then resumed C.step C.pack self.old.pe element 0 else self.old.pe) }) }
        ensures all { IfOk result (λ done. done ≡ may_resume self.old.pe element 0) }
        ensures err { OnErr result (self.new ≡ self.old) }
        ensures enabled { OnErr result (may_resume self.old.pe element 0 ≡ true) }
        ensures refused { IfErr result (RefusesStep (RefusesResume C.refuses self.old.pe element 0)) }
        ensures cause { IfErr result (RefusesStep (MayRefuse C.step C.pack C.refuses H.opened)) }
        ensures same_me { self.new.pe.me ≡ self.old.pe.me }
    {
        self.pe.known();
        let start = Round::new(0).unwrap();
        if !self.pe.may_resume(element, start) {
            return Ok(false);
        }
        self.pe.resume(gate, element, start)?;
        Ok(true)
    }
}
