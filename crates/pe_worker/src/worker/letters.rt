//! The letters of a turn.

ghost use Rattle.std.specs.Prelude.{◌≡◌, IfErr};
ghost use Rattle.pe_worker.specs.Causes.{HasCause};

use crate::fault::{Fault, fault_of};
use crate::field::Field;
use crate::seated::RunBeginning;
use crate::watch::Watch;
use crate::worker::Worker;
use barrier::BoardStart;
use chare_index::Gate;
use chares::{Chare, Openings};
use std::alloc::Allocator;

/// How many times a turn delivers a letter and flushes one, before the worker sees to anything else.
const LETTERS: usize = 64;

impl<C: Chare<A>, H: Openings<C> + BoardStart<A>, J: RunBeginning<C>, A: Allocator + Copy> Worker<
    C,
    H,
    J,
    A,
> {
    // Delivers a letter and flushes one, again and again while there is one to deliver or to flush, as often as a turn may. It
    // returns how often.
    pub(super) fn move_letters<G: Gate, V: Watch>(
        &mut self,
        gate: &G,
        watch: &V,
        field: &Field<C, H, J, A>,
    ) -> Result<usize, Fault>
        ensures same_me { self.new.seated.pe.me ≡ self.old.seated.pe.me }
        ensures cause { IfErr result (HasCause C.step C.pack C.refuses H.opened) }
    {
        for moved in 0..LETTERS {
            let delivered = self.deliver_letter(gate, watch, field)?;
            let flushed = self.flush_letter(field);
            if !delivered && !flushed {
                return Ok(moved);
            }
        }
        Ok(LETTERS)
    }

    // Delivers a parcel from the queue, if the hand is empty, and acts on it. It returns whether it did anything. Where nobody
    // follows the steps, a letter whose element stands here goes straight to its handler.
    fn deliver_letter<G: Gate, V: Watch>(
        &mut self,
        gate: &G,
        watch: &V,
        field: &Field<C, H, J, A>,
    ) -> Result<bool, Fault>
        ensures same_me { self.new.seated.pe.me ≡ self.old.seated.pe.me }
        ensures cause { IfErr result (HasCause C.step C.pack C.refuses H.opened) }
    {
        if watch.follows_steps() {
            self.seated.try_deliver(&field.post);
            return self.act_on_hand(gate, watch, field);
        }
        match self.seated.try_deliver_and_act(gate, &field.post) {
            Ok(Some(true)) => {
                self.executed = self.executed.saturating_add(1);
                Ok(true)
            }
            Ok(_) => self.act_on_hand(gate, watch, field),
            Err(error) => Err(fault_of::<C, H, A>(error)),
        }
    }

    // Looks for what the parcel in the hand wants, and acts on it. It returns whether there is one that it looked for or
    // acted on.
    fn act_on_hand<G: Gate, V: Watch>(
        &mut self,
        gate: &G,
        watch: &V,
        field: &Field<C, H, J, A>,
    ) -> Result<bool, Fault>
        ensures same_me { self.new.seated.pe.me ≡ self.old.seated.pe.me }
        ensures cause { IfErr result (HasCause C.step C.pack C.refuses H.opened) }
    {
        if self.seated.pe().as_end().hand().is_none() {
            return Ok(false);
        }
        let looked = self.seated.look(&field.words);
        let acted = self.act(gate, watch)?;
        Ok(looked || acted)
    }

    // Looks for the element of the first letter of the outbox, and flushes the letter. It returns whether it did either.
    // Mostly the letter has no address and its queue has room, so that both are one call.
    pub(super) fn flush_letter(&mut self, field: &Field<C, H, J, A>) -> bool
        ensures same_me { self.new.seated.pe.me ≡ self.old.seated.pe.me }
    {
        if self
            .seated
            .try_look_and_flush(&field.words, &field.post)
            .is_some()
        {
            return true;
        }
        let looked = self.seated.look(&field.words);
        let flushed = self.seated.try_flush(&field.post);
        looked || flushed
    }
}
