//! Turns a chare with messages into a chare of a run.

ghost use Rattle.std.specs.Prelude.{◌≡◌, IfOk, false};
ghost use Rattle.messages.specs.Messages.{message_in};

use crate::receives::Receives;
use chare_index::{Gate, Round};
use chares::{Chare, Effect, Here, SendError, Sends};
use pup_pack::{Pup, PupError};
use std::alloc::{AllocError, Allocator};
use std::marker::Model;

/// A chare whose letters are messages, as a chare of a run. Contracts see it as the chare itself.
///
/// A letter that is not the pack of a message changes nothing: it takes no work, and nothing is sent. No letter of an array whose
/// elements post by [`post`](crate::post) and [`broadcast`](crate::broadcast) is one.
#[derive(Drop)]
pub struct Typed<C> {
    chare: C,
}

impl<C> Model for Typed<C> {
    ghost Value = { C };

    ghost view = { λ t. t.chare };
}

impl<C> Typed<C> {
    /// A chare of a run.
    pub fn new(chare: C) -> Self
        ensures value { result ≡ chare }
    {
        Typed { chare }
    }

    /// The chare.
    pub fn chare(&self) -> &C
        ensures value { result.now ≡ self.now }
    {
        &self.chare
    }

    /// The chare, by value.
    pub fn into_chare(self) -> C
        ensures value { result ≡ self }
    {
        self.chare
    }
}

impl<A: Allocator, C: Receives<A>> Pup<A> for Typed<C> {
    ghost fits = { λ t. C.fits t };

    ghost counted = { λ t. C.counted t };

    ghost pack = { λ t. C.pack t };

    ghost unpack = { λ bytes. C.unpack bytes };

    ghost round_trip = { C.round_trip };

    fn packed_len(&self) -> u32 {
        self.chare.packed_len()
    }

    fn pack_into(&self, out: &mut Vec<u8, A>) -> Result<(), PupError> {
        self.chare.pack_into(out)
    }

    fn unpack(alloc: A, bytes: &[u8]) -> Result<(Self, usize), PupError> {
        let (chare, len) = C::unpack(alloc, bytes)?;
        Ok((Typed { chare }, len))
    }
}

impl<A: Allocator + Copy, C: Receives<A>> Chare<A> for Typed<C> {
    ghost use Rattle.messages.specs.Messages.{TypedRefuses, typed_step};

    ghost step = { typed_step C.Message.pack C.Message.unpack C.step };

    ghost refuses = { TypedRefuses C.Message.unpack C.refuses };

    ghost packs = { C.packs };

    fn on_letter<G: Gate, P: Drop>(
        &mut self,
        here: &Here<'_, G>,
        body: &[u8],
        sends: &mut Sends<P, A>,
    ) -> Result<Effect, SendError> {
        match read::<C::Message, A>(sends.allocator(), body)? {
            Some(message) => self.chare.on_message(here, message, sends),
            None => Ok(passed_over()),
        }
    }

    fn on_resume<G: Gate, P: Drop>(
        &mut self,
        here: &Here<'_, G>,
        round: Round,
        sends: &mut Sends<P, A>,
    ) -> Result<Effect, SendError> {
        self.chare.on_resume(here, round, sends)
    }
}

// The effect of a body that is no message.
fn passed_over() -> Effect
    ensures value { result ≡ record { units = 0; at_sync = false; finished = false } }
{
    Effect {
        units: 0,
        at_sync: false,
        finished: false,
    }
}

// The message in a body, if it is the pack of one. The only error is that memory was refused.
fn read<M: Pup<A> + Drop, A: Allocator>(alloc: A, body: &[u8]) -> Result<Option<M>, AllocError>
    ensures value { IfOk result (λ message. message ≡ message_in M.unpack body.now) }
{
    match M::unpack(alloc, body) {
        Ok((message, len)) => {
            if len == body.len() {
                return Ok(Some(message));
            }
            Ok(None)
        }
        Err(PupError::OutOfMemory) => Err(AllocError),
        Err(_) => Ok(None),
    }
}
