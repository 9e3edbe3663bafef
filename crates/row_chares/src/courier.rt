//! A chare that sends one body at each resumption, to any element, and finishes on a letter.

ghost use Rattle.std.specs.Prelude.{◌≡◌, ◌≢◌, ◌↔◌, [], ◌∷◌, ◌⊎◌, ◌≤◌, replicate, false, IfOk, IfSome, IsNone, IsTrue, IfErr, MatchResult, OnOk, OnErr};
ghost use Rattle.chare_index.specs.declared.limits.TheConstants.Limits.{ELEMENTS};
ghost use Rattle.chares.specs.declared.sends.SendError.TheVariants.{Stranger, TooLong};
ghost use Rattle.chares.specs.Posting.{posted};
ghost use Rattle.pup_pack.specs.declared.error.PupError.TheVariants.{Bad, OutOfMemory};
ghost use Rattle.row_chares.specs.Couriers.{MaySend, RefusesSend, is_courier, of_parts};

use chare_index::{Gate, Index, Limits, Round};
use chares::{Chare, Effect, Here, SendError, Sends};
use pup_pack::{Bytes, Fields, Pup, PupError};
use std::alloc::{Allocator, Global};
use std::marker::Model;

/// A chare that sends one body at each resumption, and is then ready to be balanced. On a letter it finishes.
#[derive(Drop)]
pub struct Courier<A: Allocator = Global> {
    to: u32,
    goes_on: u32,
    body: Bytes<A>,
}

impl<A: Allocator> Model for Courier<A> {
    ghost use Rattle.std.specs.Prelude.{◌≡◌, true};
    ghost use Rattle.row_chares.specs.Couriers.{CourierView, is_courier};

    ghost Value = { CourierView };

    ghost view = { λ c. record { to = c.to; goes_on = c.goes_on; body = c.body } };

    ghost invariant = { λ c. is_courier (record { to = c.to; goes_on = c.goes_on; body = c.body }) ≡ true };
}

/// The fields of a courier, as they are packed.
type Parts<A> = (u32, (u32, Bytes<A>));

impl<A: Allocator> Courier<A> {
    /// A courier to this element, with a body of at most 65,536 bytes, or `None` where the body is longer. Where its send
    /// is refused it goes on if `goes_on` is 1.
    pub fn new(to: u32, goes_on: u32, body: Bytes<A>) -> Option<Self>
        ensures value { IfSome result (λ c. c ≡ record { to = to; goes_on = goes_on; body = body }) }
        ensures refused { IsNone result ↔ (is_courier (record { to = to; goes_on = goes_on; body = body }) ≡ false) }
    {
        Courier::of_parts((to, (goes_on, body)))
    }

    /// A courier to this element, with a body of this length, all of it 0. Where its send is refused it goes on if
    /// `goes_on` is 1.
    ///
    /// # Errors
    ///
    /// The first that applies: [`OutOfMemory`](PupError::OutOfMemory), or [`Bad`](PupError::Bad) where the body is longer
    /// than 65,536 bytes.
    pub fn with_zeros(alloc: A, to: u32, goes_on: u32, len: usize) -> Result<Self, PupError>
        ensures value { IfOk result (λ c. c ≡ record { to = to; goes_on = goes_on; body = replicate len 0 }) }
        ensures refused { IfErr result (λ error. error ≢ OutOfMemory
            → (error ≡ Bad) × (is_courier (record { to = to; goes_on = goes_on; body = replicate len 0 }) ≡ false)) }
    {
        let mut body = Vec::new(alloc);
        body.resize(len, 0)?;
        Courier::new(to, goes_on, Bytes::new(body)).ok_or(PupError::Bad)
    }

    // The courier with these fields, or `None` past the limit.
    fn of_parts(parts: Parts<A>) -> Option<Self>
        ensures value { IfSome result (λ c. c ≡ of_parts parts) }
        ensures refused { IsNone result ↔ (is_courier (of_parts parts) ≡ false) }
    {
        let (to, (goes_on, body)) = parts;
        if body.as_slice().len() > 65_536 {
            return None;
        }
        Some(Courier { to, goes_on, body })
    }

    // Sends the body, where it has at most 1,024 bytes, whatever the run allows.
    fn send<P: Drop>(&self, sends: &mut Sends<P, A>) -> Result<(), SendError>
    where
        A: Copy,
        requires few { sends.old.n ≤ ELEMENTS }
        ensures answer { MatchResult result (λ _. MaySend self.now sends.old.n) (RefusesSend self.now sends.old.n sends.old.count) }
        ensures ok { OnOk result (sends.new ≡ posted sends.old ((self.now.to, self.now.body) ∷ [])) }
        ensures err { OnErr result (sends.new ≡ sends.old) }
    {
        let to = Index::new(self.to).ok_or(SendError::Stranger)?;
        if sends.n() <= to.get() {
            return Err(SendError::Stranger);
        }
        if self.body.as_slice().len() > Limits::BODY_BYTES as usize {
            return Err(SendError::TooLong);
        }
        sends.put(to, self.body.as_slice())
    }

    // Whether it goes on after this refusal.
    fn passes_over(&self, error: SendError) -> bool
        ensures value { IsTrue result ↔ ((self.now.goes_on ≡ 1) × ((error ≡ Stranger) ⊎ (error ≡ TooLong))) }
    {
        self.goes_on == 1 && matches!(error, SendError::Stranger | SendError::TooLong)
    }
}

impl<A: Allocator + Copy> Pup<A> for Courier<A> {
    ghost use Rattle.std.specs.Prelude.{◌≡◌, refl, true};
    ghost use Rattle.pup_pack.specs.Structs.{made, judged};
    ghost use Rattle.pup_pack.specs.Trips.{bytes_trips, judged_trips, pair_trips, struct_trips, u32_trips};
    ghost use Rattle.row_chares.specs.Couriers.{is_courier, of_parts, parts};

    ghost fits = { λ c. ⟦<Parts<A> as Pup<A>>⟧.fits (parts c) × (is_courier c ≡ true) };

    ghost counted = { λ c. ⟦<Parts<A> as Pup<A>>⟧.counted (parts c) };

    ghost pack = { λ c. ⟦<Parts<A> as Pup<A>>⟧.pack (parts c) };

    ghost unpack = { λ bytes. judged is_courier (made of_parts (⟦<Parts<A> as Pup<A>>⟧.unpack bytes)) };

    ghost round_trip = { (judged_trips is_courier (struct_trips parts of_parts (λ _. refl) (pair_trips u32_trips (pair_trips u32_trips bytes_trips)))).trip };

    fn packed_len(&self) -> u32 {
        (&self.to, (&self.goes_on, &self.body)).fields_len()
    }

    fn pack_into(&self, out: &mut Vec<u8, A>) -> Result<(), PupError> {
        (&self.to, (&self.goes_on, &self.body)).pack_fields(out)
    }

    fn unpack(alloc: A, bytes: &[u8]) -> Result<(Courier<A>, usize), PupError> {
        let (parts, len) = <Parts<A> as Pup<A>>::unpack(alloc, bytes)?;
        let courier = Courier::of_parts(parts).ok_or(PupError::Bad)?;
        Ok((courier, len))
    }
}

impl<A: Allocator + Copy> Chare<A> for Courier<A> {
    ghost use Rattle.row_chares.specs.Couriers.{CourierRefuses, courier_packs, courier_step};

    ghost step = { courier_step };

    ghost refuses = { CourierRefuses };

    ghost packs = { λ c fit. courier_packs c fit.1 };

    fn on_letter<G: Gate, P: Drop>(
        &mut self,
        _here: &Here<'_, G>,
        _body: &[u8],
        _sends: &mut Sends<P, A>,
    ) -> Result<Effect, SendError> {
        Ok(Effect {
            units: 0,
            at_sync: false,
            finished: true,
        })
    }

    fn on_resume<G: Gate, P: Drop>(
        &mut self,
        _here: &Here<'_, G>,
        _round: Round,
        sends: &mut Sends<P, A>,
    ) -> Result<Effect, SendError> {
        if let Err(error) = self.send(sends) {
            if !self.passes_over(error) {
                return Err(error);
            }
        }
        Ok(Effect {
            units: 0,
            at_sync: true,
            finished: false,
        })
    }
}
