//! A chare that sends its amounts to its neighbor, one in each round, and adds up those that it gets.

ghost use Rattle.std.specs.Prelude.{◌≡◌, ◌≢◌, ◌+◌, ◌*◌, ◌^◌, ◌<◌, ◌≤◌, All, length, replicate, slice_index, false, IfErr, IfOk, IfSome, IsNone, ◌↔◌};
ghost use Rattle.std.specs.Int.{w32, to_be_bytes};
ghost use Rattle.pup_pack.specs.declared.error.PupError.TheVariants.{Bad, OutOfMemory};
ghost use Rattle.tally.specs.Tallies.{TallyView, amount_in, are_within, is_tally, of_parts};

use crate::tally_limits::TallyLimits;
use chare_index::{Gate, Index, Round};
use chares::{Chare, Effect, Here, SendError, Sends};
use pup_pack::{Bytes, Fields, Items, Pup, PupError};
use std::alloc::{AllocError, Allocator, Global};
use std::marker::Model;

/// A chare that sends its amounts to its neighbor, one in each round, and adds up those that it gets. It is packed into 24
/// bytes, 4 for each amount, and its padding. It keeps to [`TallyLimits`], so it packs into at most 1,048,576 bytes.
#[derive(Drop)]
pub struct Tally<A: Allocator = Global> {
    posted: u32,
    got: u32,
    sum: u64,
    amounts: Items<u32, A>,
    pad: Bytes<A>,
}

impl<A: Allocator> Model for Tally<A> {
    ghost use Rattle.std.specs.Prelude.{◌≡◌, true};
    ghost use Rattle.tally.specs.Tallies.{TallyView, is_tally};

    ghost Value = { TallyView };

    ghost view = { λ t. record { posted = t.posted; got = t.got; sum = t.sum; amounts = t.amounts; pad = t.pad } };

    ghost invariant = { λ t. is_tally (record { posted = t.posted; got = t.got; sum = t.sum; amounts = t.amounts; pad = t.pad }) ≡ true };
}

/// The fields of a tally, as they are packed.
type Parts<A> = (u32, (u32, (u64, (Items<u32, A>, Bytes<A>))));

impl<A: Allocator> Tally<A> {
    /// A tally that has posted and got nothing, or `None` past a limit.
    pub fn new(amounts: Items<u32, A>, pad: Bytes<A>) -> Option<Self>
        ensures value { IfSome result (λ t. t ≡ record { posted = 0; got = 0; sum = 0; amounts = amounts; pad = pad }) }
        ensures refused { IsNone result ↔ (is_tally (record { posted = 0; got = 0; sum = 0; amounts = amounts; pad = pad }) ≡ false) }
    {
        Tally::of_parts((0, (0, (0, (amounts, pad)))))
    }

    /// A tally that has posted this number of its amounts and got as many, which add up to `sum`, or `None` past a limit.
    pub fn after(posted: u32, sum: u64, amounts: Items<u32, A>, pad: Bytes<A>) -> Option<Self>
        ensures value { IfSome result (λ t. t ≡ record { posted = posted; got = posted; sum = sum; amounts = amounts; pad = pad }) }
        ensures refused { IsNone result ↔ (is_tally (record { posted = posted; got = posted; sum = sum; amounts = amounts; pad = pad }) ≡ false) }
    {
        Tally::of_parts((posted, (posted, (sum, (amounts, pad)))))
    }

    /// A tally with these amounts, and this number of bytes of padding, all of them 0.
    ///
    /// # Errors
    ///
    /// The first that applies: [`Bad`](PupError::Bad) past a limit, or [`OutOfMemory`](PupError::OutOfMemory).
    pub fn with_amounts(alloc: A, amounts: &[u32], pad: usize) -> Result<Self, PupError>
    where
        A: Copy,
        ensures value { IfOk result (λ t. t ≡ record { posted = 0; got = 0; sum = 0; amounts = amounts.now; pad = replicate pad 0 }) }
        ensures refused { IfErr result
            (λ error. error ≢ OutOfMemory → (error ≡ Bad) × (is_tally (record { posted = 0; got = 0; sum = 0; amounts = amounts.now; pad = replicate pad 0 }) ≡ false)) }
    {
        if !are_within(0, amounts.len(), pad) {
            return Err(PupError::Bad);
        }
        let amounts = Items::new(Vec::from_slice(alloc, amounts)?);
        Tally::new(amounts, zeros(alloc, pad)?).ok_or(PupError::Bad)
    }

    /// The sum of the amounts that it has got.
    pub fn sum(&self) -> u64
        ensures value { result ≡ self.now.sum }
    {
        self.sum
    }

    // The tally with these fields, or `None` past a limit.
    fn of_parts(parts: Parts<A>) -> Option<Self>
        ensures value { IfSome result (λ t. t ≡ of_parts parts) }
        ensures refused { IsNone result ↔ (is_tally (of_parts parts) ≡ false) }
    {
        let (posted, (got, (sum, (amounts, pad)))) = parts;
        if !are_within(posted, amounts.as_slice().len(), pad.as_slice().len()) {
            return None;
        }
        Some(Tally {
            posted,
            got,
            sum,
            amounts,
            pad,
        })
    }
}

// Whether a tally may have this number of amounts, of which it has posted this number, and this number of bytes of padding.
fn are_within(posted: u32, amounts: usize, pad: usize) -> bool
    ensures value { result ≡ are_within posted amounts pad }
{
    posted as usize <= amounts
        && amounts <= TallyLimits::AMOUNTS as usize
        && pad <= TallyLimits::PAD_BYTES as usize
}

// The amount in a body.
fn amount_in(body: &[u8]) -> u32
    ensures value { result ≡ amount_in body.now }
{
    if body.len() != 4 {
        return 0;
    }
    u32::from_be_bytes([body[0], body[1], body[2], body[3]])
}

// The packed length of amounts: 4 bytes for their number, and 4 for each. It is asked for at the end of each round, so it must not
// cost more for more amounts: the compiler makes a product of the loop, in which each amount is only seen to be 32 bits.
fn amounts_len(amounts: &[u32]) -> u32
    requires few { length amounts.now ≤ TallyLimits.AMOUNTS }
    ensures value { result ≡ 4 + 4 * length amounts.now }
    ensures fits { All (λ amount. amount < 2 ^ 32) amounts.now }
{
    let mut len = 4;
    for amount in amounts {
        let _value = *amount;
        len += 4;
    }
    len
}

impl<A: Allocator + Copy> Pup<A> for Tally<A> {
    ghost use Rattle.std.specs.Prelude.{◌≡◌, refl, true};
    ghost use Rattle.pup_pack.specs.Structs.{made, judged};
    ghost use Rattle.pup_pack.specs.Trips.{bytes_trips, judged_trips, list_trips, pair_trips, struct_trips, u32_trips, u64_trips};
    ghost use Rattle.tally.specs.Tallies.{is_tally, of_parts, parts};

    ghost fits = { λ t. ⟦<Parts<A> as Pup<A>>⟧.fits (parts t) × (is_tally t ≡ true) };

    ghost counted = { λ t. ⟦<Parts<A> as Pup<A>>⟧.counted (parts t) };

    ghost pack = { λ t. ⟦<Parts<A> as Pup<A>>⟧.pack (parts t) };

    ghost unpack = { λ bytes. judged is_tally (made of_parts (⟦<Parts<A> as Pup<A>>⟧.unpack bytes)) };

    ghost round_trip = { (judged_trips is_tally
        (struct_trips parts of_parts (λ _. refl) (pair_trips u32_trips (pair_trips u32_trips (pair_trips u64_trips (pair_trips (list_trips u32_trips) bytes_trips)))))).trip };

    fn packed_len(&self) -> u32 {
        let numbers = <_ as Fields<A>>::fields_len(&(&self.posted, (&self.got, &self.sum)));
        numbers + amounts_len(self.amounts.as_slice()) + <Bytes<A> as Pup<A>>::packed_len(&self.pad)
    }

    fn pack_into(&self, out: &mut Vec<u8, A>) -> Result<(), PupError> {
        (
            &self.posted,
            (&self.got, (&self.sum, (&self.amounts, &self.pad))),
        )
            .pack_fields(out)
    }

    fn unpack(alloc: A, bytes: &[u8]) -> Result<(Tally<A>, usize), PupError> {
        let (parts, len) = <Parts<A> as Pup<A>>::unpack(alloc, bytes)?;
        let tally = Tally::of_parts(parts).ok_or(PupError::Bad)?;
        Ok((tally, len))
    }
}

impl<A: Allocator + Copy> Chare<A> for Tally<A> {
    ghost use Rattle.tally.specs.Tallies.{TallyRefuses, tally_packs, tally_step};

    ghost step = { tally_step };

    ghost refuses = { TallyRefuses };

    ghost packs = { λ t fit. tally_packs t fit.1 };

    fn on_letter<G: Gate, P: Drop>(
        &mut self,
        _here: &Here<'_, G>,
        body: &[u8],
        _sends: &mut Sends<P, A>,
    ) -> Result<Effect, SendError> {
        let units = u64::from(amount_in(body));
        self.got = self.got.saturating_add(1);
        self.sum = self.sum.saturating_add(units);
        Ok(Effect {
            units,
            at_sync: self.got == self.posted,
            finished: false,
        })
    }

    fn on_resume<G: Gate, P: Drop>(
        &mut self,
        here: &Here<'_, G>,
        _round: Round,
        sends: &mut Sends<P, A>,
    ) -> Result<Effect, SendError> {
        let Some(amount) = self.amounts.as_slice().get(self.posted as usize) else {
            return Ok(Effect {
                units: 0,
                at_sync: false,
                finished: true,
            });
        };
        let neighbor = Index::new((here.me.get() + 1) % here.n).unwrap();
        sends.put(neighbor, &amount.to_be_bytes())?;
        self.posted += 1;
        Ok(Effect {
            units: 0,
            at_sync: self.got >= self.posted,
            finished: false,
        })
    }
}

// This number of bytes, all of them 0.
fn zeros<A: Allocator>(alloc: A, len: usize) -> Result<Bytes<A>, AllocError>
    ensures value { IfOk result (λ bytes. bytes ≡ replicate len 0) }
{
    let mut bytes = Vec::new(alloc);
    bytes.resize(len, 0)?;
    Ok(Bytes::new(bytes))
}
