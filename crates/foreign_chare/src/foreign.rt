//! A chare whose handlers run elsewhere.

ghost use Rattle.std.specs.Prelude.{◌≡◌, ◌↔◌, ◌+◌, ℕ, List, false, OnOk, OnErr, IfOk, IfSome, IsNone, IsSome};
ghost use Rattle.chares.specs.Posting.{posted};
ghost use Rattle.foreign_chare.specs.Scripts.{Answered, Stamp, is_stamp, later, new_stamp, of_parts};

use crate::answer::Answer;
use crate::size::OBJECT_BYTES;
use chare_index::{Gate, Round};
use chares::{Armed, Chare, Effect, Here, SendError, Sends};
use pup_pack::{Fields, Pup, PupError};
use std::alloc::Global;
use std::marker::{Brand, Model, PhantomData};
use zero_tails::Zeros;

/// Names what the handlers of a run answer: for each element, and for each number of entries that it has handled, the
/// answer to the next one. That does not depend on what the entry says, so nobody has to promise that a handler answers the same
/// entry in the same way twice.
pub trait Script {
    /// The answers.
    ghost answers: { ℕ → ℕ → Answered };
}

impl Script for Brand {
    ghost use Rattle.foreign_chare.specs.Scripts.{silent};

    ghost answers = { silent };
}

/// A chare whose handlers run elsewhere. Contracts see it as a stamp: the index of its element, how many entries it has
/// handled, and the size of its object as the last answer said it, 0 before the first. The answer to the next entry is handed in
/// before that is handled ([`Armed::take_in`]); no contract sees it. A handler without one returns [`SendError::OutOfMemory`], and
/// nothing has changed.
///
/// It packs into its stamp and one zero for each byte of its object: the pack is as long as the fields and the object together.
/// The object that handles the entries travels beside that, as bytes that no contract sees.
#[derive(Drop)]
pub struct Foreign<S: Script> {
    index: u32,
    version: u64,
    bytes: u32,
    // The answer to its next entry, where one was handed in.
    armed: Option<Answer>,
    of: PhantomData<S>,
}

impl<S: Script> Model for Foreign<S> {
    ghost use Rattle.std.specs.Prelude.{◌≡◌, ◌≤◌, IfSome};
    ghost use Rattle.foreign_chare.specs.Scripts.{Stamp};
    ghost use Rattle.foreign_chare.specs.declared.size.TheConstants.{OBJECT_BYTES};

    ghost Value = { Stamp };

    ghost view = { λ f. record { index = f.index; version = f.version; bytes = f.bytes } };

    ghost invariant = { λ f. (f.bytes ≤ OBJECT_BYTES) × IfSome f.armed (λ answer. answer ≡ S.answers f.index f.version) };
}

impl<S: Script> Foreign<S> {
    /// The chare of this element as its array opens.
    pub fn new(index: u32) -> Self
        ensures value { result ≡ new_stamp index }
    {
        Foreign {
            index,
            version: 0,
            bytes: 0,
            armed: None,
            of: PhantomData,
        }
    }

    /// How many entries it has handled.
    pub fn version(&self) -> u64
        ensures value { result ≡ self.now.version }
    {
        self.version
    }

    // The chare of these fields, without an answer, or `None` past the limit of a size.
    fn of_parts(parts: Parts) -> Option<Self>
        ensures value { IfSome result (λ f. f ≡ of_parts parts) }
        ensures refused { IsNone result ↔ (is_stamp (of_parts parts) ≡ false) }
    {
        let (index, (version, size)) = parts;
        let bytes = size.count();
        if bytes > OBJECT_BYTES {
            return None;
        }
        Some(Foreign {
            index,
            version,
            bytes,
            armed: None,
            of: PhantomData,
        })
    }

    // Hands on the answer that it was armed with. Without one it refuses.
    fn answer<P: Drop>(&mut self, sends: &mut Sends<P, Global>) -> Result<Effect, SendError>
        ensures state { OnOk result (self.new ≡ later self.old (S.answers self.old.index self.old.version)) }
        ensures effect { IfOk result (λ e. e ≡ (S.answers self.old.index self.old.version).effect) }
        ensures sends { OnOk result (sends.new ≡ posted sends.old (S.answers self.old.index self.old.version).sends) }
        ensures err { OnErr result (self.new ≡ self.old) }
        ensures only_posts { (out : List (ℕ × List ℕ)) × (sends.new ≡ posted sends.old out) }
    {
        if self.version == u64::MAX {
            return Err(SendError::Worn);
        }
        let Some(answer) = &self.armed else {
            return Err(SendError::OutOfMemory);
        };
        let effect = answer.effect();
        let bytes = answer.bytes();
        answer.post(sends)?;
        self.armed = None;
        self.version += 1;
        self.bytes = bytes;
        Ok(effect)
    }
}

/// The fields of a stamp, as they are packed.
type Parts = (u32, (u64, Zeros));

impl<S: Script> Pup<Global> for Foreign<S> {
    ghost use Rattle.std.specs.Prelude.{◌≡◌, refl, true};
    ghost use Rattle.pup_pack.specs.Structs.{judged, made};
    ghost use Rattle.pup_pack.specs.Trips.{judged_trips, pair_trips, struct_trips, u32_trips, u64_trips};
    ghost use Rattle.zero_tails.specs.Tails.{zeros_trips};
    ghost use Rattle.foreign_chare.specs.Scripts.{is_stamp, of_parts, parts};

    ghost fits = { λ f. ⟦<Parts as Pup<Global>>⟧.fits (parts f) × (is_stamp f ≡ true) };

    ghost counted = { λ f. ⟦<Parts as Pup<Global>>⟧.counted (parts f) };

    ghost pack = { λ f. ⟦<Parts as Pup<Global>>⟧.pack (parts f) };

    ghost unpack = { λ bytes. judged is_stamp (made of_parts (⟦<Parts as Pup<Global>>⟧.unpack bytes)) };

    ghost round_trip = { (judged_trips is_stamp (struct_trips parts of_parts (λ _. refl) (pair_trips u32_trips (pair_trips u64_trips zeros_trips)))).trip };

    fn packed_len(&self) -> u32 {
        let size = Zeros::new(self.bytes);
        <_ as Fields<Global>>::fields_len(&(&self.index, (&self.version, &size)))
    }

    fn pack_into(&self, out: &mut Vec<u8>) -> Result<(), PupError> {
        let size = Zeros::new(self.bytes);
        (&self.index, (&self.version, &size)).pack_fields(out)
    }

    fn unpack(alloc: Global, bytes: &[u8]) -> Result<(Foreign<S>, usize), PupError> {
        let (parts, len) = <Parts as Pup<Global>>::unpack(alloc, bytes)?;
        let chare = Foreign::of_parts(parts).ok_or(PupError::Bad)?;
        Ok((chare, len))
    }
}

impl<S: Script> Chare<Global> for Foreign<S> {
    ghost use Rattle.foreign_chare.specs.Scripts.{stamp_packs, scripted_step, MayRefuse};

    ghost step = { scripted_step S.answers };

    ghost refuses = { MayRefuse };

    ghost packs = { λ f fit. stamp_packs f fit.1 };

    fn on_letter<G: Gate, P: Drop>(
        &mut self,
        _here: &Here<'_, G>,
        _body: &[u8],
        sends: &mut Sends<P, Global>,
    ) -> Result<Effect, SendError> {
        self.answer(sends)
    }

    fn on_resume<G: Gate, P: Drop>(
        &mut self,
        _here: &Here<'_, G>,
        _round: Round,
        sends: &mut Sends<P, Global>,
    ) -> Result<Effect, SendError> {
        self.answer(sends)
    }
}

impl<S: Script> Armed<Global> for Foreign<S> {
    type Given = Answer;

    ghost may_take = { λ f answer. answer ≡ S.answers f.index f.version };

    /// Takes the answer to its next entry.
    fn take_in(&mut self, given: Answer) {
        self.armed = Some(given);
    }
}
