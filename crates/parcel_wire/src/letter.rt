//! A letter as bytes.

ghost use Rattle.std.specs.Prelude.{◌≡◌, ◌↔◌, false, IfOk, IfSome, IsNone};
ghost use Rattle.parcel_wire.specs.Letters.{is_letter, letter_of};

use chare_index::{Index, Limits, Pe};
use chares::Letter;
use pup_pack::{Bytes, Fields, Pup, PupError};
use std::alloc::{AllocError, Global};
use std::marker::Model;

/// What is sent of a letter: the PE that posted it and its number there, the element that it is for, how often it was forwarded,
/// and its body. Contracts see it as the letter.
#[derive(Drop)]
pub struct WireLetter {
    pe: u32,
    number: u32,
    to: u32,
    hops: u32,
    body: Bytes,
}

impl Model for WireLetter {
    ghost use Rattle.std.specs.Prelude.{◌≡◌, true};
    ghost use Rattle.chares.specs.Letters.{LetterView};
    ghost use Rattle.parcel_wire.specs.Letters.{is_letter};

    ghost Value = { LetterView };

    ghost view = { λ l. record { id = (l.pe, l.number); to = l.to; body = l.body; hops = l.hops } };

    ghost invariant = { λ l. is_letter (record { id = (l.pe, l.number); to = l.to; body = l.body; hops = l.hops }) ≡ true };
}

/// The fields of a letter, as they are packed.
type Parts = (u32, (u32, (u32, (u32, Bytes))));

impl WireLetter {
    /// What is sent of this letter. The only error is that memory was refused.
    pub fn of(alloc: Global, letter: &Letter) -> Result<Self, AllocError>
        ensures value { IfOk result (λ l. l ≡ letter.now) }
    {
        let (pe, number) = letter.id();
        let body = Bytes::new(Vec::from_slice(alloc, letter.body())?);
        Ok(WireLetter {
            pe: pe.get(),
            number,
            to: letter.to().get(),
            hops: letter.hops(),
            body,
        })
    }

    /// The letter with these fields, or `None` past a limit.
    fn of_parts(parts: Parts) -> Option<Self>
        ensures value { IfSome result (λ l. l ≡ letter_of parts) }
        ensures refused { IsNone result ↔ (is_letter (letter_of parts) ≡ false) }
    {
        let (pe, (number, (to, (hops, body)))) = parts;
        if pe >= Limits::PES || to >= Limits::ELEMENTS {
            return None;
        }
        Some(WireLetter {
            pe,
            number,
            to,
            hops,
            body,
        })
    }

    /// The letter, where it came as a message. The only error is that memory was refused.
    pub fn into_letter(self, alloc: Global) -> Result<Letter, AllocError>
        ensures value { IfOk result (λ l. l ≡ self) }
    {
        let WireLetter {
            pe,
            number,
            to,
            hops,
            body,
        } = self;
        let pe = Pe::new(pe).unwrap();
        let to = Index::new(to).unwrap();
        Letter::arrived(alloc, (pe, number), to, hops, body.into_vec())
    }
}

impl Pup<Global> for WireLetter {
    ghost use Rattle.std.specs.Prelude.{◌≡◌, refl, true};
    ghost use Rattle.pup_pack.specs.Structs.{made, judged};
    ghost use Rattle.pup_pack.specs.Trips.{bytes_trips, judged_trips, pair_trips, struct_trips, u32_trips};
    ghost use Rattle.parcel_wire.specs.Letters.{is_letter, letter_of, letter_parts};

    ghost fits = { λ l. ⟦<Parts as Pup<Global>>⟧.fits (letter_parts l) × (is_letter l ≡ true) };

    ghost counted = { λ l. ⟦<Parts as Pup<Global>>⟧.counted (letter_parts l) };

    ghost pack = { λ l. ⟦<Parts as Pup<Global>>⟧.pack (letter_parts l) };

    ghost unpack = { λ bytes. judged is_letter (made letter_of (⟦<Parts as Pup<Global>>⟧.unpack bytes)) };

    ghost round_trip = { (judged_trips is_letter
        (struct_trips letter_parts letter_of (λ _. refl) (pair_trips u32_trips (pair_trips u32_trips (pair_trips u32_trips (pair_trips u32_trips bytes_trips)))))).trip };

    fn packed_len(&self) -> u32 {
        (
            &self.pe,
            (&self.number, (&self.to, (&self.hops, &self.body))),
        )
            .fields_len()
    }

    fn pack_into(&self, out: &mut Vec<u8>) -> Result<(), PupError> {
        (
            &self.pe,
            (&self.number, (&self.to, (&self.hops, &self.body))),
        )
            .pack_fields(out)
    }

    fn unpack(alloc: Global, bytes: &[u8]) -> Result<(WireLetter, usize), PupError> {
        let (parts, len) = <Parts as Pup<Global>>::unpack(alloc, bytes)?;
        let letter = WireLetter::of_parts(parts).ok_or(PupError::Bad)?;
        Ok((letter, len))
    }
}
