//! A mark as bytes.

ghost use Rattle.std.specs.Prelude.{◌≡◌, IfSome};
ghost use Rattle.parcel_wire.specs.Marks.{mark_parts, mark_read, note_parts};

use chare_index::{Index, Limits, Pe, Round};
use chares::{KeptMark, Mark, Note, StateBytes};
use pup_pack::{Pup, PupError};
use std::alloc::Global;
use std::marker::Model;

/// What is sent of a mark. Contracts see it as the mark. Its load is within the limit of a load.
#[derive(Drop)]
pub struct WireMark {
    mark: Mark,
}

impl Model for WireMark {
    ghost use Rattle.std.specs.Prelude.{◌≡◌, true};
    ghost use Rattle.chares.specs.declared.note.Mark.{Mark};
    ghost use Rattle.parcel_wire.specs.Marks.{are_within, mark_parts};

    ghost Value = { Mark };

    ghost view = { λ m. m.mark };

    ghost invariant = { λ m. are_within (mark_parts m.mark) ≡ true };
}

/// The fields of a mark, as they are packed: its kind, the index, the round, the load, the bytes and the PE. Unused
/// fields are 0.
pub(crate) type Parts = (u8, (u32, (u32, (u64, (u32, u32)))));

// The fields of this mark.
fn parts_of(mark: Mark) -> Parts
    ensures value { result ≡ mark_parts mark }
{
    match mark {
        Mark::Resumed(round, pe) => (0, (0, (round.get(), (0, (0, pe.get()))))),
        Mark::Synced(note) => note_parts(note),
    }
}

// The fields of the mark of this note.
fn note_parts(note: Note) -> Parts
    ensures value { result ≡ note_parts note }
{
    match note {
        Note::Sync(index, round, load, bytes, pe) => {
            (
                1,
                (index.get(), (round.get(), (load, (bytes.get(), pe.get())))),
            )
        }
        Note::Finish(index) => (2, (index.get(), (0, (0, (0, 0))))),
    }
}

// The mark with these fields, or `None` where they are none.
fn mark_read(parts: Parts) -> Option<Mark>
    ensures value { result ≡ mark_read parts }
{
    let (kind, (index, (round, (load, (bytes, pe))))) = parts;
    if index >= Limits::ELEMENTS {
        return None;
    }
    if round > Limits::ROUND {
        return None;
    }
    if load > Limits::LOAD {
        return None;
    }
    if bytes > Limits::STATE_BYTES {
        return None;
    }
    if pe >= Limits::PES {
        return None;
    }
    let at = Index::new(index).unwrap();
    let after = Round::new(round).unwrap();
    let size = StateBytes::new(bytes).unwrap();
    let on = Pe::new(pe).unwrap();
    match kind {
        0 if index == 0 && load == 0 && bytes == 0 => Some(Mark::Resumed(after, on)),
        1 => Some(Mark::Synced(Note::Sync(at, after, load, size, on))),
        2 if round == 0 && load == 0 && bytes == 0 && pe == 0 => Some(Mark::Synced(Note::Finish(
            at,
        ))),
        _ => None,
    }
}

impl WireMark {
    /// What is sent of this mark, or `None` where its load is above the limit of a load.
    pub fn of(mark: Mark) -> Option<Self>
        ensures value { IfSome result (λ m. m ≡ mark) }
    {
        let mark = mark_read(parts_of(mark))?;
        Some(WireMark { mark })
    }

    /// The mark, as an element keeps it.
    #[tactic(auto, using(crate::proofs::Lights::light))]
    pub fn to_kept(&self) -> KeptMark
        ensures value { result ≡ self.now }
    {
        match self.mark {
            Mark::Resumed(round, pe) => KeptMark::resumed(round, pe),
            Mark::Synced(note) => KeptMark::synced(note).unwrap(),
        }
    }
}

impl Pup<Global> for WireMark {
    ghost use Rattle.pup_pack.specs.Structs.{decoded};
    ghost use Rattle.parcel_wire.specs.Marks.{AreCounted, FitsMark, mark_parts, mark_read, mark_trips, pack_parts, unpack_parts};

    ghost fits = { FitsMark };

    ghost counted = { λ m. AreCounted (mark_parts m) };

    ghost pack = { λ m. pack_parts (mark_parts m) };

    ghost unpack = { λ bytes. decoded mark_read (unpack_parts bytes) };

    ghost round_trip = { mark_trips.trip };

    fn packed_len(&self) -> u32 {
        <Parts as Pup<Global>>::packed_len(&parts_of(self.mark))
    }

    fn pack_into(&self, out: &mut Vec<u8>) -> Result<(), PupError> {
        parts_of(self.mark).pack_into(out)
    }

    fn unpack(alloc: Global, bytes: &[u8]) -> Result<(WireMark, usize), PupError> {
        let (parts, len) = <Parts as Pup<Global>>::unpack(alloc, bytes)?;
        let Some(mark) = mark_read(parts) else {
            return Err(PupError::Bad);
        };
        Ok((WireMark { mark }, len))
    }
}
