//! A mark of a round, stored in 16 bytes.

ghost use Rattle.std.specs.Prelude.{◌≡◌, SomeIff};
ghost use Rattle.chares.specs.Keeping.{IsLight};
ghost use Rattle.chares.specs.declared.note.Mark.TheVariants.{Resumed, Synced};

use crate::note::{Mark, Note};
use crate::state_bytes::StateBytes;
use chare_index::{Index, Limits, Pe, Round};
use std::marker::Model;

/// A mark in 16 bytes, as elements keep it: a long run keeps two of them for each element and each round. Contracts see it as the
/// mark.
#[derive(Drop)]
pub struct KeptMark {
    // 65,536 times the load, and the index of the element.
    load_index: u64,
    round: Round,
    // 1,024 times the bytes, 256 times the kind, and the PE.
    bytes_kind_pe: u32,
}

impl Model for KeptMark {
    ghost use Rattle.std.specs.Prelude.{◌≤◌, ◌/◌};
    ghost use Rattle.chare_index.specs.declared.limits.TheConstants.Limits.{STATE_BYTES};
    ghost use Rattle.chares.specs.declared.note.Mark.{Mark};
    ghost use Rattle.chares.specs.Keeping.{mark_of};

    ghost Value = { Mark };

    ghost view = { λ m. mark_of m.round m.load_index m.bytes_kind_pe };

    ghost invariant = { λ m. m.bytes_kind_pe / 1024 ≤ STATE_BYTES };
}

impl KeptMark {
    /// The mark of a resumption after this round, on this PE.
    pub fn resumed(round: Round, pe: Pe) -> Self
        ensures value { result ≡ Resumed round pe }
    {
        KeptMark {
            load_index: 0,
            round,
            bytes_kind_pe: pe.get(),
        }
    }

    /// The mark of an element whose PE owed this note, or `None` where the load of the note is above the limit of a load.
    pub fn synced(note: Note) -> Option<Self>
        ensures made { SomeIff result (IsLight note) (Synced note) }
    {
        match note {
            Note::Sync(index, round, load, bytes, pe) if load <= Limits::LOAD => Some(KeptMark {
                load_index: load * 65_536 + u64::from(index.get()),
                round,
                bytes_kind_pe: bytes.get() * 1_024 + 256 + pe.get(),
            }),
            Note::Sync(..) => None,
            Note::Finish(index) => Some(KeptMark {
                load_index: u64::from(index.get()),
                round: Round::new(0).unwrap(),
                bytes_kind_pe: 512,
            }),
        }
    }

    /// The mark.
    pub fn get(&self) -> Mark
        ensures value { result ≡ self.now }
    {
        let pe = Pe::new(self.bytes_kind_pe % 256).unwrap();
        let index = Index::new((self.load_index % 65_536) as u32).unwrap();
        match self.bytes_kind_pe / 256 % 4 {
            0 => Mark::Resumed(self.round, pe),
            1 => {
                let bytes = StateBytes::new(self.bytes_kind_pe / 1_024).unwrap();
                Mark::Synced(Note::Sync(index, self.round, self.load_index / 65_536, bytes, pe))
            }
            _ => Mark::Synced(Note::Finish(index)),
        }
    }
}
