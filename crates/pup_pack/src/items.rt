//! A list of values that pack.

ghost use Rattle.std.specs.Prelude.{◌≡◌, ◌++◌, ◌∷◌, [], IfErr, length, OnErr, OnOk};

use crate::error::PupError;
use crate::lists::{list_len, pack_list, unpack_count, unpack_items};
use crate::pup::Pup;
use chare_index::Limits;
use std::alloc::{AllocFailed, Allocator, Global};
use std::marker::Model;

/// A list of packed values. It packs into the number of its items, in four bytes, and then the items one after
/// another. Contracts see it as that list. A list of bytes is [`Bytes`](crate::Bytes).
#[derive(Debug, Drop)]
pub struct Items<T, A: Allocator = Global> {
    all: Vec<T, A>,
}

impl<T, A: Allocator> Model for Items<T, A> {
    ghost use Rattle.std.specs.Prelude.{List};

    ghost Value = { List T };

    ghost view = { λ list. list.all.items };
}

impl<T, A: Allocator> Items<T, A> {
    /// The list of these items.
    pub fn new(all: Vec<T, A>) -> Self
        ensures value { result ≡ all.items }
    {
        Items { all }
    }

    /// The items.
    pub fn as_slice(&self) -> &[T]
        ensures value { result.now ≡ self.now }
    {
        self.all.as_slice()
    }

    /// Appends an item, which is returned in the error where memory is refused.
    pub fn push(&mut self, item: T) -> Result<(), AllocFailed<T>>
        ensures appended { OnOk result (self.new ≡ self.old ++ item ∷ []) }
        ensures err { OnErr result (self.new ≡ self.old) }
        ensures back { IfErr result (λ failed. failed.value ≡ item) }
    {
        self.all.push(item)
    }

    /// The items as a vector.
    pub fn into_vec(self) -> Vec<T, A>
        ensures value { result.items ≡ self }
    {
        self.all
    }
}

impl<A: Allocator + Copy, T: Pup<A> + Drop> Pup<A> for Items<T, A> {
    ghost use Rattle.std.specs.Prelude.{All};
    ghost use Rattle.pup_pack.specs.Lists.{IsCounted, pack_list, unpack_list};
    ghost use Rattle.pup_pack.specs.Packing.{trips_by};
    ghost use Rattle.pup_pack.specs.Trips.{list_trips};

    ghost fits = { All T.fits };

    ghost counted = { λ xs. IsCounted xs × All T.counted xs };

    ghost pack = { pack_list T.pack };

    ghost unpack = { unpack_list T.unpack };

    ghost round_trip = { (list_trips (trips_by T.fits T.counted T.pack T.unpack T.round_trip)).trip };

    fn packed_len(&self) -> u32 {
        list_len(self.all.as_slice())
    }

    fn pack_into(&self, out: &mut Vec<u8, A>) -> Result<(), PupError> {
        pack_list(self.all.as_slice(), self.packed_len(), out)
    }

    fn unpack(alloc: A, bytes: &[u8]) -> Result<(Items<T, A>, usize), PupError> {
        let count = unpack_count(bytes)?;
        let (items, len) = unpack_items(alloc, count, &bytes[4..])?;
        let len = 4 + len;
        if len > Limits::STATE_BYTES as usize {
            return Err(PupError::TooLong);
        }
        Ok((items, len))
    }
}
