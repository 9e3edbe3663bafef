//! A list of values that all pack into the same number of bytes.

ghost use Rattle.std.specs.Prelude.{◌≡◌, ◌<◌, ◌++◌, ◌∷◌, [], IfErr, length, OnErr, OnOk, slice_set};

use crate::error::PupError;
use crate::fixed_len::FixedLen;
use crate::items::Items;
use crate::lists::{pack_list, show_fits};
use crate::measure::{all_len, both_len};
use crate::pup::Pup;
use std::alloc::{AllocFailed, Allocator, Global};
use std::marker::Model;

/// A list of values that each pack into the same number of bytes. It packs as [`Items`] does: into the number of its items,
/// in four bytes, and then the items one after another. But [`packed_len`](Pup::packed_len) takes the same time
/// however long the list is: it is a product. Contracts see it as that list. A list of tuples, arrays or structs of numbers is
/// declared for an `A: Allocator + Copy`.
#[derive(Debug, Drop)]
pub struct FixedItems<T: FixedLen<A>, A: Allocator = Global> {
    all: Vec<T, A>,
}

impl<T: FixedLen<A>, A: Allocator> Model for FixedItems<T, A> {
    ghost use Rattle.std.specs.Prelude.{List, All};

    ghost Value = { List T };

    ghost view = { λ list. list.all.items };

    ghost invariant = { λ list. All T.fits list.all.items };
}

impl<T: FixedLen<A>, A: Allocator> FixedItems<T, A> {
    /// The list of these items, each of which it looks at once.
    pub fn new(all: Vec<T, A>) -> Self
        ensures value { result ≡ all.items }
    {
        show_fits(all.as_slice());
        FixedItems { all }
    }

    /// The items.
    pub fn as_slice(&self) -> &[T]
        ensures value { result.now ≡ self.now }
    {
        self.all.as_slice()
    }

    /// Appends an item, which is returned in the error where memory is refused.
    pub fn push(&mut self, item: T) -> Result<(), AllocFailed<T>>
        ensures appended { OnOk result (self.new ≡ self.old ++ item ∷ []) }
        ensures err { OnErr result (self.new ≡ self.old) }
        ensures back { IfErr result (λ failed. failed.value ≡ item) }
    {
        let _len = item.packed_len();
        self.all.push(item)
    }

    /// Puts an item in the place of another one, which is dropped.
    pub fn set(&mut self, index: usize, item: T)
    where
        T: Drop,
        requires within { index < length self.old }
        ensures value { self.new ≡ slice_set self.old index item }
    {
        let _len = item.packed_len();
        self.all[index] = item;
    }

    /// The items as a vector.
    pub fn into_vec(self) -> Vec<T, A>
        ensures value { result.items ≡ self }
    {
        self.all
    }
}

impl<A: Allocator + Copy, T: FixedLen<A> + Drop> Pup<A> for FixedItems<T, A> {
    ghost use Rattle.std.specs.Prelude.{All};
    ghost use Rattle.pup_pack.specs.Lists.{IsCounted, pack_list, unpack_list};
    ghost use Rattle.pup_pack.specs.Packing.{trips_by};
    ghost use Rattle.pup_pack.specs.Trips.{list_trips};

    ghost fits = { All T.fits };

    ghost counted = { λ xs. IsCounted xs × All T.counted xs };

    ghost pack = { pack_list T.pack };

    ghost unpack = { unpack_list T.unpack };

    ghost round_trip = { (list_trips (trips_by T.fits T.counted T.pack T.unpack T.round_trip)).trip };

    fn packed_len(&self) -> u32 {
        both_len(4, all_len(self.all.as_slice().len(), T::fixed_len()))
    }

    fn pack_into(&self, out: &mut Vec<u8, A>) -> Result<(), PupError> {
        pack_list(self.all.as_slice(), self.packed_len(), out)
    }

    fn unpack(alloc: A, bytes: &[u8]) -> Result<(FixedItems<T, A>, usize), PupError> {
        let (list, len) = <Items<T, A> as Pup<A>>::unpack(alloc, bytes)?;
        Ok((FixedItems::new(list.into_vec()), len))
    }
}
