//! The fields of a struct, packed one after another.

ghost use Rattle.std.specs.Prelude.{◌≡◌, ℕ, ◌+◌, ◌<◌, ◌≤◌, List, ◌++◌, length, Err, OnOk, OnErr, vec_len, vec_capacity};
ghost use Rattle.pup_pack.specs.Packing.{PackAnswer};

use crate::error::PupError;
use crate::measure::both_len;
use crate::pup::Pup;
use chare_index::Limits;
use std::alloc::Allocator;

/// The fields of a struct, borrowed to be packed one after another: a reference to a field, or a tuple of two to six such.
pub trait Fields<A: Allocator> {
    /// What [`Pup`] says of each field.
    ghost fits: { Self → Type 0 };

    /// Whether each list in the fields has at most 1,048,576 items.
    ghost counted: { Self → Type 0 };

    /// The packs of the fields, one after another.
    ghost pack: { Self → List ℕ };

    /// The length of all these packs, as [`Pup::packed_len`] gives it.
    fn fields_len(&self) -> u32
        ensures len { length (pack self.now) ≤ Limits.STATE_BYTES → result ≡ length (pack self.now) }
        ensures over { Limits.STATE_BYTES < length (pack self.now) → result ≡ Limits.STATE_BYTES + 1 }
        ensures fits { fits self.now };

    /// Appends the packs of the fields to `out`, as [`Pup::pack_into`] does.
    fn pack_fields(&self, out: &mut Vec<u8, A>) -> Result<(), PupError>
        ensures appended { OnOk result (out.new.items ≡ out.old.items ++ pack self.now) }
        ensures answer { PackAnswer (counted self.now) (length (pack self.now)) result }
        ensures full { result ≡ Err PupError.OutOfMemory → vec_capacity out.old < vec_len out.old + length (pack self.now) }
        ensures err { OnErr result (out.new.items ≡ out.old.items) }
        ensures capacity { vec_capacity out.old ≤ vec_capacity out.new };
}

impl<'a, A: Allocator, T: Pup<A>> Fields<A> for &'a T {
    ghost fits = { λ s. T.fits s.now };

    ghost counted = { λ s. T.counted s.now };

    ghost pack = { λ s. T.pack s.now };

    fn fields_len(&self) -> u32 {
        (**self).packed_len()
    }

    fn pack_fields(&self, out: &mut Vec<u8, A>) -> Result<(), PupError> {
        (**self).pack_into(out)
    }
}

/// Two groups of fields, the second after the first.
#[derive(Drop)]
pub(crate) struct Joined<'a, X, Y> {
    first: &'a X,
    second: &'a Y,
}

/// These two groups of fields.
pub(crate) fn join<'a, X, Y>(first: &'a X, second: &'a Y) -> Joined<'a, X, Y>
    ensures first { result.first.now ≡ first.now }
    ensures second { result.second.now ≡ second.now }
{
    Joined { first, second }
}

impl<'a, A: Allocator, X: Fields<A>, Y: Fields<A>> Fields<A> for Joined<'a, X, Y> {
    ghost use Rattle.std.specs.Prelude.{◌++◌};

    ghost fits = { λ s. X.fits s.first.now × Y.fits s.second.now };

    ghost counted = { λ s. X.counted s.first.now × Y.counted s.second.now };

    ghost pack = { λ s. X.pack s.first.now ++ Y.pack s.second.now };

    fn fields_len(&self) -> u32 {
        both_len(self.first.fields_len(), self.second.fields_len())
    }

    fn pack_fields(&self, out: &mut Vec<u8, A>) -> Result<(), PupError> {
        let before = out.len();
        let len = self.fields_len();
        if len > Limits::STATE_BYTES {
            return Err(PupError::TooLong);
        }
        out.reserve(len as usize)?;
        self.first.pack_fields(out)?;
        if let Err(refusal) = self.second.pack_fields(out) {
            out.truncate(before);
            return Err(refusal);
        }
        Ok(())
    }
}

impl<A: Allocator, X: Fields<A>, Y: Fields<A>> Fields<A> for (X, Y) {
    ghost use Rattle.std.specs.Prelude.{◌++◌};

    ghost fits = { λ s. X.fits s.0 × Y.fits s.1 };

    ghost counted = { λ s. X.counted s.0 × Y.counted s.1 };

    ghost pack = { λ s. X.pack s.0 ++ Y.pack s.1 };

    fn fields_len(&self) -> u32 {
        both_len(self.0.fields_len(), self.1.fields_len())
    }

    fn pack_fields(&self, out: &mut Vec<u8, A>) -> Result<(), PupError> {
        join(&self.0, &self.1).pack_fields(out)
    }
}
