//! A list of bytes that packs.

ghost use Rattle.std.specs.Prelude.{◌≡◌, ◌+◌, ◌<◌, ◌≤◌, ◌++◌, Err, length, OnErr, OnOk, vec_capacity, vec_len};
ghost use Rattle.pup_pack.specs.Lists.{IsCounted, pack_bytes};
ghost use Rattle.pup_pack.specs.Packing.{PackAnswer};

use crate::error::PupError;
use crate::lists::unpack_count;
use crate::pup::Pup;
use chare_index::Limits;
use std::alloc::{Allocator, Global};
use std::marker::Model;

/// A list of bytes. It packs into their number, in four bytes, and then the bytes as they are. Contracts see it as
/// that list.
#[derive(Debug, Drop)]
pub struct Bytes<A: Allocator = Global>(pub Vec<u8, A>);

impl<A: Allocator> Model for Bytes<A> {
    ghost use Rattle.std.specs.Prelude.{List, ℕ};

    ghost Value = { List ℕ };

    ghost view = { λ list. list.0.items };
}

impl<A: Allocator> Bytes<A> {
    /// The list of these bytes.
    pub fn new(all: Vec<u8, A>) -> Self
        ensures value { result ≡ all.items }
    {
        Bytes(all)
    }

    /// The bytes.
    pub fn as_slice(&self) -> &[u8]
        ensures value { result.now ≡ self.now }
    {
        self.0.as_slice()
    }

    /// The bytes as a vector.
    pub fn into_vec(self) -> Vec<u8, A>
        ensures value { result.items ≡ self }
    {
        self.0
    }
}

impl<A: Allocator> Pup<A> for Bytes<A> {
    ghost use Rattle.pup_pack.specs.Lists.{IsCounted, pack_bytes, unpack_bytes};
    ghost use Rattle.pup_pack.specs.Trips.{bytes_trips};

    ghost fits = { λ _. Unit {0} };

    ghost counted = { IsCounted };

    ghost pack = { pack_bytes };

    ghost unpack = { unpack_bytes };

    ghost round_trip = { bytes_trips.trip };

    fn packed_len(&self) -> u32 {
        counted_len(self.0.len())
    }

    fn pack_into(&self, out: &mut Vec<u8, A>) -> Result<(), PupError> {
        pack_counted(self.0.as_slice(), out)
    }

    fn unpack(alloc: A, bytes: &[u8]) -> Result<(Bytes<A>, usize), PupError> {
        let count = unpack_count(bytes)? as usize;
        let rest = &bytes[4..];
        if rest.len() < count {
            return Err(PupError::Short);
        }
        if count > (Limits::STATE_BYTES - 4) as usize {
            return Err(PupError::TooLong);
        }
        Ok((
            Bytes::new(Vec::from_slice(alloc, &rest[..count])?),
            4 + count,
        ))
    }
}

/// The packed length of a list of this number of bytes, as [`Pup::packed_len`] gives it.
pub fn counted_len(count: usize) -> u32
    ensures len { 4 + count ≤ Limits.STATE_BYTES → result ≡ 4 + count }
    ensures over { Limits.STATE_BYTES < 4 + count → result ≡ Limits.STATE_BYTES + 1 }
{
    if count > (Limits::STATE_BYTES - 4) as usize {
        return Limits::STATE_BYTES + 1;
    }
    4 + count as u32
}

/// Appends the number of these bytes and the bytes, as [`Pup::pack_into`] does.
pub fn pack_counted<A: Allocator>(bytes: &[u8], out: &mut Vec<u8, A>) -> Result<(), PupError>
    ensures appended { OnOk result (out.new.items ≡ out.old.items ++ pack_bytes bytes.now) }
    ensures answer { PackAnswer (IsCounted bytes.now) (length (pack_bytes bytes.now)) result }
    ensures full { result ≡ Err PupError.OutOfMemory → vec_capacity out.old < vec_len out.old + length (pack_bytes bytes.now) }
    ensures err { OnErr result (out.new.items ≡ out.old.items) }
    ensures capacity { vec_capacity out.old ≤ vec_capacity out.new }
{
    let count = bytes.len();
    if count > (Limits::STATE_BYTES - 4) as usize {
        return Err(PupError::TooLong);
    }
    out.reserve(4 + count)?;
    out.extend_from_slice(&(count as u32).to_be_bytes())
        .unwrap();
    out.extend_from_slice(bytes).unwrap();
    Ok(())
}
