//! What lists and byte lists have in common, and the items of a list.

ghost use Rattle.std.specs.Prelude.{◌≡◌, ◌+◌, ◌<◌, ◌≤◌, ◌++◌, All, Err, IfOk, length, flat_map, OnErr, OnOk, vec_capacity, vec_len};
ghost use Rattle.pup_pack.specs.Lists.{IsCounted, pack_list, unpack_count, unpack_items};
ghost use Rattle.pup_pack.specs.Packing.{PackAnswer, UnpackAnswer};

use crate::error::PupError;
use crate::items::Items;
use crate::measure::both_len;
use crate::pup::Pup;
use chare_index::Limits;
use std::alloc::Allocator;

/// The count that a packed list begins with.
pub fn unpack_count(bytes: &[u8]) -> Result<u32, PupError>
    ensures value { result ≡ unpack_count bytes.now }
    ensures whole { OnOk result (4 ≤ length bytes.now) }
{
    if bytes.len() < 4 {
        return Err(PupError::Short);
    }
    let count = u32::from_be_bytes([bytes[0], bytes[1], bytes[2], bytes[3]]);
    if count > Limits::STATE_BYTES {
        return Err(PupError::TooLong);
    }
    Ok(count)
}

/// The packed length of a list of these items, as [`Pup::packed_len`] gives it.
pub fn list_len<A: Allocator, T: Pup<A>>(items: &[T]) -> u32
    ensures len { 4 + length (flat_map T.pack items.now) ≤ Limits.STATE_BYTES → result ≡ 4 + length (flat_map T.pack items.now) }
    ensures over { Limits.STATE_BYTES < 4 + length (flat_map T.pack items.now) → result ≡ Limits.STATE_BYTES + 1 }
    ensures fits { All T.fits items.now }
{
    both_len(4, items_len(items))
}

/// The length of the packs of these items, one after another, as [`Pup::packed_len`] gives it.
pub fn items_len<A: Allocator, T: Pup<A>>(items: &[T]) -> u32
    ensures len { length (flat_map T.pack items.now) ≤ Limits.STATE_BYTES → result ≡ length (flat_map T.pack items.now) }
    ensures over { Limits.STATE_BYTES < length (flat_map T.pack items.now) → result ≡ Limits.STATE_BYTES + 1 }
    ensures fits { All T.fits items.now }
{
    let mut len = 0;
    for item in items {
        len = both_len(len, item.packed_len());
    }
    len
}

/// Appends the number of these items and their packs, as [`Pup::pack_into`] does, from the length that [`Pup::packed_len`] gives.
pub fn pack_list<A: Allocator, T: Pup<A>>(
    items: &[T],
    len: u32,
    out: &mut Vec<u8, A>,
) -> Result<(), PupError>
    requires len { length (pack_list T.pack items.now) ≤ Limits.STATE_BYTES → len ≡ length (pack_list T.pack items.now) }
    requires over { Limits.STATE_BYTES < length (pack_list T.pack items.now) → len ≡ Limits.STATE_BYTES + 1 }
    ensures appended { OnOk result (out.new.items ≡ out.old.items ++ pack_list T.pack items.now) }
    ensures answer { PackAnswer (IsCounted items.now × All T.counted items.now) (length (pack_list T.pack items.now)) result }
    ensures full { result ≡ Err PupError.OutOfMemory → vec_capacity out.old < vec_len out.old + length (pack_list T.pack items.now) }
    ensures err { OnErr result (out.new.items ≡ out.old.items) }
    ensures capacity { vec_capacity out.old ≤ vec_capacity out.new }
{
    let before = out.len();
    let count = items.len();
    if count > Limits::STATE_BYTES as usize || len > Limits::STATE_BYTES {
        return Err(PupError::TooLong);
    }
    out.reserve(len as usize)?;
    out.extend_from_slice(&(count as u32).to_be_bytes())?;
    if let Err(refusal) = pack_items(items, out) {
        out.truncate(before);
        return Err(refusal);
    }
    Ok(())
}

/// Appends the packs of these items, which together are known to be within the limit.
pub fn pack_items<A: Allocator, T: Pup<A>>(
    items: &[T],
    out: &mut Vec<u8, A>,
) -> Result<(), PupError>
    requires few { length (flat_map T.pack items.now) ≤ Limits.STATE_BYTES }
    ensures appended { OnOk result (out.new.items ≡ out.old.items ++ flat_map T.pack items.now) }
    ensures answer { PackAnswer (All T.counted items.now) (length (flat_map T.pack items.now)) result }
    ensures full { result ≡ Err PupError.OutOfMemory → vec_capacity out.old < vec_len out.old + length (flat_map T.pack items.now) }
    ensures err { OnErr result (out.new.items ≡ out.old.items) }
    ensures capacity { vec_capacity out.old ≤ vec_capacity out.new }
{
    let before = out.len();
    for item in items {
        match item.pack_into(out) {
            Ok(()) => {}
            Err(refusal) => {
                out.truncate(before);
                return Err(refusal);
            }
        }
    }
    Ok(())
}

/// Shows that these items fit their type, which the packed length of each says.
pub fn show_fits<A: Allocator, T: Pup<A>>(items: &[T])
    ensures fits { All T.fits items.now }
{
    for item in items {
        let _len = item.packed_len();
    }
}

/// The items whose packs the bytes begin with, and the length of these packs. Memory is requested as items are found, so a
/// count of more items than the bytes hold takes no memory for those that are missing.
pub fn unpack_items<A: Allocator + Copy, T: Pup<A> + Drop>(
    alloc: A,
    count: u32,
    bytes: &[u8],
) -> Result<(Items<T, A>, usize), PupError>
    ensures answer { UnpackAnswer (unpack_items T.unpack count bytes.now) result }
    ensures count { IfOk result (λ r. length r.0 ≡ count) }
    ensures within { IfOk result (λ r. r.1 ≤ length bytes.now) }
{
    let mut items = Items::new(Vec::new(alloc));
    let mut end = 0;
    for _ in 0..count {
        let (item, len) = T::unpack(alloc, &bytes[end..])?;
        items.push(item)?;
        end += len;
    }
    Ok((items, end))
}
