//! The messages between the elements: those of the chares, and those of a reduction.

use chare_index::Limits;
use pup_pack::{Fields, Pup, PupError};
use std::alloc::Allocator;

/// What goes between the elements: a message of the chares, or what belongs to a reduction. It packs into a byte that says which, 0, 1 or
/// 2, and then what it says.
#[derive(Drop)]
pub enum TreeMessage<M, V> {
    /// A message of the chares.
    User(M),
    /// The value of a child's subtree, with the slot of that child.
    Part(u8, V),
    /// The result.
    Whole(V),
}

impl<A: Allocator + Copy, M: Pup<A> + Drop, V: Pup<A> + Drop> Pup<A> for TreeMessage<M, V> {
    ghost use Rattle.pup_pack.specs.Packing.{trips_by};
    ghost use Rattle.reductions.specs.TreeMessages.{tree_counted, tree_fits, tree_pack, tree_trips, tree_unpack};

    ghost fits = { tree_fits M.fits V.fits };

    ghost counted = { tree_counted M.counted V.counted };

    ghost pack = { tree_pack M.pack V.pack };

    ghost unpack = { tree_unpack M.unpack V.unpack };

    ghost round_trip = { (tree_trips (trips_by M.fits M.counted M.pack M.unpack M.round_trip) (trips_by V.fits V.counted V.pack V.unpack V.round_trip)).trip };

    fn packed_len(&self) -> u32 {
        match self {
            TreeMessage::User(message) => Fields::<A>::fields_len(&(&0_u8, message)),
            TreeMessage::Part(slot, value) => Fields::<A>::fields_len(&(&1_u8, (slot, value))),
            TreeMessage::Whole(value) => Fields::<A>::fields_len(&(&2_u8, value)),
        }
    }

    fn pack_into(&self, out: &mut Vec<u8, A>) -> Result<(), PupError> {
        match self {
            TreeMessage::User(message) => (&0_u8, message).pack_fields(out),
            TreeMessage::Part(slot, value) => (&1_u8, (slot, value)).pack_fields(out),
            TreeMessage::Whole(value) => (&2_u8, value).pack_fields(out),
        }
    }

    fn unpack(alloc: A, bytes: &[u8]) -> Result<(TreeMessage<M, V>, usize), PupError> {
        if bytes.is_empty() {
            return Err(PupError::Short);
        }
        let (message, len) = match bytes[0] {
            0 => {
                let (message, len) = M::unpack(alloc, &bytes[1..])?;
                (TreeMessage::User(message), len)
            }
            1 => {
                let ((slot, value), len) = <(u8, V) as Pup<A>>::unpack(alloc, &bytes[1..])?;
                (TreeMessage::Part(slot, value), len)
            }
            2 => {
                let (value, len) = V::unpack(alloc, &bytes[1..])?;
                (TreeMessage::Whole(value), len)
            }
            _ => return Err(PupError::Bad),
        };
        if len >= Limits::STATE_BYTES as usize {
            return Err(PupError::TooLong);
        }
        Ok((message, 1 + len))
    }
}
