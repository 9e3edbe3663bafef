//! The trait of a value that packs into bytes and unpacks from them, with its law.

ghost use Rattle.std.specs.Prelude.{◌≡◌, ℕ, ◌+◌, ◌<◌, ◌≤◌, List, ◌++◌, length, Result, Ok, Err, OnOk, OnErr, IfOk, vec_len, vec_capacity};
ghost use Rattle.chare_index.specs.declared.limits.TheConstants.Limits.{STATE_BYTES};
ghost use Rattle.pup_pack.specs.declared.error.PupError.{PupError};
ghost use Rattle.pup_pack.specs.Packing.{PackAnswer, UnpackAnswer};

use crate::error::PupError;
use chare_index::Limits;
use std::alloc::Allocator;

/// A value that packs into bytes and is unpacked from them again. `A` is the allocator of the bytes, and of what
/// an unpacked value owns. The name is that of the pack and unpack routine of a migratable object in Charm++
/// (the Charm++ manual, on serialization).
///
/// # A type of your own
///
/// A state of several fields packs into its fields, one after another. They are a tuple, to which every member and method
/// delegates:
///
/// ```text
/// #[derive(Drop)]
/// struct Tally<A: Allocator = Global> {
///     sum: u64,
///     amounts: Items<u32, A>,
///     pad: Bytes<A>,
/// }
///
/// type Parts<A> = (u64, Items<u32, A>, Bytes<A>);
///
/// impl<A: Allocator + Copy> Pup<A> for Tally<A> {
///     ghost use Rattle.std.specs.Prelude.{refl};
///     ghost use Rattle.pup_pack.specs.Structs.{made};
///     ghost use Rattle.pup_pack.specs.Trips.{bytes_trips, list_trips, struct_trips, three_trips, u32_trips, u64_trips};
///
///     ghost fits = { λ t. ⟦<Parts<A> as Pup<A>>⟧.fits (t.sum, t.amounts, t.pad) };
///     ghost counted = { λ t. ⟦<Parts<A> as Pup<A>>⟧.counted (t.sum, t.amounts, t.pad) };
///     ghost pack = { λ t. ⟦<Parts<A> as Pup<A>>⟧.pack (t.sum, t.amounts, t.pad) };
///     ghost unpack = { λ bytes. made (λ x. record { sum = x.0; amounts = x.1; pad = x.2 })
///         (⟦<Parts<A> as Pup<A>>⟧.unpack bytes) };
///     ghost round_trip = { (struct_trips (λ t. (t.sum, t.amounts, t.pad))
///         (λ x. record { sum = x.0; amounts = x.1; pad = x.2 }) (λ _. refl)
///         (three_trips u64_trips (list_trips u32_trips) bytes_trips)).trip };
///
///     fn packed_len(&self) -> u32 {
///         (&self.sum, &self.amounts, &self.pad).fields_len()
///     }
///
///     fn pack_into(&self, out: &mut Vec<u8, A>) -> Result<(), PupError> {
///         (&self.sum, &self.amounts, &self.pad).pack_fields(out)
///     }
///
///     fn unpack(alloc: A, bytes: &[u8]) -> Result<(Tally<A>, usize), PupError> {
///         let ((sum, amounts, pad), len) = <Parts<A> as Pup<A>>::unpack(alloc, bytes)?;
///         Ok((Tally { sum, amounts, pad }, len))
///     }
/// }
/// ```
///
/// This needs no proof file. The law is put together as the type is: `struct_trips` says how the struct is made of its fields,
/// and `three_trips` has the law of each. Where a struct has more than six fields, the sixth part is a tuple of the others. Where
/// not all fields make a value of the type, its `unpack` tests them and returns [`Bad`](PupError::Bad), and its impl has
/// `judged` and `judged_trips` in place of these; or `decoded` and `decoded_trips`, where the value is another type's, as
/// that of a byte is for `bool`.
///
/// | Type | Its law |
/// |---|---|
/// | `u8` to `u64`, `i8` to `i64`, `f32`, `f64`, `bool` | `u8_trips`, `i8_trips`, `f32_trips`, `bool_trips`, .. |
/// | [`Text`](crate::Text), [`Bytes`](crate::Bytes) | `text_trips`, `bytes_trips` |
/// | `Option<T>`, `[T; N]` | `option_trips` of the law of `T`; `array_trips N` of it |
/// | [`Items`](crate::Items), [`FixedItems`](crate::FixedItems) | `list_trips` of the law of its items |
/// | tuples of two to six parts | `pair_trips`, `three_trips`, `four_trips`, `five_trips`, `six_trips` of the laws of the parts |
pub trait Pup<A: Allocator>: Sized {
    /// Holds of every value of the type. The law below asks for it, since there an integer is any natural number.
    ghost fits: { Self → Type 0 };

    /// Whether each list in the value has at most 1,048,576 items.
    ghost counted: { Self → Type 0 };

    /// The bytes that the value packs into.
    ghost pack: { Self → List ℕ };

    /// What bytes unpack to: the value and the number of bytes that it took, or the refusal.
    ghost unpack: { List ℕ → Result (Self × ℕ) PupError };

    /// The length of the pack in bytes, or 1,048,577 where it is more than 1,048,576. Takes no memory.
    fn packed_len(&self) -> u32
        ensures len { length (pack self.now) ≤ Limits.STATE_BYTES → result ≡ length (pack self.now) }
        ensures over { Limits.STATE_BYTES < length (pack self.now) → result ≡ Limits.STATE_BYTES + 1 }
        ensures fits { fits self.now };

    /// Appends the pack of the value to `out`, for which it asks for memory at most once.
    ///
    /// # Errors
    ///
    /// `out` is unchanged on each of them.
    ///
    /// - [`TooLong`](PupError::TooLong): the pack is longer than 1,048,576 bytes, or a list in the value has more
    ///   than 1,048,576 items.
    /// - [`OutOfMemory`](PupError::OutOfMemory): the bytes did not fit in the capacity of `out`, and memory was refused. A pack
    ///   that is too long is never refused for memory; a list with too many items, whose items pack into nothing, may be.
    fn pack_into(&self, out: &mut Vec<u8, A>) -> Result<(), PupError>
        ensures appended { OnOk result (out.new.items ≡ out.old.items ++ pack self.now) }
        ensures answer { PackAnswer (counted self.now) (length (pack self.now)) result }
        ensures full { result ≡ Err PupError.OutOfMemory → vec_capacity out.old < vec_len out.old + length (pack self.now) }
        ensures err { OnErr result (out.new.items ≡ out.old.items) }
        ensures capacity { vec_capacity out.old ≤ vec_capacity out.new };

    /// The value whose pack the bytes begin with, and the length of that pack.
    ///
    /// # Errors
    ///
    /// - [`Short`](PupError::Short): the bytes end before the value does.
    /// - [`Bad`](PupError::Bad): the bytes are not a value of the type.
    /// - [`TooLong`](PupError::TooLong): a list has more than 1,048,576 items, or the value would pack into more
    ///   than 1,048,576 bytes.
    /// - [`OutOfMemory`](PupError::OutOfMemory): memory was refused. It may be reported in place of a refusal that only later
    ///   bytes would show.
    fn unpack(alloc: A, bytes: &[u8]) -> Result<(Self, usize), PupError>
        ensures answer { UnpackAnswer (unpack bytes.now) result }
        ensures within { IfOk result (λ r. r.1 ≤ length bytes.now) };

    /// A value that packs is unpacked from its pack, whatever bytes follow.
    ghost round_trip: { (s : Self) (rest : List ℕ) → fits s → counted s → length (pack s) ≤ STATE_BYTES → unpack (pack s ++ rest) ≡ Ok (s, length (pack s)) };
}
