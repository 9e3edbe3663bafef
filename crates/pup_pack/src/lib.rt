//! Packed states: an element that moves between PEs moves as bytes, and unpacking them yields the value that was
//! packed, whatever bytes follow.
//!
//! - [`Pup`]: a value that packs, with its law. It is implemented for integers of 8 to 64 bits, `f32`, `f64`, `bool`,
//!   `Option`, tuples of two to six parts, arrays, [`Text`], [`Bytes`], [`Items`] and [`FixedItems`]; its docs show how to
//!   implement it for a type of your own.
//! - [`Text`]: a text. [`Bytes`]: a list of bytes. [`Items`]: a list of packed values.
//! - [`FixedItems`]: a list of values of a type that is [`FixedLen`], whose packs all have the same length. It knows
//!   the length of its pack without going over its items.
//! - [`Fields`]: the fields of a struct, packed one after another.
//! - [`PupError`]: why a value is not packed, or bytes are not unpacked.
//!
//! A number packs into its bytes, the highest first, and a signed one into those of its two's complement. A float packs
//! into the bytes of its bits (IEEE 754), and comes back as it was, with the sign of a zero; a NaN comes back as a NaN,
//! which has no sign and no payload here. A truth value is the byte 0 or 1. An option is the byte 0, or the byte 1 and
//! then the value. A tuple is its parts, one after another, and an array its items.
//!
//! ```
//! use pup_pack::{Items, Pup, PupError};
//!
//! // A list packs into the number of its items and the items, each in four bytes, the highest first.
//! let amounts = Items::<u32>::new(vec![in alloc; 3, 5]?);
//! let mut bytes = Vec::new(alloc);
//! amounts.pack_into(&mut bytes)?;
//! assert!(rt; bytes.as_slice() == [0, 0, 0, 2, 0, 0, 0, 3, 0, 0, 0, 5].as_slice());
//!
//! let (again, len) = Items::<u32>::unpack(alloc, &bytes)?;
//! assert!(rt; again.as_slice() == [3, 5].as_slice() && len == 12);
//! assert!(rt; Items::<u32>::unpack(alloc, &[0, 0]).err() == Some(PupError::Short));
//! ```
#![tactic(auto)]

mod arrays;
mod bytes;
mod eight_bytes;
mod error;
mod field_tuples;
mod fields;
mod fixed_items;
mod fixed_len;
mod floats;
mod four_bytes;
mod items;
mod lists;
mod measure;
mod one_byte;
mod option;
mod pair;
mod pup;
mod text;
mod truth;
mod tuples;
mod two_bytes;

pub use bytes::Bytes;
pub use error::PupError;
pub use fields::Fields;
pub use fixed_items::FixedItems;
pub use fixed_len::FixedLen;
pub use items::Items;
pub use pup::Pup;
pub use text::Text;
