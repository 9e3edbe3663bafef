//! A parcel as the bytes of a message, and back.
//!
//! - [`encode`], [`decode`]: a parcel of a PE to bytes, and bytes to what was sent, a [`WireParcel`].
//! - [`WireLetter`], [`WireElement`], with [`WireMark`]: what is sent of a letter, and of an element that was packed.
//! - [`message_laws`]: what comes out of the message of a parcel is what was sent of it.
//!
//! # What an element brings
//!
//! An element travels with its index, the pack of its chare, how many entries its journal has, how far it has come, and its marks.
//! Of the pack the zeros at its end are not sent, only its length.
//! The entries themselves stay where they are: the one who takes the element in says which they are, by a value of no bytes
//! ([`told_past`]). That they are the entries which the element had, as it was sent, no test can tell.
#![tactic(auto)]

mod element;
mod letter;
mod mark;
mod marks;
mod message;
mod past;

pub use element::WireElement;
pub use letter::WireLetter;
pub use mark::WireMark;
pub use message::{WireParcel, decode, encode, message_laws};
pub use past::told_past;
