//! Packs that end in zeros.
//!
//! - [`Zeros`]: this many bytes, all 0. It packs into their number and then them: so a value whose object is elsewhere can have a pack
//!   of the length that the object would have.
//! - [`Trimmed`]: a list of bytes that packs without the zeros at its end, beside its length.
#![tactic(auto)]

mod trimmed;
mod zeros;

pub use trimmed::Trimmed;
pub use zeros::Zeros;
