//! A text that packs.

ghost use Rattle.std.specs.Prelude.{◌≡◌};
ghost use Rattle.std.specs.String.{string_bytes};

use crate::bytes::{Bytes, counted_len, pack_counted};
use crate::error::PupError;
use crate::pup::Pup;
use std::alloc::{Allocator, Global};
use std::marker::Model;

/// A text. It packs into the number of bytes of its UTF-8, in four bytes, and then these bytes. Bytes that are not
/// UTF-8 are [`Bad`](PupError::Bad), which is found last. Contracts see a text as the list of its bytes.
#[derive(Debug, Drop)]
pub struct Text<A: Allocator = Global> {
    all: String<A>,
}

impl<A: Allocator> Model for Text<A> {
    ghost use Rattle.std.specs.Prelude.{List, ℕ};
    ghost use Rattle.std.specs.String.{string_bytes};

    ghost Value = { List ℕ };

    ghost view = { λ text. string_bytes text.all };
}

impl<A: Allocator> Text<A> {
    /// This text.
    pub fn new(all: String<A>) -> Self
        ensures value { result ≡ string_bytes all }
    {
        Text { all }
    }

    /// The text as a string slice.
    pub fn as_str(&self) -> &str
        ensures value { result.now ≡ self.now }
    {
        self.all.as_str()
    }

    /// The text as a string.
    pub fn into_string(self) -> String<A>
        ensures value { string_bytes result ≡ self }
    {
        self.all
    }
}

impl<A: Allocator> Pup<A> for Text<A> {
    ghost use Rattle.pup_pack.specs.Lists.{IsCounted, pack_bytes};
    ghost use Rattle.pup_pack.specs.Texts.{IsText, unpack_text};
    ghost use Rattle.pup_pack.specs.Trips.{text_trips};

    ghost fits = { IsText };

    ghost counted = { IsCounted };

    ghost pack = { pack_bytes };

    ghost unpack = { unpack_text };

    ghost round_trip = { text_trips.trip };

    fn packed_len(&self) -> u32 {
        let text = self.all.as_str();
        counted_len(text.len())
    }

    fn pack_into(&self, out: &mut Vec<u8, A>) -> Result<(), PupError> {
        pack_counted(self.all.as_bytes(), out)
    }

    fn unpack(alloc: A, bytes: &[u8]) -> Result<(Text<A>, usize), PupError> {
        let (found, len) = <Bytes<A> as Pup<A>>::unpack(alloc, bytes)?;
        match String::from_utf8(found.into_vec()) {
            Ok(text) => Ok((Text::new(text), len)),
            Err(_) => Err(PupError::Bad),
        }
    }
}
