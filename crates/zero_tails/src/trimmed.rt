//! Bytes without the zeros at their end.

ghost use Rattle.std.specs.Prelude.{◌≡◌, ◌≤◌, ◌↔◌, false, length, IfErr, IfOk, IfSome, IsNone, OnErr};
ghost use Rattle.zero_tails.specs.Tails.{FitsTrimmed, RefusesCopy, is_trimmed, kept_of, padded};

use chare_index::Limits;
use pup_pack::{Bytes, Fields, Pup, PupError};
use std::alloc::{AllocError, Global};
use std::marker::Model;

/// A list of at most 1,048,576 bytes. It packs into its length, in four bytes, and then, as a list of bytes, those before the zeros at
/// its end. Contracts see it as the whole list.
#[derive(Drop)]
pub struct Trimmed {
    len: u32,
    kept: Bytes,
}

/// The length and the bytes before the zeros, as they are packed.
type Parts = (u32, Bytes);

impl Model for Trimmed {
    ghost use Rattle.std.specs.Prelude.{◌≡◌, ℕ, List, true};
    ghost use Rattle.zero_tails.specs.Tails.{is_trimmed, padded};

    ghost Value = { List ℕ };

    ghost view = { λ t. padded (t.len, t.kept) };

    ghost invariant = { λ t. is_trimmed (t.len, t.kept) ≡ true };
}

impl Trimmed {
    /// A copy of these bytes.
    ///
    /// # Errors
    ///
    /// - [`TooLong`](PupError::TooLong): there are more than 1,048,576.
    /// - [`OutOfMemory`](PupError::OutOfMemory): there are no more, and memory was refused.
    ///
    /// There is no other.
    #[tactic(auto, using(crate::specs::Tails::again, crate::specs::Tails::parts_read))]
    pub fn of(alloc: Global, bytes: &[u8]) -> Result<Self, PupError>
        ensures value { IfOk result (λ t. t ≡ bytes.now) }
        ensures fits { IfOk result (λ _. FitsTrimmed bytes.now) }
        ensures refused { IfErr result (RefusesCopy bytes.now) }
    {
        if bytes.len() > Limits::STATE_BYTES as usize {
            return Err(PupError::TooLong);
        }
        let kept = kept_len(bytes);
        Ok(Trimmed {
            len: bytes.len() as u32,
            kept: Bytes::new(Vec::from_slice(alloc, &bytes[..kept])?),
        })
    }

    // The list of these parts, or `None` where no list has them.
    #[tactic(auto, using(crate::specs::Tails::kept_le))]
    fn of_parts(parts: Parts) -> Option<Self>
        ensures value { IfSome result (λ t. t ≡ padded parts) }
        ensures refused { IsNone result ↔ (is_trimmed parts ≡ false) }
    {
        let (len, kept) = parts;
        if len > Limits::STATE_BYTES {
            return None;
        }
        let count = kept.as_slice().len();
        if count > len as usize || kept_len(kept.as_slice()) != count {
            return None;
        }
        Some(Trimmed { len, kept })
    }

    /// The whole list. The only error is that memory was refused.
    pub fn into_vec(self) -> Result<Vec<u8>, AllocError>
        ensures value { IfOk result (λ all. all.items ≡ self) }
    {
        let Trimmed { len, kept } = self;
        let mut all = kept.into_vec();
        all.resize(len as usize, 0)?;
        Ok(all)
    }
}

// How many bytes come before the zeros at the end.
fn kept_len(bytes: &[u8]) -> usize
    ensures value { result ≡ kept_of bytes.now }
    ensures within { result ≤ length bytes.now }
{
    let mut kept = bytes.len();
    while kept > 0 {
        if bytes[kept - 1] != 0 {
            return kept;
        }
        kept -= 1;
    }
    0
}

impl Pup<Global> for Trimmed {
    ghost use Rattle.std.specs.Prelude.{◌≤◌, length};
    ghost use Rattle.pup_pack.specs.Structs.{decoded};
    ghost use Rattle.zero_tails.specs.Tails.{FitsTrimmed, trimmed_parts, trimmed_read, trimmed_trips};

    ghost fits = { FitsTrimmed };

    ghost counted = { λ xs. ⟦<Parts as Pup<Global>>⟧.counted (trimmed_parts xs) };

    ghost pack = { λ xs. ⟦<Parts as Pup<Global>>⟧.pack (trimmed_parts xs) };

    ghost unpack = { λ bytes. decoded trimmed_read (⟦<Parts as Pup<Global>>⟧.unpack bytes) };

    ghost round_trip = { trimmed_trips.trip };

    fn packed_len(&self) -> u32 {
        (&self.len, &self.kept).fields_len()
    }

    fn pack_into(&self, out: &mut Vec<u8>) -> Result<(), PupError> {
        (&self.len, &self.kept).pack_fields(out)
    }

    fn unpack(alloc: Global, bytes: &[u8]) -> Result<(Trimmed, usize), PupError> {
        let (parts, len) = <Parts as Pup<Global>>::unpack(alloc, bytes)?;
        let Some(trimmed) = Trimmed::of_parts(parts) else {
            return Err(PupError::Bad);
        };
        Ok((trimmed, len))
    }
}
