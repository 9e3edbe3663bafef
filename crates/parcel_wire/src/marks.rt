//! The marks of an element, as they are kept and as they are sent.

ghost use Rattle.std.specs.Prelude.{◌≡◌, IfOk};

use crate::mark::WireMark;
use chares::KeptMark;
use pup_pack::PupError;
use std::alloc::{AllocError, Global};

/// What is sent of these marks. It is refused as [`Bad`](PupError::Bad) where a load is above the limit of a load, which is so of
/// no element that ran.
pub(crate) fn wire_marks(alloc: Global, marks: &[KeptMark]) -> Result<Vec<WireMark>, PupError>
    ensures value { IfOk result (λ sent. sent.items ≡ marks.now) }
{
    let mut sent = Vec::new(alloc);
    for mark in marks {
        let Some(one) = WireMark::of(mark.get()) else {
            return Err(PupError::Bad);
        };
        sent.push(one)?;
    }
    Ok(sent)
}

/// The marks that were sent, as an element keeps them.
pub(crate) fn kept_marks(alloc: Global, marks: &[WireMark]) -> Result<Vec<KeptMark>, AllocError>
    ensures value { IfOk result (λ kept. kept.items ≡ marks.now) }
{
    let mut kept = Vec::new(alloc);
    for mark in marks {
        kept.push(mark.to_kept())?;
    }
    Ok(kept)
}
