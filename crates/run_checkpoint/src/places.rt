//! Reads the line of the places.

ghost use Rattle.std.specs.Prelude.{◌≡◌, ◌⊎◌, ◌<◌, ◌++◌, IfOk, [], ◌∷◌, MatchBool, MatchResult, length};
ghost use Rattle.chare_index.specs.declared.limits.TheConstants.Limits.{ELEMENTS, PES};
ghost use Rattle.run_checkpoint.specs.Faults.{AreBadPlaces, ArePlaces};
ghost use Rattle.run_checkpoint.specs.Fields.{AreFields};
ghost use Rattle.run_checkpoint.specs.Scanning.{IsFront};
ghost use Rattle.run_checkpoint.specs.Text.{places_line};
ghost use Rattle.run_checkpoint.specs.declared.error.CheckpointError.TheVariants.{OutOfMemory};

use crate::error::CheckpointError;
use crate::numbers::{behind, number_at};
use chare_index::{Limits, Pe};
use std::alloc::{AllocError, Allocator};

/// Reads the line of the places, which has this number, onto a list that is empty, and returns the bytes after it.
///
/// # Errors
///
/// The fault of that line, or memory was refused. Past 65,536 places the list takes no more.
pub(crate) fn read_places<'b, A: Allocator>(
    places: &mut Vec<Pe, A>,
    line: u32,
    bytes: &'b [u8],
) -> Result<&'b [u8], CheckpointError>
    requires empty { places.old.items ≡ [] }
    ensures { MatchResult result (λ rest. IsFront ArePlaces places_line bytes.now places.new.items rest.now)
        (λ e. (e ≡ OutOfMemory) ⊎ AreBadPlaces line bytes.now e) }
{
    let Some(rest) = behind(b"places", bytes) else {
        return Err(CheckpointError::Form(line));
    };
    let Ok((past, rest)) = take_places(places, rest) else {
        return Err(CheckpointError::OutOfMemory);
    };
    let Some(rest) = behind(b"\n", rest) else {
        return Err(CheckpointError::Form(line));
    };
    if past {
        return Err(CheckpointError::Limit(line));
    }
    Ok(rest)
}

// Takes the numbers at the front of these bytes, each after a blank. Returns whether one of them was not kept, and the bytes
// after them.
fn take_places<'b, A: Allocator>(
    places: &mut Vec<Pe, A>,
    bytes: &'b [u8],
) -> Result<(bool, &'b [u8]), AllocError>
    requires empty { places.old.items ≡ [] }
    ensures { IfOk result (λ found. AreFields bytes.now found.0 places.new.items found.1.now) }
{
    let mut past = false;
    let mut rest = bytes;
    while let Some((place, behind)) = number_at(b" ", rest) {
        let kept = keep(places, place)?;
        past |= !kept;
        rest = behind;
    }
    Ok((past, rest))
}

// Appends a place to the list, unless it is past the last PE or the list has as many as there may be chares. Returns whether it did.
fn keep<A: Allocator>(places: &mut Vec<Pe, A>, place: u128) -> Result<bool, AllocError>
    ensures { IfOk result (λ kept. MatchBool kept
        ((places.new.items ≡ places.old.items ++ (place ∷ [])) × (length places.old.items < Limits.ELEMENTS) × (place < Limits.PES))
        ((length places.old.items < Limits.ELEMENTS) × (place < Limits.PES) → ⊥)) }
{
    if places.len() >= Limits::ELEMENTS as usize || place >= Limits::PES as u128 {
        return Ok(false);
    }
    let Some(pe) = Pe::new(place as u32) else {
        return Ok(false);
    };
    places.push(pe)?;
    Ok(true)
}
