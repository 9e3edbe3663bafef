//! Reads the first line of a checkpoint.

ghost use Rattle.std.specs.Prelude.{◌≡◌, MatchOption, MatchResult};
ghost use Rattle.run_checkpoint.specs.Faults.{IsBadHead, IsHead};
ghost use Rattle.run_checkpoint.specs.Scanning.{IsFront, head_at};
ghost use Rattle.run_checkpoint.specs.Text.{head_line};

use crate::error::CheckpointError;
use crate::numbers::{behind, number_at};
use tally::TallyLimits;

/// The number of rounds in the first line, and the bytes after that line.
///
/// # Errors
///
/// The fault of the first line.
pub(crate) fn read_head(bytes: &[u8]) -> Result<(u32, &[u8]), CheckpointError>
    ensures { MatchResult result (λ found. IsFront IsHead head_line bytes.now found.0 found.1.now) (λ e. IsBadHead bytes.now e) }
{
    let Some((rounds, rest)) = head_at(bytes) else {
        return Err(CheckpointError::Form(1));
    };
    if rounds > TallyLimits::AMOUNTS as u128 {
        return Err(CheckpointError::Limit(1));
    }
    Ok((rounds as u32, rest))
}

// The number in the first line, and the bytes after that line.
fn head_at(bytes: &[u8]) -> Option<(u128, &[u8])>
    ensures { MatchOption result (head_at bytes.now ≡ None) (λ found. head_at bytes.now ≡ Some (found.0, found.1.now)) }
{
    let (rounds, rest) = number_at(b"checkpoint ", bytes)?;
    let rest = behind(b"\n", rest)?;
    Some((rounds, rest))
}
