//! Reads the line of one round.

ghost use Rattle.std.specs.Prelude.{◌≡◌, ◌^◌, ◌<◌, MatchOption, MatchResult};
ghost use Rattle.run_checkpoint.specs.Faults.{IsBadRound};
ghost use Rattle.run_checkpoint.specs.Scanning.{IsFront, round_at};
ghost use Rattle.run_checkpoint.specs.Text.{IsDecided, decided_line};

use crate::checkpoint::DecidedRound;
use crate::error::CheckpointError;
use crate::numbers::{behind, number_at};

/// What the line of this round says, which begins these bytes, and the bytes after it.
///
/// # Errors
///
/// The fault of that line, whose number is that of the round and one.
pub(crate) fn read_round(bytes: &[u8], round: u32) -> Result<(DecidedRound, &[u8]), CheckpointError>
    requires few { round < 2 ^ 31 }
    ensures { MatchResult result (λ found. IsFront IsDecided (decided_line round) bytes.now found.0 found.1.now)
        (λ e. IsBadRound round bytes.now e) }
{
    let Some((line, rest)) = round_at(bytes) else {
        return Err(CheckpointError::Form(round + 1));
    };
    if line.round != round as u128 {
        return Err(CheckpointError::Form(round + 1));
    }
    match line.decided() {
        Some(decided) => Ok((decided, rest)),
        None => Err(CheckpointError::Limit(round + 1)),
    }
}

// The numbers of a line of a round.
#[derive(Clone, Copy, Debug, PartialEq, Eq)]
struct Line {
    round: u128,
    bottleneck: u128,
    moved: u128,
}

// The line of a round at the front of these bytes, and the bytes after it.
fn round_at(bytes: &[u8]) -> Option<(Line, &[u8])>
    ensures { MatchOption result (round_at bytes.now ≡ None)
        (λ found. round_at bytes.now ≡ Some (record { round = found.0.round; bottleneck = found.0.bottleneck; moved = found.0.moved; rest = found.1.now })) }
{
    let (round, rest) = number_at(b"round ", bytes)?;
    let (bottleneck, rest) = number_at(b" bottleneck ", rest)?;
    let (moved, rest) = number_at(b" moved ", rest)?;
    let rest = behind(b"\n", rest)?;
    let line = Line {
        round,
        bottleneck,
        moved,
    };
    Some((line, rest))
}

impl Line {
    // What it says, or `None` where a number has more than 64 bits.
    fn decided(self) -> Option<DecidedRound>
        ensures { MatchOption result ((self.bottleneck < 2 ^ 64) × (self.moved < 2 ^ 64) → ⊥)
            (λ d. (d.bottleneck ≡ self.bottleneck) × (d.moved ≡ self.moved) × IsDecided d) }
    {
        if self.bottleneck > u64::MAX as u128 || self.moved > u64::MAX as u128 {
            return None;
        }
        Some(DecidedRound {
            bottleneck: self.bottleneck as u64,
            moved: self.moved as u64,
        })
    }
}
