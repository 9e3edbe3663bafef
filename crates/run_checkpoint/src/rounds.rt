//! Reads the lines of all rounds.

ghost use Rattle.std.specs.Prelude.{◌≡◌, ◌⊎◌, ◌<◌, ◌^◌, ◌++◌, ◌∷◌, [], MatchResult, OnOk};
ghost use Rattle.run_checkpoint.specs.Faults.{AreBadRounds, AreRounds};
ghost use Rattle.run_checkpoint.specs.Scanning.{IsFront};
ghost use Rattle.run_checkpoint.specs.Text.{round_lines};
ghost use Rattle.run_checkpoint.specs.declared.error.CheckpointError.TheVariants.{OutOfMemory};

use crate::checkpoint::DecidedRound;
use crate::error::CheckpointError;
use crate::line::read_round;
use std::alloc::{AllocError, Allocator};

/// Reads the lines of this many rounds onto a list that is empty, and returns the bytes after them.
///
/// # Errors
///
/// The fault of the first faulty line, or memory was refused.
pub(crate) fn read_rounds<'b, A: Allocator>(
    decided: &mut Vec<DecidedRound, A>,
    count: u32,
    bytes: &'b [u8],
) -> Result<&'b [u8], CheckpointError>
    requires empty { decided.old.items ≡ [] }
    requires few { count < 2 ^ 30 }
    ensures { MatchResult result (λ rest. IsFront (AreRounds count) (round_lines 1) bytes.now decided.new.items rest.now)
        (λ e. (e ≡ OutOfMemory) ⊎ AreBadRounds count bytes.now e) }
{
    let mut rest = bytes;
    for i in 0..count {
        match read_round(rest, i + 1) {
            Ok((round, behind)) => {
                append(decided, round)?;
                rest = behind;
            }
            Err(fault) => return Err(fault),
        }
    }
    Ok(rest)
}

// Appends a round to the list.
fn append<A: Allocator>(
    decided: &mut Vec<DecidedRound, A>,
    round: DecidedRound,
) -> Result<(), AllocError>
    ensures { OnOk result (decided.new.items ≡ decided.old.items ++ (round ∷ [])) }
{
    decided.push(round)?;
    Ok(())
}
