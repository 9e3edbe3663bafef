//! Reads the workload that ends a checkpoint.

ghost use Rattle.std.specs.Prelude.{◌≡◌, ◌⊎◌, MatchResult};
ghost use Rattle.workload.specs.Text.{IsText};
ghost use Rattle.run_checkpoint.specs.Faults.{IsBadWorkload, shifted};
ghost use Rattle.run_checkpoint.specs.declared.error.CheckpointError.TheVariants.{OutOfMemory};

use crate::error::CheckpointError;
use std::alloc::Allocator;
use workload::{WorkError, Workload};

/// The workload of this text, before which there are this many lines.
///
/// # Errors
///
/// The fault of the first faulty line, with its number over the whole text, or memory was refused.
pub(crate) fn read_workload<A: Allocator + Copy>(
    alloc: A,
    before: u32,
    bytes: &[u8],
) -> Result<Workload<A>, CheckpointError>
    ensures { MatchResult result (λ w. IsText w bytes.now) (λ e. (e ≡ OutOfMemory) ⊎ IsBadWorkload before bytes.now e) }
{
    match Workload::parse(alloc, bytes) {
        Ok(workload) => Ok(workload),
        Err(error) => Err(shifted(error, before)),
    }
}

// Renumbers the line of a fault, where `before` lines come before the workload.
fn shifted(error: WorkError, before: u32) -> CheckpointError
    ensures { result ≡ shifted error before }
{
    match error {
        WorkError::Form(line) => CheckpointError::Form(line.saturating_add(before)),
        WorkError::Limit(line) => CheckpointError::Limit(line.saturating_add(before)),
        WorkError::Long => CheckpointError::Long,
        WorkError::Read => CheckpointError::Read,
        WorkError::OutOfMemory => CheckpointError::OutOfMemory,
    }
}
