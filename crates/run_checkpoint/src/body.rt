//! Reads what follows the first line of a checkpoint.

ghost use Rattle.std.specs.Prelude.{◌≡◌, ◌⊎◌, ◌≤◌, MatchResult};
ghost use Rattle.run_checkpoint.specs.Bodies.{IsBody};
ghost use Rattle.run_checkpoint.specs.Faults.{IsBodyFault};
ghost use Rattle.run_checkpoint.specs.declared.error.CheckpointError.TheVariants.{OutOfMemory};
ghost use Rattle.tally.specs.declared.tally_limits.TheConstants.TallyLimits.{AMOUNTS};

use crate::checkpoint::Checkpoint;
use crate::error::CheckpointError;
use crate::limits::past_line;
use crate::places::read_places;
use crate::rounds::read_rounds;
use crate::workload_part::read_workload;
use std::alloc::Allocator;

/// The checkpoint whose text these bytes end, after its first line, which says this many rounds.
///
/// # Errors
///
/// Those of [`Checkpoint::parse`], in its order.
pub(crate) fn read_body<A: Allocator + Copy>(
    alloc: A,
    rounds: u32,
    bytes: &[u8],
) -> Result<Checkpoint<A>, CheckpointError>
    requires { rounds ≤ AMOUNTS }
    ensures { MatchResult result (λ c. IsBody rounds bytes.now c) (λ e. (e ≡ OutOfMemory) ⊎ IsBodyFault rounds bytes.now e) }
{
    let mut decided = Vec::new(alloc);
    let behind_rounds = read_rounds(&mut decided, rounds, bytes)?;
    let mut places = Vec::new(alloc);
    let behind_places = read_places(&mut places, rounds + 2, behind_rounds)?;
    let workload = read_workload(alloc, rounds + 2, behind_places)?;
    if let Some(line) = past_line(&decided, &places, &workload) {
        return Err(CheckpointError::Limit(line));
    }
    Ok(Checkpoint {
        decided,
        places,
        workload,
    })
}
