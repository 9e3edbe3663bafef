//! What a run begins from.

ghost use Rattle.std.specs.Prelude.{◌≡◌, ◌<◌, ◌≤◌, All, IfOk, length};
ghost use Rattle.chare_index.specs.declared.limits.TheConstants.Limits.{PES};
ghost use Rattle.checkpointed_runs.specs.Beginning.{begun_on, opening_of};
ghost use Rattle.rts_core.specs.Worlds.{opening_words};
ghost use Rattle.run_checkpoint.specs.Text.{IsWithin};
ghost use Rattle.workload.specs.Text.{IsWithin as IsWorkload};

use chare_index::{Pe, Pes};
use rts_core::opening_words;
use run_checkpoint::Checkpoint;
use std::alloc::{AllocError, Allocator};
use workload::Workload;

/// What a run of a workload begins from: no round was decided, and each chare is on the PE on which a run opens it.
///
/// # Errors
///
/// Memory was refused.
pub fn opening_of<A: Allocator + Copy>(
    alloc: A,
    workload: Workload<A>,
) -> Result<Checkpoint<A>, AllocError>
    requires within { IsWorkload workload }
    ensures value { IfOk result (λ c. c ≡ opening_of workload) }
    ensures within { IfOk result IsWithin }
{
    let places = places_of(alloc, &workload)?;
    Ok(Checkpoint {
        decided: Vec::new(alloc),
        places,
        workload,
    })
}

/// Moves the run to this number of PEs. If the number changes, each chare is on the PE on which a new run would open it.
///
/// # Errors
///
/// Memory was refused.
pub fn on_pes<A: Allocator + Copy>(
    alloc: A,
    checkpoint: Checkpoint<A>,
    pes: u32,
) -> Result<Checkpoint<A>, AllocError>
    requires within { IsWithin checkpoint }
    requires some_pe { 1 ≤ pes }
    requires few_pes { pes ≤ PES }
    ensures value { IfOk result (λ c. c ≡ begun_on pes checkpoint) }
    ensures within { IfOk result IsWithin }
{
    let Checkpoint {
        decided,
        places,
        mut workload,
    } = checkpoint;
    if workload.pes == pes {
        return Ok(Checkpoint {
            decided,
            places,
            workload,
        });
    }
    workload.pes = pes;
    let places = places_of(alloc, &workload)?;
    Ok(Checkpoint {
        decided,
        places,
        workload,
    })
}

// Where a run of a workload opens each chare.
fn places_of<A: Allocator + Copy>(
    alloc: A,
    workload: &Workload<A>,
) -> Result<Vec<Pe, A>, AllocError>
    requires within { IsWorkload workload.now }
    ensures value { IfOk result (λ places. places.items ≡ opening_words workload.now.chares workload.now.pes) }
    ensures each_chare { IfOk result (λ places. length places.items ≡ workload.now.chares) }
    ensures placed { IfOk result (λ places. All (λ p. p < workload.now.pes) places.items) }
{
    opening_words(alloc, workload.chares, Pes::of(workload.pes))
}
