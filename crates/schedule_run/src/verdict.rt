//! How a run by a seed ended.

ghost use Rattle.std.specs.Prelude.{IfOk};
ghost use Rattle.schedule_run.specs.Seeds.{IsVerdict};

use chares::Chare;
use pe_worker::Fault;
use schedules::{Cast, Schedule, explore};
use std::alloc::{AllocError, Allocator};

/// How a run by a seed ended.
#[derive(Clone, Copy, Debug)]
pub(crate) struct Verdict {
    /// The fault that ended it early.
    pub(crate) fault: Option<Fault>,
    /// How many letters it left: none where there is no fault.
    pub(crate) held: u64,
}

/// How the run of these chares by this seed ended. The only error is that memory was refused before its first event or after its
/// last.
pub(crate) fn verdict_of<C: Chare<A>, K: Cast<C, A>, A: Allocator + Copy>(
    alloc: A,
    schedule: &Schedule,
    cast: &K,
    seed: u64,
) -> Result<Verdict, AllocError>
    ensures verdict { IfOk result (IsVerdict A C.step C.fits C.pack C.refuses C.unpack (K.chares cast.now) schedule.now seed) }
{
    let chares = cast.chares(alloc)?;
    match explore(alloc, schedule, seed, chares) {
        Ok(explored) => Ok(Verdict {
            fault: explored.fault(),
            held: explored.account().held,
        }),
        Err(_) => Err(AllocError),
    }
}
