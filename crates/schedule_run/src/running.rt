//! Runs of the tallies of a workload on one thread.

ghost use Rattle.std.specs.Prelude.{◌≡◌, IfErr, IfOk};
ghost use Rattle.schedule_run.specs.OneThread.{EndsByList, EndsBySeed, IsRunOnOne, RefusesRun, unlimited};
ghost use Rattle.rts_core.specs.Worlds.{opening_world};
ghost use Rattle.schedules.specs.Drawn.{IsDrawn};
ghost use Rattle.schedules.specs.Replays.{Follows};
ghost use Rattle.schedules.specs.Schedules.{no_bias};
ghost use Rattle.tally.specs.Tallies.{tally_pack, tally_step};
ghost use Rattle.workload.specs.Text.{IsWithin};
ghost use Rattle.workload_run.specs.Tallies.{tallies_of};

use pup_pack::Pup;
use rts_core::Event;
use schedules::{Bias, Explored, ReplayError, Schedule, explore, replay};
use std::alloc::{AllocError, Allocator};
use sync_board::Strategy;
use tally::Tally;
use workload::Workload;
use workload_run::tallies_of;

/// Runs the tallies of a workload on one thread until every one has finished and no letter is held, or a fault ends the run. Each next
/// event is drawn by a generator with this seed, as [`explore`] does without a bias, and rounds are decided by `strategy`. The clause
/// `left` says also why it ended, and the clause `drawn` that each step is the one that the seed draws, and that none is taken once
/// all have finished and no letter is held.
///
/// # Errors
///
/// Memory was refused before the first event or after the last. Where it is refused in between, the run ends with that fault.
pub fn search<A: Allocator + Copy>(
    alloc: A,
    workload: &Workload<A>,
    strategy: Strategy,
    seed: u64,
) -> Result<Explored<Tally<A>, A>, AllocError>
    requires within { IsWithin workload.now }
    ensures left { IfOk result (IsRunOnOne ⟦<Tally<A> as Pup<A>>⟧.fits ⟦<Tally<A> as Pup<A>>⟧.unpack (EndsBySeed ⟦<Tally<A> as Pup<A>>⟧.unpack)
        workload.now strategy) }
    ensures drawn { IfOk result (IsDrawn tally_step tally_pack ⟦<Tally<A> as Pup<A>>⟧.unpack no_bias seed
        (opening_world workload.now.pes (tallies_of workload.now) strategy)) }
{
    let schedule = schedule_of(workload.pes, strategy);
    let tallies = tallies_of(alloc, workload)?;
    match explore(alloc, &schedule, seed, tallies) {
        Ok(explored) => Ok(explored),
        Err(_) => Err(AllocError),
    }
}

/// Runs the tallies of a workload on one thread by a list of events, as [`replay`] does. The clause `left` says also why it ended.
///
/// # Errors
///
/// [`NotEnabled`](ReplayError::NotEnabled) at the first event that is not enabled after those before it, by its index from 0 on; and
/// [`OutOfMemory`](ReplayError::OutOfMemory) before the first event or after the last. There is no other.
pub fn follow<A: Allocator + Copy>(
    alloc: A,
    workload: &Workload<A>,
    strategy: Strategy,
    events: &[Event],
) -> Result<Explored<Tally<A>, A>, ReplayError>
    requires within { IsWithin workload.now }
    ensures left { IfOk result (IsRunOnOne ⟦<Tally<A> as Pup<A>>⟧.fits ⟦<Tally<A> as Pup<A>>⟧.unpack (EndsByList ⟦<Tally<A> as Pup<A>>⟧.unpack)
        workload.now strategy) }
    ensures follows { IfOk result (Follows events.now) }
    ensures refused { IfErr result (RefusesRun A ⟦<Tally<A> as Pup<A>>⟧.unpack workload.now strategy events.now) }
{
    let schedule = schedule_of(workload.pes, strategy);
    let tallies = tallies_of(alloc, workload)?;
    match replay(alloc, &schedule, tallies, events) {
        Ok(explored) => Ok(explored),
        Err(error) => Err(error),
    }
}

/// A schedule without a bias, whose runs are not stopped.
pub(crate) fn schedule_of(pes: u32, strategy: Strategy) -> Schedule
    ensures value { result ≡ unlimited pes strategy }
{
    Schedule {
        pes,
        strategy,
        steps: u64::MAX,
        bias: Bias::default(),
    }
}
