//! From a workload to the text of what its run on one thread left.

ghost use Rattle.std.specs.Prelude.{◌≡◌, ℕ, ◌+◌, IfErr, IfOk, IfSome, None, Some};
ghost use Rattle.run_text.specs.Sums.{AreTallies};
ghost use Rattle.run_text.specs.Text.{outcome_text};
ghost use Rattle.schedule_run.specs.OneThread.{EndsByList, EndsBySeed, EndsOnOne, StopsRun};
ghost use Rattle.rts_core.specs.Worlds.{opening_world};
ghost use Rattle.schedules.specs.Drawn.{IsDrawn};
ghost use Rattle.schedules.specs.Replays.{Follows};
ghost use Rattle.schedules.specs.Schedules.{no_bias};
ghost use Rattle.tally.specs.Tallies.{tally_pack, tally_step};
ghost use Rattle.workload.specs.Text.{IsWithin};
ghost use Rattle.workload_run.specs.Tallies.{tallies_of};
ghost use Rattle.workload_run.specs.Telling.{TellsOutcome, WritesText};
ghost use Rattle.workload_run.specs.Lines.{memory_line};
ghost use Rattle.workload_run.specs.declared.ended.RunEnd.TheVariants.{OutOfMemory};

use crate::on_one::DrivenOnOne;
use crate::running::{follow, search};
use pup_pack::Pup;
use rts_core::Event;
use schedules::{Explored, ReplayError};
use std::alloc::Allocator;
use std::io::Write;
use sync_board::Strategy;
use tally::Tally;
use workload::Workload;
use workload_run::{report_memory, tell_outcome};

/// Runs a workload by a seed, as [`search`] does, and writes the text of what that left, as for a run over threads.
pub fn drive_seed<W: Write, A: Allocator + Copy>(
    alloc: A,
    workload: &Workload<A>,
    strategy: Strategy,
    seed: u64,
    writer: &mut W,
) -> DrivenOnOne<A>
    requires within { IsWithin workload.now }
    ensures ran { EndsOnOne ⟦<Tally<A> as Pup<A>>⟧.fits ⟦<Tally<A> as Pup<A>>⟧.unpack (EndsBySeed ⟦<Tally<A> as Pup<A>>⟧.unpack) workload.now strategy
        (W.contents writer.old) (W.contents writer.new) result.explored result.ended }
    ensures drawn { IfSome result.explored (IsDrawn tally_step tally_pack ⟦<Tally<A> as Pup<A>>⟧.unpack no_bias seed
        (opening_world workload.now.pes (tallies_of workload.now) strategy)) }
{
    match search(alloc, workload, strategy, seed) {
        Ok(explored) => told(alloc, workload.chares as usize, explored, writer),
        Err(_) => without_run(writer),
    }
}

/// Runs a workload by a list of events, as [`follow`] does, and writes the text of what that left.
///
/// # Errors
///
/// The number of the first event that is not enabled after those before it, from 1 on. In that case nothing is written.
pub fn drive_events<W: Write, A: Allocator + Copy>(
    alloc: A,
    workload: &Workload<A>,
    strategy: Strategy,
    events: &[Event],
    writer: &mut W,
) -> Result<DrivenOnOne<A>, usize>
    requires within { IsWithin workload.now }
    ensures ran { IfOk result (λ driven. EndsOnOne ⟦<Tally<A> as Pup<A>>⟧.fits ⟦<Tally<A> as Pup<A>>⟧.unpack (EndsByList ⟦<Tally<A> as Pup<A>>⟧.unpack) workload.now strategy
        (W.contents writer.old) (W.contents writer.new) driven.explored driven.ended) }
    ensures follows { IfOk result (λ driven. IfSome driven.explored (Follows events.now)) }
    ensures stops { IfErr result (λ number. (at : ℕ) × (number ≡ at + 1) × StopsRun A ⟦<Tally<A> as Pup<A>>⟧.unpack workload.now strategy events.now at) }
    ensures unwritten { IfErr result (λ _. W.contents writer.new ≡ W.contents writer.old) }
{
    match follow(alloc, workload, strategy, events) {
        Ok(explored) => Ok(told(alloc, workload.chares as usize, explored, writer)),
        Err(ReplayError::NotEnabled(at)) => Err(at + 1),
        Err(_) => Ok(without_run(writer)),
    }
}

// Writes the text of what a run of this number of chares left.
fn told<W: Write, A: Allocator + Copy>(
    alloc: A,
    chares: usize,
    explored: Explored<Tally<A>, A>,
    writer: &mut W,
) -> DrivenOnOne<A>
    requires tallies { AreTallies chares explored.outcome }
    ensures told { TellsOutcome (outcome_text chares explored.outcome) (W.contents writer.old) (W.contents writer.new) explored.outcome.fault result.ended }
    ensures kept { result.explored ≡ Some explored }
{
    let ended = tell_outcome(alloc, chares, explored.outcome(), writer);
    DrivenOnOne {
        ended,
        explored: Some(explored),
    }
}

// Writes that memory was refused.
fn without_run<W: Write, A: Allocator + Copy>(writer: &mut W) -> DrivenOnOne<A>
    ensures written { WritesText memory_line OutOfMemory (W.contents writer.old) (W.contents writer.new) result.ended }
    ensures none { result.explored ≡ None }
{
    DrivenOnOne {
        ended: report_memory(writer),
        explored: None,
    }
}
