//! A run that goes on from what an earlier one has left.

ghost use Rattle.std.specs.Prelude.{◌≡◌, ◌≤◌, IfOk, MatchResult, length};
ghost use Rattle.rts_run.specs.Configs.{IsWithin, MayBegin, RefusesRun};
ghost use Rattle.rts_run.specs.Outcomes.{EndsIdle, IsOutcome, StopsEarly};
ghost use Rattle.carried_runs.specs.GoingOn.{GoesOnFrom};

use crate::counting::CountingOn;
use crate::opening::opened_again;
use barrier::BoardStart;
use chare_index::{Gate, Limits};
use chares::{Chare, Openings};
use pe_worker::Watch;
use rts_run::{Config, Options, Outcome, RunError, run_opened};
use std::alloc::{AllocError, Allocator};
use std::marker::Brand;
use std::snapshot::Snapshot;
use std::sync::Wait;
use std::thread::Threads;

/// Carries on a run that ended early, from what it left, on as many PEs and by the same strategy: its elements where they are, its
/// letters where they were held, its rounds counted on. What each PE's queue still held comes back to that PE first. Elements that
/// have started keep or drop what they handle as before. The watch is told of what happens from now on, with the letters that both runs
/// have executed. `opening` is a snapshot of the chares that the first run opened with, which has no bytes: only the contract reads it.
///
/// The outcome is one of both runs together, as if they were one: the clause `outcome` says of it what [`rts_run::run`] promises. So what was
/// posted in the first run is executed in one of the two, or held at the end, and it may be carried on in turn. By the clause `goes_on` no
/// number of a letter comes again, and the rounds of the first run are the first rounds of the outcome. Where every element
/// has finished the run ends at once. After a [`Mismatch`](pe_worker::Fault::Mismatch) it ends in one.
///
/// # Errors
///
/// Those of [`rts_run::run`]. The outcome is dropped then.
pub fn carry_on<
    C: Chare<A> + Send,
    G: Gate + Sync,
    V: Watch + Sync,
    R: Threads + Wait + Sync,
    A: Allocator + Copy + Send + Sync,
>(
    rt: &R,
    alloc: A,
    config: &Config,
    options: &Options,
    gate: &G,
    watch: &V,
    opening: &Snapshot<Vec<C, A>>,
    outcome: Outcome<C, A>,
) -> Result<Outcome<C, A>, RunError>
    requires earlier { IsOutcome C.step C.fits C.pack C.refuses opening.now.value.items config.now.pes options.now.strategy outcome }
    ensures answer { MatchResult result (λ _. MayBegin config.now (length opening.now.value.items))
        (RefusesRun config.now (length opening.now.value.items)) }
    ensures outcome { IfOk result (IsOutcome C.step C.fits C.pack C.refuses opening.now.value.items config.now.pes options.now.strategy) }
    ensures goes_on { IfOk result (GoesOnFrom outcome) }
    ensures idle { IfOk result (EndsIdle options.now.idle) }
    ensures stopped { IfOk result StopsEarly }
    ensures homes { IfOk result (λ o. o.homes ≡ outcome.homes) }
{
    if let Some(_setting) = config.first_outside(outcome.board().len()) {
        return Err(RunError::Config);
    }
    match carry_on_as::<C, Brand, G, V, R, A>(
        rt, alloc, config, options, gate, watch, opening, outcome,
    ) {
        Ok(outcome) => Ok(outcome),
        Err(_) => Err(RunError::OutOfMemory),
    }
}

// Carries a run on. `H` is the type that names the chares with which the run opened.
fn carry_on_as<
    C: Chare<A> + Send,
    H: Openings<C> + BoardStart<A> + Send + Sync,
    G: Gate + Sync,
    V: Watch + Sync,
    R: Threads + Wait + Sync,
    A: Allocator + Copy + Send + Sync,
>(
    rt: &R,
    alloc: A,
    config: &Config,
    options: &Options,
    gate: &G,
    watch: &V,
    _opening: &Snapshot<Vec<C, A>>,
    outcome: Outcome<C, A>,
) -> Result<Outcome<C, A>, AllocError>
    requires opened { _opening.now.value.items ≡ H.opened }
    requires within { IsWithin config.now }
    requires few { length H.opened ≤ Limits.ELEMENTS }
    requires run { config.now.pes ≡ H.pes }
    requires earlier { IsOutcome C.step C.fits C.pack C.refuses H.opened H.pes H.strategy outcome }
    requires earlier_rounds { outcome.board.rounds ≡ H.earlier }
    ensures outcome { IfOk result (IsOutcome C.step C.fits C.pack C.refuses H.opened H.pes H.strategy) }
    ensures goes_on { IfOk result (GoesOnFrom outcome) }
    ensures idle { IfOk result (EndsIdle options.now.idle) }
    ensures stopped { IfOk result StopsEarly }
    ensures homes { IfOk result (λ o. o.homes ≡ outcome.homes) }
{
    let counting = CountingOn::after(outcome.account().executed, watch);
    let (opened, homes) = opened_again::<C, H, A>(alloc, config, outcome)?;
    run_opened(rt, alloc, config, options, gate, &counting, opened, homes)
}
