//! A run whose elements open on given PEs.

ghost use Rattle.std.specs.Prelude.{◌≡◌, ◌<◌, All, IfOk, MatchResult, length};
ghost use Rattle.rts_run.specs.Configs.{MayBegin, RefusesRun};
ghost use Rattle.rts_run.specs.Outcomes.{EndsIdle, IsOutcome, StopsEarly};

use crate::opening::placed_outcome;
use carried_runs::{Pauses, carry_on_in_parts};
use chare_index::{Gate, Pe, Pes};
use chares::Chare;
use pe_worker::Watch;
use rts_run::{Config, Options, Outcome, RunError};
use std::alloc::Allocator;
use std::snapshot::Snapshot;
use std::sync::Wait;
use std::thread::Threads;

/// Runs chares as [`carried_runs::run_in_parts`] does, but element `i` opens on the PE `places[i]`, which is its home. There is a place for
/// each chare, and each is one of the PEs.
///
/// # Errors
///
/// Those of [`rts_run::run`]. The chares and the places are dropped then.
pub fn run_placed<
    C: Chare<A> + Send,
    G: Gate + Sync,
    V: Watch + Sync,
    P: Pauses<C, A>,
    R: Threads + Wait + Sync,
    A: Allocator + Copy + Send + Sync,
>(
    rt: &R,
    alloc: A,
    config: &Config,
    options: &Options,
    gate: &G,
    watch: &V,
    pauses: &mut P,
    chares: Vec<C, A>,
    places: Vec<Pe, A>,
) -> Result<Outcome<C, A>, RunError>
    requires one_each { length places.items ≡ length chares.items }
    requires named { All (λ q. q < config.now.pes) places.items }
    ensures answer { MatchResult result (λ _. MayBegin config.now (length chares.items)) (RefusesRun config.now (length chares.items)) }
    ensures outcome { IfOk result (IsOutcome C.step C.fits C.pack C.refuses chares.items config.now.pes options.now.strategy) }
    ensures idle { IfOk result (EndsIdle options.now.idle) }
    ensures stopped { IfOk result StopsEarly }
    ensures homes { IfOk result (λ o. o.homes ≡ places.items) }
{
    if let Some(_setting) = config.first_outside(chares.len()) {
        return Err(RunError::Config);
    }
    let opening = Snapshot::of(&chares);
    match placed_outcome(alloc, Pes::of(config.pes), options.strategy, chares, places) {
        Ok(outcome) => {
            carry_on_in_parts(
                rt, alloc, config, options, gate, watch, pauses, &opening, outcome,
            )
        }
        Err(_) => Err(RunError::OutOfMemory),
    }
}
