//! Runs that pause after each round.

ghost use Rattle.std.specs.Prelude.{◌≡◌, ◌≢◌, IfOk, MatchBool, MatchResult, Some, length};
ghost use Rattle.pe_worker.specs.declared.fault.Fault.TheVariants.{Stopped};
ghost use Rattle.rts_core.specs.Worlds.{opening_words};
ghost use Rattle.rts_run.specs.Configs.{MayBegin, RefusesRun};
ghost use Rattle.rts_run.specs.Outcomes.{EndsIdle, IsOutcome, StopsEarly};
ghost use Rattle.carried_runs.specs.GoingOn.{AreParts, GoesOnFrom};

use crate::carrying::carry_on;
use crate::pausing::Pausing;
use chare_index::{Gate, Limits};
use chares::Chare;
use pe_worker::{Fault, Watch};
use rts_run::{Config, Options, Outcome, RunError, run_watched};
use std::alloc::Allocator;
use std::snapshot::Snapshot;
use std::sync::Wait;
use std::thread::Threads;

/// What is done where a run pauses.
pub trait Pauses<C: Chare<A>, A: Allocator> {
    /// Whether the run is to pause at all. It is asked once, before the run.
    fn are_wanted(&self) -> bool {
        true
    }

    /// The run has paused after one or more rounds were decided, and goes on after this call. It is called on the thread that began the
    /// run, while no worker runs.
    fn paused(&mut self, outcome: &Outcome<C, A>);
}

/// A run without pauses.
#[derive(Clone, Copy, Debug, Drop)]
pub struct NoPauses;

impl<C: Chare<A>, A: Allocator> Pauses<C, A> for NoPauses {
    fn are_wanted(&self) -> bool {
        false
    }

    fn paused(&mut self, _outcome: &Outcome<C, A>) {}
}

/// Runs chares as [`run_watched`] does, and pauses after each round, where pauses are wanted: the workers end, as where a watch asks the
/// run to stop, `pauses` is told, and the run is carried on. A round that is decided while the workers end shares the pause of the one before it. The outcome is
/// that of all parts together, and a run that its watch stops ends as it would without pauses.
///
/// # Errors
///
/// Those of [`run_watched`], and of [`carry_on`] after each pause.
pub fn run_in_parts<
    C: Chare<A> + Send,
    G: Gate + Sync,
    V: Watch + Sync,
    P: Pauses<C, A>,
    R: Threads + Wait + Sync,
    A: Allocator + Copy + Send + Sync,
>(
    rt: &R,
    alloc: A,
    config: &Config,
    options: &Options,
    gate: &G,
    watch: &V,
    pauses: &mut P,
    chares: Vec<C, A>,
) -> Result<Outcome<C, A>, RunError>
    ensures answer { MatchResult result (λ _. MayBegin config.now (length chares.items)) (RefusesRun config.now (length chares.items)) }
    ensures outcome { IfOk result (IsOutcome C.step C.fits C.pack C.refuses chares.items config.now.pes options.now.strategy) }
    ensures idle { IfOk result (EndsIdle options.now.idle) }
    ensures stopped { IfOk result StopsEarly }
    ensures homes { IfOk result (λ o. o.homes ≡ opening_words (length chares.items) config.now.pes) }
{
    if !pauses.are_wanted() {
        return run_watched(rt, alloc, config, options, gate, watch, chares);
    }
    let opening = Snapshot::of(&chares);
    let pausing = Pausing::beside(watch);
    let outcome = run_watched(rt, alloc, config, options, gate, &pausing, chares)?;
    go_on(
        rt, alloc, config, options, gate, &pausing, pauses, &opening, outcome,
    )
}

/// Carries a run on as [`carry_on`] does, and pauses after each round, where pauses are wanted, as [`run_in_parts`] does.
///
/// # Errors
///
/// Those of [`carry_on`].
pub fn carry_on_in_parts<
    C: Chare<A> + Send,
    G: Gate + Sync,
    V: Watch + Sync,
    P: Pauses<C, A>,
    R: Threads + Wait + Sync,
    A: Allocator + Copy + Send + Sync,
>(
    rt: &R,
    alloc: A,
    config: &Config,
    options: &Options,
    gate: &G,
    watch: &V,
    pauses: &mut P,
    opening: &Snapshot<Vec<C, A>>,
    outcome: Outcome<C, A>,
) -> Result<Outcome<C, A>, RunError>
    requires earlier { IsOutcome C.step C.fits C.pack C.refuses opening.now.value.items config.now.pes options.now.strategy outcome }
    ensures answer { MatchResult result (λ _. MayBegin config.now (length opening.now.value.items))
        (RefusesRun config.now (length opening.now.value.items)) }
    ensures outcome { IfOk result (IsOutcome C.step C.fits C.pack C.refuses opening.now.value.items config.now.pes options.now.strategy) }
    ensures goes_on { IfOk result (GoesOnFrom outcome) }
    ensures idle { IfOk result (EndsIdle options.now.idle) }
    ensures stopped { IfOk result StopsEarly }
    ensures homes { IfOk result (λ o. o.homes ≡ outcome.homes) }
{
    if !pauses.are_wanted() {
        return carry_on(rt, alloc, config, options, gate, watch, opening, outcome);
    }
    let pausing = Pausing::beside(watch);
    let outcome = carry_on(rt, alloc, config, options, gate, &pausing, opening, outcome)?;
    go_on(
        rt, alloc, config, options, gate, &pausing, pauses, opening, outcome,
    )
}

// Carries a run on after each pause, to its end.
#[tactic(auto, using(crate::proofs::GoingOn::goes_on_here, crate::proofs::GoingOn::goes_on_after, crate::proofs::GoingOn::whole_yet, crate::proofs::GoingOn::one_more_part))]
fn go_on<
    C: Chare<A> + Send,
    G: Gate + Sync,
    V: Watch + Sync,
    P: Pauses<C, A>,
    R: Threads + Wait + Sync,
    A: Allocator + Copy + Send + Sync,
>(
    rt: &R,
    alloc: A,
    config: &Config,
    options: &Options,
    gate: &G,
    pausing: &Pausing<'_, V>,
    pauses: &mut P,
    opening: &Snapshot<Vec<C, A>>,
    outcome: Outcome<C, A>,
) -> Result<Outcome<C, A>, RunError>
    requires may_begin { MayBegin config.now (length opening.now.value.items) }
    requires earlier { IsOutcome C.step C.fits C.pack C.refuses opening.now.value.items config.now.pes options.now.strategy outcome }
    requires earlier_idle { EndsIdle options.now.idle outcome }
    requires earlier_stopped { StopsEarly outcome }
    ensures answer { MatchResult result (λ _. MayBegin config.now (length opening.now.value.items))
        (RefusesRun config.now (length opening.now.value.items)) }
    ensures outcome { IfOk result (IsOutcome C.step C.fits C.pack C.refuses opening.now.value.items config.now.pes options.now.strategy) }
    ensures parts { IfOk result (AreParts outcome) }
    ensures goes_on { IfOk result (GoesOnFrom outcome) }
    ensures idle { IfOk result (EndsIdle options.now.idle) }
    ensures stopped { IfOk result StopsEarly }
    ensures homes { IfOk result (λ o. o.homes ≡ outcome.homes) }
{
    let mut outcome = outcome;
    for _ in 0..Limits::ROUND {
        if !is_stopped(&outcome) || !pausing.withdraw() {
            break;
        }
        pauses.paused(&outcome);
        outcome = carry_on(rt, alloc, config, options, gate, pausing, opening, outcome)?;
    }
    Ok(outcome)
}

// Whether a run was stopped, and no worker met another fault.
fn is_stopped<C: Chare<A>, A: Allocator>(outcome: &Outcome<C, A>) -> bool
    ensures stopped { MatchBool result (outcome.now.fault ≡ Some Stopped) (outcome.now.fault ≢ Some Stopped) }
{
    matches!(outcome.fault(), Some(Fault::Stopped))
}
