//! The run, from chares to its outcome.

ghost use Rattle.std.specs.Prelude.{◌≡◌, ◌≢◌, ◌≤◌, ◌↔◌, [], IfOk, IfSome, IsTrue, MatchResult, None, Some, length, map};
ghost use Rattle.std.specs.VecDeque.{deque_len};
ghost use Rattle.sync_board.specs.Boards.{HaveFinished};
ghost use Rattle.pe_worker.specs.Causes.{HasCause};
ghost use Rattle.pe_worker.specs.declared.fault.Fault.TheVariants.{Mismatch, Quiet, Stopped, Unpack};
ghost use Rattle.lb_database.specs.Measuring.{elements};
ghost use Rattle.round_marks.specs.Agreeing.{DoAllAgree};
ghost use Rattle.round_marks.specs.Finished.{HaveAllFinished};
ghost use Rattle.round_marks.specs.Quiet.{IsQuiet};
ghost use Rattle.round_marks.specs.Runs.{AreAllMarked};
ghost use Rattle.rts_core.specs.Accounts.{IsCounted};
ghost use Rattle.rts_core.specs.Histories.{AreHistories};
ghost use Rattle.rts_core.specs.Worlds.{opening_words};
ghost use Rattle.barrier.specs.Rounds.{BeginWith};
ghost use Rattle.run_account.specs.Gathering.{CountOn};
ghost use Rattle.run_account.specs.RunAccounts.{left_world};
ghost use Rattle.rts_run.specs.Configs.{IsWithin, MayBegin, RefusesRun};
ghost use Rattle.rts_run.specs.Outcomes.{EndsIdle, IsOutcome, StopsEarly};
ghost use Rattle.rts_run.specs.Usual.{usual_options};
ghost use Rattle.rts_run.specs.declared.options.Idle.TheVariants as Idle;

use crate::config::Config;
use crate::error::RunError;
use crate::gathering::gather;
use crate::opened_run::OpenedRun;
use crate::options::{Idle, Options};
use crate::outcome::Outcome;
use barrier::BoardStart;
use chare_index::{Gate, Limits, Pe};
use chares::{Chare, Openings};
use pe_state::{HeldParcel, PeEnd};
use pe_worker::{Fault, Field, NoWatch, RunBeginning, Watch, Worker};
use round_marks::{run_agrees, run_finished, run_is_quiet};
use run_account::{LeftBuffers, take_next};
use std::alloc::{AllocError, Allocator};
use std::collections::VecDeque;
use std::marker::Brand;
use std::sync::Wait;
use std::thread::Threads;
use sync_board::Board;
use worker_threads::Crew;

/// Runs chares on PEs until every one has finished, or a fault is met, and gives what is left. Element `i` is the `i`-th
/// chare, and opens on PE `i * pes / n`, rounded down, of `n` elements. Each PE has a worker in a thread of its own; the
/// handlers are handed the gate, and pass it with what numbers they like. The probe workers that decide a round pass it too,
/// each with its number below `probe_workers`, while one of them waits for the others under the lock of the board: so a gate
/// that waits there holds up every worker that reports. With no chare the run ends at once. It has the
/// [usual options](Options::usual): [`run_with`] takes others.
///
/// Whatever the schedule was and whatever went wrong, the outcome loses nothing: the clause `outcome` says what holds of it. Its
/// fields are: `account`, where each letter is; `histories`, what each element is; `in_order`, that each started before its first
/// letter, and then waited and was resumed for each round in turn; `rounds`, what was decided, on a board of these chares and PEs
/// (`elements`, `on_pes`) that decides as the options say (`by_strategy`); and `marks`, that the elements started on their homes (`homes`),
/// and were measured and placed as the rounds say, unless its fault is [`Mismatch`](Fault::Mismatch). That comes only where they were not (`mismatch`), and in
/// place of any other. Else the fault is that of the lowest PE whose worker met one, and has a cause (`cause`). Where it is
/// [`Quiet`](Fault::Quiet), nothing was left to do (`quiet`), an element has not finished (`unfinished`), and the options ask for that fault (`idle`).
/// [`Stopped`](Fault::Stopped) is told where no worker met another fault, and not every element has finished (`stopped`). Without a fault
/// every element has finished (`all_finished`), and the board was told so (`finished`).
///
/// # Errors
///
/// The first that applies: [`Config`](RunError::Config) where a number is out of its limits, or there are more than
/// [`Limits::ELEMENTS`] chares, with the first such number; [`OutOfMemory`](RunError::OutOfMemory). No worker was started
/// then, and the chares are dropped.
pub fn run<
    C: Chare<A> + Send,
    G: Gate + Sync,
    R: Threads + Wait + Sync,
    A: Allocator + Copy + Send + Sync,
>(rt: &R, alloc: A, config: &Config, gate: &G, chares: Vec<C, A>) -> Result<Outcome<C, A>, RunError>
    ensures answer { MatchResult result (λ _. MayBegin config.now (length chares.items)) (RefusesRun config.now (length chares.items)) }
    ensures outcome { IfOk result (IsOutcome C.step C.fits C.pack C.refuses chares.items config.now.pes usual_options.strategy) }
    ensures idle { IfOk result (EndsIdle usual_options.idle) }
    ensures stopped { IfOk result StopsEarly }
    ensures homes { IfOk result (λ o. o.homes ≡ opening_words (length chares.items) config.now.pes) }
{
    let options = Options::usual();
    run_with(rt, alloc, config, &options, gate, chares)
}

/// Runs chares as [`run`] does, with these options in place of the usual ones.
///
/// # Errors
///
/// Those of [`run`].
pub fn run_with<
    C: Chare<A> + Send,
    G: Gate + Sync,
    R: Threads + Wait + Sync,
    A: Allocator + Copy + Send + Sync,
>(
    rt: &R,
    alloc: A,
    config: &Config,
    options: &Options,
    gate: &G,
    chares: Vec<C, A>,
) -> Result<Outcome<C, A>, RunError>
    ensures answer { MatchResult result (λ _. MayBegin config.now (length chares.items)) (RefusesRun config.now (length chares.items)) }
    ensures outcome { IfOk result (IsOutcome C.step C.fits C.pack C.refuses chares.items config.now.pes options.now.strategy) }
    ensures idle { IfOk result (EndsIdle options.now.idle) }
    ensures stopped { IfOk result StopsEarly }
    ensures homes { IfOk result (λ o. o.homes ≡ opening_words (length chares.items) config.now.pes) }
{
    run_watched(rt, alloc, config, options, gate, &NoWatch, chares)
}

/// Runs chares as [`run_with`] does, while a [`Watch`](crate::Watch) is called for each round as it is decided.
///
/// # Errors
///
/// Those of [`run`].
pub fn run_watched<
    C: Chare<A> + Send,
    G: Gate + Sync,
    V: Watch + Sync,
    R: Threads + Wait + Sync,
    A: Allocator + Copy + Send + Sync,
>(
    rt: &R,
    alloc: A,
    config: &Config,
    options: &Options,
    gate: &G,
    watch: &V,
    chares: Vec<C, A>,
) -> Result<Outcome<C, A>, RunError>
    ensures answer { MatchResult result (λ _. MayBegin config.now (length chares.items)) (RefusesRun config.now (length chares.items)) }
    ensures outcome { IfOk result (IsOutcome C.step C.fits C.pack C.refuses chares.items config.now.pes options.now.strategy) }
    ensures idle { IfOk result (EndsIdle options.now.idle) }
    ensures stopped { IfOk result StopsEarly }
    ensures homes { IfOk result (λ o. o.homes ≡ opening_words (length chares.items) config.now.pes) }
{
    if let Some(_setting) = config.first_outside(chares.len()) {
        return Err(RunError::Config);
    }
    match run_as::<C, Brand, G, V, R, A>(rt, alloc, config, options, gate, watch, chares) {
        Ok(outcome) => Ok(outcome),
        Err(_) => Err(RunError::OutOfMemory),
    }
}

// The run of the chares that `H` names; the types of all that it is made of name them too.
fn run_as<
    C: Chare<A> + Send,
    H: Openings<C> + BoardStart<A> + Send + Sync,
    G: Gate + Sync,
    V: Watch + Sync,
    R: Threads + Wait + Sync,
    A: Allocator + Copy + Send + Sync,
>(
    rt: &R,
    alloc: A,
    config: &Config,
    options: &Options,
    gate: &G,
    watch: &V,
    chares: Vec<C, A>,
) -> Result<Outcome<C, A>, AllocError>
    requires within { IsWithin config.now }
    requires few { length chares.items ≤ Limits.ELEMENTS }
    requires run { config.now.pes ≡ H.pes }
    requires opened { chares.items ≡ H.opened }
    requires by_strategy { options.now.strategy ≡ H.strategy }
    requires first_rounds { H.earlier ≡ [] }
    ensures outcome { IfOk result (IsOutcome C.step C.fits C.pack C.refuses H.opened H.pes H.strategy) }
    ensures idle { IfOk result (EndsIdle options.now.idle) }
    ensures stopped { IfOk result StopsEarly }
    ensures homes { IfOk result (λ o. o.homes ≡ opening_words (length H.opened) H.pes) }
{
    let (opened, homes) = OpenedRun::<C, H, A>::new(alloc, config, options.strategy, chares)?;
    run_opened(rt, alloc, config, options, gate, watch, opened, homes)
}

/// The run of PEs that have opened, under a name of its beginning that it picks. `homes` has the PE on which each element opened, by
/// which its marks are judged. The only error is that memory was refused. The outcome is what [`run`] promises of the chares that `H`
/// names; no PE has posted fewer letters than as it opened (`counts`), and the rounds that were decided earlier are its first ones
/// (`earlier`).
pub fn run_opened<
    C: Chare<A> + Send,
    H: Openings<C> + BoardStart<A> + Send + Sync,
    G: Gate + Sync,
    V: Watch + Sync,
    R: Threads + Wait + Sync,
    A: Allocator + Copy + Send + Sync,
>(
    rt: &R,
    alloc: A,
    config: &Config,
    options: &Options,
    gate: &G,
    watch: &V,
    opened: OpenedRun<C, H, A>,
    homes: Vec<Pe, A>,
) -> Result<Outcome<C, A>, AllocError>
    requires within { IsWithin config.now }
    requires run { config.now.pes ≡ H.pes }
    requires capacity { opened.post.capacity ≡ config.now.capacity }
    ensures outcome { IfOk result (IsOutcome C.step C.fits C.pack C.refuses H.opened H.pes H.strategy) }
    ensures counts { IfOk result (λ o. CountOn opened.starts o.ends) }
    ensures earlier { IfOk result (λ o. BeginWith H.earlier o.board.rounds) }
    ensures idle { IfOk result (EndsIdle options.now.idle) }
    ensures stopped { IfOk result StopsEarly }
    ensures homes { IfOk result (λ o. o.homes ≡ homes.items) }
{
    run_named::<C, H, Brand, G, V, R, A>(rt, alloc, config, options, gate, watch, opened, homes)
}

// Runs what was opened. `J` is the type that names the beginning of the run.
fn run_named<
    C: Chare<A> + Send,
    H: Openings<C> + BoardStart<A> + Send + Sync,
    J: RunBeginning<C> + Send + Sync,
    G: Gate + Sync,
    V: Watch + Sync,
    R: Threads + Wait + Sync,
    A: Allocator + Copy + Send + Sync,
>(
    rt: &R,
    alloc: A,
    config: &Config,
    options: &Options,
    gate: &G,
    watch: &V,
    opened: OpenedRun<C, H, A>,
    homes: Vec<Pe, A>,
) -> Result<Outcome<C, A>, AllocError>
    requires beginning { opened ≡ J.beginning }
    requires within { IsWithin config.now }
    requires run { config.now.pes ≡ H.pes }
    requires capacity { opened.post.capacity ≡ config.now.capacity }
    ensures outcome { IfOk result (IsOutcome C.step C.fits C.pack C.refuses H.opened H.pes H.strategy) }
    ensures counts { IfOk result (λ o. CountOn opened.starts o.ends) }
    ensures earlier { IfOk result (λ o. BeginWith H.earlier o.board.rounds) }
    ensures idle { IfOk result (EndsIdle options.now.idle) }
    ensures stopped { IfOk result StopsEarly }
    ensures homes { IfOk result (λ o. o.homes ≡ homes.items) }
{
    let count = config.pes as usize;
    let room = Vec::with_capacity(alloc, count)?;
    let left = LeftBuffers::new(alloc, count, config.capacity as usize)?;
    let crew = Crew::with_capacity(alloc, count)?;
    let (field, workers) = opened.begin::<J>(alloc, config, options)?;
    let mut done = work_all(rt, gate, watch, &field, crew, workers);
    let Some(first) = take_next(&mut done) else {
        unreachable!()
    };
    let (gathered, fault) = gather(field.post(), first, done, room);
    let (post, board) = field.into_parts();
    let (ends, left) = gathered.settled(rt, post, left);
    Ok(ended::<C, H, A>(homes, ends, left, board, options.idle, fault))
}

// Lets each worker work in a thread of its own.
fn work_all<
    C: Chare<A> + Send,
    H: Openings<C> + BoardStart<A> + Send + Sync,
    J: RunBeginning<C> + Send + Sync,
    G: Gate + Sync,
    V: Watch + Sync,
    R: Threads + Wait + Sync,
    A: Allocator + Copy + Send + Sync,
>(
    rt: &R,
    gate: &G,
    watch: &V,
    field: &Field<C, H, J, A>,
    crew: Crew<Worker<C, H, J, A>, A>,
    workers: VecDeque<Worker<C, H, J, A>, A>,
) -> VecDeque<Worker<C, H, J, A>, A>
    requires places { deque_len workers ≤ crew }
    ensures in_order { map (λ w. w.seated.pe.me) result.items ≡ map (λ w. w.seated.pe.me) workers.items }
{
    let work = |worker: Worker<C, H, J, A>| -> Worker<C, H, J, A>
        ensures { result.seated.pe.me ≡ worker.seated.pe.me }
    { worker.work(rt, gate, watch, field) };
    crew.run(rt, &work, field.stop_flag(), workers)
}

// The outcome of what is left. That the marks of the elements agree with the rounds, and that the elements have finished, is seen
// here, once all threads have ended: no lock can show it before.
fn ended<C: Chare<A>, H: Openings<C>, A: Allocator>(
    homes: Vec<Pe, A>,
    ends: Vec<PeEnd<C, A>, A>,
    left: Vec<Vec<HeldParcel<A>, A>, A>,
    board: Board<A>,
    idle: Idle,
    met: Option<Fault>,
) -> Outcome<C, A>
    requires few_pes { length ends.items ≤ Limits.PES }
    requires counted { IsCounted (left_world ends.items (map (λ q. q.items) left.items)) }
    requires histories { AreHistories C.step C.fits C.pack H.opened (left_world ends.items (map (λ q. q.items) left.items)) }
    requires elements { elements board.database ≡ length H.opened }
    requires cause { IfSome met (HasCause C.step C.pack C.refuses H.opened) }
    ensures homes { result.homes ≡ homes.items }
    ensures ends { result.ends ≡ ends.items }
    ensures left { result.left ≡ map (λ q. q.items) left.items }
    ensures board { result.board ≡ board }
    ensures marks { result.fault ≢ Some Mismatch → AreAllMarked result.board result.homes result.ends result.left }
    ensures mismatch { result.fault ≡ Some Mismatch → ¬ (DoAllAgree result.board result.homes result.ends result.left) }
    ensures lowest { result.fault ≢ Some Mismatch → IfSome met (λ fault. fault ≢ Quiet → fault ≢ Stopped → result.fault ≡ Some fault) }
    ensures unpacks { result.fault ≢ Some Unpack }
    ensures cause { result.fault ≢ Some Mismatch → IfSome result.fault (HasCause C.step C.pack C.refuses H.opened) }
    ensures finished { result.fault ≡ None → HaveFinished result.board }
    ensures all_finished { result.fault ≡ None → HaveAllFinished result.ends result.left }
    ensures quiet { result.fault ≡ Some Quiet → IsQuiet result.board result.ends result.left }
    ensures unfinished { result.fault ≡ Some Quiet → ¬ (HaveAllFinished result.ends result.left) }
    ensures stopped { StopsEarly result }
    ensures idle { EndsIdle idle result }
{
    if run_agrees(&board, &homes, &ends, &left) {
        let finished = all_finished(&board, &ends, &left);
        let quiet = is_quiet(&board, &ends, &left, idle, met);
        let fault = fault_at_end::<C, H, A>(finished, quiet, met);
        return Outcome::new(homes, ends, left, board, fault);
    }
    Outcome::new(homes, ends, left, board, Some(Fault::Mismatch))
}

// Whether every element has finished, and the board was told so of each.
fn all_finished<C: Chare<A>, A: Allocator>(
    board: &Board<A>,
    ends: &[PeEnd<C, A>],
    left: &[Vec<HeldParcel<A>, A>],
) -> bool
    ensures value { IsTrue result ↔ (HaveFinished board.now × HaveAllFinished ends.now (map (λ q. q.items) left.now)) }
{
    board.all_finished() && run_finished(ends, left)
}

// Whether nothing was left to do, though not every element has finished, where a worker was to look for that, and found so.
fn is_quiet<C: Chare<A>, A: Allocator>(
    board: &Board<A>,
    ends: &[PeEnd<C, A>],
    left: &[Vec<HeldParcel<A>, A>],
    idle: Idle,
    met: Option<Fault>,
) -> bool
    ensures asked { IsTrue result → idle ≡ Idle.Quiet }
    ensures quiet { IsTrue result → IsQuiet board.now ends.now (map (λ q. q.items) left.now) }
    ensures unfinished { IsTrue result → ¬ (HaveAllFinished ends.now (map (λ q. q.items) left.now)) }
    ensures all { idle ≡ Idle.Quiet → met ≡ Some Quiet → IsQuiet board.now ends.now (map (λ q. q.items) left.now)
        → ¬ (HaveAllFinished ends.now (map (λ q. q.items) left.now)) → IsTrue result }
{
    match (idle, met) {
        (Idle::Quiet, Some(Fault::Quiet)) => {
            run_is_quiet(board, ends, left) && !run_finished(ends, left)
        }
        _ => false,
    }
}

// The fault of a run whose first worker that met a fault met this one. That nothing was left to do has to show in what was left. Where
// none met another, and yet an element has not finished, the workers were stopped: no lock can show that they end in no other way.
fn fault_at_end<C: Chare<A>, H: Openings<C>, A: Allocator>(
    finished: bool,
    quiet: bool,
    met: Option<Fault>,
) -> Option<Fault>
    requires cause { IfSome met (HasCause C.step C.pack C.refuses H.opened) }
    ensures met { IfSome met (λ fault. fault ≢ Quiet → fault ≢ Stopped → result ≡ Some fault) }
    ensures quiet { result ≡ Some Quiet → IsTrue quiet }
    ensures all_quiet { met ≡ Some Quiet → IsTrue quiet → result ≡ Some Quiet }
    ensures well { met ≡ None → IsTrue finished → result ≡ None }
    ensures not_finished { met ≡ None → ¬ (IsTrue finished) → result ≡ Some Stopped }
    ensures finished { result ≡ None → IsTrue finished }
    ensures stopped { result ≡ Some Stopped → ¬ (IsTrue finished) }
    ensures cause { IfSome result (HasCause C.step C.pack C.refuses H.opened) }
{
    if let Some(fault) = met {
        if fault != Fault::Stopped && (fault != Fault::Quiet || quiet) {
            return met;
        }
    }
    if finished {
        return None;
    }
    Some(Fault::Stopped)
}
