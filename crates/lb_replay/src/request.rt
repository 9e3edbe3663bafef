//! The options of `lb_sim`, and the task that they ask for.

ghost use Rattle.std.specs.Option.{ForSome};
ghost use Rattle.std.specs.Prelude.{◌≡◌, ◌≤◌, ℕ, List, Option, Some, IfOk, IfErr, IfSome};
ghost use Rattle.lb_replay.specs.Requests.{EndsTask, MayRun, check_of, task_of};
ghost use Rattle.lb_replay.specs.Simulation.{ReportsUnread};

use crate::ended::Ended;
use crate::simulation::replay_file;
use crate::verifying::verify_file;
use crate::way::Way;
use chain_refinement::Tolerance;
use chare_index::Limits;
use std::alloc::Allocator;
use std::io::{self, Read, Write};

/// What a run is asked to do.
#[derive(Clone, Copy, Debug, PartialEq, Eq)]
pub struct Asked<'a> {
    /// The file with the dump.
    pub file: &'a str,
    /// The number of blocks, 1 to 256 (`Limits::PES`), if one is given.
    pub procs: Option<u32>,
    /// How far the greatest load may be above the least possible one, if it is given.
    pub tolerance: Option<Tolerance>,
    /// Whether the PEs are to keep their order.
    pub keep_order: bool,
    /// Whether the PEs may change their order, so that the fewest bytes move.
    pub any_order: bool,
    /// Whether the recorded decision is to be checked.
    pub check: bool,
}

/// What is to be done with a dump.
#[derive(Clone, Copy, Debug, PartialEq, Eq)]
pub enum Task {
    /// It is replayed, for this number of PEs, 1 to 256 (`Limits::PES`), or for that of the dump.
    Replay(Option<u32>),
    /// It is replayed within this tolerance.
    Refine(Option<u32>, Tolerance),
    /// It is replayed within this tolerance, and the PEs keep their order.
    RefineInOrder(Option<u32>, Tolerance),
    /// It is replayed within this tolerance, and the PEs may change their order.
    RefineInAnyOrder(Option<u32>, Tolerance),
    /// Its decision is checked.
    Check,
}

/// Two options that cannot be combined, or one that needs another.
#[derive(Clone, Copy, Debug, PartialEq, Eq)]
pub enum Clash {
    /// A number of PEs, and a check, which is for the decision's own number.
    ProcsAndCheck,
    /// A tolerance, and a check, which decides nothing.
    ToleranceAndCheck,
    /// An order that is to be kept, and a check, which decides nothing.
    KeepOrderAndCheck,
    /// An order that is to be kept, and no tolerance within which it can be.
    KeepOrderAlone,
    /// Any order of the PEs, and a check, which decides nothing.
    AnyOrderAndCheck,
    /// Any order of the PEs, and no tolerance within which it may be.
    AnyOrderAlone,
    /// An order that is to be kept, and any order.
    KeepOrderAndAnyOrder,
}

impl Asked<'_> {
    /// What is to be done.
    ///
    /// # Errors
    ///
    /// A check is asked for, and a number of PEs too, or a tolerance, or that the order is kept, or any order; or the order is to be
    /// kept, or may be any, without a tolerance; or both of these with one.
    pub fn task(&self) -> Result<Task, Clash>
        ensures value { result ≡ task_of self.now.procs self.now.tolerance self.now.keep_order self.now.any_order self.now.check }
        ensures may_run { ForSome self.now.procs (λ p. 1 ≤ p) → ForSome self.now.procs (λ p. p ≤ Limits.PES) → IfOk result MayRun }
    {
        if self.check {
            return self.check_task();
        }
        match (
            self.procs,
            (self.tolerance, (self.keep_order, self.any_order)),
        ) {
            (procs, (None, (false, false))) => Ok(Task::Replay(procs)),
            (_, (None, (true, _))) => Err(Clash::KeepOrderAlone),
            (_, (None, (false, true))) => Err(Clash::AnyOrderAlone),
            (procs, (Some(t), (false, false))) => Ok(Task::Refine(procs, t)),
            (procs, (Some(t), (true, false))) => Ok(Task::RefineInOrder(procs, t)),
            (procs, (Some(t), (false, true))) => Ok(Task::RefineInAnyOrder(procs, t)),
            (_, (Some(_), (true, true))) => Err(Clash::KeepOrderAndAnyOrder),
        }
    }

    // A check, which no other option goes with.
    fn check_task(&self) -> Result<Task, Clash>
        ensures { result ≡ check_of self.now.procs self.now.tolerance self.now.keep_order self.now.any_order }
    {
        match (
            self.procs,
            (self.tolerance, (self.keep_order, self.any_order)),
        ) {
            (Some(_), _) => Err(Clash::ProcsAndCheck),
            (None, (Some(_), _)) => Err(Clash::ToleranceAndCheck),
            (None, (None, (true, _))) => Err(Clash::KeepOrderAndCheck),
            (None, (None, (false, true))) => Err(Clash::AnyOrderAndCheck),
            (None, (None, (false, false))) => Ok(Task::Check),
        }
    }
}

/// Replays the dump in a file, within a tolerance or not, or checks its decision, as [`replay_file`] and [`verify_file`] do,
/// and returns the end, with the system's reason where a read failed.
pub fn run<A: Allocator + Copy, R: Read + Drop, W: Write>(
    alloc: A,
    task: Task,
    file: io::Result<R>,
    writer: &mut W,
) -> (Ended, Option<io::Error>)
    requires { MayRun task }
    ensures opened { IfOk file (λ file. (rest : Option (List ℕ)) × EndsTask A (R.remaining file) rest task (W.contents writer.old) (W.contents writer.new) result.0) }
    ensures unopened { IfErr file (λ _. ReportsUnread (W.contents writer.old) (W.contents writer.new) result.0) }
    ensures reason { IfErr file (λ reason. result.1 ≡ Some reason) }
{
    match task {
        Task::Replay(procs) => replay_file(alloc, file, writer, procs, Way::Least),
        Task::Refine(procs, tolerance) => {
            replay_file(alloc, file, writer, procs, Way::Within(tolerance))
        }
        Task::RefineInOrder(procs, tolerance) => {
            replay_file(alloc, file, writer, procs, Way::InOrder(tolerance))
        }
        Task::RefineInAnyOrder(procs, tolerance) => {
            replay_file(alloc, file, writer, procs, Way::InAnyOrder(tolerance))
        }
        Task::Check => verify_file(alloc, file, writer),
    }
}
