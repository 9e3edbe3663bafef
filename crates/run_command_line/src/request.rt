//! The options of `charm_run`, which of them exclude each other, and the task that they ask for.

ghost use Rattle.std.specs.Prelude.{◌≡◌};
ghost use Rattle.run_command_line.specs.Requests.{clash_of_checkpoint, clash_of_checkpoints, clash_of_every, clash_of_journal, clash_of_kept, clash_of_procs, clash_of_restart};
ghost use Rattle.run_command_line.specs.Requests.{clash_on_one_thread, clash_with, clash_with_seeds, clash_without_seed, task_of, way_of};

use chain_refinement::Tolerance;

/// What the arguments of a command line ask for.
#[derive(Clone, Copy, Debug, PartialEq, Eq)]
pub struct CharmRunOptions<'a> {
    /// The workload.
    pub file: &'a str,
    /// The dump of round r goes to the file of this name followed by `.r`.
    pub dump: Option<&'a str>,
    /// Whether dumps are written in the format LBD1, which has no decision.
    pub lbd1: bool,
    /// Whether the progress of a run over threads is written also where the standard error is no terminal.
    pub progress: bool,
    /// The tolerance within which rounds are decided, if it is given.
    pub tolerance: Option<Tolerance>,
    /// The seed of a run on one thread.
    pub seed: Option<u64>,
    /// How many seeds are run, 1 to 1,000,000.
    pub seeds: Option<u32>,
    /// The file that the list of events of a run by a seed goes to.
    pub events: Option<&'a str>,
    /// The list of events of a run that is repeated.
    pub replay: Option<&'a str>,
    /// The file that the trace of a run goes to.
    pub trace: Option<&'a str>,
    /// Whether elements drop what they have handled, so that the memory of a run over threads does not grow with its letters.
    pub no_journal: bool,
    /// The file that checkpoints of a run over threads go to.
    pub checkpoint: Option<&'a str>,
    /// After how many rounds a checkpoint is written, 1 to 1,000.
    pub every: Option<u32>,
    /// Whether the file is a checkpoint, from which the run goes on.
    pub restart: bool,
    /// How many PEs a run has that goes on from a checkpoint, 1 to 256.
    pub procs: Option<u32>,
}

/// How the chares of a workload are run.
#[derive(Clone, Copy, Debug, PartialEq, Eq)]
pub enum Task<'a> {
    /// Over threads.
    Threads,
    /// On one thread, in the order of events that this seed decides.
    Seed(u64),
    /// On one thread, once by each of the seeds from 1 to this number.
    Seeds(u32),
    /// On one thread, by the list of events in the file of this name.
    Replay(&'a str),
}

/// Options that do not go together, or one that needs another that is missing.
#[derive(Clone, Copy, Debug, PartialEq, Eq)]
pub enum Clash {
    /// One seed, and many.
    SeedAndSeeds,
    /// A seed, and a list of events.
    SeedAndReplay,
    /// Many seeds, and a list of events.
    SeedsAndReplay,
    /// A list of events is to be written, and no seed is given.
    EventsWithoutSeed,
    /// Many seeds, and dumps.
    SeedsAndDump,
    /// Many seeds, and a trace.
    SeedsAndTrace,
    /// Elements are to drop what they have handled, and the run is on one thread, where they keep it.
    NoJournalOnOneThread,
    /// Checkpoints are to be written, and the run is on one thread.
    CheckpointOnOneThread,
    /// The file is a checkpoint, and the run is on one thread.
    RestartOnOneThread,
    /// Checkpoints, and dumps.
    CheckpointAndDump,
    /// Checkpoints, and the format of dumps.
    CheckpointAndLbd1,
    /// Checkpoints, and a trace.
    CheckpointAndTrace,
    /// The file is a checkpoint, and dumps are to be written.
    RestartAndDump,
    /// The file is a checkpoint, and a format of dumps is given.
    RestartAndLbd1,
    /// The file is a checkpoint, and a trace is to be written.
    RestartAndTrace,
    /// After how many rounds a checkpoint is written is given, and none is to be written.
    EveryWithoutCheckpoint,
    /// How many PEs a run has that goes on is given, and the file is a workload.
    ProcsWithoutRestart,
}

impl<'a> CharmRunOptions<'a> {
    /// How the chares are run.
    ///
    /// # Errors
    ///
    /// The first that applies, in the order of [`Clash`].
    pub fn task(&self) -> Result<Task<'a>, Clash>
        ensures value { result ≡ task_of self.now }
    {
        let task = way_of(self.seed, self.seeds, self.replay)?;
        match self.clash_with(task) {
            Some(clash) => Err(clash),
            None => Ok(task),
        }
    }

    // The first option that does not go with a task.
    fn clash_with(&self, task: Task<'a>) -> Option<Clash>
        ensures value { result ≡ clash_with self.now task.entry }
    {
        match task {
            Task::Threads => clash_without_seed(self.events).or(self.clash_of_checkpoints()),
            Task::Replay(_) => { clash_without_seed(self.events).or(self.clash_on_one_thread()) }
            Task::Seed(_) => self.clash_on_one_thread(),
            Task::Seeds(_) => {
                clash_with_seeds(self.events, self.dump, self.trace).or(self.clash_on_one_thread())
            }
        }
    }

    // The first option that does not go with a run on one thread.
    fn clash_on_one_thread(&self) -> Option<Clash>
        ensures value { result ≡ clash_on_one_thread self.now }
    {
        let clash = clash_of_journal(self.no_journal);
        clash
            .or(clash_of_kept(self.checkpoint, self.restart))
            .or(self.clash_of_checkpoints())
    }

    // The first clash of the options for checkpoints with others.
    fn clash_of_checkpoints(&self) -> Option<Clash>
        ensures value { result ≡ clash_of_checkpoints self.now }
    {
        clash_of_checkpoint(self.checkpoint, self.dump, self.lbd1, self.trace)
            .or(clash_of_restart(self.restart, self.dump, self.lbd1, self.trace))
            .or(clash_of_every(self.checkpoint, self.every))
            .or(clash_of_procs(self.restart, self.procs))
    }
}

// One way to run, of those that are asked for.
fn way_of<'a>(
    seed: Option<u64>,
    seeds: Option<u32>,
    replay: Option<&'a str>,
) -> Result<Task<'a>, Clash>
    ensures value { result ≡ way_of seed seeds replay.entry }
{
    match seed {
        Some(seed) => match (seeds, replay) {
            (Some(_), _) => Err(Clash::SeedAndSeeds),
            (None, Some(_)) => Err(Clash::SeedAndReplay),
            (None, None) => Ok(Task::Seed(seed)),
        },
        None => match (seeds, replay) {
            (Some(_), Some(_)) => Err(Clash::SeedsAndReplay),
            (Some(seeds), None) => Ok(Task::Seeds(seeds)),
            (None, Some(replay)) => Ok(Task::Replay(replay)),
            (None, None) => Ok(Task::Threads),
        },
    }
}

// The clash where there is no seed.
fn clash_without_seed(events: Option<&str>) -> Option<Clash>
    ensures value { result ≡ clash_without_seed events.entry }
{
    match events {
        Some(_) => Some(Clash::EventsWithoutSeed),
        None => None,
    }
}

// The clash of a run on one thread whose elements are to drop what they have handled.
fn clash_of_journal(no_journal: bool) -> Option<Clash>
    ensures value { result ≡ clash_of_journal no_journal }
{
    if no_journal {
        return Some(Clash::NoJournalOnOneThread);
    }
    None
}

// The clash of many seeds with another option.
fn clash_with_seeds(events: Option<&str>, dump: Option<&str>, trace: Option<&str>) -> Option<Clash>
    ensures value { result ≡ clash_with_seeds events.entry dump.entry trace.entry }
{
    match (events, (dump, trace)) {
        (Some(_), _) => Some(Clash::EventsWithoutSeed),
        (None, (Some(_), _)) => Some(Clash::SeedsAndDump),
        (None, (None, Some(_))) => Some(Clash::SeedsAndTrace),
        (None, (None, None)) => None,
    }
}

// The clash of a run on one thread that has to do with checkpoints.
fn clash_of_kept(checkpoint: Option<&str>, restart: bool) -> Option<Clash>
    ensures value { result ≡ clash_of_kept checkpoint.entry restart }
{
    match (checkpoint, restart) {
        (Some(_), _) => Some(Clash::CheckpointOnOneThread),
        (None, true) => Some(Clash::RestartOnOneThread),
        (None, false) => None,
    }
}

// The clash of checkpoints with another option.
fn clash_of_checkpoint(
    checkpoint: Option<&str>,
    dump: Option<&str>,
    lbd1: bool,
    trace: Option<&str>,
) -> Option<Clash>
    ensures value { result ≡ clash_of_checkpoint checkpoint.entry dump.entry lbd1 trace.entry }
{
    match (checkpoint, (dump, (lbd1, trace))) {
        (None, _) => None,
        (Some(_), (Some(_), _)) => Some(Clash::CheckpointAndDump),
        (Some(_), (None, (true, _))) => Some(Clash::CheckpointAndLbd1),
        (Some(_), (None, (false, Some(_)))) => Some(Clash::CheckpointAndTrace),
        (Some(_), (None, (false, None))) => None,
    }
}

// The clash of a run that goes on from a checkpoint with another option.
fn clash_of_restart(
    restart: bool,
    dump: Option<&str>,
    lbd1: bool,
    trace: Option<&str>,
) -> Option<Clash>
    ensures value { result ≡ clash_of_restart restart dump.entry lbd1 trace.entry }
{
    match (restart, (dump, (lbd1, trace))) {
        (false, _) => None,
        (true, (Some(_), _)) => Some(Clash::RestartAndDump),
        (true, (None, (true, _))) => Some(Clash::RestartAndLbd1),
        (true, (None, (false, Some(_)))) => Some(Clash::RestartAndTrace),
        (true, (None, (false, None))) => None,
    }
}

// The clash where it is given after how many rounds a checkpoint is written.
fn clash_of_every(checkpoint: Option<&str>, every: Option<u32>) -> Option<Clash>
    ensures value { result ≡ clash_of_every checkpoint.entry every }
{
    match (checkpoint, every) {
        (None, Some(_)) => Some(Clash::EveryWithoutCheckpoint),
        _ => None,
    }
}

// The clash where it is given how many PEs a run has that goes on.
fn clash_of_procs(restart: bool, procs: Option<u32>) -> Option<Clash>
    ensures value { result ≡ clash_of_procs restart procs }
{
    match (restart, procs) {
        (false, Some(_)) => Some(Clash::ProcsWithoutRestart),
        _ => None,
    }
}
