//! The settings of a run.

ghost use Rattle.std.specs.Prelude.{◌≡◌, ◌≤◌, IsTrue, ◌↔◌, MatchOption};
ghost use Rattle.rts_run.specs.Configs.{IsFirstOutside, IsWithin, MayBegin};

use crate::error::Setting;
use chare_index::Limits;

/// The numbers of a run.
#[derive(Clone, Copy, Debug, PartialEq, Eq)]
pub struct Config {
    /// The number of PEs, 1 to [`Limits::PES`]. Each has a thread of its own.
    pub pes: u32,
    /// The capacity of the queue of each PE in parcels, 1 to [`Limits::CAPACITY`]. Its memory is allocated before the run begins,
    /// about 160 bytes for each parcel of each PE: 160 kB a PE with the usual 1,024, and 160 MB with the most PEs and the
    /// greatest capacity.
    pub capacity: u32,
    /// How many turns in a row a worker may find nothing to do before it gives up and the run ends with
    /// [`Fault::Idle`](crate::Fault::Idle), 1 to [`Limits::IDLE_TURNS`]. While a handler works on another PE, a worker whose
    /// elements all wait at the barrier or for letters finds nothing to do; before a balancing this is the usual case. So the
    /// limit has to outlast the longest handler. An idle turn takes about a third of a microsecond on a current processor, so
    /// 1,000,000,000 turns take about five minutes. A program whose handlers take minutes should set [`Limits::IDLE_TURNS`],
    /// which is some days.
    pub turns: u64,
    /// The most workers that decide a round, 1 to [`Limits::PROBE_WORKERS`]. With few PEs a single worker is faster, and only one
    /// is used.
    pub probe_workers: u32,
}

impl Config {
    /// The usual numbers of a run on this number of PEs, 1 to [`Limits::PES`]: queues with capacity for 1,024 parcels, rounds
    /// decided by up to 4 workers, and PE workers that give up after 1,000,000,000 idle turns in a row, about five minutes. A
    /// program whose handlers take as long sets [`turns`](Config::turns) higher.
    pub fn usual(pes: u32) -> Self
        ensures value { result ≡ record { pes = pes; capacity = 1024; turns = 1000000000; probe_workers = 4 } }
        ensures within { 1 ≤ pes → pes ≤ Limits.PES → IsWithin result }
    {
        Config {
            pes,
            capacity: 1_024,
            turns: 1_000_000_000,
            probe_workers: 4,
        }
    }

    /// Whether each number is within its limits.
    pub fn is_within(&self) -> bool
        ensures value { IsTrue result ↔ IsWithin self.now }
    {
        1 <= self.pes
            && self.pes <= Limits::PES
            && 1 <= self.capacity
            && self.capacity <= Limits::CAPACITY
            && 1 <= self.turns
            && self.turns <= Limits::IDLE_TURNS
            && 1 <= self.probe_workers
            && self.probe_workers <= Limits::PROBE_WORKERS
    }

    /// The first number that is out of its limits in a run of this number of elements, which may be up to [`Limits::ELEMENTS`];
    /// or `None` where each is within its limits.
    pub fn first_outside(&self, elements: usize) -> Option<Setting>
        ensures answer { MatchOption result (MayBegin self.now elements) (IsFirstOutside self.now elements) }
    {
        if self.pes < 1 || Limits::PES < self.pes {
            return Some(Setting::Pes);
        }
        if self.capacity < 1 || Limits::CAPACITY < self.capacity {
            return Some(Setting::Capacity);
        }
        if self.turns < 1 || Limits::IDLE_TURNS < self.turns {
            return Some(Setting::Turns);
        }
        if self.probe_workers < 1 || Limits::PROBE_WORKERS < self.probe_workers {
            return Some(Setting::ProbeWorkers);
        }
        if elements > Limits::ELEMENTS as usize {
            return Some(Setting::Elements);
        }
        None
    }
}
