//! The elements of a run as plain lists, and the test that they are within the limits.

ghost use Rattle.std.specs.Prelude.{◌≡◌, ◌<◌, ◌≤◌, ◌^◌, ◌↔◌, ℕ, IsTrue, All, length, sum};
ghost use Rattle.lb_lists.specs.Runs.{AreSmall, IsAsked, IsRun};

use crate::limits::RunLimits;
use lb_certificates::total;
use lb_snapshot::Units;
use std::marker::Model;

/// The elements of a run, as plain lists of the same length, of up to [`RunLimits::ELEMENTS`]. Contracts see it as the record
/// of its lists.
#[derive(Drop)]
pub struct Run<'a> {
    /// The load of each element, in work units: all together at most [`RunLimits::LOAD`].
    pub loads: &'a [Units],
    /// The packed size of each element, in bytes: all together at most [`RunLimits::BYTES`].
    pub bytes: &'a [u32],
    /// The PE that each element is on, below `procs`.
    pub places: &'a [u32],
    /// The number of PEs of the run, 1 to [`RunLimits::PES`].
    pub procs: u32,
}

impl<'a> Model for Run<'a> {
    ghost use Rattle.lb_lists.specs.Runs.{Listed};

    ghost Value = { Listed };

    ghost view = { λ r. record { loads = r.loads.now; bytes = r.bytes.now; places = r.places.now; procs = r.procs } };
}

/// Whether the lists describe a run, which may continue on this number of PEs.
pub(crate) fn is_asked(run: &Run<'_>, pes: u32) -> bool
    ensures { IsTrue result ↔ IsAsked run.now pes }
{
    1 <= pes && pes <= RunLimits::PES && is_run(run)
}

// Whether the lists describe a run.
fn is_run(run: &Run<'_>) -> bool
    ensures { IsTrue result ↔ IsRun run.now }
{
    let count = run.loads.len();
    1 <= run.procs
        && run.procs <= RunLimits::PES
        && count <= RunLimits::ELEMENTS as usize
        && run.bytes.len() == count
        && run.places.len() == count
        && size_of_all(run.bytes) <= RunLimits::BYTES
        && stand_below(run.procs, run.places)
}

// The bytes of all elements together.
fn size_of_all(bytes: &[u32]) -> u64
    requires few { length bytes.now < 2 ^ 32 }
    ensures value { result ≡ sum bytes.now }
{
    let mut all = 0;
    for &size in bytes {
        all += u64::from(size);
    }
    all
}

// Whether each place is one of the first `procs` PEs.
fn stand_below(procs: u32, places: &[u32]) -> bool
    requires { 0 < procs }
    ensures { IsTrue result ↔ All (λ place. place < procs) places.now }
{
    greatest(places) < procs
}

/// The greatest of these numbers, and 0 where there are none. No branch leaves the loop, so that the compiler can take several
/// numbers at a time.
pub(crate) fn greatest(numbers: &[u32]) -> u32
    ensures bounds { All (λ number. number ≤ result) numbers.now }
    ensures least { (limit : ℕ) → All (λ number. number ≤ limit) numbers.now → result ≤ limit }
{
    numbers.iter().copied().max().unwrap_or(0)
}

/// Whether the loads do not add up to more than the limit.
pub(crate) fn are_small(loads: &[Units]) -> bool
    ensures { IsTrue result ↔ AreSmall loads.now }
{
    total(loads) <= u128::from(RunLimits::LOAD)
}
