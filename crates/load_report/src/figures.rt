//! The figures of a placement, and what a decision changes.

ghost use Rattle.std.specs.Prelude.{◌≡◌, ◌<◌, ◌≤◌, ◌==◌, if◌then◌else◌, ℕ, All, List, length, slice_index, sum_by};
ghost use Rattle.lb_certificates.specs.Naming.{total};
ghost use Rattle.lb_snapshot.specs.Measured.{IsLoads, IsSizes};
ghost use Rattle.lb_strategy.specs.Decisions.{IsRight};
ghost use Rattle.load_report.specs.Figures.{IsPlacement, IsRefinedFor, change_of, elements_of, empty_of, greatest, idle_of, least, load_of, refined_change};
ghost use Rattle.load_report.specs.Figures.{spread_of};

use crate::deviation::deviation_of;
use chare_index::{Limits, Pe};
use lb_refinement::Refined;
use lb_snapshot::{Loads, Snapshot, Units};
use lb_strategy::Decision;
use std::alloc::Allocator;

/// How the elements of an array spread their load over PEs.
#[derive(Clone, Copy, Debug, PartialEq, Eq)]
pub struct Spread {
    /// The PEs.
    pub pes: u32,
    /// The elements on all of them.
    pub elements: u64,
    /// The load of the PE with the greatest load, in work units.
    pub greatest: u64,
    /// The load of the PE with the least load.
    pub least: u64,
    /// The load of all PEs together.
    pub total: u64,
    /// The standard deviation of the loads of the PEs over their average, in thousandths, to the nearest.
    pub deviation: u64,
    /// The load of the heaviest element.
    pub heaviest: u64,
    /// The PEs that have no element.
    pub empty: u32,
    /// The PEs that have no load, with elements or without.
    pub idle: u32,
}

/// What a decision changes.
#[derive(Clone, Copy, Debug, PartialEq, Eq)]
pub struct Change {
    /// The least that the greatest load of a PE can be, with whole elements in consecutive blocks.
    pub least: u64,
    /// The elements that move.
    pub moved: u64,
    /// The packed bytes of these elements.
    pub bytes: u64,
    /// The packed bytes of all elements.
    pub all_bytes: u64,
}

impl Spread {
    /// How these elements spread their load over this number of PEs: `places` has the PE of each, in order of index.
    pub fn of<A: Allocator>(loads: &Loads<A>, places: &[u32], pes: u32) -> Spread
        requires { IsPlacement loads.now places.now pes }
        ensures value { result ≡ spread_of loads.now places.now pes }
    {
        let mut sums = [0; Limits::PES as usize];
        add_loads(&mut sums, loads.as_slice(), places, pes);
        let total = loads.load(0, loads.len());
        Spread {
            pes,
            elements: loads.len() as u64,
            greatest: greatest_of(&sums, pes),
            least: least_of(&sums, pes, total),
            total,
            deviation: deviation_of(&sums, pes, total),
            heaviest: greatest_of(loads.as_slice(), loads.len() as u32),
            empty: empty_pes(places, pes),
            idle: idle_pes(&sums, pes),
        }
    }
}

/// The load of the PE with the greatest load.
#[tactic(auto, using(crate::proofs::PlacedLoads::greatest_same))]
pub(crate) fn greatest_load(loads: &[Units], places: &[u32], pes: u32) -> u64
    requires loads { IsLoads loads.now }
    requires placed { IsPlacement loads.now places.now pes }
    ensures { result ≡ greatest pes (load_of loads.now places.now) }
{
    let mut sums = [0; Limits::PES as usize];
    add_loads(&mut sums, loads, places, pes);
    greatest_of(&sums, pes)
}

// Writes the load of each PE.
fn add_loads(sums: &mut [u64], loads: &[Units], places: &[u32], pes: u32)
    requires loads { IsLoads loads.now }
    requires placed { IsPlacement loads.now places.now pes }
    requires room { pes ≤ length sums.old }
    ensures length { length sums.new ≡ length sums.old }
    ensures loads { (p : ℕ) → p < length sums.new → slice_index sums.new p ≡ load_of loads.now places.now p }
{
    sums.fill(0);
    for i in 0..loads.len() {
        sums[places[i] as usize] += loads[i];
    }
}

// The greatest of the first of these loads.
#[tactic(auto, using(crate::proofs::PlacedLoads::greatest_more))]
fn greatest_of(sums: &[u64], pes: u32) -> u64
    requires { pes ≤ length sums.now }
    ensures { result ≡ greatest pes (slice_index sums.now) }
{
    let mut most = 0;
    for p in 0..pes as usize {
        most = most.max(sums[p]);
    }
    most
}

// The least of the first of these loads, none of which is above their total.
#[tactic(auto, using(crate::proofs::PlacedLoads::least_more))]
fn least_of(sums: &[u64], pes: u32, total: u64) -> u64
    requires { pes ≤ length sums.now }
    ensures { result ≡ least total pes (slice_index sums.now) }
{
    let mut least = total;
    for p in 0..pes as usize {
        least = least.min(sums[p]);
    }
    least
}

// How many of the first of these loads are 0.
#[tactic(auto, using(crate::proofs::PlacedLoads::total_more))]
fn idle_pes(sums: &[u64], pes: u32) -> u32
    requires { pes ≤ length sums.now }
    ensures { result ≡ idle_of pes (slice_index sums.now) }
{
    let mut idle = 0;
    for p in 0..pes as usize {
        if sums[p] == 0 {
            idle += 1;
        }
    }
    idle
}

// The number of PEs that have no element.
fn empty_pes(places: &[u32], pes: u32) -> u32
    requires few { length places.now ≤ Limits.ELEMENTS }
    requires placed { All (λ place. place < pes) places.now }
    requires few_pes { pes ≤ Limits.PES }
    ensures { result ≡ empty_of places.now pes }
{
    let mut counts = [0; Limits::PES as usize];
    count_elements(&mut counts, places);
    zeros_of(&counts, pes)
}

// Writes the number of elements of each PE.
fn count_elements(counts: &mut [u32], places: &[u32])
    requires few { length places.now ≤ Limits.ELEMENTS }
    requires placed { All (λ place. place < length counts.old) places.now }
    ensures length { length counts.new ≡ length counts.old }
    ensures elements { (p : ℕ) → p < length counts.new → slice_index counts.new p ≡ elements_of places.now p }
{
    counts.fill(0);
    for &place in places {
        counts[place as usize] += 1;
    }
}

// How many of the first of these counts are 0.
#[tactic(auto, using(crate::proofs::PlacedLoads::total_more))]
fn zeros_of(counts: &[u32], pes: u32) -> u32
    requires { pes ≤ length counts.now }
    ensures { result ≡ total pes (λ p. if slice_index counts.now p == 0 then 1 else 0) }
{
    let mut zeros = 0;
    for p in 0..pes as usize {
        if counts[p] == 0 {
            zeros += 1;
        }
    }
    zeros
}

impl Change {
    /// What this decision changes, which is right for this number of PEs.
    pub fn of<A: Allocator, B: Allocator>(
        snapshot: &Snapshot<A>,
        decision: &Decision<B>,
        pes: u32,
    ) -> Change
        requires { IsRight snapshot.now.loads snapshot.now.sizes pes decision.now }
        ensures value { result ≡ change_of snapshot.now decision.now }
    {
        Change {
            least: decision.division.bottleneck,
            moved: decision.moves.as_slice().len() as u64,
            bytes: decision.moved,
            all_bytes: bytes_of(snapshot.sizes().as_slice()),
        }
    }

    /// What this decision changes, which is one for this number of PEs within some tolerance.
    #[tactic(auto, using(crate::proofs::RefinedPlaces::moves_are, crate::proofs::RefinedPlaces::moved_is))]
    pub fn of_refined<A: Allocator, B: Allocator>(
        snapshot: &Snapshot<A>,
        decision: &Refined<B>,
        pes: u32,
    ) -> Change
        requires { IsRefinedFor snapshot.now.loads snapshot.now.sizes pes decision.now }
        ensures value { result ≡ refined_change snapshot.now decision.now }
    {
        Change {
            least: decision.least().bottleneck,
            moved: decision.moves().as_slice().len() as u64,
            bytes: decision.moved(),
            all_bytes: bytes_of(snapshot.sizes().as_slice()),
        }
    }
}

// The bytes of these elements.
#[tactic(auto, using(lb_certificates::proofs::BlockCosts::bytes_fit))]
fn bytes_of(elements: &[(u32, Pe)]) -> u64
    requires { IsSizes elements.now }
    ensures { result ≡ sum_by (λ size. size.0) elements.now }
{
    let mut total = 0;
    for &(bytes, _) in elements {
        total += u64::from(bytes);
    }
    total
}
