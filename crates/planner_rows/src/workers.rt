//! Divisions and plans by several workers: they are those of one, each worker passes the gate with its own number in
//! each of its probes, and two workers probe at the same time.

ghost use Rattle.std.specs.Prelude.{◌≤◌};

use crate::fixtures::{
    EXAMPLE_PLAN, FULL_ARRAYS, example, full_loads, is_division, is_plan, is_whole_array, loads,
};
use crate::lists::{assert_for, same};
use chain_partition::divide_with;
use chare_index::{Gate, NoGate};
use lb_certificates::Division;
use lb_snapshot::{Loads, Units};
use lb_strategy::plan_with;
use row_fixtures::{CountingGate, MeetingGate};
use std::process::Abort;
use std::thread::Threads;

fn divided<R: Threads + Sync + Abort + AllocGlobal>(
    rt: &R,
    loads: &Loads,
    pes: u32,
    workers: u32,
) -> Division
    requires some_pe { 1 ≤ pes }
    requires few_pes { pes ≤ 256 }
    requires some_worker { 1 ≤ workers }
    requires few_workers { workers ≤ 64 }
{
    divide_with(rt, rt.alloc(), loads, pes, workers, &NoGate).expect(rt, "out of memory")
}

#[test]
fn any_number_of_workers_divides_the_same(rt: HostRuntime) {
    let five = loads(&rt, &[1, 2, 3, 4, 5]);
    for workers in 1..=64 {
        let division = divided(&rt, &five, 2, workers);
        let found = is_division(&division, 9, &[0, 3, 5], &[0, 3, 4]);
        assert_for(&rt, found, ("workers", workers));
    }
}

#[test]
fn many_workers_divide_a_full_array(rt: HostRuntime) {
    for &(load, all) in &FULL_ARRAYS {
        let division = divided(&rt, &full_loads(&rt, load), 1, 64);
        assert_for(&rt, is_whole_array(&division, all), load);
    }
}

// Whether each of this many workers that divide these loads for two PEs passes at least this often, with its own number.
fn pass_so<R: Threads + Sync + Abort + AllocGlobal>(
    rt: &R,
    loads: &Loads,
    workers: u32,
    least: u64,
) -> bool
    requires some_worker { 1 ≤ workers }
    requires few_workers { workers ≤ 64 }
{
    let gate = CountingGate::new();
    let division = divide_with(rt, rt.alloc(), loads, 2, workers, &gate);
    drop(division.expect(rt, "out of memory"));
    gate.counts_each(workers, least)
}

// Loads, and how often each worker passes at least. In the second row the search is for 5 and begins between 5 and 10: no worker
// tries 5 in the first round, so there is a second one.
static PASSES: [(&[Units], u64); 2] = [(&[1, 2, 3, 4, 5], 1), (&[5, 1, 1, 1, 1, 1], 2)];

#[test]
fn each_worker_passes_with_its_own_number(rt: HostRuntime) {
    for &(units, least) in &PASSES {
        let loads = loads(&rt, units);
        for workers in 1..=4 {
            assert_for(&rt, pass_so(&rt, &loads, workers, least), workers);
        }
    }
}

// Whether two workers at this gate divide a full array of the greatest loads of 32 bits in halves.
fn divides_in_halves<R: Threads + Sync + Abort + AllocGlobal>(rt: &R, gate: &MeetingGate) -> bool {
    let full = full_loads(rt, 4_294_967_295);
    let division = divide_with(rt, rt.alloc(), &full, 2, 2, gate).expect(rt, "out of memory");
    same(division.cuts.as_slice(), &[0, 32_768, 65_536])
}

// Whether this many workers at this gate find the plan of the example.
fn plans_example<R: Threads + Sync + Abort + AllocGlobal, G: Gate + Sync>(
    rt: &R,
    workers: u32,
    gate: &G,
) -> bool
    requires some_worker { 1 ≤ workers }
    requires few_workers { workers ≤ 64 }
{
    let planned = plan_with(rt, rt.alloc(), &example(rt), 2, workers, gate);
    let planned = planned.expect(rt, "out of memory");
    is_plan(rt, &planned, &EXAMPLE_PLAN)
}

#[test]
fn two_probes_overlap(rt: HostRuntime) {
    let (halves, plan) = (MeetingGate::new(), MeetingGate::new());
    assert_for(&rt, divides_in_halves(&rt, &halves), "halves");
    assert_for(&rt, halves.has_met(), "of a division");
    assert_for(&rt, plans_example(&rt, 2, &plan), "another plan");
    assert_for(&rt, plan.has_met(), "of a plan");
}

#[test]
fn each_of_three_workers_that_plan_passes_with_its_own_number(rt: HostRuntime) {
    let gate = CountingGate::new();
    assert_for(&rt, plans_example(&rt, 3, &gate), "another plan");
    assert_for(&rt, gate.counts_each(3, 1), "each as often as the others");
}
