//! Writes a decision with its certificates into the caller's buffers.

ghost use Rattle.std.specs.Prelude.{◌≡◌, ◌≤◌, ◌<◌, ◌+◌, ◌↔◌, IsTrue, length, take, drop, IfOk, IfErr, OnOk, OnErr};
ghost use Rattle.chain_partition.specs.Chosen.{IsChosen};
ghost use Rattle.lb_certificates.specs.Chain.{IsDivision};
ghost use Rattle.lb_certificates.specs.Naming.{blocks_between, IsLeastNaming};
ghost use Rattle.lb_strategy.specs.Decisions.{ArePricesBounded};
ghost use Rattle.lb_lists.specs.Claims.{claimed_division, IsRightClaim};
ghost use Rattle.lb_lists.specs.Places.{ArePlaces};
ghost use Rattle.lb_lists.specs.Plans.{stops_in, IsPlan};
ghost use Rattle.lb_lists.specs.Rooms.{claim_in, lists_in, HasListsOf, HasRoom};
ghost use Rattle.lb_lists.specs.Runs.{sizes_of, AreSmall, IsAsked, IsRefusal};

use crate::error::RunError;
use crate::plan::{Plan, plan_run};
use crate::planning::{Planned, write_plan};
use crate::run::Run;
use lb_certificates::Floor;
use std::alloc::Allocator;

/// Buffers of the caller for a decision on `pes` PEs.
#[derive(Drop)]
pub struct Buffers<'a> {
    /// The PE on which each element is to run.
    pub new_places: &'a mut [u32],
    /// `pes + 1`: where the blocks begin and end.
    pub cuts: &'a mut [u32],
    /// Capacity for the `pes + 1` stops of the fence that proves that the bottleneck is the least possible.
    pub stops: &'a mut [u32],
    /// `pes`: the PE on which each block runs.
    pub names: &'a mut [u32],
    /// `pes`: the prices of the blocks.
    pub block_prices: &'a mut [i64],
    /// `pes`: the prices of the PEs.
    pub pe_prices: &'a mut [i64],
}

/// The numbers of a decision that was written.
#[derive(Clone, Copy, Debug, PartialEq, Eq)]
pub struct Decided {
    /// The load of the heaviest block, in work units.
    pub bottleneck: u64,
    /// The packed bytes of all elements that move.
    pub moved: u64,
    /// The number of stops: `pes + 1`, or 0 where the bottleneck is 0.
    pub stops: usize,
}

// Writes the stops of a floor, and returns their number.
fn write_stops<A: Allocator>(floor: &Floor<A>, stops: &mut [u32]) -> usize
    requires room { length (stops_in floor.now) ≤ length stops.old }
    ensures counted { result ≡ length (stops_in floor.now) }
    ensures written { take result stops.new ≡ stops_in floor.now }
    ensures behind { drop result stops.new ≡ drop result stops.old }
    ensures same_room { length stops.new ≡ length stops.old }
{
    match floor {
        Floor::Zero => 0,
        Floor::Fence(fence) => {
            let found = fence.as_slice();
            stops[..found.len()].copy_from_slice(found);
            found.len()
        }
    }
}

/// Whether the lists of the room have the lengths that a decision on this number of elements needs.
pub(crate) fn has_room(room: &Buffers<'_>, elements: usize, pes: u32) -> bool
    ensures { IsTrue result ↔ HasRoom elements pes (lists_in room.now) }
{
    let blocks = u64::from(pes);
    room.new_places.len() == elements
        && room.cuts.len() as u64 == blocks + 1
        && room.stops.len() as u64 == blocks + 1
        && room.names.len() as u64 == blocks
        && room.block_prices.len() as u64 == blocks
        && room.pe_prices.len() as u64 == blocks
}

/// Writes a decision, and returns its numbers.
pub(crate) fn write_decision<A: Allocator>(plan: &Plan<A>, room: &mut Buffers<'_>) -> Decided
    requires divides { IsDivision 0 (length room.old.new_places.now) (blocks_between plan.now.division.cuts) plan.now.division.cuts }
    requires some_block { 0 < blocks_between plan.now.division.cuts }
    requires cuts { length room.old.cuts.now ≡ length plan.now.division.cuts }
    requires stops { length (stops_in plan.now.division.floor) ≤ length room.old.stops.now }
    requires names { length room.old.names.now ≡ length plan.now.naming }
    requires named { length plan.now.naming ≡ blocks_between plan.now.division.cuts }
    requires block_prices { length room.old.block_prices.now ≡ length plan.now.prices.u }
    requires pe_prices { length room.old.pe_prices.now ≡ length plan.now.prices.v }
    ensures same_lists { HasListsOf room.old room.new }
    ensures bottleneck { result.bottleneck ≡ plan.now.division.bottleneck }
    ensures moved { result.moved ≡ plan.now.moved }
    ensures counted { result.stops ≡ length (stops_in plan.now.division.floor) }
    ensures placed { ArePlaces plan.now.division.cuts plan.now.naming (length room.old.new_places.now) room.new.new_places.now }
    ensures cuts { room.new.cuts.now ≡ plan.now.division.cuts }
    ensures stops { take result.stops room.new.stops.now ≡ stops_in plan.now.division.floor }
    ensures behind { drop result.stops room.new.stops.now ≡ drop result.stops room.old.stops.now }
    ensures names { room.new.names.now ≡ plan.now.naming }
    ensures block_prices { room.new.block_prices.now ≡ plan.now.prices.u }
    ensures pe_prices { room.new.pe_prices.now ≡ plan.now.prices.v }
{
    let Planned { bottleneck, moved } = write_plan(plan, room.new_places);
    room.cuts.copy_from_slice(plan.division.cuts.as_slice());
    room.names.copy_from_slice(plan.naming.as_slice());
    room.block_prices.copy_from_slice(plan.prices.u.as_slice());
    room.pe_prices.copy_from_slice(plan.prices.v.as_slice());
    Decided {
        bottleneck,
        moved,
        stops: write_stops(&plan.division.floor, room.stops),
    }
}

/// Plans a run for `pes` PEs, and writes the decision with its certificates: each list of the room whole, but of the stops only
/// the first [`Decided::stops`]. The prices are within the bounds that [`plan_run`](crate::plan_run) gives.
///
/// # Errors
///
/// As [`plan_run`], and [`BadInput`](RunError::BadInput) where a list of the room does not have the length that it needs. After
/// an error nothing was written.
pub fn decide_into<A: Allocator + Copy>(
    alloc: A,
    run: &Run<'_>,
    pes: u32,
    room: &mut Buffers<'_>,
) -> Result<Decided, RunError>
    ensures same_lists { HasListsOf room.old room.new }
    ensures planned { IfOk result (λ d. IsPlan run.now pes room.new.new_places.now d.bottleneck d.moved) }
    ensures right { IfOk result (λ d. IsRightClaim run.now pes (claim_in d.bottleneck d.moved d.stops (lists_in room.new))) }
    ensures chosen { IfOk result (λ d. IsChosen run.now.loads pes (claimed_division (claim_in d.bottleneck d.moved d.stops (lists_in room.new)))) }
    ensures least_naming { IfOk result (λ d. IsLeastNaming (sizes_of run.now) room.new.cuts.now pes room.new.names.now) }
    ensures bounded { IfOk result (λ _. ArePricesBounded (sizes_of run.now) room.new.cuts.now room.new.block_prices.now room.new.pe_prices.now) }
    ensures counted { IfOk result (λ d. d.stops ≤ pes + 1) }
    ensures behind { IfOk result (λ d. drop d.stops room.new.stops.now ≡ drop d.stops room.old.stops.now) }
    ensures asked { OnOk result (IsAsked run.now pes × HasRoom (length run.now.loads) pes (lists_in room.old)) }
    ensures small { OnOk result (AreSmall run.now.loads) }
    ensures refused { IfErr result (IsRefusal (IsAsked run.now pes × HasRoom (length run.now.loads) pes (lists_in room.old)) (AreSmall run.now.loads)) }
    ensures kept { OnErr result (lists_in room.new ≡ lists_in room.old) }
{
    if !has_room(room, run.loads.len(), pes) {
        return Err(RunError::BadInput);
    }
    let plan = match plan_run(alloc, run, pes) {
        Ok(plan) => plan,
        Err(refused) => return Err(refused),
    };
    let decided = write_decision(&plan, room);
    drop(plan);
    Ok(decided)
}
