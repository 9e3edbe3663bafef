//! How a decision within a tolerance is written to the lists of a room.

ghost use Rattle.std.specs.Prelude.{◌≡◌, ◌≤◌, ◌<◌, ◌+◌, false, true, ℕ, List, length, take, drop, pos, replicate, IfOk};
ghost use Rattle.lb_certificates.specs.Chain.{IsDivision};
ghost use Rattle.lb_certificates.specs.Naming.{blocks_between};
ghost use Rattle.lb_lists.specs.Places.{ArePlaces};
ghost use Rattle.lb_lists.specs.Plans.{stops_in};
ghost use Rattle.lb_lists.specs.RefinedRooms.{standing_lists_in, told_in, told_of_kept, told_of_plan, AreStepsIn, HasStandingListsOf, IsStandingLeft};
ghost use Rattle.lb_lists.specs.Rooms.{lists_in, HasListsOf};
ghost use Rattle.lb_lists.specs.Steps.{all_steps, first_steps, places_of, rises_of};

use crate::deciding::{Buffers, Decided, write_decision};
use crate::plan::Plan;
use crate::refining::{RefinedNumbers, StandingBuffers};
use crate::steps::FlatSteps;
use lb_certificates::{Division, PriceList, Prices};
use lb_refinement::OrderProof;
use lb_strategy::Decision;
use std::alloc::{AllocError, Allocator};

/// Writes the decision of a plan.
pub(crate) fn write_planned<A: Allocator>(
    decision: Decision<A>,
    room: &mut Buffers<'_>,
    standing: &mut StandingBuffers<'_>,
) -> RefinedNumbers
    requires divides { IsDivision 0 (length room.old.new_places.now) (blocks_between decision.division.cuts) decision.division.cuts }
    requires some_block { 0 < blocks_between decision.division.cuts }
    requires cuts { length room.old.cuts.now ≡ length decision.division.cuts }
    requires stops { length (stops_in decision.division.floor) ≤ length room.old.stops.now }
    requires names { length room.old.names.now ≡ length decision.naming }
    requires named { length decision.naming ≡ blocks_between decision.division.cuts }
    requires block_prices { length room.old.block_prices.now ≡ length decision.prices.u }
    requires pe_prices { length room.old.pe_prices.now ≡ length decision.prices.v }
    requires least_cuts { length standing.old.least_cuts.now ≡ length decision.division.cuts }
    ensures same_lists { HasListsOf room.old room.new }
    ensures same_standing { HasStandingListsOf standing.old standing.new }
    ensures told { told_in result.least result.moved result.stops (lists_in room.new) (standing_lists_in standing.new) ≡ told_of_plan decision }
    ensures bottleneck { result.bottleneck ≡ decision.division.bottleneck }
    ensures placed { ArePlaces decision.division.cuts decision.naming (length room.old.new_places.now) room.new.new_places.now }
    ensures counted { result.stops ≡ length (stops_in decision.division.floor) }
    ensures behind { drop result.stops room.new.stops.now ≡ drop result.stops room.old.stops.now }
    ensures planned { result.near ≡ false }
    ensures no_steps { result.steps ≡ 0 }
    ensures left { IsStandingLeft (standing_lists_in standing.old) (standing_lists_in standing.new) }
{
    let Decision {
        division,
        naming,
        prices,
        moved,
        moves,
    } = decision;
    drop(moves);
    let plan = Plan {
        division,
        naming,
        prices,
        moved,
    };
    let decided = write_decision(&plan, room);
    let least = plan.division.cuts.as_slice();
    standing.least_cuts.copy_from_slice(least);
    drop(plan);
    let bottleneck = decided.bottleneck;
    numbers(decided, bottleneck, false, 0)
}

/// The numbers of a decision whose bottleneck was written as the least possible one, with what is reported beside it.
pub(crate) fn numbers(decided: Decided, bottleneck: u64, near: bool, steps: usize) -> RefinedNumbers
    ensures least { result.least ≡ decided.bottleneck }
    ensures bottleneck { result.bottleneck ≡ bottleneck }
    ensures moved { result.moved ≡ decided.moved }
    ensures stops { result.stops ≡ decided.stops }
    ensures near { result.near ≡ near }
    ensures steps { result.steps ≡ steps }
{
    RefinedNumbers {
        least: decided.bottleneck,
        bottleneck,
        moved: decided.moved,
        stops: decided.stops,
        near,
        steps,
    }
}

/// A decision whose names are the order of the PEs, with prices of 0.
///
/// # Errors
///
/// Memory for a list was refused.
pub(crate) fn priced<A: Allocator + Copy>(
    alloc: A,
    decision: Decision<A>,
) -> Result<Decision<A>, AllocError>
    ensures division { IfOk result (λ d. d.division ≡ decision.division) }
    ensures naming { IfOk result (λ d. d.naming ≡ decision.naming) }
    ensures block_prices { IfOk result (λ d. d.prices.u ≡ replicate (length decision.naming) (pos 0)) }
    ensures pe_prices { IfOk result (λ d. d.prices.v ≡ replicate (length decision.naming) (pos 0)) }
    ensures moved { IfOk result (λ d. d.moved ≡ decision.moved) }
{
    let Decision {
        division,
        naming,
        prices,
        moved,
        moves,
    } = decision;
    drop(prices);
    let blocks = naming.as_slice().len();
    let prices = Prices {
        u: PriceList::new(vec![in alloc; 0i64; blocks]?),
        v: PriceList::new(vec![in alloc; 0i64; blocks]?),
    };
    Ok(Decision {
        division,
        naming,
        prices,
        moved,
        moves,
    })
}

/// Writes cuts near the present ones, with what proves them: the order of the PEs, the present cuts and the heights, which have
/// these steps.
pub(crate) fn write_near<A: Allocator>(
    decision: Decision<A>,
    proof: OrderProof<A>,
    steps: FlatSteps<A>,
    room: &mut Buffers<'_>,
    standing: &mut StandingBuffers<'_>,
) -> RefinedNumbers
    requires divides { IsDivision 0 (length room.old.new_places.now) (blocks_between decision.division.cuts) decision.division.cuts }
    requires some_block { 0 < blocks_between decision.division.cuts }
    requires cuts { length room.old.cuts.now ≡ length decision.division.cuts }
    requires stops { length (stops_in proof.least.floor) ≤ length room.old.stops.now }
    requires names { length room.old.names.now ≡ length decision.naming }
    requires named { length decision.naming ≡ blocks_between decision.division.cuts }
    requires block_prices { length room.old.block_prices.now ≡ length decision.prices.u }
    requires pe_prices { length room.old.pe_prices.now ≡ length decision.prices.v }
    requires least_cuts { length standing.old.least_cuts.now ≡ length proof.least.cuts }
    requires order { length standing.old.order.now ≡ length proof.order }
    requires present { length standing.old.present.now ≡ length proof.present }
    requires step_starts { length standing.old.step_starts.now ≡ length (first_steps 0 proof.heights) }
    requires step_rises { length standing.old.step_rises.now ≡ length standing.old.step_places.now }
    requires starts { steps.starts.items ≡ first_steps 0 proof.heights }
    requires places { steps.places.items ≡ places_of (all_steps proof.heights) }
    requires rises { steps.rises.items ≡ rises_of (all_steps proof.heights) }
    ensures same_lists { HasListsOf room.old room.new }
    ensures same_standing { HasStandingListsOf standing.old standing.new }
    ensures told { told_in result.least result.moved result.stops (lists_in room.new) (standing_lists_in standing.new) ≡ told_of_kept (decision, proof) }
    ensures bottleneck { result.bottleneck ≡ decision.division.bottleneck }
    ensures placed { ArePlaces decision.division.cuts decision.naming (length room.old.new_places.now) room.new.new_places.now }
    ensures counted { result.stops ≡ length (stops_in proof.least.floor) }
    ensures behind { drop result.stops room.new.stops.now ≡ drop result.stops room.old.stops.now }
    ensures near { result.near ≡ true }
    ensures order { standing.new.order.now ≡ proof.order }
    ensures present { standing.new.present.now ≡ proof.present }
    ensures steps { AreStepsIn proof.heights result.steps (standing_lists_in standing.old) (standing_lists_in standing.new) }
{
    let Decision {
        division,
        naming,
        prices,
        moved,
        moves,
    } = decision;
    drop(moves);
    let OrderProof {
        least,
        tolerance: _,
        order,
        present,
        heights,
    } = proof;
    drop(heights);
    standing.order.copy_from_slice(order.as_slice());
    standing.present.copy_from_slice(present.as_slice());
    drop(order);
    drop(present);
    let Division {
        bottleneck: least_load,
        cuts: least_cuts,
        floor,
    } = least;
    standing.least_cuts.copy_from_slice(least_cuts.as_slice());
    drop(least_cuts);
    let Division {
        bottleneck,
        cuts,
        floor: no_floor,
    } = division;
    drop(no_floor);
    // The cuts are those of the decision; bottleneck and stops are those of the least division.
    let plan = Plan {
        division: Division {
            bottleneck: least_load,
            cuts,
            floor,
        },
        naming,
        prices,
        moved,
    };
    let decided = write_decision(&plan, room);
    drop(plan);
    let count = write_steps(&steps, standing);
    numbers(decided, bottleneck, true, count)
}

/// Writes these at the front of a list.
pub(crate) fn write_front<T: Copy>(list: &mut [T], front: &[T])
    requires room { length front.now ≤ length list.old }
    ensures written { take (length front.now) list.new ≡ front.now }
    ensures behind { drop (length front.now) list.new ≡ drop (length front.now) list.old }
    ensures same_room { length list.new ≡ length list.old }
{
    list[..front.len()].copy_from_slice(front);
}

// Writes the steps where the lists have the capacity for all of them, and returns their number.
fn write_steps<A: Allocator>(steps: &FlatSteps<A>, room: &mut StandingBuffers<'_>) -> usize
    requires starts { length room.old.step_starts.now ≡ length steps.now.starts.items }
    requires pairs { length steps.now.rises.items ≡ length steps.now.places.items }
    requires step_rises { length room.old.step_rises.now ≡ length room.old.step_places.now }
    ensures same_lists { HasStandingListsOf room.old room.new }
    ensures least_cuts { room.new.least_cuts.now ≡ room.old.least_cuts.now }
    ensures order { room.new.order.now ≡ room.old.order.now }
    ensures present { room.new.present.now ≡ room.old.present.now }
    ensures counted { result ≡ length steps.now.places.items }
    ensures starts { result ≤ length room.old.step_places.now → room.new.step_starts.now ≡ steps.now.starts.items }
    ensures places { result ≤ length room.old.step_places.now → take result room.new.step_places.now ≡ steps.now.places.items }
    ensures rises { result ≤ length room.old.step_places.now → take result room.new.step_rises.now ≡ steps.now.rises.items }
    ensures starts_left { length room.old.step_places.now < result → room.new.step_starts.now ≡ room.old.step_starts.now }
    ensures places_left { drop result room.new.step_places.now ≡ drop result room.old.step_places.now }
    ensures rises_left { drop result room.new.step_rises.now ≡ drop result room.old.step_rises.now }
{
    let count = steps.places.len();
    if count > room.step_places.len() {
        return count;
    }
    room.step_starts.copy_from_slice(&steps.starts);
    write_front(room.step_places, &steps.places);
    write_front(room.step_rises, &steps.rises);
    count
}
