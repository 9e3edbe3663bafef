//! How a decision in any order of the PEs is written to the lists of a room.

ghost use Rattle.std.specs.Prelude.{◌≡◌, ◌≤◌, ◌<◌, ◌+◌, ◌++◌, false, true, drop, length, pos, replicate};
ghost use Rattle.lb_certificates.specs.Chain.{IsDivision};
ghost use Rattle.lb_certificates.specs.Naming.{blocks_between};
ghost use Rattle.lb_lists.specs.Places.{ArePlaces};
ghost use Rattle.lb_lists.specs.Plans.{stops_in};
ghost use Rattle.lb_lists.specs.RefinedRooms.{standing_lists_in, told_in, HasStandingListsOf, IsStandingLeft};
ghost use Rattle.lb_lists.specs.Reorderings.{level_lists_in, told_of_fewest, AreLevelsIn, HasLevelListsOf};
ghost use Rattle.lb_lists.specs.Rooms.{lists_in, HasListsOf};
ghost use Rattle.lb_lists.specs.Steps.{all_steps, first_steps, places_of, rises_of};

use crate::bounds::{BoundsBuffers, write_levels};
use crate::deciding::{Buffers, write_decision};
use crate::plan::Plan;
use crate::refined_writing::numbers;
use crate::refining::StandingBuffers;
use crate::reordering::ReorderedNumbers;
use crate::steps::FlatSteps;
use lb_certificates::Division;
use lb_refinement::AnyOrderProof;
use lb_strategy::Decision;
use std::alloc::Allocator;

/// Writes cuts and names that move the fewest bytes of all, whose prices are 0, with the bounds that prove it, which have these
/// levels.
pub(crate) fn write_fewest<A: Allocator>(
    decision: Decision<A>,
    proof: AnyOrderProof<A>,
    levels: FlatSteps<A>,
    room: &mut Buffers<'_>,
    standing: &mut StandingBuffers<'_>,
    bounds: &mut BoundsBuffers<'_>,
) -> ReorderedNumbers
    requires divides { IsDivision 0 (length room.old.new_places.now) (blocks_between decision.division.cuts) decision.division.cuts }
    requires some_block { 0 < blocks_between decision.division.cuts }
    requires cuts { length room.old.cuts.now ≡ length decision.division.cuts }
    requires stops { length (stops_in proof.least.floor) ≤ length room.old.stops.now }
    requires names { length room.old.names.now ≡ length decision.naming }
    requires named { length decision.naming ≡ blocks_between decision.division.cuts }
    requires block_prices { length room.old.block_prices.now ≡ length decision.naming }
    requires pe_prices { length room.old.pe_prices.now ≡ length decision.naming }
    requires least_cuts { length standing.old.least_cuts.now ≡ length proof.least.cuts }
    requires level_starts { length bounds.old.level_starts.now ≡ length (first_steps 0 (proof.any ++ proof.free)) }
    requires level_bytes { length bounds.old.level_bytes.now ≡ length bounds.old.level_places.now }
    requires no_block_prices { decision.prices.u ≡ replicate (length decision.naming) (pos 0) }
    requires no_pe_prices { decision.prices.v ≡ replicate (length decision.naming) (pos 0) }
    requires starts { levels.starts.items ≡ first_steps 0 (proof.any ++ proof.free) }
    requires places { levels.places.items ≡ places_of (all_steps (proof.any ++ proof.free)) }
    requires rises { levels.rises.items ≡ rises_of (all_steps (proof.any ++ proof.free)) }
    ensures same_lists { HasListsOf room.old room.new }
    ensures same_standing { HasStandingListsOf standing.old standing.new }
    ensures same_bounds { HasLevelListsOf bounds.old bounds.new }
    ensures told { told_in result.refined.least result.refined.moved result.refined.stops (lists_in room.new) (standing_lists_in standing.new) ≡ told_of_fewest (decision, proof) }
    ensures bottleneck { result.refined.bottleneck ≡ decision.division.bottleneck }
    ensures placed { ArePlaces decision.division.cuts decision.naming (length room.old.new_places.now) room.new.new_places.now }
    ensures counted { result.refined.stops ≡ length (stops_in proof.least.floor) }
    ensures behind { drop result.refined.stops room.new.stops.now ≡ drop result.refined.stops room.old.stops.now }
    ensures near { result.refined.near ≡ false }
    ensures no_steps { result.refined.steps ≡ 0 }
    ensures left { IsStandingLeft (standing_lists_in standing.old) (standing_lists_in standing.new) }
    ensures reordered { result.reordered ≡ true }
    ensures levels { AreLevelsIn (record { any = proof.any; free = proof.free }) result.levels (level_lists_in bounds.old) (level_lists_in bounds.new) }
{
    let Decision {
        division,
        naming,
        prices,
        moved,
        moves,
    } = decision;
    drop(moves);
    let AnyOrderProof {
        least,
        tolerance: _,
        any,
        free,
    } = proof;
    drop(any);
    drop(free);
    let Division {
        bottleneck: least_load,
        cuts: least_cuts,
        floor,
    } = least;
    standing.least_cuts.copy_from_slice(least_cuts.as_slice());
    drop(least_cuts);
    let Division {
        bottleneck,
        cuts,
        floor: no_floor,
    } = division;
    drop(no_floor);
    // The cuts are those of the decision; bottleneck and stops are those of the least division.
    let plan = Plan {
        division: Division {
            bottleneck: least_load,
            cuts,
            floor,
        },
        naming,
        prices,
        moved,
    };
    let decided = write_decision(&plan, room);
    drop(plan);
    let count = write_levels(&levels, bounds);
    ReorderedNumbers {
        refined: numbers(decided, bottleneck, false, 0),
        reordered: true,
        levels: count,
    }
}
