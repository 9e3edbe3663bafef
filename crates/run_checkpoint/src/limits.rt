//! Checks the numbers of a checkpoint against its workload.

ghost use Rattle.std.specs.Prelude.{◌<◌, All, MatchBool, MatchOption, length, ◌^◌};
ghost use Rattle.run_checkpoint.specs.Faults.{AreItsPlaces, AreItsRounds, IsApart};
ghost use Rattle.run_checkpoint.specs.declared.error.CheckpointError.TheVariants.{Limit};

use crate::checkpoint::DecidedRound;
use chare_index::Pe;
use std::alloc::Allocator;
use workload::Workload;

/// The first line with a number that is out of the range that the workload gives it, if there is one.
pub(crate) fn past_line<A: Allocator>(
    decided: &[DecidedRound],
    places: &[Pe],
    workload: &Workload<A>,
) -> Option<u32>
    requires few { length decided.now < 2 ^ 31 }
    ensures { MatchOption result (AreItsRounds decided.now workload.now × AreItsPlaces places.now workload.now)
        (λ line. IsApart decided.now places.now workload.now (Limit line)) }
{
    if decided.len() > workload.rounds as usize {
        return Some(1);
    }
    if places.len() != workload.chares as usize || !are_below(places, workload.pes) {
        return Some(decided.len() as u32 + 2);
    }
    None
}

// Whether each place is below this number of PEs.
fn are_below(places: &[Pe], pes: u32) -> bool
    ensures { MatchBool result (All (λ p. p < pes) places.now) (All (λ p. p < pes) places.now → ⊥) }
{
    for place in places {
        if place.get() >= pes {
            return false;
        }
    }
    true
}
