//! How often letters are forwarded where a rank looks into its own room, and then by the location words of a round which it knows.

ghost use Rattle.std.specs.Prelude.{ℕ, List, length};
ghost use Rattle.sync_board.specs.declared.strategy.Strategy.{Strategy};
ghost use Rattle.rts_core.specs.Worlds.{opening_world};
ghost use Rattle.overtaking_laws.specs.Hops.{IsStampedChase};
ghost use Rattle.overtaking_laws.specs.StaleRuns.{StaleStep, ReachesStale};
ghost use Rattle.overtaking_laws.specs.StampedRuns.{AfterStamped, ForEachStampedRun, world_with};

use chares::Chare;
use std::alloc::Allocator;

/// What stamped runs are: stale runs, so that all laws of these hold of them. The function does nothing: its clause is the law. It
/// holds for any chares and any number of PEs. In a stamped run a rank looks for an element in its own room, and then by the location
/// words of a decided round that it knows, or of the opening. It lets its elements depart and go on only after rounds that it knows. What
/// it sends carries the round that it knew, and it takes nothing in whose sender knew a later round. There is a stale run that leads to
/// the same, with the same trace, whatever location words a rank then has.
pub fn stamped_copy_law<C: Chare<A>, A: Allocator>()
    ensures stale { ForEachStampedRun C.step C.pack C.unpack (λ (pes : ℕ) (chares : List C) (strategy : Strategy) (last : AfterStamped C A). (words : List ℕ)
        → (steps : List StaleStep) × ReachesStale C.step C.pack C.unpack (opening_world pes chares strategy) steps (world_with last.0 words, last.1)) }
{}

/// The chase law of every stamped run. The function does nothing: its clause is the law. It holds for any chares and any number of
/// PEs, whatever each rank knows of the rounds that are decided. No letter in any place, nor any that was executed, was forwarded more
/// often than the decided rounds have moved its element. All rounds since the start of the run count, also those before the letter was
/// posted. So none was forwarded more often than rounds are decided. How often it is forwarded in one round is not said. Where a letter
/// waits on the shelf of a PE, its element is not in the room there, and has still to come: the PE is its place after a round which the
/// PE knows, and after which the element was not resumed yet.
pub fn stamped_chase_law<C: Chare<A>, A: Allocator>()
    ensures chase { ForEachStampedRun C.step C.pack C.unpack (λ (pes : ℕ) (chares : List C) (strategy : Strategy) (last : AfterStamped C A).
        IsStampedChase (length chares) pes last.0) }
{}
