//! How often letters are forwarded between ranks that keep the rules of stamped runs.

ghost use Rattle.std.specs.Prelude.{◌≡◌, ℕ, List};
ghost use Rattle.sync_board.specs.declared.strategy.Strategy.{Strategy};
ghost use Rattle.foreign_chare.specs.Scripts.{Stamp};
ghost use Rattle.overtaking_laws.specs.Hops.{IsStampedChase};
ghost use Rattle.overtaking_laws.specs.StampedRuns.{AfterStamped, ReachesStamped, StampedStep, StampedView, opening_stamped};
ghost use Rattle.rank_calls.specs.Runs.{Run, opening, stamp_pack, stamp_unpack, step_in};
ghost use Rattle.rank_worlds.specs.LateNotes.{LateStep, ReachesLate, opening_late};
ghost use Rattle.rank_worlds.specs.StampedRanks.{AfterRanks, InTimeStep, IsStampedOf, ReachesInTime, late_after, opening_in_time};

use std::alloc::Allocator;

/// How often letters are forwarded between ranks that keep the rules of stamped runs, from the opening of their handles on. The function
/// does nothing: its clauses are the laws.
///
/// What such a rank sends carries the round that the rank knows. It looks for an element in its own room, and then at the place after that
/// round. It receives nothing that was sent by one who knew a later round, and lets elements depart and go on only after rounds that it knows.
/// Then the run is a run of ranks like any other, with the same trace. It is a stamped run, in which each PE is what its handle has, and
/// still owes the notes that are under way. No letter that a rank holds, that is under way, or that was executed was forwarded more often
/// than the decided rounds have moved its element. All rounds since the start of the run count, also those before the letter was posted.
/// Where a letter waits on the shelf of a rank, its element is not in the room there, and has still to come.
pub fn rank_hops_law<A: Allocator>()
    ensures late { (run : Run) (strategy : Strategy) (steps : List InTimeStep) (last : AfterRanks A)
        → ReachesInTime run (opening_in_time run strategy) steps last
        → (late : List LateStep) × ReachesLate run (opening_late run strategy) late (late_after last) }
    ensures stamped { (run : Run) (strategy : Strategy) (steps : List InTimeStep) (last : AfterRanks A)
        → ReachesInTime run (opening_in_time run strategy) steps last
        → (made : List StampedStep) × (led : AfterStamped Stamp A)
        × ReachesStamped (step_in run) stamp_pack stamp_unpack run.n run.pes (opening_stamped run.pes (opening run) strategy) made led
        × IsStampedOf last.0 led.0 × (led.1 ≡ last.1) }
    ensures hops { (run : Run) (strategy : Strategy) (steps : List InTimeStep) (last : AfterRanks A)
        → ReachesInTime run (opening_in_time run strategy) steps last
        → (t : StampedView Stamp A) × IsStampedOf last.0 t × IsStampedChase run.n run.pes t }
{}
