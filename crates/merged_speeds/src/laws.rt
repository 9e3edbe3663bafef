//! The law of merged chains over PEs of unequal speed, as the clauses of a function that does nothing.

ghost use Rattle.std.specs.Prelude.{ℕ, List};
ghost use Rattle.speed_certificates.specs.Speeds.{Pes};
ghost use Rattle.speed_certificates.specs.declared.division.TimedDivision.{TimedDivision};
ghost use Rattle.speed_partition.specs.Chosen.{IsChosen};
ghost use Rattle.merged_speeds.specs.Merged.{AreTimeWindows, IsTimeMerged, KeepsEndsBy, unmerged_timed};

use std::alloc::Allocator;

/// Elements of a chain may be merged into runs where the least time, in ticks, is between two bounds, and where each greedy end by
/// each time from one tick before the lower bound to the upper one begins a run. Then the chosen division of the runs, with the start
/// of a run in place of each cut and stop, is that of the chain: the same time, cuts and floor. Two walks over the chain, by one tick
/// before the lower bound and by the upper one, find windows that keep these ends. The clauses are the laws; the function does nothing.
pub fn merged_speeds_law<A: Allocator>()
    ensures same { (loads runs starts : List ℕ) (pes : Pes) (scale low high : ℕ) (d : TimedDivision A) → IsTimeMerged loads runs starts pes scale low high
        → IsChosen runs pes d → IsChosen loads pes (unmerged_timed starts d) }
    ensures windows { (loads starts : List ℕ) (pes : Pes) (scale low high : ℕ) → AreTimeWindows loads pes starts scale low high → KeepsEndsBy loads pes starts scale low high }
{}
