//! What holds of every run of ranks, whose notes are messages to the board.

ghost use Rattle.std.specs.Prelude.{◌≡◌, ◌≤◌, ℕ, List, ◌++◌, Some, IfSome, IsSome, slice_get};
ghost use Rattle.sync_board.specs.declared.strategy.Strategy.{Strategy};
ghost use Rattle.chares.specs.declared.trace_entry.TraceEntry.{TraceEntry};
ghost use Rattle.event_laws.specs.Agreement.{Agrees, AllTaken, DecidesOfMarks};
ghost use Rattle.event_laws.specs.Barrier.{IsBarrier, ResumesInPlace};
ghost use Rattle.event_laws.specs.Bound.{ArriveAlone, StandAlone};
ghost use Rattle.event_laws.specs.Finished.{FinishedAsSaid};
ghost use Rattle.event_laws.specs.Measured.{Forecasts};
ghost use Rattle.foreign_chare.specs.Scripts.{Stamp};
ghost use Rattle.pe_state.specs.Pes.{Parcel, front_address};
ghost use Rattle.rank_calls.specs.Runs.{FitsStamp, Run, opening, stamp_pack, step_in};
ghost use Rattle.rank_worlds.specs.LateNotes.{IsWorldOf, LateStep, NotingRank, Ranks, ReachesLate, opening_late};
ghost use Rattle.rank_worlds.specs.LateRuns.{ForEachLateRun, ForEachLateStep, IsLedTo, ReachesByEvents};
ghost use Rattle.rts_core.specs.Accounts.{Accounted, IsCounted, IsTraced};
ghost use Rattle.rts_core.specs.Events.{After, board_after};
ghost use Rattle.rts_core.specs.Orders.{AreInOrder};
ghost use Rattle.rts_core.specs.Own.{AreOwn};
ghost use Rattle.rts_core.specs.Worlds.{WorldView, opening_world};

use std::alloc::Allocator;

/// What holds of every run of ranks, from the opening of their handles on. The function does nothing: its clauses are the laws.
///
/// Where a rank says that a note is done, the note is under way, and the board takes it later. In a world of all ranks each PE is what its
/// handle has, except for an address that it keeps, and still owes the notes that are under way. The location words may be any. The opening
/// world is one. From each, the events of the steps lead to another, with the same trace: that of a call is the event of this call, or none
/// where a rank says that a note is done; as the board takes a note it is the report of that rank; and a decision is one.
///
/// What a rank gives up goes to a rank that there is, and the board takes the first note that is under way from a rank, or is owed there. In
/// each world that the steps lead to from the opening on, these laws of stale runs hold. Each letter that was posted is in exactly one place
/// or was executed once, by the element that it was posted to, and each element is in exactly one place. As many letters were posted as are
/// held and were executed; and the trace says so. Every letter in the journal of an element was posted to that element. Before an element is
/// resumed for a round, every element has reported in it and it was decided, once; and the element is in the room of its place in that
/// decision. The rounds of each element come in order. The board and the elements agree on who has reported and who has finished, and the
/// board takes every note that is owed. Where it decides a round, the snapshot has each element on the PE where it is, as its mark for that
/// round says; and where elements are what their journals say, with the load and the size of what the element did for that round. An element
/// in the room of a PE is nowhere else.
pub fn rank_run_laws<A: Allocator>()
    ensures opens { (run : Run) (strategy : Strategy) → IsWorldOf {A = A} (opening_late run strategy) (opening_world run.pes (opening run) strategy) }
    ensures events { (run : Run) (r : Ranks A) (w : WorldView Stamp A) (steps : List LateStep) (last : Ranks A × List TraceEntry)
        → IsWorldOf r w → ReachesLate run r steps last
        → (next : WorldView Stamp A) × IsWorldOf last.0 next × ReachesByEvents run w steps next last.1 }
    ensures late { (run : Run) (strategy : Strategy) (steps : List LateStep) (last : Ranks A × List TraceEntry)
        → ReachesLate run (opening_late run strategy) steps last → (w : WorldView Stamp A) × IsLedTo run strategy steps last w }
    ensures addressed { (run : Run) (strategy : Strategy) (steps : List LateStep) (last : Ranks A × List TraceEntry)
        → ReachesLate run (opening_late run strategy) steps last → (p q : ℕ) (rank : NotingRank) → slice_get last.0.ranks p ≡ Some rank
        → front_address rank.pe.outbox ≡ Some q → (queue : List Parcel) × (slice_get last.0.queues q ≡ Some queue) }
    ensures taken { (run : Run) (strategy : Strategy) (steps : List LateStep) (last : Ranks A × List TraceEntry) → 1 ≤ run.pes
        → ReachesLate run (opening_late run strategy) steps last → (p : ℕ) (rank : NotingRank) → slice_get last.0.ranks p ≡ Some rank
        → IfSome (slice_get (rank.notes ++ rank.pe.notes) 0) (λ note. IsSome (board_after last.0.board note)) }
    ensures account { ForEachLateRun (λ (run : Run) (w : WorldView Stamp A) (trace : List TraceEntry). Accounted run.n w trace) }
    ensures counted { ForEachLateRun (λ (run : Run) (w : WorldView Stamp A) (trace : List TraceEntry). IsCounted w) }
    ensures traced { ForEachLateRun (λ (run : Run) (w : WorldView Stamp A) (trace : List TraceEntry). IsTraced w trace) }
    ensures own { ForEachLateRun (λ (run : Run) (w : WorldView Stamp A) (trace : List TraceEntry). AreOwn w) }
    ensures barrier { ForEachLateRun {A = A} (λ (run : Run) (w : WorldView Stamp A) (trace : List TraceEntry). IsBarrier run.n trace) }
    ensures stands { ForEachLateStep (λ (run : Run) (w : WorldView Stamp A) (next : After Stamp A). ResumesInPlace w next) }
    ensures in_order { ForEachLateRun (λ (run : Run) (w : WorldView Stamp A) (trace : List TraceEntry). AreInOrder w) }
    ensures agreement { ForEachLateRun (λ (run : Run) (w : WorldView Stamp A) (trace : List TraceEntry). Agrees run.n w) }
    ensures notes { ForEachLateRun (λ (run : Run) (w : WorldView Stamp A) (trace : List TraceEntry). AllTaken w) }
    ensures snapshot { ForEachLateStep (λ (run : Run) (w : WorldView Stamp A) (next : After Stamp A). DecidesOfMarks run.n w next) }
    ensures measured { ForEachLateStep (λ (run : Run) (w : WorldView Stamp A) (next : After Stamp A). Forecasts (step_in run) FitsStamp stamp_pack (opening run) w next) }
    ensures finished { ForEachLateRun (λ (run : Run) (w : WorldView Stamp A) (trace : List TraceEntry). FinishedAsSaid w) }
    ensures alone { ForEachLateRun (λ (run : Run) (w : WorldView Stamp A) (trace : List TraceEntry). StandAlone w) }
    ensures arrivals { ForEachLateRun (λ (run : Run) (w : WorldView Stamp A) (trace : List TraceEntry). ArriveAlone w) }
{}
