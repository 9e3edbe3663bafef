//! The rounds of every list of events: who has reported before an element is resumed, where the element is then, and what a
//! round was decided on.

ghost use Rattle.std.specs.Prelude.{◌≡◌, ℕ, ◌<◌, ◌≤◌, List, length, Contains, Some};
ghost use Rattle.sync_board.specs.Boards.{Kept, kept_of};
ghost use Rattle.chares.specs.declared.trace_entry.TraceEntry.{TraceEntry};
ghost use Rattle.chares.specs.declared.trace_entry.TraceEntry.TheVariants.{Decided, Resumed};
ghost use Rattle.event_laws.specs.Barrier.{IsBarrier, ResumesInPlace, KeepsRounds};
ghost use Rattle.event_laws.specs.Measured.{Forecasts};
ghost use Rattle.rts_core.specs.Orders.{AreInOrder};
ghost use Rattle.rts_core.specs.declared.event.Event.{Event};
ghost use Rattle.rts_core.specs.Events.{After, Happens};
ghost use Rattle.rts_core.specs.Histories.{AreHistories};
ghost use Rattle.rts_core.specs.Runs.{RunsTo, ForEachRun, ForEachStep, ForEachEvent};
ghost use Rattle.sync_board.specs.declared.strategy.Strategy.{Strategy};
ghost use Rattle.rts_core.specs.Worlds.{WorldView, opening_world};

use chares::Chare;
use std::alloc::Allocator;

/// The barrier of every list of events. The function does nothing: its clauses are the laws. They hold for any chares
/// and any number of PEs, in any order of events, also with events that are not enabled. In the trace, before an
/// element is resumed for a round, every element has reported in it, and it was decided exactly once; no round is
/// decided twice; and no element is started, or resumed for a round, twice. Where an event resumes an element for a
/// round, that very element is, before the event and after it, in the room of its place in the decision of that round.
/// No event changes what is kept of a round, its snapshot and its decision. The rounds of each element come in order,
/// wherever it is. And where an event decides a round, in a world whose elements are what their journals say, as those
/// of every `World` are, the snapshot has each element on the PE in whose room it is, with the load and the size of
/// what it did for that round.
pub fn barrier_law<C: Chare<A>, A: Allocator>()
    ensures barrier { ForEachRun C.step C.pack C.unpack (λ (chares : List C) (last : After C A). IsBarrier (length chares) last.1) }
    ensures stands { ForEachStep C.step C.pack C.unpack (λ (chares : List C) (w : WorldView C A) (next : After C A). ResumesInPlace w next) }
    ensures kept { ForEachEvent C.step C.pack C.unpack (λ (w : WorldView C A) (next : After C A). KeepsRounds w next) }
    ensures in_order { (pes : ℕ) (chares : List C) (strategy : Strategy) (events : List Event) (last : After C A)
        → RunsTo C.step C.pack C.unpack pes chares strategy events last → AreInOrder last.0 }
    ensures measured { ForEachStep C.step C.pack C.unpack (λ (chares : List C) (w : WorldView C A) (next : After C A). Forecasts C.step C.fits C.pack chares w next) }
{}
