//! The rounds of every free run, and of every stale one: who has reported before an element is resumed, where the element is then,
//! and what a round was decided from.

ghost use Rattle.std.specs.Prelude.{List, length};
ghost use Rattle.rts_core.specs.Events.{After};
ghost use Rattle.rts_core.specs.Orders.{AreInOrder};
ghost use Rattle.rts_core.specs.Worlds.{WorldView};
ghost use Rattle.event_laws.specs.Barrier.{IsBarrier, ResumesInPlace};
ghost use Rattle.event_laws.specs.Measured.{Forecasts};
ghost use Rattle.overtaking_laws.specs.FreeRuns.{ForEachFreeRun, ForEachFreeStep};
ghost use Rattle.overtaking_laws.specs.StaleRuns.{ForEachStaleRun, ForEachStaleStep};

use chares::Chare;
use std::alloc::Allocator;

/// The barrier of every free run. The function does nothing: its clauses are the laws. They hold for any chares and any number
/// of PEs. In the trace, before an element is resumed for a round, every element has reported in it, and it was decided exactly
/// once; no round is decided twice; and no element is started, or resumed for a round, twice. Where an event resumes an element
/// for a round, the element is in the room of its place in the decision of that round. The rounds of each element come in order,
/// wherever it is. Where an event decides a round, in a world whose elements are what their journals say, the snapshot has each
/// element with the load and the size of what it did for that round.
pub fn free_barrier_law<C: Chare<A>, A: Allocator>()
    ensures barrier { ForEachFreeRun C.step C.pack C.unpack (λ (chares : List C) (last : After C A). IsBarrier (length chares) last.1) }
    ensures stands { ForEachFreeStep C.step C.pack C.unpack (λ (chares : List C) (w : WorldView C A) (next : After C A). ResumesInPlace w next) }
    ensures in_order { ForEachFreeRun C.step C.pack C.unpack (λ (chares : List C) (last : After C A). AreInOrder last.0) }
    ensures measured { ForEachFreeStep C.step C.pack C.unpack (λ (chares : List C) (w : WorldView C A) (next : After C A). Forecasts C.step C.fits C.pack chares w next) }
{}

/// The barrier of every stale run: also where ranks look at location words that are old. The function does nothing: its clauses are
/// the laws, those of [`free_barrier_law`] again.
pub fn stale_barrier_law<C: Chare<A>, A: Allocator>()
    ensures barrier { ForEachStaleRun C.step C.pack C.unpack (λ (chares : List C) (last : After C A). IsBarrier (length chares) last.1) }
    ensures stands { ForEachStaleStep C.step C.pack C.unpack (λ (chares : List C) (w : WorldView C A) (next : After C A). ResumesInPlace w next) }
    ensures in_order { ForEachStaleRun C.step C.pack C.unpack (λ (chares : List C) (last : After C A). AreInOrder last.0) }
    ensures measured { ForEachStaleStep C.step C.pack C.unpack (λ (chares : List C) (w : WorldView C A) (next : After C A). Forecasts C.step C.fits C.pack chares w next) }
{}
