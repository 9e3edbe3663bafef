//! How what the board has agrees with the elements, in every free run and in every stale one.

ghost use Rattle.std.specs.Prelude.{List, length};
ghost use Rattle.rts_core.specs.Events.{After};
ghost use Rattle.rts_core.specs.Worlds.{WorldView};
ghost use Rattle.event_laws.specs.Agreement.{Agrees, AllTaken, DecidesOfMarks};
ghost use Rattle.event_laws.specs.Finished.{FinishedAsSaid};
ghost use Rattle.overtaking_laws.specs.FreeRuns.{ForEachFreeRun, ForEachFreeStep};
ghost use Rattle.overtaking_laws.specs.StaleRuns.{ForEachStaleRun, ForEachStaleStep};

use chares::Chare;
use std::alloc::Allocator;

/// The agreement of every world that a free run reaches. The function does nothing: its clauses are the laws. They hold for any
/// chares and any number of PEs. The board and the elements agree on which elements have reported for the round under way, which
/// are at work in it, and which wait for their places. The board takes every note that a PE owes. Where a round is decided, its
/// snapshot has each element on the PE in whose room it then is, with the load and the size of its mark for that round. An
/// element has finished exactly where the board says so or a PE still owes it the note.
pub fn free_agreement_laws<C: Chare<A>, A: Allocator>()
    ensures agreement { ForEachFreeRun C.step C.pack C.unpack (λ (chares : List C) (last : After C A). Agrees (length chares) last.0) }
    ensures notes { ForEachFreeRun C.step C.pack C.unpack (λ (chares : List C) (last : After C A). AllTaken last.0) }
    ensures snapshot { ForEachFreeStep C.step C.pack C.unpack (λ (chares : List C) (w : WorldView C A) (next : After C A). DecidesOfMarks (length chares) w next) }
    ensures finished { ForEachFreeRun C.step C.pack C.unpack (λ (chares : List C) (last : After C A). FinishedAsSaid last.0) }
{}

/// The agreement of every world that a stale run reaches: also where ranks look at location words that are old. The function does
/// nothing: its clauses are the laws, those of [`free_agreement_laws`] again.
pub fn stale_agreement_laws<C: Chare<A>, A: Allocator>()
    ensures agreement { ForEachStaleRun C.step C.pack C.unpack (λ (chares : List C) (last : After C A). Agrees (length chares) last.0) }
    ensures notes { ForEachStaleRun C.step C.pack C.unpack (λ (chares : List C) (last : After C A). AllTaken last.0) }
    ensures snapshot { ForEachStaleStep C.step C.pack C.unpack (λ (chares : List C) (w : WorldView C A) (next : After C A). DecidesOfMarks (length chares) w next) }
    ensures finished { ForEachStaleRun C.step C.pack C.unpack (λ (chares : List C) (last : After C A). FinishedAsSaid last.0) }
{}
