//! How what the board has agrees with the elements, in every world that a list of events leads to: reports with marks, and who
//! has finished.

ghost use Rattle.std.specs.Prelude.{◌≡◌, ℕ, ◌<◌, ◌≤◌, List, length, Contains, Some};
ghost use Rattle.sync_board.specs.Boards.{Kept, kept_of};
ghost use Rattle.chares.specs.declared.trace_entry.TraceEntry.{TraceEntry};
ghost use Rattle.chares.specs.declared.trace_entry.TraceEntry.TheVariants.{Decided};
ghost use Rattle.rts_core.specs.declared.event.Event.{Event};
ghost use Rattle.rts_core.specs.Events.{After, Happens};
ghost use Rattle.rts_core.specs.Runs.{ForEachRun, ForEachStep};
ghost use Rattle.rts_core.specs.Worlds.{WorldView, opening_world};
ghost use Rattle.event_laws.specs.Agreement.{Agrees, AllTaken, DecidesOfMarks};
ghost use Rattle.event_laws.specs.Finished.{FinishedAsSaid};

use chares::Chare;
use std::alloc::Allocator;

/// The agreement of every world that a list of events reaches, from an opening on. The function does nothing: its
/// clauses are the laws. They hold for any chares and any number of PEs, in any order of events. In each world the board
/// and the elements agree on which elements have reported for the round under way, which are at work in it, and which
/// wait for their places; the board takes every note that a PE owes, so a report is enabled wherever a note is owed; and
/// where a round is decided, its snapshot has each element on the PE in whose room it then is, with the load and the
/// size of its mark for that round. An element has finished, in a room or packed on its way, exactly where the board says
/// so or a PE still owes it the note; so where the board says it of all, every element has.
pub fn agreement_laws<C: Chare<A>, A: Allocator>()
    ensures agreement { ForEachRun C.step C.pack C.unpack (λ (chares : List C) (last : After C A). Agrees (length chares) last.0) }
    ensures notes { ForEachRun C.step C.pack C.unpack (λ (chares : List C) (last : After C A). AllTaken last.0) }
    ensures snapshot { ForEachStep C.step C.pack C.unpack (λ (chares : List C) (w : WorldView C A) (next : After C A). DecidesOfMarks (length chares) w next) }
    ensures finished { ForEachRun C.step C.pack C.unpack (λ (chares : List C) (last : After C A). FinishedAsSaid last.0) }
{}
