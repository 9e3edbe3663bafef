//! What a stale run is: it may be a free run, and in it each rank may have a copy of the location words.

ghost use Rattle.std.specs.Prelude.{ℕ, List, map};
ghost use Rattle.rts_core.specs.declared.event.Event.{Event};
ghost use Rattle.rts_core.specs.Events.{After};
ghost use Rattle.rts_core.specs.Worlds.{WorldView};
ghost use Rattle.overtaking_laws.specs.FreeRuns.{FreeStep, ReachesFreely};
ghost use Rattle.overtaking_laws.specs.StaleRuns.{StaleStep, ReachesByCopies, ReachesStale, freely};

use chares::Chare;
use std::alloc::Allocator;

/// What stale runs there are. The function does nothing: its clauses are the laws. They hold for any chares, from any world on.
/// Where each event reads and changes the copy of the location words that the rank which makes it has then, whatever is in that copy,
/// and a delivery may be of any parcel, the list of events is a stale run, with the same trace. A free run is one in which no words
/// become others.
pub fn copy_laws<C: Chare<A>, A: Allocator>()
    ensures copies { (w : WorldView C A) (events : List (List ℕ × Event)) (last : After C A) → ReachesByCopies C.step C.pack C.unpack w events last
        → (steps : List StaleStep) × ReachesStale C.step C.pack C.unpack w steps last }
    ensures free { (w : WorldView C A) (steps : List FreeStep) (last : After C A) → ReachesFreely C.step C.pack C.unpack w steps last
        → ReachesStale C.step C.pack C.unpack w (map freely steps) last }
{}
