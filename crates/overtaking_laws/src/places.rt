//! Where the elements are in every free run, and in every stale one.

ghost use Rattle.std.specs.Prelude.{List};
ghost use Rattle.rts_core.specs.Events.{After};
ghost use Rattle.event_laws.specs.Bound.{AreNamed, ArriveAlone, StandAlone};
ghost use Rattle.overtaking_laws.specs.FreeRuns.{ForEachFreeRun};
ghost use Rattle.overtaking_laws.specs.StaleRuns.{ForEachStaleRun};

use chares::Chare;
use std::alloc::Allocator;

/// Where the elements are after every free run. The function does nothing: its clauses are the laws. They hold for any chares
/// and any number of PEs. An element in the room of a PE is nowhere else, so none arrives where there is one with its index
/// already. The location word of an element names the PE in whose room it is, or for which it is bound.
pub fn free_place_laws<C: Chare<A>, A: Allocator>()
    ensures alone { ForEachFreeRun C.step C.pack C.unpack (λ (chares : List C) (last : After C A). StandAlone last.0) }
    ensures arrivals { ForEachFreeRun C.step C.pack C.unpack (λ (chares : List C) (last : After C A). ArriveAlone last.0) }
    ensures words { ForEachFreeRun C.step C.pack C.unpack (λ (chares : List C) (last : After C A). AreNamed last.0) }
{}

/// Where the elements are after every stale run: also where ranks look at location words that are old. The function does nothing:
/// its clauses are the laws, those of [`free_place_laws`] that speak of no words. No word says where an element is then.
pub fn stale_place_laws<C: Chare<A>, A: Allocator>()
    ensures alone { ForEachStaleRun C.step C.pack C.unpack (λ (chares : List C) (last : After C A). StandAlone last.0) }
    ensures arrivals { ForEachStaleRun C.step C.pack C.unpack (λ (chares : List C) (last : After C A). ArriveAlone last.0) }
{}
