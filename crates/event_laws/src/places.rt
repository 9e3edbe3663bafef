//! Where the elements are in a world that a list of events leads to.

ghost use Rattle.std.specs.Prelude.{ℕ, ◌≤◌, List};
ghost use Rattle.rts_core.specs.declared.event.Event.{Event};
ghost use Rattle.rts_core.specs.Events.{After};
ghost use Rattle.rts_core.specs.Runs.{ForEachRun};
ghost use Rattle.rts_core.specs.Worlds.{opening_world};
ghost use Rattle.event_laws.specs.Bound.{AreNamed, ArriveAlone, StandAlone};

use chares::Chare;
use std::alloc::Allocator;

/// Where the elements are after every list of events. The function does nothing: its clauses are the laws. They hold for any
/// chares and any number of PEs, in any order of events. An element in the room of a PE is nowhere else, so none arrives where
/// there is one with its index already. The location word of an element names the PE in whose room it is, or for which it is
/// bound.
pub fn place_laws<C: Chare<A>, A: Allocator>()
    ensures alone { ForEachRun C.step C.pack C.unpack (λ (chares : List C) (last : After C A). StandAlone last.0) }
    ensures arrivals { ForEachRun C.step C.pack C.unpack (λ (chares : List C) (last : After C A). ArriveAlone last.0) }
    ensures words { ForEachRun C.step C.pack C.unpack (λ (chares : List C) (last : After C A). AreNamed last.0) }
{}
