//! What holds of the letters of every list of events.

ghost use Rattle.std.specs.Prelude.{ℕ, ◌≤◌, List};
ghost use Rattle.rts_core.specs.declared.event.Event.{Event};
ghost use Rattle.rts_core.specs.Events.{After};
ghost use Rattle.rts_core.specs.Own.{AreOwn};
ghost use Rattle.rts_core.specs.Runs.{RunsTo, ForEachRun};
ghost use Rattle.sync_board.specs.declared.strategy.Strategy.{Strategy};
ghost use Rattle.rts_core.specs.Worlds.{opening_world};
ghost use Rattle.event_laws.specs.Chase.{IsChase};

use chares::Chare;
use std::alloc::Allocator;

/// The chase law of every list of events. The function does nothing: its clause is the law. It holds for any chares and
/// any number of PEs, in any order of events, also with stale looks. A letter is forwarded at most as often as its
/// element has departed since the letter was posted, so no letter chases an element that stays. Where a letter waits on
/// the shelf of a PE, its element is on the way there.
pub fn chase_law<C: Chare<A>, A: Allocator>()
    ensures chase { ForEachRun C.step C.pack C.unpack (λ (chares : List C) (last : After C A). IsChase last.0 last.1) }
{}

/// The journals of every world that a list of events leads to, from an opening on. The function does nothing: its clause
/// is the law. It holds for any chares and any number of PEs, in any order of events, also with events that are not
/// enabled. Every letter in the journal of an element was posted to that element, whether the element is in a room, in a
/// hand, in an outbox or in a queue: no element executed the letter of another.
pub fn journal_law<C: Chare<A>, A: Allocator>()
    ensures own { (pes : ℕ) (chares : List C) (strategy : Strategy) (events : List Event) (last : After C A)
        → RunsTo C.step C.pack C.unpack pes chares strategy events last → AreOwn last.0 }
{}
