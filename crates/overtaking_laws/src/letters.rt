//! What holds of the letters of every free run, and what of those of every stale one.

ghost use Rattle.std.specs.Prelude.{List};
ghost use Rattle.rts_core.specs.Events.{After};
ghost use Rattle.rts_core.specs.Own.{AreOwn};
ghost use Rattle.event_laws.specs.Chase.{IsChase};
ghost use Rattle.overtaking_laws.specs.FreeRuns.{ForEachFreeRun};
ghost use Rattle.overtaking_laws.specs.StaleRuns.{ForEachStaleRun};

use chares::Chare;
use std::alloc::Allocator;

/// The chase law of every free run. The function does nothing: its clause is the law. It holds for any chares and any number of
/// PEs, also with stale looks. A letter is forwarded at most as often as its element has departed since the letter was posted.
/// Where a letter waits on the shelf of a PE, its element is on the way there. All PEs share the location words here.
pub fn free_chase_law<C: Chare<A>, A: Allocator>()
    ensures chase { ForEachFreeRun C.step C.pack C.unpack (λ (chares : List C) (last : After C A). IsChase last.0 last.1) }
{}

/// The journals after every free run. The function does nothing: its clause is the law. It holds for any chares and any number
/// of PEs. Every letter in the journal of an element was posted to that element, wherever the element is.
pub fn free_journal_law<C: Chare<A>, A: Allocator>()
    ensures own { ForEachFreeRun C.step C.pack C.unpack (λ (chares : List C) (last : After C A). AreOwn last.0) }
{}

/// The journals after every stale run: also where ranks look at location words that are old. The function does nothing: its clause
/// is the law, that of [`free_journal_law`] again.
pub fn stale_journal_law<C: Chare<A>, A: Allocator>()
    ensures own { ForEachStaleRun C.step C.pack C.unpack (λ (chares : List C) (last : After C A). AreOwn last.0) }
{}
