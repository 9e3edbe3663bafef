//! The handles of all ranks as the PEs of one world.

ghost use Rattle.std.specs.Prelude.{◌≡◌, ℕ, List, [], MatchOption};
ghost use Rattle.sync_board.specs.declared.strategy.Strategy.{Strategy};
ghost use Rattle.foreign_chare.specs.Scripts.{Stamp};
ghost use Rattle.overtaking_laws.specs.FreeRuns.{HappensUnordered};
ghost use Rattle.overtaking_laws.specs.StaleRuns.{ReachesByCopies, with_words};
ghost use Rattle.rank_calls.specs.Runs.{Run, opening, stamp_pack, stamp_unpack, step_in};
ghost use Rattle.rank_calls.specs.declared.request.Reply.{Reply};
ghost use Rattle.rank_calls.specs.declared.request.Request.{Request};
ghost use Rattle.rank_ledgers.specs.Ranks.{done_by};
ghost use Rattle.rank_worlds.specs.RankRuns.{RankStep, ReachesByRanks, opening_ranks};
ghost use Rattle.rank_worlds.specs.Worlds.{IsAnswered, IsUnderWay, event_of};
ghost use Rattle.rts_core.specs.declared.event.Event.{Event};
ghost use Rattle.rts_core.specs.Events.{After};
ghost use Rattle.rts_core.specs.Worlds.{WorldView, opening_world};

use std::alloc::Allocator;

/// That the handles of all ranks are the PEs of one world. The function does nothing: its clauses are the laws.
///
/// Where a rank asks its handle and is answered, the PE makes the event of that call, or none where the call was refused or has shown
/// something: then the world is as it was. The event is one in which the location words are the copy that the rank has, and in which any
/// parcel may be delivered that is under way to the rank. A message that was given up is that of a parcel which is then under way to the
/// rank that was named. The PEs that handles open are those of the opening world. So a list of calls, each of any rank, and of decisions of
/// the board is a list of events.
pub fn rank_world_laws<A: Allocator>()
    ensures called { (run : Run) (words : List ℕ) (p : ℕ) (request : Request) (reply : Reply) (w : WorldView Stamp A) (next : After Stamp A)
        → IsAnswered run words p request reply w next
        → MatchOption (event_of p (done_by request reply)) (next ≡ (w, []))
        (λ event. HappensUnordered (step_in run) stamp_pack stamp_unpack (with_words w words) event next) }
    ensures sent { (run : Run) (words : List ℕ) (p : ℕ) (request : Request) (reply : Reply) (w : WorldView Stamp A) (next : After Stamp A)
        → IsAnswered run words p request reply w next → IsUnderWay w reply next.0 }
    ensures opens { (run : Run) (strategy : Strategy) → opening_ranks {A = A} run strategy ≡ opening_world run.pes (opening run) strategy }
    ensures events { (run : Run) (w : WorldView Stamp A) (steps : List RankStep) (last : After Stamp A) → ReachesByRanks run w steps last
        → (events : List (List ℕ × Event)) × ReachesByCopies (step_in run) stamp_pack stamp_unpack w events last }
{}
