//! The laws of accounts: which letters and elements there are after any calls, on one rank and on all together.

ghost use Rattle.std.specs.Prelude.{◌≡◌, ◌+◌, All, List, ℕ, true};
ghost use Rattle.foreign_chare.specs.Scripts.{Stamp};
ghost use Rattle.pe_state.specs.Pes.{PeView, Parcel};
ghost use Rattle.rank_calls.specs.Calls.{IsServed};
ghost use Rattle.rank_calls.specs.Runs.{Run, stamp_pack, stamp_unpack, step_in};
ghost use Rattle.rank_calls.specs.declared.request.Reply.{Reply};
ghost use Rattle.rank_calls.specs.declared.request.Request.{Request};
ghost use Rattle.rank_ledgers.specs.Ranks.{Rank, AreDelivered, begun_by, done_by, held_by, ledger_after, posted_by, weight_of};
ghost use Rattle.rts_core.specs.Calls.{MayCall, after_call};
ghost use Rattle.rts_core.specs.Ledgers.{Ledger, AddsUp, no_ledger};

/// The accounts of PEs behind handles. The function does nothing: its clauses are the laws.
///
/// What a handle answers says which call its PE has made, if any, and the PE is as after that call. So, over any calls, also refused ones,
/// the letters that the PE began with, has posted and has received are those that it has given up, holds, and has in journals; and those
/// posted are numbered in order. A PE that has done nothing begins so.
///
/// Of all ranks together, where each parcel that one gave up has come to one rank once or is under way: the letters that the PEs hold and
/// have in journals, and those under way, are those that they began with and have posted. None is lost, and none is there twice.
pub fn rank_account_laws()
    ensures begins { (pe : PeView Stamp) → AddsUp pe pe no_ledger }
    ensures called { (run : Run) (before after : PeView Stamp) (request : Request) (reply : Reply) → IsServed run true before request reply true after
        → MayCall before (done_by request reply) × (after ≡ after_call (step_in run) stamp_pack stamp_unpack before (done_by request reply)) }
    ensures adds_up { (run : Run) (start before after : PeView Stamp) (ledger : Ledger) (request : Request) (reply : Reply)
        → IsServed run true before request reply true after → AddsUp start before ledger → AddsUp start after (ledger_after run ledger before request reply) }
    ensures together { (ranks : List Rank) (under_way : List Parcel) (weight : ℕ × ℕ → ℕ → List ℕ → ℕ)
        → All (λ r. AddsUp r.start r.pe r.ledger) ranks → AreDelivered weight ranks under_way
        → held_by weight ranks + weight_of weight under_way ≡ begun_by weight ranks + posted_by weight ranks }
{}
