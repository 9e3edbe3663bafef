//! Laws of all runs.

ghost use Rattle.std.specs.Prelude.{ℕ, ◌≤◌, List, length, All};
ghost use Rattle.pe_state.specs.Pes.{PeView, new_pe};
ghost use Rattle.pe_state.specs.Rooms.{IsKeyed};
ghost use Rattle.rts_core.specs.declared.event.Event.{Event};
ghost use Rattle.rts_core.specs.Accounts.{Accounted, AreSent, IsCounted, IsTraced};
ghost use Rattle.rts_core.specs.Calls.{Call, MayMake, AddsUpAfter, KeepsAddingUp, KeepsLocalAccount};
ghost use Rattle.rts_core.specs.Events.{After};
ghost use Rattle.pe_state.specs.Histories.{HasHistories};
ghost use Rattle.rts_core.specs.Histories.{KeepsSent};
ghost use Rattle.rts_core.specs.Ledgers.{Ledger, no_ledger, AddsUp, IsLocalAccount, IsUnused};
ghost use Rattle.rts_core.specs.Runs.{ForEachRun, ForEachEvent};
ghost use Rattle.sync_board.specs.declared.strategy.Strategy.{Strategy};
ghost use Rattle.rts_core.specs.Worlds.{WorldView, opening_pes, opening_world};

use chares::Chare;
use std::alloc::Allocator;

/// The account of every list of events. The function does nothing: its clauses are the laws. They hold for any chares and
/// any number of PEs, in any order of events, also with stale looks and with events that are not enabled. Each letter
/// that was posted is in exactly one place or was executed once, by the element that it was posted to, and each element
/// is in exactly one place; as many letters were posted as are held and were executed. The trace has a post for each
/// letter that is counted as posted, and an execution for each that is in a journal. What the elements have sent is in
/// places or in journals, with its target and its body: this holds as a world opens, and after an event if it held
/// before.
pub fn account_laws<C: Chare<A>, A: Allocator>()
    ensures account { ForEachRun C.step C.pack C.unpack (λ (chares : List C) (last : After C A). Accounted (length chares) last.0 last.1) }
    ensures counted { ForEachRun C.step C.pack C.unpack (λ (chares : List C) (last : After C A). IsCounted last.0) }
    ensures traced { ForEachRun C.step C.pack C.unpack (λ (chares : List C) (last : After C A). IsTraced last.0 last.1) }
    ensures opening_sent { (pes : ℕ) (chares : List C) (strategy : Strategy) → 1 ≤ pes → AreSent {A = A} C.step chares (opening_world pes chares strategy) }
    ensures still_sent { ForEachEvent C.step C.pack C.unpack (λ (w : WorldView C A) (next : After C A). KeepsSent C.step C.fits C.pack w next) }
{}

/// The account of one PE over its calls, whatever other PEs do. The function does nothing: its clauses are the laws. They
/// hold for any chares. After any list of calls, also with refused ones, the letters that the PE has posted and received
/// are those that it has given away and those that it has, where the letters in the journal of an element go with it; and
/// those that it has posted are numbered in order. One more call keeps this, whatever the PE began with.
///
/// More is known of a PE whose elements are what their journals say. Its elements are those that it began with and
/// received, without those that it has given away, by any weight that no handler changes. And what they have sent since is what
/// the PE has posted. Each PE begins so, and each call keeps it, except the placing of a chare. As a run opens, a PE holds no
/// letters, and its elements have sent none.
pub fn local_account_laws<C: Chare<A>, A: Allocator>()
    ensures adds_up { (me n : ℕ) (calls : List (Call C)) → MayMake C.step C.pack C.unpack (new_pe me n) calls → AddsUpAfter C.step C.pack C.unpack me n calls }
    ensures still_adds_up { (start pe : PeView C) (ledger : Ledger) (call : Call C) → KeepsAddingUp C.step C.pack C.unpack start pe ledger call }
    ensures opening { (pes : ℕ) (chares : List C) → 1 ≤ pes → All (IsUnused C.step chares) (opening_pes pes chares) }
    ensures beginning { (opened : List C) (pe : PeView C) → IsLocalAccount C.step opened pe pe no_ledger }
    ensures still_accounted { (opened : List C) (start pe : PeView C) (ledger : Ledger) (call : Call C)
        → KeepsLocalAccount C.step C.pack C.unpack C.fits opened start pe ledger call }
{}
