//! That the calls of a PE which make two events at once do what these events do.

ghost use Rattle.std.specs.Prelude.{◌≡◌, ℕ, List, [], ◌∷◌, ◌++◌, Some, slice_set};
ghost use Rattle.pe_state.specs.declared.acted.Acted.TheVariants.{Executed};
ghost use Rattle.pe_state.specs.Pes.{PeView, Parcel, acted_of, acting, gave_up, handed_back, looked, pe_after, received, trace_of};
ghost use Rattle.rts_core.specs.declared.event.Event.TheVariants.{Act, Deliver, Flush, Look};
ghost use Rattle.rts_core.specs.Runs.{Reaches};
ghost use Rattle.rts_core.specs.Worlds.{WorldView};
ghost use Rattle.event_laws.specs.TwoEvents.{Receives, LooksForFront};

use chares::Chare;
use std::alloc::Allocator;

/// A worker does not make each event of a PE by a call of its own: `deliver_and_act` and `look_and_flush` of `PeState` make two. The
/// function does nothing: its clauses are the laws. They hold for any chares, in any world.
///
/// What a clause supposes of a PE after a call is what the call promises, in the words of its clauses. Where `deliver_and_act` has acted,
/// it has delivered the front of the queue, and then executed it. Where it has not, or an error was returned, it has delivered that.
/// `look_and_flush` has looked for the element of the front of the outbox, and then flushed that. Where the queue is full, and the parcel
/// is handed back, it has looked. Each of these events is enabled, and makes the trace entries that it makes by itself.
pub fn call_laws<C: Chare<A>, A: Allocator>()
    ensures delivers { (w : WorldView C A) (p : ℕ) (pe next : PeView C) (parcel : Parcel) (rest : List Parcel) → Receives w p pe parcel rest
        → next ≡ received pe parcel
        → Reaches C.step C.pack C.unpack w (Deliver p ∷ []) (record w { pes = slice_set w.pes p next; queues = slice_set w.queues p rest }, []) }
    ensures delivers_and_acts { (w : WorldView C A) (p : ℕ) (pe next : PeView C) (parcel : Parcel) (rest : List Parcel) → Receives w p pe parcel rest
        → acted_of (acting C.step C.pack C.unpack (received pe parcel)) ≡ Some Executed
        → next ≡ pe_after (received pe parcel) (acting C.step C.pack C.unpack (received pe parcel))
        → Reaches C.step C.pack C.unpack w (Deliver p ∷ Act p ∷ []) (
          record w { pes = slice_set w.pes p next; queues = slice_set w.queues p rest },
          trace_of (acting C.step C.pack C.unpack (received pe parcel)),
        ) }
    ensures looks_and_flushes { (w : WorldView C A) (p to : ℕ) (pe next : PeView C) (parcel : Parcel) (queue : List Parcel)
        → LooksForFront w p pe parcel to queue → next ≡ gave_up (looked pe to)
        → Reaches C.step C.pack C.unpack w (Look p ∷ Flush p ∷ [])
        (record w { pes = slice_set w.pes p next; queues = slice_set w.queues to (queue ++ parcel ∷ []) }, []) }
    ensures looks { (w : WorldView C A) (p to : ℕ) (pe next : PeView C) (parcel : Parcel) (queue : List Parcel)
        → LooksForFront w p pe parcel to queue → next ≡ handed_back (gave_up (looked pe to)) parcel
        → Reaches C.step C.pack C.unpack w (Look p ∷ []) (record w { pes = slice_set w.pes p next }, []) }
{}
