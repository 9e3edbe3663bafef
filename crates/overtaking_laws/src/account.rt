//! Where the letters and the elements are in every free run, and in every stale one.

ghost use Rattle.std.specs.Prelude.{List, length};
ghost use Rattle.rts_core.specs.Accounts.{Accounted, AreSent, IsCounted, IsTraced};
ghost use Rattle.rts_core.specs.Events.{After};
ghost use Rattle.rts_core.specs.Histories.{AreHistories};
ghost use Rattle.rts_core.specs.Worlds.{WorldView};
ghost use Rattle.overtaking_laws.specs.FreeRuns.{ForEachFreeRun};
ghost use Rattle.overtaking_laws.specs.Overtaking.{Overtakes};
ghost use Rattle.overtaking_laws.specs.StaleRuns.{ForEachStaleRun, Relearns};

use chares::Chare;
use std::alloc::Allocator;

/// The account of every free run. The function does nothing: its clauses are the laws. They hold for any chares and any number
/// of PEs, with any events and any parcel that overtakes others. Each letter that was posted is in exactly one place or was
/// executed once, by the element that it was posted to, and each element is in exactly one place; as many letters were posted
/// as are held and were executed; and the trace says so. Where a parcel overtakes others, each element is still what its journal
/// says, and what the elements have sent is still in places or in journals, with its target and its body. An event keeps the
/// latter, by `account_laws` of `rts_core`.
pub fn free_account_laws<C: Chare<A>, A: Allocator>()
    ensures account { ForEachFreeRun C.step C.pack C.unpack (λ (chares : List C) (last : After C A). Accounted (length chares) last.0 last.1) }
    ensures counted { ForEachFreeRun C.step C.pack C.unpack (λ (chares : List C) (last : After C A). IsCounted last.0) }
    ensures traced { ForEachFreeRun C.step C.pack C.unpack (λ (chares : List C) (last : After C A). IsTraced last.0 last.1) }
    ensures still_histories { (opened : List C) (w next : WorldView C A) → Overtakes w next
        → AreHistories C.step C.fits C.pack opened w → AreHistories C.step C.fits C.pack opened next }
    ensures still_sent { (opened : List C) (w next : WorldView C A) → Overtakes w next → AreSent C.step opened w → AreSent C.step opened next }
{}

/// The account of every stale run: also where ranks look at location words that are old. The function does nothing: its clauses are
/// the laws, those of [`free_account_laws`] again. Where location words become any others, each element is still what its journal
/// says, and what the elements have sent is still in places or in journals.
pub fn stale_account_laws<C: Chare<A>, A: Allocator>()
    ensures account { ForEachStaleRun C.step C.pack C.unpack (λ (chares : List C) (last : After C A). Accounted (length chares) last.0 last.1) }
    ensures counted { ForEachStaleRun C.step C.pack C.unpack (λ (chares : List C) (last : After C A). IsCounted last.0) }
    ensures traced { ForEachStaleRun C.step C.pack C.unpack (λ (chares : List C) (last : After C A). IsTraced last.0 last.1) }
    ensures still_histories { (opened : List C) (w next : WorldView C A) → Relearns w next
        → AreHistories C.step C.fits C.pack opened w → AreHistories C.step C.fits C.pack opened next }
    ensures still_sent { (opened : List C) (w next : WorldView C A) → Relearns w next → AreSent C.step opened w → AreSent C.step opened next }
{}
