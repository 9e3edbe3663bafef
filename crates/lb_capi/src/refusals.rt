//! Why a run is refused.

ghost use Rattle.std.specs.Prelude.{◌≡◌, ◌↔◌, ◌<◌, ◌+◌, ℕ, negsuc, pos};
ghost use Rattle.lb_lists.specs.Runs.{AreSmall, FitsSnapshot, IsAsked};
ghost use Rattle.run_refusals.specs.Refusals.{refusal_entry, refusal_number, IsPlannable, IsRefusedFor};
ghost use Rattle.run_refusals.specs.declared.refusal.RunRefusal.{RunRefusal};
ghost use Rattle.lb_capi.specs.Calls.{is_set, run_of};

use crate::flag_in;
use lb_lists::Run;
use run_refusals::{entry_of_refusal, number_of_refusal, run_refusal};

/// Says why a run that is to continue on `pes` PEs is refused: it returns 0 where it is not, and otherwise the number of the first
/// rule that it breaks, and writes the entry that breaks it, or 0 where that is no entry of a list. With a `within` other than 0
/// the rules of a tolerance count, too. The rules have the numbers 1 to 15, as in
/// [`RunRefusal`](run_refusals::RunRefusal): with 1 to 9 every call on this run returns -1, with 10 it returns -3, and with 11 to 15 a
/// call for a tolerance returns -8. It takes no memory.
#[unsafe(no_mangle)]
pub extern "C" fn tezgumi_run_refusal(
    loads: &[u64],
    bytes: &[u32],
    places: &[u32],
    procs: u32,
    pes: u32,
    within: u32,
    entry: &mut u32,
) -> i32
    ensures planned { result ≡ pos 0 ↔ IsPlannable (run_of loads.now bytes.now places.now procs) pes (is_set within) }
    ensures refused { (n : ℕ) → result ≡ pos (n + 1)
        → (refusal : RunRefusal) × (refusal_number refusal ≡ n + 1) × (refusal_entry refusal ≡ entry.new)
        × IsRefusedFor (run_of loads.now bytes.now places.now procs) pes (is_set within) refusal }
    ensures input { (n : ℕ) → result ≡ pos (n + 1) → (n < 9) ↔ ¬ (IsAsked (run_of loads.now bytes.now places.now procs) pes) }
    ensures load { (n : ℕ) → result ≡ pos (n + 1)
        → (n ≡ 9) ↔ (IsAsked (run_of loads.now bytes.now places.now procs) pes × ¬ (AreSmall loads.now)) }
    ensures too_large { (n : ℕ) → result ≡ pos (n + 1)
        → (9 < n) ↔ (IsAsked (run_of loads.now bytes.now places.now procs) pes × AreSmall loads.now
        × ¬ (FitsSnapshot (run_of loads.now bytes.now places.now procs) pes)) }
    ensures statuses { (n : ℕ) → ¬ (result ≡ negsuc n) }
    ensures kept { result ≡ pos 0 → entry.new ≡ entry.old }
{
    let run = Run {
        loads,
        bytes,
        places,
        procs,
    };
    match run_refusal(&run, pes, flag_in(within)) {
        None => 0,
        Some(refusal) => {
            *entry = entry_of_refusal(refusal);
            i32::from(number_of_refusal(refusal))
        }
    }
}
