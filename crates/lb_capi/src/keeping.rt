//! Cuts within a limit that keep the order of the ranks, of a chain whose consecutive parts lie on different ranks: rank `b` has
//! the elements from one present cut to the next, and block `b` goes to rank `b`. Like the calls of [`parts`](crate), for programs
//! in C that have their own messages:
//!
//! 1. The limit: a tolerance above the least bottleneck, which [`tezgumi_divide`](crate) of a merged chain finds.
//! 2. Bounds of the cuts, by one walk from part to part and one back: each cut is at most as far behind the one before it as a
//!    block within the limit reaches, or the present cut where that comes first; and the same from the end of the chain.
//! 3. How far cuts within the limit reach: the same walks, where only the limit ends a block.
//! 4. [`tezgumi_part_merge`](crate) with what lies between the bounds of each cut and is reached as windows, and the bounds and what is
//!    reached last, with the element before or behind it, as windows of their own; and [`tezgumi_part_held`](crate) with the ends of the runs as cuts:
//!    the loads and the bytes of a part's runs. Those of all parts, in order, are the merged chain.
//! 5. [`tezgumi_keep_order`]: the cuts of the merged chain. The first element of the run in place of each gives those of the chain.

ghost use Rattle.std.specs.Prelude.{◌≡◌, ◌≢◌, ◌↔◌, ◌⊎◌, ◌-◌, ◌^◌, ◌<◌, ◌≤◌, ℕ, List, length, sum, pos, negsuc};
ghost use Rattle.merged_chains.specs.Merged.{AreRuns, unmerged};
ghost use Rattle.merged_refinement.specs.InOrder.{AreNearestInOrder};
ghost use Rattle.merged_refinement.specs.Lists.{CanBeKept, FitTogether};

use crate::parts::part_status_of;
use merged_refinement::{MergedChain, Present, keep_lists};
use std::alloc::Global;

/// Writes the cuts within the limit that move the fewest bytes where block `b` goes to rank `b`, and of several such cuts those
/// nearest to the present ones, chosen from the end of the chain: the number of the run before which each is made. Of each run it
/// takes the load, the bytes and the first element, and behind the last of these the number of elements. The present cuts, one
/// more than ranks, the bounds of each, and the first and the last place that each reaches within the limit are numbers of runs, too.
/// Whatever chain has these runs, their first elements are such cuts of it: everything else that this rests on is checked.
///
/// It returns -1 where there are no ranks or more than 65,536, or 2^32 runs or more, a list does not have the length that it needs, the
/// present cuts do not divide the runs, or the bytes add up to 2^61 or more; then -3; then -1 where a bound is on the wrong side
/// of its present cut or a block between bounds is above the limit, a cut might reach further, a run between the bounds of a cut
/// that it reaches has more than one element, or no cuts are within the limit. -2 comes before or after that, whenever memory is refused.
#[unsafe(no_mangle)]
pub extern "C" fn tezgumi_keep_order(
    alloc: Global,
    loads: &[u64],
    bytes: &[u64],
    starts: &[u32],
    present: &[u32],
    lower: &[u32],
    upper: &[u32],
    first: &[u32],
    last: &[u32],
    limit: u64,
    cuts: &mut [u32],
) -> i32
    ensures statuses { (result ≡ pos 0) ⊎ (result ≡ negsuc 0) ⊎ (result ≡ negsuc 1) ⊎ (result ≡ negsuc 2) }
    ensures nearest { result ≡ pos 0 → AreNearestInOrder loads.now bytes.now present.now (length present.now - 1) limit cuts.new }
    ensures of_chain { result ≡ pos 0 → (whole sizes : List ℕ) → AreRuns whole loads.now starts.now → AreRuns sizes bytes.now starts.now
        → AreNearestInOrder whole sizes (unmerged starts.now present.now) (length present.now - 1) limit (unmerged starts.now cuts.new) }
    ensures asked { result ≡ pos 0 → FitTogether loads.now bytes.now starts.now present.now lower.now upper.now first.now last.now cuts.old
        × CanBeKept loads.now starts.now present.now lower.now upper.now first.now last.now limit }
    ensures input { result ≡ negsuc 0 → (¬ (FitTogether loads.now bytes.now starts.now present.now lower.now upper.now first.now last.now cuts.old))
        ⊎ (FitTogether loads.now bytes.now starts.now present.now lower.now upper.now first.now last.now cuts.old × (sum loads.now < 2 ^ 63)
        × (¬ (CanBeKept loads.now starts.now present.now lower.now upper.now first.now last.now limit))) }
    ensures load { result ≡ negsuc 2 ↔ (FitTogether loads.now bytes.now starts.now present.now lower.now upper.now first.now last.now cuts.old × (2 ^ 63 ≤ sum loads.now)) }
    ensures unfit { ¬ (FitTogether loads.now bytes.now starts.now present.now lower.now upper.now first.now last.now cuts.old) → result ≡ negsuc 0 }
    ensures kept { result ≢ pos 0 → cuts.new ≡ cuts.old }
{
    let runs = MergedChain {
        loads,
        bytes,
        starts,
    };
    let present = Present {
        cuts: present,
        near: lower,
        far: upper,
        first,
        last,
    };
    match keep_lists(alloc, &runs, &present, limit, cuts) {
        Ok(()) => 0,
        Err(error) => part_status_of(error),
    }
}
