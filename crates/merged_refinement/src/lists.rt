//! Cuts that keep the order, for callers that have plain lists.

ghost use Rattle.std.specs.Prelude.{◌≡◌, ℕ, ◌+◌, ◌-◌, ◌^◌, ◌<◌, List, IfErr, OnOk, OnErr, MatchBool, length, sum};
ghost use Rattle.merged_chains.specs.Merged.{AreRuns, unmerged};
ghost use Rattle.merged_refinement.specs.InOrder.{AreNearestInOrder};
ghost use Rattle.merged_refinement.specs.Lists.{AreFit, CanKeep, IsKeepRefusal};

use crate::present::{Present, are_bounds, are_reaches, are_single, divides};
use crate::search::keep_order;
use chain_partition::Chain;
use lb_certificates::total;
use lb_snapshot::Units;
use merged_chains::{PartError, PartLimits};
use std::alloc::Allocator;

/// A merged chain: of each run its load, in work units, its bytes, and its first element; behind the last start is the number of
/// elements.
#[derive(Clone, Copy, Debug)]
pub struct MergedChain<'a> {
    /// The load of each run.
    pub loads: &'a [Units],
    /// The bytes of each run's elements.
    pub bytes: &'a [u64],
    /// The first element of each run, and behind these the number of elements.
    pub starts: &'a [u32],
}

/// Writes the cuts within the limit that move the fewest bytes where block `b` goes to rank `b`, and of several such cuts those
/// nearest to the present ones: the number of the run before which each is made. All cuts are numbers of runs. Whatever chain has
/// these runs, the starts of the runs are such cuts of it: that bounds and reaches are right, and that each run between them has
/// one element, is checked.
///
/// # Errors
///
/// [`PartError::BadInput`] for lists that do not fit together: no ranks or more than [`PartLimits::PES`], 2^32 runs or more,
/// lists of other lengths, present cuts that do not divide the runs, or 2^61 bytes or more. Then [`PartError::BadLoad`] where the
/// loads add up to 2^63 or more. Then [`PartError::BadInput`] where bounds or reaches are wrong, a run between them has more than
/// one element, or no cuts are within the limit. [`PartError::OutOfMemory`] where memory was refused.
pub fn keep_lists<A: Allocator + Copy>(
    alloc: A,
    runs: &MergedChain<'_>,
    present: &Present<'_>,
    limit: u64,
    cuts: &mut [u32],
) -> Result<(), PartError>
    ensures nearest { OnOk result (AreNearestInOrder runs.now.loads.now runs.now.bytes.now present.now.cuts.now (length present.now.cuts.now - 1) limit cuts.new) }
    ensures of_chain { OnOk result ((loads bytes : List ℕ) → AreRuns loads runs.now.loads.now runs.now.starts.now → AreRuns bytes runs.now.bytes.now runs.now.starts.now
        → AreNearestInOrder loads bytes (unmerged runs.now.starts.now present.now.cuts.now) (length present.now.cuts.now - 1) limit (unmerged runs.now.starts.now cuts.new)) }
    ensures asked { OnOk result (AreFit runs.now present.now cuts.old) }
    ensures can_be { OnOk result (CanKeep runs.now present.now limit) }
    ensures light { OnOk result (sum runs.now.loads.now < 2 ^ 63) }
    ensures refused { IfErr result (IsKeepRefusal (AreFit runs.now present.now cuts.old) (CanKeep runs.now present.now limit) runs.now.loads.now) }
    ensures kept { OnErr result (cuts.new ≡ cuts.old) }
{
    if !fit_together(runs, present, cuts.len()) {
        return Err(PartError::BadInput);
    }
    let loads = Chain::new(alloc, runs.loads)?;
    if !are_bounds(&loads, present, limit) {
        return Err(PartError::BadInput);
    }
    if !are_reaches(&loads, runs.starts, present, limit) {
        return Err(PartError::BadInput);
    }
    if !are_single(runs.starts, present) {
        return Err(PartError::BadInput);
    }
    let bytes = Chain::new(alloc, runs.bytes)?;
    match keep_order(alloc, &loads, &bytes, present, limit)? {
        None => Err(PartError::BadInput),
        Some(found) => {
            cuts.copy_from_slice(&found);
            Ok(())
        }
    }
}

// Whether the lists fit together, where there is room for this number of cuts.
fn fit_together(runs: &MergedChain<'_>, present: &Present<'_>, room: usize) -> bool
    ensures { (cuts : List ℕ) → length cuts ≡ room → MatchBool result
        (AreFit runs.now present.now cuts)
        (¬ (AreFit runs.now present.now cuts)) }
{
    let marks = present.cuts.len();
    if marks < 2 || marks > PartLimits::PES as usize + 1 {
        return false;
    }
    if present.near.len() != marks || present.far.len() != marks || room != marks {
        return false;
    }
    if present.first.len() != marks || present.last.len() != marks {
        return false;
    }
    let elements = runs.loads.len();
    if elements > u32::MAX as usize || runs.bytes.len() != elements {
        return false;
    }
    if runs.starts.len() != elements + 1 {
        return false;
    }
    if !divides(present.cuts, 0, elements as u32) {
        return false;
    }
    total(runs.bytes) < 1 << 61
}
