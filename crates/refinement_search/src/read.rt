//! Cuts read off a table of heights.

ghost use Rattle.std.specs.Prelude.{◌≡◌, ℕ, ◌+◌, ◌-◌, ◌^◌, ◌<◌, ◌≤◌, IfOk, length, slice_index};
ghost use Rattle.chain_refinement.specs.Refinement.{height_at};
ghost use Rattle.refinement_search.specs.Tables.{AreRead};

use crate::level::last_on_level;
use chain_refinement::Steps;
use std::alloc::{AllocError, Allocator};

/// The cuts, read off the heights of the blocks from the last one on.
///
/// # Errors
///
/// Memory for the list was refused.
pub(crate) fn read_cuts<A: Allocator>(
    alloc: A,
    rows: &[Steps<A>],
    starts: &[u32],
    present: &[u32],
) -> Result<Vec<u32, A>, AllocError>
    requires some_block { 0 < length rows.now }
    requires few_blocks { length rows.now < 2 ^ 32 }
    requires present_counted { length present.now ≡ length rows.now + 1 }
    requires present_within { (b : ℕ) → b < length present.now → slice_index present.now b < length starts.now }
    requires some_place { 0 < length starts.now }
    requires few_places { length starts.now < 2 ^ 32 }
    requires before { (x : ℕ) → x < length starts.now → slice_index starts.now x ≤ x }
    ensures read { IfOk result (λ cuts. AreRead (length rows.now) present.now (length starts.now - 1) (slice_index starts.now) (height_at rows.now) cuts.items) }
{
    let mut cuts = vec![in alloc; 0; rows.len() + 1]?;
    write_cuts(rows, starts, present, &mut cuts);
    Ok(cuts)
}

// Writes these cuts.
fn write_cuts<A: Allocator>(rows: &[Steps<A>], starts: &[u32], present: &[u32], cuts: &mut [u32])
    requires some_block { 0 < length rows.now }
    requires counted { length cuts.old ≡ length rows.now + 1 }
    requires present_counted { length present.now ≡ length rows.now + 1 }
    requires present_within { (b : ℕ) → b < length present.now → slice_index present.now b < length starts.now }
    requires some_place { 0 < length starts.now }
    requires few_places { length starts.now < 2 ^ 32 }
    requires before { (x : ℕ) → x < length starts.now → slice_index starts.now x ≤ x }
    requires first { slice_index cuts.old 0 ≡ 0 }
    ensures read { AreRead (length rows.now) present.now (length starts.now - 1) (slice_index starts.now) (height_at rows.now) cuts.new }
{
    let blocks = rows.len();
    cuts[blocks] = (starts.len() - 1) as u32;
    let mut b = blocks - 1;
    while b > 0 {
        let low = starts[cuts[b + 1] as usize];
        let far = present[b].max(low);
        cuts[b] = last_on_level(&rows[b], low as usize, far as usize) as u32;
        b -= 1;
    }
}
