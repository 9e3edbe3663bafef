//! Cuts read off the table of the search.

ghost use Rattle.std.specs.Prelude.{◌≡◌, ℕ, ◌+◌, ◌-◌, ◌^◌, ◌<◌, ◌≤◌, IfOk, length, slice_index};
ghost use Rattle.refinement_search.specs.Tables.{AreRead, IsLevelTo};
ghost use Rattle.merged_refinement.specs.Rows.{row_at, rows_at};

use crate::row::HeightRow;
use std::alloc::{AllocError, Allocator};

/// The cuts of this many elements, read off the rows of the blocks from the last one on.
///
/// # Errors
///
/// Memory for the list was refused.
pub(crate) fn read_cuts<A: Allocator>(
    alloc: A,
    rows: &[HeightRow<A>],
    starts: &[u32],
    present: &[u32],
    elements: u32,
) -> Result<Vec<u32, A>, AllocError>
    requires some_block { 0 < length rows.now }
    requires few_blocks { length rows.now < 2 ^ 32 }
    requires rises { (b x y : ℕ) → b < length rows.now → x ≤ y → rows_at rows.now b x ≤ rows_at rows.now b y }
    requires present_counted { length present.now ≡ length rows.now + 1 }
    requires present_within { (b : ℕ) → b < length present.now → slice_index present.now b < length starts.now }
    requires elements { length starts.now ≡ elements + 1 }
    requires before { (x : ℕ) → x < length starts.now → slice_index starts.now x ≤ x }
    ensures read { IfOk result (λ cuts. AreRead (length rows.now) present.now elements (slice_index starts.now) (rows_at rows.now) cuts.items) }
{
    let mut cuts = vec![in alloc; 0; rows.len() + 1]?;
    write_cuts(rows, starts, present, elements, &mut cuts);
    Ok(cuts)
}

// Writes these cuts.
fn write_cuts<A: Allocator>(
    rows: &[HeightRow<A>],
    starts: &[u32],
    present: &[u32],
    elements: u32,
    cuts: &mut [u32],
)
    requires some_block { 0 < length rows.now }
    requires rises { (b x y : ℕ) → b < length rows.now → x ≤ y → rows_at rows.now b x ≤ rows_at rows.now b y }
    requires counted { length cuts.old ≡ length rows.now + 1 }
    requires present_counted { length present.now ≡ length rows.now + 1 }
    requires present_within { (b : ℕ) → b < length present.now → slice_index present.now b < length starts.now }
    requires elements { length starts.now ≡ elements + 1 }
    requires before { (x : ℕ) → x < length starts.now → slice_index starts.now x ≤ x }
    requires first { slice_index cuts.old 0 ≡ 0 }
    ensures read { AreRead (length rows.now) present.now elements (slice_index starts.now) (rows_at rows.now) cuts.new }
{
    let blocks = rows.len();
    cuts[blocks] = elements;
    let mut b = blocks - 1;
    while b > 0 {
        let low = starts[cuts[b + 1] as usize];
        let far = present[b].max(low);
        cuts[b] = last_on_level(&rows[b], low as usize, far as usize) as u32;
        b -= 1;
    }
}

// The last place from one on, up to another, to which a row that never falls does not rise.
fn last_on_level<A: Allocator>(row: &HeightRow<A>, low: usize, far: usize) -> usize
    requires onward { low ≤ far }
    requires rises { (x y : ℕ) → x ≤ y → row_at row.now x ≤ row_at row.now y }
    ensures level { IsLevelTo (row_at row.now) low far result }
{
    let height = row.at(low);
    let mut cut = low;
    while cut < far && row.at(cut + 1) == height {
        cut += 1;
    }
    cut
}
