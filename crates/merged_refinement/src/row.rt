//! The row of one block: its height at each place from a first to a last one.

ghost use Rattle.std.specs.Prelude.{◌≡◌, ℕ, ◌+◌, ◌-◌, ◌^◌, ◌<◌, ◌≤◌, IfOk, length, slice_index, sum, vec_len};
ghost use Rattle.refinement_search.specs.Tables.{IsRow};
ghost use Rattle.merged_refinement.specs.Rows.{AreLeastFrom, AreSums, cost_by, row_at, sum_by_row};

use crate::cost::{Standing, cost_at};
use chain_partition::Chain;
use std::alloc::{AllocError, Allocator};
use std::marker::Model;

/// A row. Contracts see it as its first place and its heights from there on, of which there is one.
#[derive(Drop)]
pub(crate) struct HeightRow<A: Allocator> {
    first: u32,
    heights: Vec<u64, A>,
}

impl<A: Allocator> Model for HeightRow<A> {
    ghost use Rattle.std.specs.Prelude.{ℕ, ◌<◌, List, length};

    ghost Value = { ℕ × List ℕ };

    ghost view = { λ r. (r.first, r.heights.items) };

    ghost invariant = { λ r. 0 < length r.heights.items };
}

impl<A: Allocator> HeightRow<A> {
    /// The row with these heights.
    pub(crate) fn new(first: u32, heights: Vec<u64, A>) -> Self
        requires some { 0 < vec_len heights }
        ensures value { result ≡ (first, heights.items) }
    {
        HeightRow { first, heights }
    }

    /// The height at a place; before the first place it is that of this one, and behind the last place that of that one.
    pub(crate) fn at(&self, place: usize) -> u64
        ensures value { result ≡ row_at self.now place }
    {
        let last = self.heights.len() - 1;
        self.heights[place.saturating_sub(self.first as usize).min(last)]
    }
}

/// What a row is made of, besides the row below it.
#[derive(Clone, Copy)]
pub(crate) struct Sums<'a> {
    /// The least start of a block that ends at each place.
    pub(crate) starts: &'a [u32],
    /// The first and the last place of the row.
    pub(crate) near: u32,
    pub(crate) far: u32,
    /// The present cut.
    pub(crate) cut: Standing,
}

/// The row of a block, from that of the block before it.
///
/// # Errors
///
/// Memory for the one list was refused.
pub(crate) fn row_over<A: Allocator, B: Allocator>(
    alloc: A,
    below: &HeightRow<A>,
    bytes: &Chain<'_, B>,
    sums: &Sums<'_>,
) -> Result<HeightRow<A>, AllocError>
    requires sums { AreSums bytes.now sums.now }
    requires small { (x : ℕ) → row_at below.now x ≤ 2 ^ 63 }
    ensures row { IfOk result (λ row. IsRow sums.now.near sums.now.far (slice_index sums.now.starts.now) (cost_by bytes.now sums.now) (row_at below.now) (row_at row)) }
{
    let heights = heights_over(alloc, below, bytes, sums)?;
    Ok(HeightRow::new(sums.near, heights))
}

// Its heights.
fn heights_over<A: Allocator, B: Allocator>(
    alloc: A,
    below: &HeightRow<A>,
    bytes: &Chain<'_, B>,
    sums: &Sums<'_>,
) -> Result<Vec<u64, A>, AllocError>
    requires sums { AreSums bytes.now sums.now }
    requires small { (x : ℕ) → row_at below.now x ≤ 2 ^ 63 }
    ensures counted { IfOk result (λ heights. length heights.items ≡ sums.now.far - sums.now.near + 1) }
    ensures least { IfOk result (λ heights. AreLeastFrom (λ i. sum_by_row below.now bytes.now sums.now (sums.now.near + i)) heights.items 0) }
{
    let mut heights = vec![in alloc; 0; (sums.far - sums.near) as usize + 1]?;
    write_heights(below, bytes, sums, &mut heights);
    Ok(heights)
}

// Writes its heights, from the last one to the first: each is the least, over the places from there on, of the row below at the
// least start of a block that ends there and of what the cut costs.
fn write_heights<A: Allocator, B: Allocator>(
    below: &HeightRow<A>,
    bytes: &Chain<'_, B>,
    sums: &Sums<'_>,
    heights: &mut [u64],
)
    requires sums { AreSums bytes.now sums.now }
    requires counted { length heights.old ≡ sums.now.far - sums.now.near + 1 }
    requires small { (x : ℕ) → row_at below.now x ≤ 2 ^ 63 }
    ensures counted { length heights.new ≡ length heights.old }
    ensures least { AreLeastFrom (λ i. sum_by_row below.now bytes.now sums.now (sums.now.near + i)) heights.new 0 }
{
    let mut i = heights.len() - 1;
    let mut least = sum_at(below, bytes, sums, i);
    heights[i] = least;
    while i > 0 {
        i -= 1;
        least = least.min(sum_at(below, bytes, sums, i));
        heights[i] = least;
    }
}

// The sum at place number i of the row.
fn sum_at<A: Allocator, B: Allocator>(
    below: &HeightRow<A>,
    bytes: &Chain<'_, B>,
    sums: &Sums<'_>,
    i: usize,
) -> u64
    requires sums { AreSums bytes.now sums.now }
    requires within { sums.now.near + i ≤ sums.now.far }
    requires small { (x : ℕ) → row_at below.now x ≤ 2 ^ 63 }
    ensures value { result ≡ sum_by_row below.now bytes.now sums.now (sums.now.near + i) }
{
    let place = sums.near as usize + i;
    below.at(sums.starts[place] as usize) + cost_at(bytes, sums.cut, place)
}
