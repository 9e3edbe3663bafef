//! The row of one block.

ghost use Rattle.std.specs.Prelude.{◌≡◌, ◌≢◌, ℕ, ◌+◌, ◌^◌, ◌<◌, ◌≤◌, length, slice_index};
ghost use Rattle.lb_snapshot.specs.Measured.{IsSizes};
ghost use Rattle.chain_refinement.specs.Orders.{ArePartsApart};
ghost use Rattle.refinement_search.specs.Rows.{sum_at, IsWrittenFrom};

use crate::cost::cost_before;
use chain_refinement::walk::held_by;
use chare_index::Pe;

/// The first and the last place of a row, the present cut, and the first place of the row below.
#[derive(Clone, Copy)]
pub(crate) struct Span {
    pub(crate) below: u32,
    pub(crate) near: u32,
    pub(crate) present: u32,
    pub(crate) far: u32,
}

/// The PEs of the blocks before and behind a cut.
#[derive(Clone, Copy)]
pub(crate) struct Sides {
    pub(crate) from: u32,
    pub(crate) to: u32,
}

/// Writes the row of a block over that of the block before it, from its last place to its first: at each the least, over its
/// places from there on, of the row below at the least start of a block that ends there and of what the cut costs. The list
/// holds the row below at first, and each of its numbers is read before it is written over, since no block starts behind its
/// end.
pub(crate) fn write_row(
    sizes: &[(u32, Pe)],
    starts: &[u32],
    span: Span,
    sides: Sides,
    row: &mut [u64],
)
    requires valid { IsSizes sizes.now }
    requires counted { length starts.now ≡ length sizes.now + 1 }
    requires before { (x : ℕ) → x < length starts.now → slice_index starts.now x ≤ x }
    requires room { length row.old ≡ length sizes.now + 1 }
    requires small { (x : ℕ) → x < length row.old → slice_index row.old x < 2 ^ 63 }
    requires below { span.below ≤ span.near }
    requires near { span.near ≤ span.present }
    requires present { span.present ≤ span.far }
    requires far { span.far ≤ length sizes.now }
    requires apart { ArePartsApart sizes.now sides.from sides.to span.present }
    ensures written { IsWrittenFrom span.far (sum_at sizes.now starts.now row.old span.below sides.from sides.to) row.old row.new span.near }
{
    let mut x = span.far as usize;
    let mut cost = held_by(&sizes[span.present as usize..x], sides.to);
    let mut least = row[starts[x].max(span.below) as usize] + cost;
    row[x] = least;
    while x > span.near as usize {
        x -= 1;
        cost = cost_before(sizes, x, cost, sides.from, sides.to);
        least = least.min(row[starts[x].max(span.below) as usize] + cost);
        row[x] = least;
    }
}
