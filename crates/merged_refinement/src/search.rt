//! The search for cuts that move the fewest bytes where the ranks keep their order.

ghost use Rattle.std.specs.Prelude.{◌≡◌, ℕ, ◌+◌, ◌-◌, ◌^◌, ◌<◌, ◌≤◌, List, IfOk, MatchOption, length, slice_index, sum};
ghost use Rattle.lb_certificates.specs.Chain.{IsDivision};
ghost use Rattle.chain_refinement.specs.Refinement.{AreWithin};
ghost use Rattle.refinement_search.specs.Windows.{AreStarts};
ghost use Rattle.merged_refinement.specs.InOrder.{AreNearestInOrder, in_order};
ghost use Rattle.merged_refinement.specs.Merged.{AreBounds};
ghost use Rattle.merged_refinement.specs.Rows.{IsReadOff, IsTable};

use crate::pile::{Table, rows_of};
use crate::present::Present;
use crate::reading::read_cuts;
use crate::starts::least_starts;
use chain_partition::Chain;
use std::alloc::{AllocError, Allocator};

/// Of all cuts within the limit those that move the fewest bytes where block `b` goes to rank `b`, and of several such cuts those
/// nearest to the present ones, chosen from the end of the chain. `None` where no cuts are within the limit.
///
/// The cuts are a shortest path, layer by layer: of all cuts up to the beginning of a block only the cheapest is kept, and only
/// where it is between its bounds. Source: R. K. Ahuja, T. L. Magnanti and J. B. Orlin, "Network Flows", 1993, chapter 4.
///
/// # Errors
///
/// Memory was refused: a list of a number for each element, and of each block one for each place between its bounds.
pub fn keep_order<A: Allocator + Copy, B: Allocator, C: Allocator>(
    alloc: A,
    loads: &Chain<'_, B>,
    bytes: &Chain<'_, C>,
    present: &Present<'_>,
    limit: u64,
) -> Result<Option<Vec<u32, A>>, AllocError>
    requires some_rank { 2 ≤ length present.now.near.now }
    requires few_ranks { length present.now.near.now ≤ 2 ^ 32 }
    requires paired { length bytes.now ≡ length loads.now }
    requires light { sum bytes.now < 2 ^ 61 }
    requires divides { IsDivision 0 (length loads.now) (length present.now.near.now - 1) present.now.cuts.now }
    requires bounds { AreBounds loads.now present.now.cuts.now (length present.now.near.now - 1) limit present.now.near.now present.now.far.now }
    ensures nearest { IfOk result (λ found. MatchOption found ((cuts : List ℕ) → ¬ (AreWithin loads.now (in_order (length present.now.near.now - 1)) limit cuts))
        (λ cuts. AreNearestInOrder loads.now bytes.now present.now.cuts.now (length present.now.near.now - 1) limit cuts.items)) }
{
    let starts = least_starts(alloc, loads, limit)?;
    let table = Table {
        starts: &starts,
        present: present.cuts,
        near: present.near,
        far: present.far,
    };
    let cuts = read_off(alloc, bytes, &table)?;
    if starts[cuts[1] as usize] > 0 {
        return Ok(None);
    }
    Ok(Some(cuts))
}

// The cuts that are read off the rows of the blocks.
fn read_off<A: Allocator + Copy, C: Allocator>(
    alloc: A,
    bytes: &Chain<'_, C>,
    table: &Table<'_>,
) -> Result<Vec<u32, A>, AllocError>
    requires table { IsTable bytes.now table.now }
    requires few_ranks { length table.now.near.now ≤ 2 ^ 32 }
    requires before { (x : ℕ) → x < length table.now.starts.now → slice_index table.now.starts.now x ≤ x }
    ensures read { IfOk result (λ cuts. IsReadOff bytes.now table.now cuts.items) }
{
    let rows = rows_of(alloc, bytes, table)?;
    let elements = bytes.len() as u32;
    read_cuts(alloc, &rows, table.starts, table.present, elements)
}
