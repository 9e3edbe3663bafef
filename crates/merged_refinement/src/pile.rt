//! The table of the search: a row for each block.

ghost use Rattle.std.specs.Prelude.{◌≡◌, ◌+◌, ◌-◌, ◌^◌, ◌<◌, [], ◌∷◌, IfOk, OnOk, length, slice_index, vec_capacity, vec_len};
ghost use Rattle.merged_refinement.specs.Rows.{AreSmall, ArePiledUp, IsTable};

use crate::cost::Standing;
use crate::row::{HeightRow, Sums, row_over};
use chain_partition::Chain;
use std::alloc::{AllocError, Allocator};

// A height that no cuts reach.
const NONE: u64 = 1 << 62;

/// What rows are made of: lists with a number for each block, and one more.
#[derive(Clone, Copy)]
pub(crate) struct Table<'a> {
    /// The least start of a block that ends at each place.
    pub(crate) starts: &'a [u32],
    /// The present cuts.
    pub(crate) present: &'a [u32],
    /// The first place of each row.
    pub(crate) near: &'a [u32],
    /// The last place of each row.
    pub(crate) far: &'a [u32],
}

/// The row of each block.
///
/// # Errors
///
/// Memory was refused.
pub(crate) fn rows_of<A: Allocator + Copy, B: Allocator>(
    alloc: A,
    bytes: &Chain<'_, B>,
    table: &Table<'_>,
) -> Result<Vec<HeightRow<A>, A>, AllocError>
    requires table { IsTable bytes.now table.now }
    ensures counted { IfOk result (λ rows. vec_len rows ≡ length table.now.near.now - 1) }
    ensures piled { IfOk result (λ rows. ArePiledUp bytes.now table.now (length table.now.near.now - 1) rows.items) }
{
    let mut rows = Vec::with_capacity(alloc, table.near.len() - 1)?;
    rows.push_reserved(first_row(alloc)?);
    pile(alloc, bytes, table, &mut rows)?;
    Ok(rows)
}

// The row of the first block, which begins at the beginning of the chain.
fn first_row<A: Allocator>(alloc: A) -> Result<HeightRow<A>, AllocError>
    ensures row { IfOk result (λ row. row ≡ (0, 0 ∷ 2 ^ 62 ∷ [])) }
{
    let mut heights = Vec::new(alloc);
    heights.push(0)?;
    heights.push(NONE)?;
    Ok(HeightRow::new(0, heights))
}

// Piles a row for each further block.
fn pile<A: Allocator + Copy, B: Allocator>(
    alloc: A,
    bytes: &Chain<'_, B>,
    table: &Table<'_>,
    rows: &mut Vec<HeightRow<A>, A>,
) -> Result<(), AllocError>
    requires table { IsTable bytes.now table.now }
    requires room { vec_capacity rows.old ≡ length table.now.near.now - 1 }
    requires one { vec_len rows.old ≡ 1 }
    requires piled { ArePiledUp bytes.now table.now 1 rows.old.items }
    requires small { AreSmall bytes.now table.now 0 rows.old.items }
    ensures counted { OnOk result (vec_len rows.new ≡ length table.now.near.now - 1) }
    ensures piled { OnOk result (ArePiledUp bytes.now table.now (length table.now.near.now - 1) rows.new.items) }
{
    for b in 0..table.near.len() - 2 {
        let row = row_over(alloc, &rows[b], bytes, &sums_of(table, b))?;
        rows.push_reserved(row);
    }
    Ok(())
}

// What the row behind the cut between block b and the next is made of.
fn sums_of<'a>(table: &Table<'a>, b: usize) -> Sums<'a>
    requires counted { length table.now.far.now ≡ length table.now.near.now }
    requires present { length table.now.present.now ≡ length table.now.near.now }
    requires inside { b + 2 < length table.now.near.now }
    ensures starts { result.starts ≡ table.now.starts }
    ensures near { result.near ≡ slice_index table.now.near.now (b + 1) }
    ensures far { result.far ≡ slice_index table.now.far.now (b + 1) }
    ensures before { result.cut.before ≡ slice_index table.now.present.now b }
    ensures here { result.cut.here ≡ slice_index table.now.present.now (b + 1) }
    ensures behind { result.cut.behind ≡ slice_index table.now.present.now (b + 1 + 1) }
{
    Sums {
        starts: table.starts,
        near: table.near[b + 1],
        far: table.far[b + 1],
        cut: Standing {
            before: table.present[b],
            here: table.present[b + 1],
            behind: table.present[b + 2],
        },
    }
}
