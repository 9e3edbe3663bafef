//! The table of heights: one step function for each block.

ghost use Rattle.std.specs.Prelude.{◌≡◌, ℕ, ◌+◌, ◌^◌, ◌<◌, ◌≤◌, [], ◌∷◌, IfOk, OnOk, length, slice_index, vec_capacity, vec_len};
ghost use Rattle.chain_refinement.specs.Refinement.{height_at};
ghost use Rattle.refinement_search.specs.Chains.{ArePiledOn, IsSpanned};
ghost use Rattle.refinement_search.specs.Rows.{AreTopped};

use crate::level::steps_of;
use crate::row::{Sides, Span, write_row};
use chain_refinement::{Heights, Steps};
use chare_index::Pe;
use std::alloc::{AllocError, Allocator};

// A height that no cuts reach.
const NONE: u64 = 1 << 62;

/// What rows are made of.
#[derive(Clone, Copy)]
pub(crate) struct RowInputs<'a> {
    /// The bytes of each element, and the PE that it is on.
    pub(crate) sizes: &'a [(u32, Pe)],
    /// The PEs, in order.
    pub(crate) names: &'a [u32],
    /// The present cuts.
    pub(crate) present: &'a [u32],
    /// The least start of a block that ends at each place.
    pub(crate) starts: &'a [u32],
    /// The first place of each row.
    pub(crate) near: &'a [u32],
    /// The last place of each row.
    pub(crate) far: &'a [u32],
}

/// The heights of each block.
///
/// # Errors
///
/// Memory was refused.
pub(crate) fn heights_of<A: Allocator + Copy>(
    alloc: A,
    chain: &RowInputs<'_>,
) -> Result<Heights<A>, AllocError>
    requires chain { IsSpanned chain.now }
    ensures counted { IfOk result (λ heights. length heights ≡ length chain.now.names.now) }
    ensures piled { IfOk result (λ heights. ArePiledOn chain.now (length chain.now.names.now) (height_at heights)) }
{
    let mut row = vec![in alloc; NONE; chain.starts.len()]?;
    row[0] = 0;
    let mut rows = Vec::with_capacity(alloc, chain.names.len())?;
    rows.push_reserved(first_steps(alloc)?);
    pile(alloc, chain, &mut row, &mut rows)?;
    Ok(Heights::new(rows))
}

// The heights of the first block, which begins at the beginning of the chain.
fn first_steps<A: Allocator>(alloc: A) -> Result<Steps<A>, AllocError>
    ensures steps { IfOk result (λ steps. steps ≡ (1, 2 ^ 62) ∷ []) }
{
    let mut steps = Vec::new(alloc);
    steps.push((1, NONE))?;
    Ok(Steps::new(steps))
}

// Piles a row for each further block.
fn pile<A: Allocator + Copy>(
    alloc: A,
    chain: &RowInputs<'_>,
    row: &mut [u64],
    rows: &mut Vec<Steps<A>, A>,
) -> Result<(), AllocError>
    requires chain { IsSpanned chain.now }
    requires counted { length row.old ≡ length chain.now.starts.now }
    requires room { vec_capacity rows.old ≡ length chain.now.names.now }
    requires one { vec_len rows.old ≡ 1 }
    requires topped { AreTopped (slice_index chain.now.near.now 0) (slice_index chain.now.far.now 0) 0 rows.old.items row.old }
    requires piled { ArePiledOn chain.now 1 (height_at rows.old.items) }
    ensures counted { OnOk result (vec_len rows.new ≡ length chain.now.names.now) }
    ensures piled { OnOk result (ArePiledOn chain.now (length chain.now.names.now) (height_at rows.new.items)) }
{
    for b in 0..chain.names.len() - 1 {
        write_row(
            chain.sizes,
            chain.starts,
            span_of(chain, b),
            sides_of(chain, b),
            row,
        );
        rows.push_reserved(steps_of(alloc, row, chain.near[b + 1], chain.far[b + 1])?);
    }
    Ok(())
}

// The places of the row behind the cut between block b and the next.
fn span_of(chain: &RowInputs<'_>, b: usize) -> Span
    requires chain { IsSpanned chain.now }
    requires inside { b + 1 < length chain.now.names.now }
    ensures below { result.below ≡ slice_index chain.now.near.now b }
    ensures near { result.near ≡ slice_index chain.now.near.now (b + 1) }
    ensures present { result.present ≡ slice_index chain.now.present.now (b + 1) }
    ensures far { result.far ≡ slice_index chain.now.far.now (b + 1) }
{
    Span {
        below: chain.near[b],
        near: chain.near[b + 1],
        present: chain.present[b + 1],
        far: chain.far[b + 1],
    }
}

// The PEs on both sides of that cut.
fn sides_of(chain: &RowInputs<'_>, b: usize) -> Sides
    requires inside { b + 1 < length chain.now.names.now }
    ensures from { result.from ≡ slice_index chain.now.names.now b }
    ensures to { result.to ≡ slice_index chain.now.names.now (b + 1) }
{
    Sides {
        from: chain.names[b],
        to: chain.names[b + 1],
    }
}
