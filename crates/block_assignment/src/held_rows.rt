//! The costs of blocks of which only a table is known: the bytes of each that are on each PE.

ghost use Rattle.std.specs.Prelude.{◌≡◌, ℕ, ◌<◌, ◌≤◌, [], length, slice_index, sum, IfErr, IfOk, OnOk};
ghost use Rattle.lb_certificates.specs.Held.{row_cost};
ghost use Rattle.block_assignment.specs.Held.{AreHeldBytes, HasHeldCosts, IsHeldRefusal};
ghost use Rattle.block_assignment.specs.Table.{IsMatrix};
ghost use Rattle.block_assignment.specs.declared.limits.TheConstants.MatrixLimits.{BYTES};

use crate::error::CostError;
use crate::limits::MatrixLimits;
use lb_certificates::total;
use std::alloc::{AllocError, Allocator};

/// Whether this is a table within the limits, and what is wrong first where it is not.
pub(crate) fn check_table(held: &[u64], blocks: u32) -> Result<(), CostError>
    ensures accepted { OnOk result (AreHeldBytes blocks held.now) }
    ensures refused { IfErr result (IsHeldRefusal blocks held.now) }
{
    if held.len() as u64 != u64::from(blocks) * u64::from(blocks) {
        return Err(CostError::Unpaired);
    }
    if blocks == 0 || blocks > MatrixLimits::BLOCKS {
        return Err(CostError::BlockCount);
    }
    if total(held) > u128::from(MatrixLimits::BYTES) {
        return Err(CostError::TooManyBytes);
    }
    Ok(())
}

/// The costs of all blocks, block by block.
pub(crate) fn costs_by_table<A: Allocator + Copy>(
    alloc: A,
    held: &[u64],
    blocks: u32,
) -> Result<Vec<u64, A>, AllocError>
    requires { AreHeldBytes blocks held.now }
    ensures matrix { IfOk result (λ costs. IsMatrix (record { blocks = blocks; costs = costs.items })) }
    ensures exact { IfOk result (λ costs. HasHeldCosts blocks held.now (record { blocks = blocks; costs = costs.items })) }
{
    let mut costs = Vec::with_capacity(alloc, held.len())?;
    let mut row = vec![in alloc; 0u64; blocks as usize]?;
    let pushed = push_rows(&mut costs, &mut row, held, blocks);
    drop(row);
    pushed?;
    Ok(costs)
}

// Puts the costs of all blocks, block by block, into the empty list `costs`. `row` is room for those of one block.
fn push_rows<A: Allocator>(
    costs: &mut Vec<u64, A>,
    row: &mut [u64],
    held: &[u64],
    blocks: u32,
) -> Result<(), AllocError>
    requires empty { costs.old.items ≡ [] }
    requires width { length row.old ≡ blocks }
    requires bytes { AreHeldBytes blocks held.now }
    ensures matrix { OnOk result (IsMatrix (record { blocks = blocks; costs = costs.new.items })) }
    ensures exact { OnOk result (HasHeldCosts blocks held.now (record { blocks = blocks; costs = costs.new.items })) }
{
    for b in 0..blocks {
        let start = b as usize * blocks as usize;
        fill_row(row, &held[start..start + blocks as usize]);
        costs.extend_from_slice(row)?;
    }
    Ok(())
}

// What the block with these bytes on each PE costs there: all its bytes, less those.
fn fill_row(row: &mut [u64], held: &[u64])
    requires width { length held.now ≡ length row.old }
    requires small { sum held.now ≤ BYTES }
    ensures { (p : ℕ) → p < length row.new → slice_index row.new p ≡ row_cost held.now p }
{
    let all = total(held) as u64;
    for p in 0..row.len() {
        row[p] = all - held[p];
    }
}
