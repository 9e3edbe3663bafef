//! Costs with discounts added: the same namings are cheapest by them, and prices that prove one prove it by the costs too.

ghost use Rattle.std.specs.Prelude.{◌≡◌, ℕ, ◌+◌, ◌*◌, ◌^◌, ◌<◌, ◌≤◌, [], length, slice_index, IfOk, OnOk};
ghost use Rattle.block_assignment.specs.Discounted.{discounted_cost, IsSettled};
ghost use Rattle.block_assignment.specs.Table.{IsMatrix, cost_at};
ghost use Rattle.block_assignment.specs.declared.limits.TheConstants.MatrixLimits.{BYTES};

use crate::costs::Costs;
use std::alloc::{AllocError, Allocator};

/// Each cost with the discount of its PE, row by row.
pub(crate) fn discounted_costs<A: Allocator + Copy>(
    alloc: A,
    table: &Costs<'_>,
    discount: &[u64],
) -> Result<Vec<u64, A>, AllocError>
    requires counted { length discount.now ≡ table.now.blocks }
    requires small { (b p : ℕ) → b < table.now.blocks → p < table.now.blocks → discounted_cost table.now discount.now b p ≤ BYTES }
    ensures matrix { IfOk result (λ costs. IsMatrix (record { blocks = table.now.blocks; costs = costs.items })) }
    ensures exact { IfOk result (λ costs. (b p : ℕ) → b < table.now.blocks → p < table.now.blocks
        → slice_index costs.items (b * table.now.blocks + p) ≡ discounted_cost table.now discount.now b p) }
{
    let blocks = table.blocks() as usize;
    let mut costs = Vec::with_capacity(alloc, blocks * blocks)?;
    let mut row = vec![in alloc; 0u64; blocks]?;
    let pushed = push_rows(&mut costs, &mut row, table, discount);
    drop(row);
    pushed?;
    Ok(costs)
}

// Puts the rows of all blocks into the empty list `costs`. `row` is room for one.
fn push_rows<A: Allocator>(
    costs: &mut Vec<u64, A>,
    row: &mut [u64],
    table: &Costs<'_>,
    discount: &[u64],
) -> Result<(), AllocError>
    requires empty { costs.old.items ≡ [] }
    requires width { length row.old ≡ table.now.blocks }
    requires counted { length discount.now ≡ table.now.blocks }
    requires small { (b p : ℕ) → b < table.now.blocks → p < table.now.blocks → discounted_cost table.now discount.now b p ≤ BYTES }
    ensures matrix { OnOk result (IsMatrix (record { blocks = table.now.blocks; costs = costs.new.items })) }
    ensures exact { OnOk result ((b p : ℕ) → b < table.now.blocks → p < table.now.blocks
        → slice_index costs.new.items (b * table.now.blocks + p) ≡ discounted_cost table.now discount.now b p) }
{
    for b in 0..table.blocks() {
        fill_row(row, table.row(b), discount);
        costs.extend_from_slice(row)?;
    }
    Ok(())
}

// The costs of one block, with the discounts.
fn fill_row(row: &mut [u64], costs: &[u64], discount: &[u64])
    requires width { length costs.now ≡ length row.old }
    requires counted { length discount.now ≡ length row.old }
    requires small { (p : ℕ) → p < length row.old → slice_index costs.now p + slice_index discount.now p ≤ BYTES }
    ensures { (p : ℕ) → p < length row.new → slice_index row.new p ≡ slice_index costs.now p + slice_index discount.now p }
{
    for p in 0..row.len() {
        row[p] = costs[p] + discount[p];
    }
}

/// Makes prices and discounts that were found by costs with these discounts prices and discounts of the costs: adds the
/// discounts, and then lowers all by the least, so that none is greater than need be.
pub(crate) fn settle(start: &[u64], price: &mut [u64], discount: &mut [u64])
    requires some { 0 < length discount.old }
    requires counted { length start.now ≡ length discount.old }
    requires small { (p : ℕ) → p < length discount.old → slice_index start.now p + slice_index discount.old p < 2 ^ 64 }
    requires high { (b : ℕ) → b < length price.old
        → (p : ℕ) × (p < length discount.old) × (slice_index start.now p + slice_index discount.old p ≤ slice_index price.old b) }
    ensures settled { IsSettled start.now price.old discount.old price.new discount.new }
{
    add_all(start, discount);
    let least = least_of(discount);
    lower_all(least, price);
    lower_all(least, discount);
}

// Adds each number to the one at the same place.
fn add_all(more: &[u64], numbers: &mut [u64])
    requires counted { length more.now ≡ length numbers.old }
    requires small { (k : ℕ) → k < length numbers.old → slice_index more.now k + slice_index numbers.old k < 2 ^ 64 }
    ensures { (k : ℕ) → k < length numbers.new → slice_index numbers.new k ≡ slice_index more.now k + slice_index numbers.old k }
{
    for k in 0..numbers.len() {
        numbers[k] += more[k];
    }
}

// The least of some numbers.
fn least_of(numbers: &[u64]) -> u64
    requires some { 0 < length numbers.now }
    ensures low { (k : ℕ) → k < length numbers.now → result ≤ slice_index numbers.now k }
    ensures reached { (k : ℕ) × (k < length numbers.now) × (slice_index numbers.now k ≡ result) }
{
    let mut least = numbers[0];
    for k in 1..numbers.len() {
        if numbers[k] < least {
            least = numbers[k];
        }
    }
    least
}

// Lowers each number by as much.
fn lower_all(by: u64, numbers: &mut [u64])
    requires high { (k : ℕ) → k < length numbers.old → by ≤ slice_index numbers.old k }
    ensures { (k : ℕ) → k < length numbers.new → slice_index numbers.new k + by ≡ slice_index numbers.old k }
{
    for k in 0..numbers.len() {
        numbers[k] -= by;
    }
}
