//! The search for the cheapest naming of the blocks: of all cheapest ones, the first in dictionary order.

ghost use Rattle.std.specs.Prelude.{◌≡◌, ℕ, ◌+◌, ◌*◌, ◌<◌, ◌≤◌, List, IfOk, IfErr, OnOk, length, slice_index, pos, neg_ℤ};
ghost use Rattle.lb_certificates.specs.Naming.{IsFirstCheapest, IsNaming, Proves, naming_cost, price_at};
ghost use Rattle.block_assignment.specs.declared.error.NameError.TheVariants.{OutOfMemory};
ghost use Rattle.block_assignment.specs.declared.limits.TheConstants.MatrixLimits.{BLOCKS, BYTES};
ghost use Rattle.block_assignment.specs.Search.{IsTight};
ghost use Rattle.block_assignment.specs.Table.{Table, cost_at, greatest, AreWithin};

use crate::block_set::{BlockSets, words_for};
use crate::cheapest_names::cheapest;
use crate::costs::Costs;
use crate::error::NameError;
use crate::least::make_least;
use crate::matrix::CostMatrix;
use crate::table::CostTable;
use crate::takers::write_takers;
use lb_certificates::{Naming, PriceList, Prices};
use std::alloc::{AllocError, Allocator};

/// The least naming of the blocks of this table: of the cheapest namings the first in dictionary order, with prices
/// that prove it cheapest. So the table determines the names; which prices prove them is left open. Prices of blocks
/// are 0 to the greatest cost of the table, and those of PEs 0 down to as much below 0.
///
/// # Errors
///
/// [`OutOfMemory`](NameError::OutOfMemory) where a list was refused.
pub fn name_blocks<A: Allocator + Copy, B: Allocator>(
    alloc: A,
    table: &CostTable<B>,
) -> Result<(Naming<A>, Prices<A>), NameError>
    ensures naming { IfOk result (λ answer. IsNaming table.now.blocks answer.0) }
    ensures proved { IfOk result (λ answer. Proves table.now.blocks (cost_at table.now) (naming_cost table.now.blocks (cost_at table.now) answer.0) answer.1.u answer.1.v) }
    ensures cheapest { IfOk result (λ answer. (others : List ℕ) → IsNaming table.now.blocks others
        → naming_cost table.now.blocks (cost_at table.now) answer.0 ≤ naming_cost table.now.blocks (cost_at table.now) others) }
    ensures least_naming { IfOk result (λ answer. IsFirstCheapest table.now.blocks (naming_cost table.now.blocks (cost_at table.now)) answer.0) }
    ensures bounded { IfOk result (λ answer. AreWithin (greatest table.now.costs) answer.1.u answer.1.v) }
    ensures only_memory { IfErr result (λ error. error ≡ OutOfMemory) }
{
    name_by(alloc, &table.as_costs())
}

/// The least naming of the blocks of this matrix, as [`name_blocks`] finds it, with its prices.
///
/// # Errors
///
/// [`OutOfMemory`](NameError::OutOfMemory) where a list was refused.
pub fn name_blocks_of<A: Allocator + Copy, B: Allocator>(
    alloc: A,
    matrix: &CostMatrix<B>,
) -> Result<(Naming<A>, Prices<A>), NameError>
    ensures naming { IfOk result (λ answer. IsNaming matrix.now.blocks answer.0) }
    ensures proved { IfOk result (λ answer. Proves matrix.now.blocks (cost_at matrix.now) (naming_cost matrix.now.blocks (cost_at matrix.now) answer.0) answer.1.u answer.1.v) }
    ensures cheapest { IfOk result (λ answer. (others : List ℕ) → IsNaming matrix.now.blocks others
        → naming_cost matrix.now.blocks (cost_at matrix.now) answer.0 ≤ naming_cost matrix.now.blocks (cost_at matrix.now) others) }
    ensures least_naming { IfOk result (λ answer. IsFirstCheapest matrix.now.blocks (naming_cost matrix.now.blocks (cost_at matrix.now)) answer.0) }
    ensures bounded { IfOk result (λ answer. AreWithin (greatest matrix.now.costs) answer.1.u answer.1.v) }
    ensures only_memory { IfErr result (λ error. error ≡ OutOfMemory) }
{
    name_by(alloc, &matrix.as_costs())
}

// The least naming by any costs, with its prices.
fn name_by<A: Allocator + Copy>(
    alloc: A,
    table: &Costs<'_>,
) -> Result<(Naming<A>, Prices<A>), NameError>
    ensures naming { IfOk result (λ answer. IsNaming table.now.blocks answer.0) }
    ensures proved { IfOk result (λ answer. Proves table.now.blocks (cost_at table.now) (naming_cost table.now.blocks (cost_at table.now) answer.0) answer.1.u answer.1.v) }
    ensures cheapest { IfOk result (λ answer. (others : List ℕ) → IsNaming table.now.blocks others
        → naming_cost table.now.blocks (cost_at table.now) answer.0 ≤ naming_cost table.now.blocks (cost_at table.now) others) }
    ensures least_naming { IfOk result (λ answer. IsFirstCheapest table.now.blocks (naming_cost table.now.blocks (cost_at table.now)) answer.0) }
    ensures bounded { IfOk result (λ answer. AreWithin (greatest table.now.costs) answer.1.u answer.1.v) }
    ensures only_memory { IfErr result (λ error. error ≡ OutOfMemory) }
{
    let blocks = table.blocks() as usize;
    let mut u = vec![in alloc; 0i64; blocks]?;
    let mut v = vec![in alloc; 0i64; blocks]?;
    let names = name_and_price(alloc, table, &mut u, &mut v)?;
    let prices = Prices {
        u: PriceList::new(u),
        v: PriceList::new(v),
    };
    Ok((Naming::new(names), prices))
}

// The least naming. The prices of the blocks are written into `u`, and those of the PEs into `v`.
fn name_and_price<A: Allocator + Copy>(
    alloc: A,
    table: &Costs<'_>,
    u: &mut [i64],
    v: &mut [i64],
) -> Result<Vec<u32, A>, AllocError>
    requires blocks { length u.old ≡ table.now.blocks }
    requires pes { length v.old ≡ table.now.blocks }
    ensures naming { IfOk result (λ names. IsNaming table.now.blocks names.items) }
    ensures proved { IfOk result (λ names. Proves table.now.blocks (cost_at table.now) (naming_cost table.now.blocks (cost_at table.now) names.items) u.new v.new) }
    ensures least_naming { IfOk result (λ names. IsFirstCheapest table.now.blocks (naming_cost table.now.blocks (cost_at table.now)) names.items) }
    ensures bounded { IfOk result (λ _. AreWithin (greatest table.now.costs) u.new v.new) }
{
    let blocks = table.blocks() as usize;
    let mut room = vec![in alloc; 0; blocks]?;
    let (mut names, price, discount) = cheapest(alloc, table, &mut room)?;
    write_block_prices(&price, u);
    write_pe_prices(&discount, v);
    let renamed = rename(alloc, table, &price, &discount, &mut room, &mut names);
    drop(room);
    drop(price);
    drop(discount);
    renamed?;
    Ok(names)
}

// Of all cheapest namings, the first in dictionary order. The prices stay as they are: the cheapest namings are those
// that use only pairs whose prices add up to their cost. `next` is room for the search.
fn rename<A: Allocator + Copy>(
    alloc: A,
    table: &Costs<'_>,
    price: &[u64],
    discount: &[u64],
    next: &mut [u32],
    names: &mut [u32],
) -> Result<(), AllocError>
    requires tight { IsTight table.now.blocks (cost_at table.now) price.now discount.now names.old }
    requires price { length price.now ≡ table.now.blocks }
    requires discounts { length discount.now ≡ table.now.blocks }
    requires small { (p : ℕ) → p < length discount.now → slice_index discount.now p ≤ BYTES }
    requires next { length next.old ≡ table.now.blocks }
    ensures tight { OnOk result (IsTight table.now.blocks (cost_at table.now) price.now discount.now names.new) }
    ensures least_naming { OnOk result (IsFirstCheapest table.now.blocks (naming_cost table.now.blocks (cost_at table.now)) names.new) }
{
    let blocks = table.blocks();
    let width = words_for(blocks);
    let mut sets = vec![in alloc; 0u64; (blocks as usize + 2) * width]?;
    rename_with(table, price, discount, width, &mut sets, next, names);
    Ok(())
}

// Renames as `rename` does. `sets` is room for `width` words for each PE, and twice as many for the search; all bits are 0.
fn rename_with(
    table: &Costs<'_>,
    price: &[u64],
    discount: &[u64],
    width: usize,
    sets: &mut [u64],
    next: &mut [u32],
    names: &mut [u32],
)
    requires tight { IsTight table.now.blocks (cost_at table.now) price.now discount.now names.old }
    requires price { length price.now ≡ table.now.blocks }
    requires discounts { length discount.now ≡ table.now.blocks }
    requires small { (p : ℕ) → p < length discount.now → slice_index discount.now p ≤ BYTES }
    requires wide { table.now.blocks ≤ 64 * width }
    requires narrow { width ≤ BLOCKS }
    requires sets { length sets.old ≡ (table.now.blocks + 2) * width }
    requires none { (w : ℕ) → w < length sets.old → slice_index sets.old w ≡ 0 }
    requires next { length next.old ≡ table.now.blocks }
    ensures tight { IsTight table.now.blocks (cost_at table.now) price.now discount.now names.new }
    ensures least_naming { IsFirstCheapest table.now.blocks (naming_cost table.now.blocks (cost_at table.now)) names.new }
{
    let blocks = table.blocks();
    let (words, room) = sets.split_at_mut(blocks as usize * width);
    let (left, waiting) = room.split_at_mut(width);
    write_takers(table, price, discount, width, words);
    let takers = BlockSets::new(blocks, width, words);
    make_least(&takers, left, waiting, next, names);
}

// Writes the prices of the blocks as dual values.
fn write_block_prices(price: &[u64], prices: &mut [i64])
    requires counted { length prices.old ≡ length price.now }
    requires small { (b : ℕ) → b < length price.now → slice_index price.now b ≤ BYTES }
    ensures { (b : ℕ) → b < length price.now → price_at prices.new b ≡ pos (slice_index price.now b) }
{
    for b in 0..price.len() {
        prices[b] = price[b] as i64;
    }
}

// Writes the dual values of the PEs: their discounts with the sign changed.
fn write_pe_prices(discount: &[u64], prices: &mut [i64])
    requires counted { length prices.old ≡ length discount.now }
    requires small { (p : ℕ) → p < length discount.now → slice_index discount.now p ≤ BYTES }
    ensures { (p : ℕ) → p < length discount.now → price_at prices.new p ≡ neg_ℤ (pos (slice_index discount.now p)) }
{
    for p in 0..discount.len() {
        prices[p] = -(discount[p] as i64);
    }
}
