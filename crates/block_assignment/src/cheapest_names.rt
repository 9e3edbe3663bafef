//! A cheapest naming, with prices that prove it. The search begins without discounts. Where its trees become large while
//! few blocks have names, many blocks want the same PEs: then it begins anew, with discounts by which they do not.

ghost use Rattle.std.specs.Prelude.{◌≡◌, ℕ, ◌*◌, ◌<◌, ◌≤◌, IfOk, IsTrue, length, slice_index};
ghost use Rattle.block_assignment.specs.Search.{State, IsMatched, IsSized, IsSmall, IsTight};
ghost use Rattle.block_assignment.specs.Table.{Table, cost_at, greatest};
ghost use Rattle.block_assignment.specs.declared.limits.TheConstants.MatrixLimits.{BYTES};

use crate::auction::bid_discounts;
use crate::costs::Costs;
use crate::discounted::{discounted_costs, settle};
use crate::search::Search;
use chare_index::Limits;
use std::alloc::{AllocError, Allocator};

// This many blocks, as a dump has at most, are always named without an auction. So the prices in dumps are those of the
// search alone.
const FEW: u32 = Limits::PES;

// A search that names half of the blocks scans fewer PEs for each block of the table, where they want different PEs.
const EARLY: u64 = 4;

// After this many scans for each block an auction takes no longer than the search so far.
const LATE: u64 = 64;

/// A cheapest naming, the price of each block and the discount of each PE. `to_scan` is room for the PEs that a tree has
/// not scanned.
pub(crate) fn cheapest<A: Allocator + Copy>(
    alloc: A,
    table: &Costs<'_>,
    to_scan: &mut [u32],
) -> Result<(Vec<u32, A>, Vec<u64, A>, Vec<u64, A>), AllocError>
    requires room { length to_scan.old ≡ table.now.blocks }
    ensures tight { IfOk result (λ parts. IsTight table.now.blocks (cost_at table.now) parts.1.items parts.2.items parts.0.items) }
    ensures price { IfOk result (λ parts. length parts.1.items ≡ table.now.blocks) }
    ensures discounts { IfOk result (λ parts. length parts.2.items ≡ table.now.blocks) }
    ensures prices_small { IfOk result (λ parts. (b : ℕ) → b < table.now.blocks → slice_index parts.1.items b ≤ greatest table.now.costs) }
    ensures discounts_small { IfOk result (λ parts. (p : ℕ) → p < table.now.blocks → slice_index parts.2.items p ≤ greatest table.now.costs) }
    ensures costs_small { IfOk result (λ _. greatest table.now.costs ≤ BYTES) }
{
    let blocks = table.blocks();
    let mut search = Search::new(alloc, table)?;
    if name_while_short(&mut search, blocks, to_scan) {
        return Ok(search.into_parts());
    }
    drop(search);
    cheapest_by_auction(alloc, table, to_scan)
}

// Names the blocks, none of which has a name, as long as that is short, and returns whether all have names.
fn name_while_short<A: Allocator>(
    search: &mut Search<'_, A>,
    blocks: u32,
    to_scan: &mut [u32],
) -> bool
    requires sized { IsSized search.old }
    requires matched { IsMatched search.old }
    requires small { IsSmall search.old }
    requires none_named { search.old.named ≡ 0 }
    requires blocks { blocks ≡ search.old.table.blocks }
    requires room { length to_scan.old ≡ blocks }
    ensures sized { IsSized search.new }
    ensures matched { IsMatched search.new }
    ensures small { IsSmall search.new }
    ensures named { IsTrue result → search.new.named ≡ blocks }
    ensures table { search.new.table ≡ search.old.table }
{
    let mut scanned = 0u64;
    for b in 0..blocks {
        if is_long(b, blocks, scanned) {
            return false;
        }
        scanned += u64::from(search.name_next(to_scan));
    }
    true
}

// Whether an auction is worth its time, where this many PEs were scanned to name this many of the blocks.
fn is_long(named: u32, blocks: u32, scanned: u64) -> bool {
    let most = if named < blocks / 2 { EARLY } else { LATE };
    blocks > FEW && scanned > u64::from(blocks) * most
}

// A cheapest naming with its prices, by a search that begins with the discounts of an auction: it names the blocks by costs
// with these discounts added.
fn cheapest_by_auction<A: Allocator + Copy>(
    alloc: A,
    table: &Costs<'_>,
    to_scan: &mut [u32],
) -> Result<(Vec<u32, A>, Vec<u64, A>, Vec<u64, A>), AllocError>
    requires room { length to_scan.old ≡ table.now.blocks }
    ensures tight { IfOk result (λ parts. IsTight table.now.blocks (cost_at table.now) parts.1.items parts.2.items parts.0.items) }
    ensures price { IfOk result (λ parts. length parts.1.items ≡ table.now.blocks) }
    ensures discounts { IfOk result (λ parts. length parts.2.items ≡ table.now.blocks) }
    ensures prices_small { IfOk result (λ parts. (b : ℕ) → b < table.now.blocks → slice_index parts.1.items b ≤ greatest table.now.costs) }
    ensures discounts_small { IfOk result (λ parts. (p : ℕ) → p < table.now.blocks → slice_index parts.2.items p ≤ greatest table.now.costs) }
    ensures costs_small { IfOk result (λ _. greatest table.now.costs ≤ BYTES) }
{
    let start = bid_discounts(alloc, table)?;
    let costs = discounted_costs(alloc, table, &start)?;
    let (names, mut price, mut discount) = cheapest_by_search(
        alloc,
        &Costs::new(table.blocks(), &costs),
        to_scan,
    )?;
    drop(costs);
    settle(&start, &mut price, &mut discount);
    drop(start);
    Ok((names, price, discount))
}

// A cheapest naming with its prices, by a search that begins without discounts.
fn cheapest_by_search<A: Allocator + Copy>(
    alloc: A,
    table: &Costs<'_>,
    to_scan: &mut [u32],
) -> Result<(Vec<u32, A>, Vec<u64, A>, Vec<u64, A>), AllocError>
    requires room { length to_scan.old ≡ table.now.blocks }
    ensures tight { IfOk result (λ parts. IsTight table.now.blocks (cost_at table.now) parts.1.items parts.2.items parts.0.items) }
    ensures price { IfOk result (λ parts. length parts.1.items ≡ table.now.blocks) }
    ensures discounts { IfOk result (λ parts. length parts.2.items ≡ table.now.blocks) }
    ensures prices_small { IfOk result (λ parts. (b : ℕ) → b < table.now.blocks → slice_index parts.1.items b ≤ greatest table.now.costs) }
    ensures discounts_small { IfOk result (λ parts. (p : ℕ) → p < table.now.blocks → slice_index parts.2.items p ≤ greatest table.now.costs) }
    ensures costs_small { IfOk result (λ _. greatest table.now.costs ≤ BYTES) }
{
    let blocks = table.blocks();
    let mut search = Search::new(alloc, table)?;
    name_all(&mut search, blocks, to_scan);
    Ok(search.into_parts())
}

// Names all blocks, none of which has a name. `to_scan` is room for the PEs that a tree has not scanned.
fn name_all<A: Allocator>(search: &mut Search<'_, A>, blocks: u32, to_scan: &mut [u32])
    requires sized { IsSized search.old }
    requires matched { IsMatched search.old }
    requires small { IsSmall search.old }
    requires none_named { search.old.named ≡ 0 }
    requires blocks { blocks ≡ search.old.table.blocks }
    requires room { length to_scan.old ≡ blocks }
    ensures sized { IsSized search.new }
    ensures matched { IsMatched search.new }
    ensures small { IsSmall search.new }
    ensures named { search.new.named ≡ blocks }
    ensures table { search.new.table ≡ search.old.table }
{
    for _ in 0..blocks {
        search.name_next(to_scan);
    }
}
