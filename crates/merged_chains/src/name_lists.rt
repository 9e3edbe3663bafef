//! Names of the blocks by a table, for callers that have plain lists. The table has the bytes of the first block that are on each
//! PE, those of the second, and so on, of as many PEs as blocks. Those of one PE are what
//! [`write_block_bytes`](crate::write_block_bytes) writes on it.

ghost use Rattle.std.specs.Prelude.{◌≡◌, ◌≢◌, ℕ, ◌*◌, ◌≤◌, ◌<◌, [], None, Ok, MatchOption, IfOk, IfErr, OnOk, OnErr, length};
ghost use Rattle.block_assignment.specs.Table.{cost_at, AreWithin};
ghost use Rattle.lb_certificates.specs.Held.{held_cost, held_moved, IsNamedBy, WhereHeld};
ghost use Rattle.lb_certificates.specs.Naming.{bytes_moved, naming_cost, IsCheapest, IsFirstCheapest, IsLeastNaming, IsNaming, Proves};
ghost use Rattle.merged_chains.specs.Lists.{IsNamesAsked, IsPartRefusal, IsTableAsked};
ghost use Rattle.merged_chains.specs.Named.{IsFirstNamesFlaw, AreRightBy};

use crate::error::PartError;
use block_assignment::{CostMatrix, name_blocks_of};
use lb_certificates::{Flaw, Naming, PriceList, Prices, check_held};
use std::alloc::{AllocError, Allocator};

/// Names the blocks of a table so that the fewest bytes move: of such names the first in dictionary order. It writes the name of
/// each block and prices that prove the names cheapest, and returns the bytes that move.
///
/// # Errors
///
/// [`PartError::BadInput`] for no blocks or more than 4,096, where a list does not have the length that it needs, or where all bytes add
/// up to more than 2^47; then [`PartError::OutOfMemory`]. After an error nothing was written.
pub fn name_table<A: Allocator + Copy>(
    alloc: A,
    held: &[u64],
    pes: u32,
    names: &mut [u32],
    block_prices: &mut [i64],
    pe_prices: &mut [i64],
) -> Result<u64, PartError>
    ensures least { OnOk result (IsFirstCheapest pes (held_moved pes held.now) names.new) }
    ensures moved { IfOk result (λ moved. moved ≡ held_moved pes held.now names.new) }
    ensures proved { IfOk result (λ moved. Proves pes (held_cost pes held.now) moved block_prices.new pe_prices.new) }
    ensures bounded { IfOk result (λ _. (most : ℕ) → ((b p : ℕ) → b < pes → p < pes → held_cost pes held.now b p ≤ most)
        → AreWithin most block_prices.new pe_prices.new) }
    ensures of_blocks { WhereHeld pes held.now (λ sizes cuts. OnOk result (IsLeastNaming sizes cuts pes names.new)) }
    ensures moved_of_blocks { WhereHeld pes held.now (λ sizes cuts. IfOk result (λ moved. moved ≡ bytes_moved sizes cuts names.new)) }
    ensures asked { OnOk result (IsNamesAsked pes held.now names.old block_prices.old pe_prices.old) }
    ensures refused { IfErr result (IsPartRefusal (IsNamesAsked pes held.now names.old block_prices.old pe_prices.old) []) }
    ensures kept { OnErr result ((names.new ≡ names.old) × (block_prices.new ≡ block_prices.old) × (pe_prices.new ≡ pe_prices.old)) }
{
    let blocks = pes as usize;
    if names.len() != blocks || block_prices.len() != blocks || pe_prices.len() != blocks {
        return Err(PartError::BadInput);
    }
    let matrix = CostMatrix::of_held(alloc, held, pes)?;
    let (naming, prices) = name_blocks_of(alloc, &matrix)?;
    let moved = moved_by(&matrix, naming.as_slice());
    names.copy_from_slice(naming.as_slice());
    block_prices.copy_from_slice(prices.u.as_slice());
    pe_prices.copy_from_slice(prices.v.as_slice());
    Ok(moved)
}

// What a naming costs by a matrix: the bytes that it moves.
fn moved_by<A: Allocator>(matrix: &CostMatrix<A>, names: &[u32]) -> u64
    requires naming { IsNaming matrix.now.blocks names.now }
    ensures value { result ≡ naming_cost matrix.now.blocks (cost_at matrix.now) names.now }
{
    let mut moved = 0;
    for b in 0..matrix.blocks() {
        moved += matrix.cost(b, names[b as usize]);
    }
    moved
}

/// Checks names of the blocks of a table, with prices that are to prove them cheapest and the bytes that are said to move, whoever
/// found them, and returns the first flaw: that of [`check_held`], and then [`MovedWrong`](Flaw::MovedWrong). The names and the
/// prices may be any lists.
///
/// # Errors
///
/// [`PartError::BadInput`] for no blocks, or where there is not a number for each block and each PE; then
/// [`PartError::OutOfMemory`], where copies of the names and the prices were refused.
pub fn check_names<A: Allocator + Copy>(
    alloc: A,
    held: &[u64],
    pes: u32,
    names: &[u32],
    block_prices: &[i64],
    pe_prices: &[i64],
    moved: u64,
) -> Result<Option<Flaw>, PartError>
    ensures exact { IfOk result (λ flaw. MatchOption flaw (AreRightBy pes held.now names.now block_prices.now pe_prices.now moved)
        (IsFirstNamesFlaw pes held.now names.now block_prices.now pe_prices.now moved)) }
    ensures cheapest { WhereHeld pes held.now (λ sizes cuts. result ≡ Ok None → IsCheapest sizes cuts pes names.now) }
    ensures moved_of_blocks { WhereHeld pes held.now (λ sizes cuts. result ≡ Ok None → moved ≡ bytes_moved sizes cuts names.now) }
    ensures asked { OnOk result (IsTableAsked pes held.now) }
    ensures refused { IfErr result (IsPartRefusal (IsTableAsked pes held.now) []) }
{
    if pes == 0 || held.len() as u64 != u64::from(pes) * u64::from(pes) {
        return Err(PartError::BadInput);
    }
    let naming = Naming::new(Vec::from_slice(alloc, names)?);
    let prices = prices_from(alloc, block_prices, pe_prices)?;
    match check_held(held, pes, &naming, &prices) {
        Ok(found) if found == u128::from(moved) => Ok(None),
        Ok(_) => Ok(Some(Flaw::MovedWrong)),
        Err(flaw) => Ok(Some(flaw)),
    }
}

// The prices in these lists.
fn prices_from<A: Allocator + Copy>(
    alloc: A,
    block_prices: &[i64],
    pe_prices: &[i64],
) -> Result<Prices<A>, AllocError>
    ensures blocks { IfOk result (λ p. p.u ≡ block_prices.now) }
    ensures pes { IfOk result (λ p. p.v ≡ pe_prices.now) }
{
    Ok(Prices {
        u: PriceList::new(Vec::from_slice(alloc, block_prices)?),
        v: PriceList::new(Vec::from_slice(alloc, pe_prices)?),
    })
}
