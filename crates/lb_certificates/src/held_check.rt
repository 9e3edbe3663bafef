//! Checks a naming against a table of the bytes that each PE holds of each block, without the elements.

ghost use Rattle.std.specs.Prelude.{◌≡◌, ℕ, ◌+◌, ◌*◌, ◌^◌, ◌<◌, ◌≤◌, ◌↔◌, length, slice_index, sum, IsOk, IfOk, OnOk, IfErr, MatchOption, List, ℤ, pos, ◌+ℤ◌, ◌<ℤ◌, ◌≤ℤ◌};
ghost use Rattle.lb_certificates.specs.Flaws.{IsFirst};
ghost use Rattle.lb_certificates.specs.Held.{held_cost, held_moved, row_cost, row_of, HasHeldFlaw, IsFirstAbove, IsNamedBy, WhereHeld};
ghost use Rattle.lb_certificates.specs.Naming.{bytes_moved, price_at, IsCheapest, IsNamedWithin, IsNaming, Proves};

use crate::flaw::Flaw;
use crate::naming::Naming;
use crate::naming_check::{all_apart, all_below, sum_of};
use crate::prices::Prices;
use crate::sums::small_total;
use std::alloc::Allocator;

/// Checks a naming of `blocks` blocks by a table alone, whoever added it up, and returns the bytes moved. `held` has the bytes
/// of the first block that are on each PE, those of the second, and so on, of as many PEs as blocks.
///
/// Where the table is that of some elements and cuts, and each element is on one of these PEs, `Ok` means what it means of
/// [`check_naming_of`](crate::check_naming_of). So each rank adds up what it has of each block, and no rank sees all elements.
///
/// No memory is taken. Bytes and prices are added up in 128 bits.
///
/// # Errors
///
/// The first [`Flaw`] that applies, in their order. [`CutCount`](Flaw::CutCount) means that there is no block.
pub fn check_held<B: Allocator>(
    held: &[u64],
    blocks: u32,
    naming: &Naming<B>,
    prices: &Prices<B>,
) -> Result<u128, Flaw>
    requires table { length held.now ≡ blocks * blocks }
    ensures exact { IsOk result ↔ IsNamedBy blocks held.now naming.now prices.now.u prices.now.v }
    ensures moved { IfOk result (λ moved. moved ≡ held_moved blocks held.now naming.now) }
    ensures first_flaw { IfErr result (IsFirst (HasHeldFlaw blocks held.now naming.now prices.now.u prices.now.v)) }
    ensures of_blocks { WhereHeld blocks held.now (λ sizes cuts. IsOk result ↔ IsNamedWithin blocks sizes cuts naming.now prices.now.u prices.now.v) }
    ensures moved_of_blocks { WhereHeld blocks held.now (λ sizes cuts. IfOk result (λ moved. moved ≡ bytes_moved sizes cuts naming.now)) }
    ensures cheapest { WhereHeld blocks held.now (λ sizes cuts. OnOk result (IsCheapest sizes cuts blocks naming.now)) }
{
    check_table(
        held,
        blocks,
        naming.as_slice(),
        prices.u.as_slice(),
        prices.v.as_slice(),
    )
}

// What it checks, of the numbers alone.
fn check_table(held: &[u64], blocks: u32, names: &[u32], u: &[i64], v: &[i64]) -> Result<u128, Flaw>
    requires table { length held.now ≡ blocks * blocks }
    ensures named { OnOk result (IsNamedBy blocks held.now names.now u.now v.now) }
    ensures moved { IfOk result (λ moved. moved ≡ held_moved blocks held.now names.now) }
    ensures first_flaw { IfErr result (IsFirst (HasHeldFlaw blocks held.now names.now u.now v.now)) }
{
    check_table_names(blocks, names)?;
    check_table_prices(held, blocks, names, u, v)
}

// The flaws of the number of blocks and of the names.
fn check_table_names(blocks: u32, names: &[u32]) -> Result<(), Flaw>
    ensures some_block { OnOk result (0 < blocks) }
    ensures naming { OnOk result (IsNaming blocks names.now) }
    ensures first_flaw { IfErr result (λ flaw. (held : List ℕ) (u v : List ℤ) → IsFirst (HasHeldFlaw blocks held names.now u v) flaw) }
{
    if blocks == 0 {
        return Err(Flaw::CutCount);
    }
    if names.len() != blocks as usize {
        return Err(Flaw::NameCount);
    }
    if !all_below(names, blocks) {
        return Err(Flaw::NameRange);
    }
    if !all_apart(names) {
        return Err(Flaw::NameTwice);
    }
    Ok(())
}

// The first flaw of the prices or, where there is none, the bytes moved.
fn check_table_prices(
    held: &[u64],
    blocks: u32,
    names: &[u32],
    u: &[i64],
    v: &[i64],
) -> Result<u128, Flaw>
    requires table { length held.now ≡ blocks * blocks }
    requires some_block { 0 < blocks }
    requires naming { IsNaming blocks names.now }
    ensures proved { OnOk result (Proves blocks (held_cost blocks held.now) (held_moved blocks held.now names.now) u.now v.now) }
    ensures moved { IfOk result (λ moved. moved ≡ held_moved blocks held.now names.now) }
    ensures first_flaw { IfErr result (IsFirst (HasHeldFlaw blocks held.now names.now u.now v.now)) }
{
    if u.len() != blocks as usize || v.len() != blocks as usize {
        return Err(Flaw::PriceCount);
    }
    if let Some((b, p)) = first_above(held, blocks, u, v) {
        return Err(Flaw::PriceHigh(b, p));
    }
    let moved = moved_by_rows(held, blocks, names);
    let sum = sum_of(u) + sum_of(v);
    if sum < 0 || sum as u128 != moved {
        return Err(Flaw::PriceGap);
    }
    Ok(moved)
}

// The first pair of a block and a PE whose prices add up to more than the block costs there.
fn first_above(held: &[u64], blocks: u32, u: &[i64], v: &[i64]) -> Option<(u32, u32)>
    requires table { length held.now ≡ blocks * blocks }
    requires block_prices { length u.now ≡ blocks }
    requires pe_prices { length v.now ≡ blocks }
    ensures { MatchOption result
        ((b p : ℕ) → b < blocks → p < blocks → (price_at u.now b +ℤ price_at v.now p) ≤ℤ pos (held_cost blocks held.now b p))
        (IsFirstAbove (held_cost blocks held.now) u.now v.now blocks) }
{
    for b in 0..blocks {
        if let Some(p) = first_above_in(row(held, blocks, b), u, b, v) {
            return Some((b, p));
        }
    }
    None
}

// The first PE whose price and that of the row's block add up to more than the block costs there.
fn first_above_in(row: &[u64], u: &[i64], b: u32, v: &[i64]) -> Option<u32>
    requires few { length row.now < 2 ^ 32 }
    requires block_price { b < length u.now }
    requires pe_prices { length v.now ≡ length row.now }
    ensures { MatchOption result
        ((p : ℕ) → p < length row.now → (price_at u.now b +ℤ price_at v.now p) ≤ℤ pos (row_cost row.now p))
        (λ p. (p < length row.now) × (pos (row_cost row.now p) <ℤ (price_at u.now b +ℤ price_at v.now p))
        × ((q : ℕ) → q < p → (price_at u.now b +ℤ price_at v.now q) ≤ℤ pos (row_cost row.now q))) }
{
    let all = small_total(row);
    for p in 0..row.len() as u32 {
        let cost = cost_to(row, all, p) as i128;
        if i128::from(price(u, b)) + i128::from(price(v, p)) > cost {
            return Some(p);
        }
    }
    None
}

// The bytes of all blocks that move to their names.
fn moved_by_rows(held: &[u64], blocks: u32, names: &[u32]) -> u128
    requires table { length held.now ≡ blocks * blocks }
    requires naming { IsNaming blocks names.now }
    ensures { result ≡ held_moved blocks held.now names.now }
{
    let mut moved = 0;
    for b in 0..blocks {
        let row = row(held, blocks, b);
        moved += cost_to(row, small_total(row), names[b as usize]);
    }
    moved
}

// The row of a block.
fn row(held: &[u64], blocks: u32, b: u32) -> &[u64]
    requires table { length held.now ≡ blocks * blocks }
    requires inside { b < blocks }
    ensures value { result.now ≡ row_of blocks held.now b }
    ensures width { length result.now ≡ blocks }
{
    let start = b as usize * blocks as usize;
    &held[start..start + blocks as usize]
}

// What the block of a row costs on a PE, where all bytes of the row are known.
fn cost_to(row: &[u64], all: u128, p: u32) -> u128
    requires sum { all ≡ sum row.now }
    requires inside { p < length row.now }
    ensures value { result ≡ row_cost row.now p }
    ensures small { result ≤ all }
{
    all - u128::from(row[p as usize])
}

// One of these prices.
fn price(prices: &[i64], i: u32) -> i64
    requires { i < length prices.now }
    ensures { result ≡ price_at prices.now i }
{
    prices[i as usize]
}
