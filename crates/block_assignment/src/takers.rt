//! Which pairs of a block and a PE a cheapest naming may use: those whose prices add up to their cost.

ghost use Rattle.std.specs.Prelude.{◌≡◌, ◌≢◌, ℕ, ◌+◌, ◌^◌, ◌<◌, ◌≤◌, ◌↔◌, length, slice_index};
ghost use Rattle.block_assignment.specs.Table.{cost_at};
ghost use Rattle.block_assignment.specs.Least.{may_have, rows, AreRows};
ghost use Rattle.block_assignment.specs.declared.limits.TheConstants.MatrixLimits.{BYTES};

use crate::costs::Costs;

/// Writes for each PE the set of blocks whose price is just their cost there plus the PE's discount. The words of the
/// sets stand one set after the other, each of this many words.
#[tactic(auto, using(crate::proofs::Sums::cost_within))]
pub(crate) fn write_takers(
    table: &Costs<'_>,
    price: &[u64],
    discount: &[u64],
    width: usize,
    words: &mut [u64],
)
    requires price { length price.now ≡ table.now.blocks }
    requires discounts { length discount.now ≡ table.now.blocks }
    requires rows { AreRows width table.now.blocks words.old }
    requires small { (p : ℕ) → p < length discount.now → slice_index discount.now p ≤ BYTES }
    requires none { (b p : ℕ) → p < table.now.blocks → may_have (rows width table.now.blocks words.old) b p ≡ 0 }
    ensures exact { (b p : ℕ) → b < table.now.blocks → p < table.now.blocks
        → (may_have (rows width table.now.blocks words.new) b p ≡ 1) ↔ (slice_index price.now b ≡ cost_at table.now b p + slice_index discount.now p) }
{
    for b in 0..table.blocks() {
        add_taker(b, price[b as usize], table.row(b), discount, width, words);
    }
}

// Adds a block to the sets of the PEs on which its price is just its cost plus the PE's discount.
fn add_taker(b: u32, price: u64, row: &[u64], discount: &[u64], width: usize, words: &mut [u64])
    requires inside { b < length row.now }
    requires discounts { length discount.now ≡ length row.now }
    requires rows { AreRows width (length row.now) words.old }
    requires small { (p : ℕ) → p < length row.now → slice_index row.now p + slice_index discount.now p < 2 ^ 64 }
    requires none { (p : ℕ) → p < length row.now → may_have (rows width (length row.now) words.old) b p ≡ 0 }
    ensures exact { (p : ℕ) → p < length row.now
        → (may_have (rows width (length row.now) words.new) b p ≡ 1) ↔ (price ≡ slice_index row.now p + slice_index discount.now p) }
    ensures others { (k p : ℕ) → k ≢ b
        → may_have (rows width (length row.now) words.new) k p ≡ may_have (rows width (length row.now) words.old) k p }
{
    for p in 0..row.len() {
        if price == row[p] + discount[p] {
            words[p * width + b as usize / 64] |= 1 << (b % 64);
        }
    }
}
