//! Discounts from which a search for names is short where many blocks want the same PEs. The blocks bid for PEs: one that has
//! none takes the PE on which it costs least, each PE's discount counted, and the discount of that PE rises by as much as the
//! next best PE is worse, and by a step. The block that had the PE bids again. Rounds begin anew with smaller steps. This is the
//! auction algorithm with scaling: D. P. Bertsekas, "The auction algorithm: a distributed relaxation method for the assignment
//! problem", Annals of Operations Research 14, 1988. A search may begin with any discounts, so nothing but time rests on these.

ghost use Rattle.std.specs.Prelude.{◌≡◌, ◌≢◌, ℕ, ◌+◌, ◌-◌, ◌^◌, ◌<◌, ◌≤◌, length, slice_index, slice_index_or, replicate, IfOk, IfSome, Some, None};
ghost use Rattle.block_assignment.specs.Discounted.{ArePes};
ghost use Rattle.block_assignment.specs.Table.{cost_at};
ghost use Rattle.block_assignment.specs.declared.limits.TheConstants.MatrixLimits.{BYTES};

use crate::costs::Costs;
use crate::limits::MatrixLimits;
use std::alloc::{AllocError, Allocator};

// The bids of all rounds, for each block. More take longer than what the search then saves.
const BIDS: u64 = 40;

// The first step is this part of the greatest cost. Each step is a third of the one before, down to 1.
const FIRST_STEP: u64 = 1_024;

// As many rounds as the greatest cost of any table has steps.
const ROUNDS: u32 = 32;

// A prime above the number of blocks of any table: its multiples go over the blocks in a mixed order.
const STRIDE: u64 = 2_654_435_761;

// A bid: a PE, the next best, and how much that is worse.
#[derive(Clone, Copy)]
struct Bid {
    pe: usize,
    next: usize,
    by: u64,
}

/// A discount for each PE, so small that each cost with a discount keeps to the limit of costs.
pub(crate) fn bid_discounts<A: Allocator + Copy>(
    alloc: A,
    table: &Costs<'_>,
) -> Result<Vec<u64, A>, AllocError>
    ensures counted { IfOk result (λ discount. length discount.items ≡ table.now.blocks) }
    ensures small { IfOk result (λ discount. (b p : ℕ) → b < table.now.blocks → p < table.now.blocks
        → cost_at table.now b p + slice_index discount.items p ≤ BYTES) }
{
    let blocks = table.blocks() as usize;
    let mut discount = vec![in alloc; 0u64; blocks]?;
    let mut holders = vec![in alloc; None; blocks]?;
    let mut waiting = vec![in alloc; 0u32; blocks]?;
    let mut best = vec![in alloc; 0u32; blocks]?;
    let mut next = vec![in alloc; 0u32; blocks]?;
    bid_in_rounds(
        table,
        &mut discount,
        &mut holders,
        &mut waiting,
        &mut best,
        &mut next,
    );
    drop(next);
    drop(best);
    drop(waiting);
    drop(holders);
    Ok(discount)
}

// Rounds of bids, with ever smaller steps. The discounts are 0 at first. `holders` and `waiting` are room for a round. `best` and
// `next` are the PE that each block bid for last, and the next best then: any at first.
fn bid_in_rounds(
    table: &Costs<'_>,
    discount: &mut [u64],
    holders: &mut [Option<u32>],
    waiting: &mut [u32],
    best: &mut [u32],
    next: &mut [u32],
)
    requires none { discount.old ≡ replicate table.now.blocks 0 }
    requires holders { length holders.old ≡ table.now.blocks }
    requires waiting { length waiting.old ≡ table.now.blocks }
    requires best { best.old ≡ replicate table.now.blocks 0 }
    requires next { next.old ≡ replicate table.now.blocks 0 }
    ensures small { (b p : ℕ) → b < table.now.blocks → p < table.now.blocks
        → cost_at table.now b p + slice_index discount.new p ≤ BYTES }
{
    let greatest = table.greatest();
    let most = MatrixLimits::BYTES - greatest;
    let mut step = greatest / FIRST_STEP + 1;
    let mut left = u64::from(table.blocks()) * BIDS;
    for _ in 0..ROUNDS {
        begin_round(holders, waiting);
        left = make_bids(
            table, step, most, left, discount, holders, waiting, best, next,
        );
        if left == 0 || step == 1 {
            return;
        }
        step = next_step(step);
    }
}

// A third of the step, and 1 at least.
fn next_step(step: u64) -> u64
    ensures no_more { 1 ≤ step → result ≤ step }
    ensures some { 1 ≤ result }
{
    if step < 3 { 1 } else { step / 3 }
}

// No PE is held, and all blocks wait, in a mixed order.
fn begin_round(holders: &mut [Option<u32>], waiting: &mut [u32])
    requires few { length waiting.old < 2 ^ 32 }
    ensures none { (p b : ℕ) → slice_index_or holders.new p None ≡ Some b → b < length waiting.old }
    ensures below { (i : ℕ) → i < length waiting.new → slice_index waiting.new i < length waiting.old }
{
    holders.fill(None);
    for i in 0..waiting.len() {
        waiting[i] = (i as u64 * STRIDE % waiting.len() as u64) as u32;
    }
}

// One round: the block that waits last bids, until none waits or `left` bids were made. It returns how many are left: none
// where a discount would be above `most`.
fn make_bids(
    table: &Costs<'_>,
    step: u64,
    most: u64,
    left: u64,
    discount: &mut [u64],
    holders: &mut [Option<u32>],
    waiting: &mut [u32],
    best: &mut [u32],
    next: &mut [u32],
) -> u64
    requires few { table.now.blocks < 2 ^ 32 }
    requires step { step ≤ 2 ^ 48 }
    requires most { most ≤ BYTES }
    requires discounts { length discount.old ≡ table.now.blocks }
    requires holders { length holders.old ≡ table.now.blocks }
    requires small { (p : ℕ) → p < table.now.blocks → slice_index discount.old p ≤ most }
    requires held { (p b : ℕ) → slice_index_or holders.old p None ≡ Some b → b < table.now.blocks }
    requires below { (i : ℕ) → i < length waiting.old → slice_index waiting.old i < table.now.blocks }
    requires best { ArePes table.now.blocks best.old }
    requires next { ArePes table.now.blocks next.old }
    ensures small { (p : ℕ) → p < table.now.blocks → slice_index discount.new p ≤ most }
    ensures best { ArePes table.now.blocks best.new }
    ensures next { ArePes table.now.blocks next.new }
{
    let mut count = waiting.len();
    for used in 0..left {
        if count == 0 {
            return left - used;
        }
        let block = waiting[count - 1];
        let b = block as usize;
        let bid = best_bid(
            table.row(block),
            discount,
            best[b] as usize,
            next[b] as usize,
        );
        let raised = discount[bid.pe] + bid.by + step;
        if raised > most {
            return 0;
        }
        discount[bid.pe] = raised;
        best[b] = bid.pe as u32;
        next[b] = bid.next as u32;
        count = hand_over(holders, waiting, count - 1, bid.pe, block);
    }
    0
}

// Gives a PE to a block. The block that held it is put at the end of those that wait, of which there are `count`, and so
// many wait then.
fn hand_over(
    holders: &mut [Option<u32>],
    waiting: &mut [u32],
    count: usize,
    pe: usize,
    block: u32,
) -> usize
    requires inside { pe < length holders.old }
    requires room { count < length waiting.old }
    ensures counted { result ≤ length waiting.old }
    ensures held { (blocks : ℕ) → block < blocks → ((p b : ℕ) → slice_index_or holders.old p None ≡ Some b → b < blocks)
        → (p b : ℕ) → slice_index_or holders.new p None ≡ Some b → b < blocks }
    ensures below { (blocks : ℕ) → ((p b : ℕ) → slice_index_or holders.old p None ≡ Some b → b < blocks)
        → ((i : ℕ) → i < length waiting.old → slice_index waiting.old i < blocks)
        → (i : ℕ) → i < length waiting.new → slice_index waiting.new i < blocks }
{
    let before = holders[pe];
    holders[pe] = Some(block);
    match before {
        None => count,
        Some(other) => {
            waiting[count] = other;
            count + 1
        }
    }
}

// The PE on which a block costs least, each discount counted, the next best, and how much more it costs there. It is likely one
// of these two, or cheaper than one: no PE that costs more than both is looked at further.
fn best_bid(row: &[u64], discount: &[u64], best: usize, other: usize) -> Bid
    requires counted { length discount.now ≡ length row.now }
    requires small { (p : ℕ) → p < length row.now → slice_index row.now p + slice_index discount.now p ≤ 2 ^ 48 }
    requires best { best < length row.now }
    requires other { other < length row.now }
    ensures inside { result.pe < length row.now }
    ensures next_inside { result.next < length row.now }
    ensures next { (p : ℕ) → p < length row.now → p ≢ result.pe
        → slice_index row.now result.pe + slice_index discount.now result.pe + result.by ≤ slice_index row.now p + slice_index discount.now p }
    ensures small { result.by ≤ 2 ^ 48 + 1 }
{
    let (mut pe, mut next) = (best, other);
    let mut least = (row[best] + discount[best]).max(row[other] + discount[other]) + 1;
    let mut second = least;
    let mut at = first_below(row, discount, 0, second);
    while at < row.len() {
        let way = row[at] + discount[at];
        if way < least {
            second = least;
            next = pe;
            least = way;
            pe = at;
        } else {
            second = way;
            next = at;
        }
        at = first_below(row, discount, at + 1, second);
    }
    Bid {
        pe,
        next,
        by: second - least,
    }
}

// The first PE, of those from a number on, on which a block costs less than this with the discount; or the number of PEs.
// Most PEs cost more, so the walk over them does nothing else.
#[inline(never)]
fn first_below(row: &[u64], discount: &[u64], from: usize, limit: u64) -> usize
    requires counted { length discount.now ≡ length row.now }
    requires small { (p : ℕ) → p < length row.now → slice_index row.now p + slice_index discount.now p ≤ 2 ^ 48 }
    requires begun { from ≤ length row.now }
    ensures inside { result ≤ length row.now }
    ensures from { from ≤ result }
    ensures below { result < length row.now → slice_index row.now result + slice_index discount.now result < limit }
    ensures others { (p : ℕ) → from ≤ p → p < result → limit ≤ slice_index row.now p + slice_index discount.now p }
{
    for p in from..row.len() {
        if row[p] + discount[p] < limit {
            return p;
        }
    }
    row.len()
}
