//! The first naming in dictionary order of those that use only some pairs of a block and a PE. The blocks are gone
//! through in order. Each gets the least PE for which the blocks after it can still all be named: the block that had
//! it takes the PE of another, and so on, until one takes the PE that has become free. Which blocks can start
//! such a chain is found by one search, backward from the block. These are alternating paths: C. Berge, "Two theorems
//! in graph theory", Proceedings of the National Academy of Sciences 43(9), 1957.

ghost use Rattle.std.specs.Prelude.{◌≡◌, ℕ, false, ◌<◌, ◌≤◌, length, slice_index};
ghost use Rattle.lb_certificates.specs.Naming.{IsNaming};
ghost use Rattle.block_assignment.specs.Least.{member, may_have, IsAllowed, IsClosed, IsFound, IsLeastAt, IsRoom, IsTrail};

use crate::block_set::{BlockSets, first_common, has, insert, remove};

/// Renames the blocks: of all namings that give each block a PE that it may have, the first in dictionary order. For
/// each PE there is the set of the blocks that may have it. `left`, `waiting` and `next` are room for the search.
pub(crate) fn make_least(
    takers: &BlockSets<'_>,
    left: &mut [u64],
    waiting: &mut [u64],
    next: &mut [u32],
    names: &mut [u32],
)
    requires left { IsRoom (length takers.now) left.old }
    requires waiting { IsRoom (length takers.now) waiting.old }
    requires next { length next.old ≡ length takers.now }
    requires naming { IsNaming (length takers.now) names.old }
    requires allowed { IsAllowed takers.now names.old }
    ensures naming { IsNaming (length takers.now) names.new }
    ensures allowed { IsAllowed takers.now names.new }
    ensures least { (b : ℕ) → b < length takers.now → IsLeastAt takers.now names.new b }
{
    for b in 0..takers.count() {
        give_least_pe(b, takers, left, waiting, next, names);
    }
}

// Gives block `b` the least PE with which the later blocks can still be named, and leaves the blocks before it theirs.
// The block that had this PE takes that of the next block on its path back to `b`, and so on, until one takes the PE that
// `b` had.
fn give_least_pe(
    b: u32,
    takers: &BlockSets<'_>,
    left: &mut [u64],
    waiting: &mut [u64],
    next: &mut [u32],
    names: &mut [u32],
)
    requires inside { b < length takers.now }
    requires left { IsRoom (length takers.now) left.old }
    requires waiting { IsRoom (length takers.now) waiting.old }
    requires next { length next.old ≡ length takers.now }
    requires naming { IsNaming (length takers.now) names.old }
    requires allowed { IsAllowed takers.now names.old }
    ensures naming { IsNaming (length takers.now) names.new }
    ensures allowed { IsAllowed takers.now names.new }
    ensures before { (k : ℕ) → k < b → slice_index names.new k ≡ slice_index names.old k }
    ensures least { IsLeastAt takers.now names.new b }
{
    if !may_have_less(b, takers, names) {
        return;
    }
    search_from(b, takers, names, left, waiting, next);
    let mut holder = b;
    let mut taken = choose(b, takers, names, left);
    while taken != b {
        names.swap(holder as usize, taken as usize);
        holder = taken;
        taken = next[taken as usize];
    }
}

// Whether block `b` may have a lesser PE that a later block has. Most blocks may not, and need no search.
fn may_have_less(b: u32, takers: &BlockSets<'_>, names: &[u32]) -> bool
    requires inside { b < length takers.now }
    requires naming { IsNaming (length takers.now) names.now }
    ensures { result ≡ false → (j : ℕ) → b < j → j < length takers.now → may_have takers.now b (slice_index names.now j) ≡ 1
        → slice_index names.now b ≤ slice_index names.now j }
{
    for j in b as usize + 1..names.len() {
        if names[j] < names[b as usize] && takers.has(names[j], b) {
            return true;
        }
    }
    false
}

// Writes the set of the blocks after `b`.
fn write_later(b: u32, blocks: u32, set: &mut [u64])
    requires inside { b < blocks }
    requires room { IsRoom blocks set.old }
    ensures later { (j : ℕ) → member set.new j ≡ 1 → (b < j) × (j < blocks) }
    ensures all { (j : ℕ) → b < j → j < blocks → member set.new j ≡ 1 }
{
    set.fill(0);
    for j in b + 1..blocks {
        insert(set, j);
    }
}

// Searches from block `b`, and writes into `left` the later blocks that the search leaves. It finds a block where that may
// have the PE of `b`, or of a block that was found before, which is then the next on its path back to `b`.
fn search_from(
    b: u32,
    takers: &BlockSets<'_>,
    names: &[u32],
    left: &mut [u64],
    waiting: &mut [u64],
    next: &mut [u32],
)
    requires inside { b < length takers.now }
    requires left { IsRoom (length takers.now) left.old }
    requires waiting { IsRoom (length takers.now) waiting.old }
    requires next { length next.old ≡ length takers.now }
    requires naming { IsNaming (length takers.now) names.now }
    ensures trail { IsTrail takers.now names.now b left.new next.new }
    ensures closed { IsClosed takers.now names.now b left.new }
{
    write_later(b, takers.count(), left);
    waiting.fill(0);
    let mut i = b;
    loop {
        if let Some(j) = takers.first_common(names[i as usize], left) {
            remove(left, j);
            insert(waiting, j);
            next[j as usize] = i;
            continue;
        }
        let Some(j) = first_common(waiting, waiting) else {
            return;
        };
        remove(waiting, j);
        i = j;
    }
}

// Of the blocks that were found, and whose PE block `b` may have, the one with the least PE.
fn choose(b: u32, takers: &BlockSets<'_>, names: &[u32], left: &[u64]) -> u32
    requires inside { b < length takers.now }
    requires left { IsRoom (length takers.now) left.now }
    requires naming { IsNaming (length takers.now) names.now }
    requires allowed { may_have takers.now b (slice_index names.now b) ≡ 1 }
    requires taken { member left.now b ≡ 0 }
    ensures reached { IsFound (length takers.now) b left.now result }
    ensures allowed { may_have takers.now b (slice_index names.now result) ≡ 1 }
    ensures least { (j : ℕ) → IsFound (length takers.now) b left.now j → may_have takers.now b (slice_index names.now j) ≡ 1
        → slice_index names.now result ≤ slice_index names.now j }
{
    let mut chosen = b;
    for j in b + 1..takers.count() {
        let pe = names[j as usize];
        if pe < names[chosen as usize] && !has(left, j) && takers.has(pe, b) {
            chosen = j;
        }
    }
    chosen
}
