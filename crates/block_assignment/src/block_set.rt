//! Sets of blocks, one bit for each: bit `b % 64` of word `b / 64`. A set is as many words as all blocks need.

ghost use Rattle.std.specs.Prelude.{◌≡◌, ◌≢◌, ℕ, ◌*◌, ◌+◌, ◌<◌, ◌≤◌, MatchBool, MatchOption, [], length, slice_index_or};
ghost use Rattle.block_assignment.specs.Least.{member, may_have, rows, AreRows};
ghost use Rattle.block_assignment.specs.declared.limits.TheConstants.MatrixLimits.{BLOCKS};

use std::marker::Model;

/// How many words a set of this many blocks takes.
pub(crate) fn words_for(blocks: u32) -> usize
    ensures wide { blocks ≤ 64 * result }
    ensures narrow { 64 * result < blocks + 64 }
{
    (blocks as usize + 63) / 64
}

/// Adds a block.
pub(crate) fn insert(set: &mut [u64], b: u32)
    requires inside { b < 64 * length set.old }
    ensures here { member set.new b ≡ 1 }
    ensures others { (k : ℕ) → k ≢ b → member set.new k ≡ member set.old k }
{
    set[b as usize / 64] |= 1 << (b % 64);
}

/// Takes a block away.
pub(crate) fn remove(set: &mut [u64], b: u32)
    requires inside { b < 64 * length set.old }
    ensures here { member set.new b ≡ 0 }
    ensures others { (k : ℕ) → k ≢ b → member set.new k ≡ member set.old k }
{
    set[b as usize / 64] &= !(1 << (b % 64));
}

/// Whether the set has a block.
pub(crate) fn has(set: &[u64], b: u32) -> bool
    requires inside { b < 64 * length set.now }
    ensures { MatchBool result (member set.now b ≡ 1) (member set.now b ≡ 0) }
{
    set[b as usize / 64] & (1 << (b % 64)) != 0
}

/// The first block that both sets have.
pub(crate) fn first_common(one: &[u64], other: &[u64]) -> Option<u32>
    requires narrow { length one.now ≤ BLOCKS }
    ensures { MatchOption result
        ((b : ℕ) → member one.now b ≡ 1 → member other.now b ≡ 0)
        (λ b. (b < 64 * length one.now) × (member one.now b ≡ 1) × (member other.now b ≡ 1)) }
{
    for word in 0..one.len().min(other.len()) {
        let both = one[word] & other[word];
        if both != 0 {
            return Some(word as u32 * 64 + both.trailing_zeros());
        }
    }
    None
}

/// A set for each PE, as many sets as there are blocks. Contracts see the list of the sets.
#[derive(Drop)]
pub(crate) struct BlockSets<'a> {
    // How many sets there are.
    count: u32,
    // How many words each has.
    width: usize,
    // The words of the first set, of the second, and so on.
    words: &'a [u64],
}

impl<'a> Model for BlockSets<'a> {
    ghost use Rattle.std.specs.Prelude.{List, ℕ};
    ghost use Rattle.block_assignment.specs.Least.{rows, AreRows};

    ghost Value = { List (List ℕ) };

    ghost view = { λ s. rows s.width s.count s.words.now };

    ghost invariant = { λ s. AreRows s.width s.count s.words.now };
}

impl<'a> BlockSets<'a> {
    /// This many sets with these words.
    pub(crate) fn new(count: u32, width: usize, words: &'a [u64]) -> Self
        requires rows { AreRows width count words.now }
        ensures value { result ≡ rows width count words.now }
    {
        BlockSets {
            count,
            width,
            words,
        }
    }

    /// How many sets there are.
    pub(crate) fn count(&self) -> u32
        ensures value { result ≡ length self.now }
    {
        self.count
    }

    /// Whether the set of a PE has a block.
    pub(crate) fn has(&self, p: u32, b: u32) -> bool
        requires pe { p < length self.now }
        requires block { b < length self.now }
        ensures { MatchBool result (may_have self.now b p ≡ 1) (may_have self.now b p ≡ 0) }
    {
        has(self.of(p), b)
    }

    /// The first block that this set and that of a PE have.
    pub(crate) fn first_common(&self, p: u32, set: &[u64]) -> Option<u32>
        requires pe { p < length self.now }
        requires narrow { length set.now ≤ BLOCKS }
        ensures { MatchOption result
            ((b : ℕ) → member set.now b ≡ 1 → may_have self.now b p ≡ 0)
            (λ b. (b < 64 * length set.now) × (member set.now b ≡ 1) × (may_have self.now b p ≡ 1)) }
    {
        first_common(set, self.of(p))
    }

    // The set of a PE.
    #[tactic(auto, using(crate::proofs::WordRows::rows_counted, crate::proofs::WordRows::row_inside))]
    fn of(&self, p: u32) -> &[u64]
        requires inside { p < length self.now }
        ensures value { result.now ≡ slice_index_or self.now p [] }
        ensures wide { length self.now ≤ 64 * length result.now }
    {
        let start = p as usize * self.width;
        &self.words[start..start + self.width]
    }
}
