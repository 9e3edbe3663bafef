//! The bytes that a part of a chain has of each block.

ghost use Rattle.std.specs.Prelude.{◌≡◌, ◌-◌, ◌<◌, ◌^◌, length, sum};
ghost use Rattle.lb_snapshot.specs.Measured.{load};
ghost use Rattle.merged_chains.specs.Weights.{AreRangeLoads};

use crate::places::place_of;

/// Writes how many bytes a part of a chain has of each block between these cuts, one for each entry of the list: the packed
/// sizes of its elements, the first of which is number `first` of the chain. A cut that the list does not have is 0.
///
/// A table of these numbers, in which row `b` has the bytes of block `b` on each PE, is what
/// [`name_table`](crate::name_table) finds the names of the blocks from: the numbers of one part are a column of it.
pub fn write_block_bytes(bytes: &[u32], first: u32, cuts: &[u32], held: &mut [u64])
    requires few { length bytes.now < 2 ^ 32 }
    ensures held { AreRangeLoads bytes.now first (length held.old) 0 cuts.now held.new }
{
    for b in 0..held.len() {
        let begin = place_of(cuts, b);
        let end = place_of(cuts, b + 1);
        held[b] = bytes_within(bytes, first, begin, end);
    }
}

// The bytes that the part has of the elements `begin..end` of the chain.
fn bytes_within(bytes: &[u32], first: u32, begin: u32, end: u32) -> u64
    requires few { length bytes.now < 2 ^ 32 }
    ensures value { result ≡ load bytes.now (begin - first) (end - first) }
{
    let from = bytes.len().min(begin.saturating_sub(first) as usize);
    let to = bytes.len().min(end.saturating_sub(first) as usize);
    sum_of(&bytes[from..to.max(from)])
}

// The sum of these sizes, which fits 64 bits.
fn sum_of(bytes: &[u32]) -> u64
    requires few { length bytes.now < 2 ^ 32 }
    ensures value { result ≡ sum bytes.now }
{
    let mut total = 0;
    for &size in bytes {
        total += u64::from(size);
    }
    total
}
