//! The size of the table of a search.

use crate::chain::{SearchedChain, start_of};
use std::alloc::Allocator;

/// The greatest table of a search: the number of blocks within the limit that it may go through, counted for each number of
/// blocks before them.
pub const TABLE: u64 = 134_217_728;

// The blocks that end at the places first..=last.
fn blocks_between<A: Allocator>(chain: &SearchedChain<'_, A>, first: u32, last: u32) -> u64 {
    let mut blocks: u64 = 0;
    for x in first..last.saturating_add(1) {
        let wide = x.saturating_sub(start_of(chain, x)).saturating_add(1);
        blocks = blocks.saturating_add(u64::from(wide));
    }
    blocks
}

/// Whether the table of these spans is not too large.
pub(crate) fn is_small<A: Allocator>(chain: &SearchedChain<'_, A>, spans: &[(u32, u32)]) -> bool {
    let mut blocks: u64 = 0;
    for &(first, last) in spans {
        blocks = blocks.saturating_add(blocks_between(chain, first, last));
        if blocks > TABLE {
            return false;
        }
    }
    true
}
