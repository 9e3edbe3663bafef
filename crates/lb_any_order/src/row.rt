//! One row of the search: two costs for each place of a stretch of the chain.

use std::alloc::Allocator;

/// Two costs, or two bounds, for each place of a stretch of the chain.
#[derive(Drop)]
pub(crate) struct CostRow<A: Allocator> {
    /// The first of the places.
    pub(crate) first: u32,
    /// The one where the PE of the element at the place may be used.
    pub(crate) any: Vec<u64, A>,
    /// The one where it is not.
    pub(crate) free: Vec<u64, A>,
}

/// No cost: the place cannot be reached.
pub(crate) const NONE: u64 = u64::MAX;

// The item of a place in a list that begins at another, and `NONE` outside.
fn item(list: &[u64], first: u32, x: u32) -> u64 {
    if x < first {
        return NONE;
    }
    match list.get((x - first) as usize) {
        Some(&cost) => cost,
        None => NONE,
    }
}

/// The first of the two at a place.
pub(crate) fn any_at<A: Allocator>(row: &CostRow<A>, x: u32) -> u64 {
    item(&row.any, row.first, x)
}

/// The second of the two at a place.
pub(crate) fn free_at<A: Allocator>(row: &CostRow<A>, x: u32) -> u64 {
    item(&row.free, row.first, x)
}
