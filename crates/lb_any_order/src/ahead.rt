//! What the blocks that are still to come cost, from a place on: a shortest path from the end of the chain.
//!
//! A block y..x brings to a PE all its bytes except those that are on it already. Only four PEs come into question: that of its
//! first element, that of the element at x, the one that has most of the block, and one that has nothing of it. Where the
//! elements of each PE are consecutive, the PEs that keep something stay in their present order. So a block has to know one
//! thing of those before it: whether the PE of its first element is used.

use crate::chain::{SearchedChain, begin_of, bytes_of, farthest, run_at, run_bytes, start_of};
use crate::row::{CostRow, NONE, any_at, free_at};
use std::alloc::{AllocError, Allocator};

/// The cheapest known way to continue: what it costs, the run whose PE the next block runs on, where that block ends, and
/// whether the PE of the element there is still free.
#[derive(Clone, Copy)]
pub(crate) struct Way {
    pub(crate) cost: u64,
    pub(crate) kept: Option<u32>,
    pub(crate) end: u32,
    pub(crate) free: bool,
}

/// There is no way.
const NOWHERE: Way = Way {
    cost: NONE,
    kept: None,
    end: 0,
    free: true,
};

// Of the runs that are wholly between the beginning of a block and a place, the one with the most bytes; and the run of that
// place.
#[derive(Clone, Copy)]
struct Inside {
    bytes: u64,
    greatest: Option<u32>,
    run: u32,
}

// Both ways to continue from a place: where the PE of its element is free, and where it is used.
#[derive(Clone, Copy)]
pub(crate) struct Ways {
    pub(crate) free: Way,
    pub(crate) used: Way,
}

/// The cheaper of two ways, the first where both cost the same.
fn cheaper(one: Way, other: Way) -> Way {
    if other.cost < one.cost { other } else { one }
}

// Extends the block to place x. The run before that of x is inside the block once the block reaches past the end of that run.
fn reached<A: Allocator>(chain: &SearchedChain<'_, A>, own: u32, inside: Inside, x: u32) -> Inside {
    let run = run_at(chain, x);
    if run == inside.run || inside.run == own {
        return Inside { run, ..inside };
    }
    let bytes = run_bytes(chain, inside.run);
    if bytes <= inside.bytes {
        return Inside { run, ..inside };
    }
    Inside {
        bytes,
        greatest: Some(inside.run),
        run,
    }
}

// The ways by a block y..x that ends in the run where it begins: on another PE, or on its own.
fn ways_within<A: Allocator>(
    chain: &SearchedChain<'_, A>,
    next: &CostRow<A>,
    y: u32,
    x: u32,
    own: u32,
) -> Ways {
    let all = bytes_of(chain, y, x);
    let used = Way {
        cost: any_at(next, x).saturating_add(all),
        kept: None,
        end: x,
        free: false,
    };
    let away = Way {
        cost: free_at(next, x).saturating_add(all),
        kept: None,
        end: x,
        free: true,
    };
    let stays = Way {
        cost: any_at(next, x),
        kept: Some(own),
        end: x,
        free: false,
    };
    Ways {
        free: cheaper(stays, away),
        used,
    }
}

// The ways by a block y..x that ends in another run: on the PE of its first element, on that of the element at x, on that of
// the greatest run inside, or on one that has nothing of it.
fn ways_across<A: Allocator>(
    chain: &SearchedChain<'_, A>,
    next: &CostRow<A>,
    y: u32,
    x: u32,
    inside: Inside,
) -> Ways {
    let own = run_at(chain, y);
    let begin = begin_of(chain, inside.run);
    let all = bytes_of(chain, y, x);
    let elsewhere = Way {
        cost: free_at(next, x).saturating_add(all.saturating_sub(inside.bytes)),
        kept: inside.greatest,
        end: x,
        free: true,
    };
    let last = Way {
        cost: any_at(next, x).saturating_add(bytes_of(chain, y, begin)),
        kept: Some(inside.run),
        end: x,
        free: false,
    };
    let first = Way {
        cost: free_at(next, x).saturating_add(bytes_of(
            chain,
            begin_of(chain, own.saturating_add(1)),
            x,
        )),
        kept: Some(own),
        end: x,
        free: true,
    };
    let used = if x > begin {
        cheaper(elsewhere, last)
    } else {
        elsewhere
    };
    Ways {
        free: cheaper(first, used),
        used,
    }
}

/// The cheapest ways from place y on, by a block within the limit that ends no later than at `last`.
pub(crate) fn ways_from<A: Allocator>(
    chain: &SearchedChain<'_, A>,
    next: &CostRow<A>,
    y: u32,
    last: u32,
) -> Ways {
    let own = run_at(chain, y);
    let mut inside = Inside {
        bytes: 0,
        greatest: None,
        run: own,
    };
    let mut ways = Ways {
        free: NOWHERE,
        used: NOWHERE,
    };
    for x in y..last.saturating_add(1) {
        if start_of(chain, x) > y {
            break;
        }
        inside = reached(chain, own, inside, x);
        let here = if inside.run == own {
            ways_within(chain, next, y, x, own)
        } else {
            ways_across(chain, next, y, x, inside)
        };
        ways = Ways {
            free: cheaper(ways.free, here.free),
            used: cheaper(ways.used, here.used),
        };
    }
    Ways {
        free: cheaper(ways.free, ways.used),
        used: ways.used,
    }
}

/// The costs ahead at the places first..=last, before a block, where those behind it are known.
///
/// # Errors
///
/// Memory was refused.
fn row_before<A: Allocator + Copy>(
    alloc: A,
    chain: &SearchedChain<'_, A>,
    next: &CostRow<A>,
    first: u32,
    ends: (u32, u32),
) -> Result<CostRow<A>, AllocError> {
    let (last, next_last) = ends;
    let mut any = Vec::new(alloc);
    let mut free = Vec::new(alloc);
    for y in first..last.saturating_add(1) {
        let ways = ways_from(chain, next, y, next_last);
        any.push(ways.used.cost)?;
        free.push(ways.free.cost)?;
    }
    Ok(CostRow { first, any, free })
}

/// The costs ahead before each block, from the last to the first, with those behind the last one at the beginning of the list.
///
/// # Errors
///
/// Memory was refused.
pub(crate) fn rows_ahead<A: Allocator + Copy>(
    alloc: A,
    chain: &SearchedChain<'_, A>,
    spans: &[(u32, u32)],
) -> Result<Vec<CostRow<A>, A>, AllocError> {
    let mut rows = Vec::new(alloc);
    let mut any = Vec::new(alloc);
    let mut free = Vec::new(alloc);
    any.push(0)?;
    free.push(0)?;
    rows.push(CostRow {
        first: chain.end,
        any,
        free,
    })?;
    let mut next_last = chain.end;
    for &(first, last) in spans.iter().rev().skip(1) {
        let row = match rows.last() {
            Some(next) => row_before(alloc, chain, next, first, (last, next_last))?,
            None => return Ok(rows),
        };
        rows.push(row)?;
        next_last = last;
    }
    Ok(rows)
}

/// For each number of blocks, from 0 on, the first and the last place at which this number of blocks may end, where the others
/// are to contain the rest.
///
/// # Errors
///
/// Memory was refused.
pub(crate) fn spans_of<A: Allocator>(
    alloc: A,
    chain: &SearchedChain<'_, A>,
    pes: u32,
) -> Result<Vec<(u32, u32), A>, AllocError> {
    let mut spans = Vec::new(alloc);
    let mut first = chain.end;
    for _ in 0..pes.saturating_add(1) {
        spans.push((first, 0))?;
        first = start_of(chain, first);
    }
    spans.reverse();
    let mut last = 0;
    for span in spans.iter_mut() {
        span.1 = last;
        last = farthest(chain, last);
    }
    Ok(spans)
}
