//! Bounds that prove what a search has found, with as few steps as possible among those that are high enough.
//!
//! At a place a bound has to be at least the whole cost less the cost that is still to come, and it may be at most what the
//! bounds before the last block and that block allow. Between the two it keeps its level as long as it can, so that there are
//! few steps.

use crate::chain::{SearchedChain, begin_of, bytes_of, run_at, run_bytes, start_of};
use crate::row::{CostRow, NONE, any_at, free_at};
use any_order::{ByteBounds, Levels};
use std::alloc::{AllocError, Allocator};

// Two bounds, and the greatest run inside of the blocks seen so far, with the run where they begin.
#[derive(Clone, Copy)]
struct Caps {
    any: u64,
    free: u64,
    inside: u64,
    run: u32,
}

// What a block y..x allows.
fn with_block<A: Allocator>(
    chain: &SearchedChain<'_, A>,
    low: &CostRow<A>,
    y: u32,
    x: u32,
    caps: Caps,
) -> Caps {
    let own = run_at(chain, y);
    let run = run_at(chain, x);
    let left = own != caps.run && caps.run != run;
    let inside = if left {
        caps.inside.max(run_bytes(chain, caps.run))
    } else {
        caps.inside
    };
    let all = bytes_of(chain, y, x);
    let any = any_at(low, y);
    let free = free_at(low, y);
    if own == run {
        return Caps {
            any: caps.any.min(any.saturating_add(all)).min(free),
            free: caps.free.min(free.saturating_add(all)),
            inside,
            run: own,
        };
    }
    let begin = begin_of(chain, run);
    let last = if x > begin {
        any.saturating_add(bytes_of(chain, y, begin))
    } else {
        NONE
    };
    let elsewhere = any.saturating_add(all.saturating_sub(inside));
    let first = free.saturating_add(bytes_of(chain, begin_of(chain, own.saturating_add(1)), x));
    Caps {
        any: caps.any.min(last),
        free: caps.free.min(elsewhere).min(first),
        inside,
        run: own,
    }
}

// What is allowed by the bounds before the last block and all blocks within the limit that end at x.
fn caps_at<A: Allocator>(chain: &SearchedChain<'_, A>, low: &CostRow<A>, x: u32) -> Caps {
    let mut caps = Caps {
        any: NONE,
        free: NONE,
        inside: 0,
        run: run_at(chain, x),
    };
    for y in (start_of(chain, x)..x.saturating_add(1)).rev() {
        caps = with_block(chain, low, y, x, caps);
    }
    Caps {
        any: caps.any.min(caps.free),
        ..caps
    }
}

// The caps at the places first..=last, lowered to those of the places behind them: a bound for any PEs never falls, and one
// for a free PE never falls within a run.
fn caps_of<A: Allocator + Copy>(
    alloc: A,
    chain: &SearchedChain<'_, A>,
    low: &CostRow<A>,
    span: (u32, u32),
    least: u64,
) -> Result<CostRow<A>, AllocError> {
    let (first, last) = span;
    let mut any = Vec::new(alloc);
    let mut free = Vec::new(alloc);
    let mut any_cap = least;
    let mut free_cap = least;
    for x in (first..last.saturating_add(1)).rev() {
        let caps = caps_at(chain, low, x);
        any_cap = any_cap.min(caps.any);
        let same = run_at(chain, x) == run_at(chain, x.saturating_add(1));
        free_cap = if same {
            free_cap.min(caps.free)
        } else {
            least.min(caps.free)
        };
        any.push(any_cap)?;
        free.push(free_cap)?;
    }
    any.reverse();
    free.reverse();
    Ok(CostRow { first, any, free })
}

// Keeps the level if it is high enough for what is needed, and otherwise rises to the cap.
fn raised(level: u64, needed: u64, cap: u64) -> u64 {
    if needed > level { cap } else { level }
}

// The bounds at these places.
fn bounds_between<A: Allocator + Copy>(
    alloc: A,
    chain: &SearchedChain<'_, A>,
    caps: &CostRow<A>,
    ahead: &CostRow<A>,
    span: (u32, u32),
    least: u64,
) -> Result<CostRow<A>, AllocError> {
    let (first, last) = span;
    let mut any = Vec::new(alloc);
    let mut free = Vec::new(alloc);
    let mut any_level = 0;
    let mut free_level = 0;
    let mut run = run_at(chain, first);
    for x in first..last.saturating_add(1) {
        any_level = raised(
            any_level,
            least.saturating_sub(any_at(ahead, x)),
            any_at(caps, x),
        );
        let kept = if run_at(chain, x) == run {
            free_level
        } else {
            0
        };
        run = run_at(chain, x);
        let needed = least.saturating_sub(free_at(ahead, x));
        free_level = raised(kept.max(any_level), needed, free_at(caps, x).max(any_level));
        any.push(any_level)?;
        free.push(free_level)?;
    }
    Ok(CostRow { first, any, free })
}

// These levels as steps: 0 before the first place, and the whole cost behind the last.
fn steps_of<A: Allocator>(
    alloc: A,
    first: u32,
    levels: &[u64],
    end: u32,
    least: u64,
) -> Result<Levels<A>, AllocError> {
    let mut steps = Vec::new(alloc);
    let mut level = 0;
    let mut x = first;
    for &next in levels {
        if next != level {
            steps.push((x, next))?;
            level = next;
        }
        x = x.saturating_add(1);
    }
    if x <= end && level != least {
        steps.push((x, least))?;
    }
    Ok(Levels::new(steps))
}

// Both bounds as steps.
#[derive(Drop)]
struct Both<A: Allocator> {
    any: Vec<Levels<A>, A>,
    free: Vec<Levels<A>, A>,
}

// Both bounds with the steps of one more row.
fn with_row<A: Allocator + Copy>(
    alloc: A,
    both: Both<A>,
    row: &CostRow<A>,
    end: u32,
    least: u64,
) -> Result<Both<A>, AllocError> {
    let Both { mut any, mut free } = both;
    any.push(steps_of(alloc, row.first, &row.any, end, least)?)?;
    free.push(steps_of(alloc, row.first, &row.free, end, least)?)?;
    Ok(Both { any, free })
}

/// Bounds for each number of blocks, for a whole cost of this number of bytes, by the costs ahead, from the last row to the
/// first.
///
/// # Errors
///
/// Memory was refused.
pub(crate) fn bounds_of<A: Allocator + Copy>(
    alloc: A,
    chain: &SearchedChain<'_, A>,
    spans: &[(u32, u32)],
    ahead: &[CostRow<A>],
    least: u64,
) -> Result<(ByteBounds<A>, ByteBounds<A>), AllocError> {
    let mut low = start_row(alloc)?;
    let mut both = Both {
        any: Vec::new(alloc),
        free: Vec::new(alloc),
    };
    both = with_row(alloc, both, &low, chain.end, least)?;
    for b in 1..spans.len() {
        let behind = spans.len() - 1 - b;
        let Some(costs) = ahead.get(behind) else {
            break;
        };
        let caps = caps_of(alloc, chain, &low, spans[b], least)?;
        low = bounds_between(alloc, chain, &caps, costs, spans[b], least)?;
        both = with_row(alloc, both, &low, chain.end, least)?;
    }
    Ok((ByteBounds::new(both.any), ByteBounds::new(both.free)))
}

// The bounds for no blocks.
fn start_row<A: Allocator + Copy>(alloc: A) -> Result<CostRow<A>, AllocError> {
    let mut any = Vec::new(alloc);
    let mut free = Vec::new(alloc);
    any.push(0)?;
    free.push(0)?;
    Ok(CostRow {
        first: 0,
        any,
        free,
    })
}
