//! The plan that is read off the costs ahead.

use crate::ahead::{Way, ways_from};
use crate::chain::SearchedChain;
use crate::row::CostRow;
use lb_certificates::{Cuts, Naming};
use std::alloc::{AllocError, Allocator};

// The cuts of a plan, and for each block the run whose PE it runs on, where it keeps something.
#[derive(Drop)]
struct Blocks<A: Allocator> {
    cuts: Vec<u32, A>,
    kept: Vec<Option<u32>, A>,
}

// The blocks of a cheapest plan, by the costs ahead, from the last row to the first.
fn blocks_of<A: Allocator + Copy>(
    alloc: A,
    chain: &SearchedChain<'_, A>,
    spans: &[(u32, u32)],
    ahead: &[CostRow<A>],
) -> Result<Blocks<A>, AllocError> {
    let mut cuts = Vec::new(alloc);
    let mut kept = Vec::new(alloc);
    cuts.push(0)?;
    let mut start = 0;
    let mut free = true;
    for b in 1..spans.len() {
        let Some(costs) = ahead.get(spans.len() - 1 - b) else {
            break;
        };
        let way = next_way(chain, costs, start, spans[b].1, free);
        cuts.push(way.end)?;
        kept.push(way.kept)?;
        start = way.end;
        free = way.free;
    }
    Ok(Blocks { cuts, kept })
}

// The cheapest way to continue from a place, whose PE is free or used.
fn next_way<A: Allocator>(
    chain: &SearchedChain<'_, A>,
    costs: &CostRow<A>,
    start: u32,
    last: u32,
    free: bool,
) -> Way {
    let ways = ways_from(chain, costs, start, last);
    if free { ways.free } else { ways.used }
}

// The PE of a run.
fn pe_of(order: &[u32], run: u32) -> Option<u32> {
    match order.get(run as usize) {
        Some(&pe) => Some(pe),
        None => None,
    }
}

// Whether some block keeps what is on this PE.
fn is_kept(order: &[u32], kept: &[Option<u32>], pe: u32) -> bool {
    for &run in kept {
        if let Some(run) = run {
            if pe_of(order, run) == Some(pe) {
                return true;
            }
        }
    }
    false
}

// The PEs from which no block keeps anything, in descending order.
fn others_of<A: Allocator>(
    alloc: A,
    order: &[u32],
    kept: &[Option<u32>],
    pes: u32,
) -> Result<Vec<u32, A>, AllocError> {
    let mut others = Vec::new(alloc);
    for pe in (0..pes).rev() {
        if !is_kept(order, kept, pe) {
            others.push(pe)?;
        }
    }
    Ok(others)
}

// The names of these blocks: the PE from which a block keeps something, and for the other blocks the rest in ascending order.
fn names_of<A: Allocator + Copy>(
    alloc: A,
    order: &[u32],
    kept: &[Option<u32>],
    pes: u32,
) -> Result<Naming<A>, AllocError> {
    let mut others = others_of(alloc, order, kept, pes)?;
    let mut names = Vec::new(alloc);
    for &run in kept {
        let name = match run {
            Some(run) => pe_of(order, run),
            None => others.pop(),
        };
        names.push(name.unwrap_or(0))?;
    }
    Ok(Naming::new(names))
}

/// The cuts and the names of a cheapest plan, by the costs ahead, from the last row to the first.
///
/// # Errors
///
/// Memory was refused.
pub(crate) fn plan_of<A: Allocator + Copy>(
    alloc: A,
    chain: &SearchedChain<'_, A>,
    spans: &[(u32, u32)],
    ahead: &[CostRow<A>],
    order: &[u32],
    pes: u32,
) -> Result<(Cuts<A>, Naming<A>), AllocError> {
    let Blocks { cuts, kept } = blocks_of(alloc, chain, spans, ahead)?;
    let names = names_of(alloc, order, &kept, pes)?;
    Ok((Cuts::new(cuts), names))
}
