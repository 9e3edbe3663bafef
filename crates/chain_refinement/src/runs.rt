//! The runs of elements that are on one PE, and behind them the PEs without elements.

ghost use Rattle.std.specs.Prelude.{◌↔◌, IsTrue, length, IfOk, MatchOption};
ghost use Rattle.std.specs.List.{Contains};
ghost use Rattle.lb_snapshot.specs.Measured.{IsSizes};
ghost use Rattle.chain_refinement.specs.Orders.{IsPresentOrder};
ghost use Rattle.chain_refinement.specs.NoOrders.{HasNoOrder};
ghost use Rattle.chain_refinement.specs.Runs.{AreRuns, IsLast};

use crate::present::PresentOrder;
use chare_index::Pe;
use lb_certificates::{Cuts, Naming};
use std::alloc::{AllocError, Allocator};

/// The runs of elements that are on one PE, in order: the PE of each, and where its elements begin.
#[derive(Drop)]
pub(crate) struct Runs<A: Allocator> {
    pub(crate) names: Vec<u32, A>,
    pub(crate) starts: Vec<u32, A>,
}

/// The runs of these elements, or `None` where a PE has two of them, or one is on a PE that is not below `pes`.
///
/// # Errors
///
/// Memory for a list was refused.
pub(crate) fn runs_of<A: Allocator + Copy>(
    alloc: A,
    pairs: &[(u32, Pe)],
    pes: u32,
) -> Result<Option<Runs<A>>, AllocError>
    requires sizes { IsSizes pairs.now }
    ensures runs { IfOk result (λ found. MatchOption found (HasNoOrder pairs.now pes)
        (λ r. AreRuns pairs.now pes (length pairs.now) r.names.items r.starts.items)) }
{
    let mut names = Vec::with_capacity(alloc, pes as usize)?;
    let mut starts = Vec::with_capacity(alloc, pes as usize + 1)?;
    for i in 0..pairs.len() {
        let place = pairs[i].1.get();
        if is_last(&names, place) {
            continue;
        }
        if place >= pes || has(&names, place) {
            return Ok(None);
        }
        names.push(place)?;
        starts.push(i as u32)?;
    }
    Ok(Some(Runs { names, starts }))
}

// Whether this PE is the last of the list.
fn is_last(names: &[u32], pe: u32) -> bool
    ensures { IsTrue result ↔ IsLast names.now pe }
{
    !names.is_empty() && names[names.len() - 1] == pe
}

// Whether the list has this PE.
fn has(names: &[u32], pe: u32) -> bool
    ensures { IsTrue result ↔ Contains names.now pe }
{
    names.contains(&pe)
}

/// These runs, and behind them the PEs without elements.
///
/// # Errors
///
/// Memory for a longer list was refused.
pub(crate) fn with_idle<A: Allocator>(
    runs: Runs<A>,
    pairs: &[(u32, Pe)],
    pes: u32,
) -> Result<PresentOrder<A>, AllocError>
    requires sizes { IsSizes pairs.now }
    requires runs { AreRuns pairs.now pes (length pairs.now) runs.names.items runs.starts.items }
    ensures order { IfOk result (λ o. IsPresentOrder pairs.now pes o.names o.present) }
{
    let Runs {
        mut names,
        mut starts,
    } = runs;
    let end = pairs.len() as u32;
    for pe in 0..pes {
        if !has(&names, pe) {
            names.push(pe)?;
            starts.push(end)?;
        }
    }
    starts.push(end)?;
    Ok(PresentOrder {
        names: Naming::new(names),
        present: Cuts::new(starts),
    })
}
