//! The lists of a load database and of its snapshots. All memory of a list is requested at once, before it is filled;
//! an empty list requests none.

ghost use Rattle.std.specs.Prelude.{◌≡◌, ◌<◌, All, length, map, replicate, Some, IfOk, IsSome, OnErr};
ghost use Rattle.lb_snapshot.specs.Measured.{IsLoads};
ghost use Rattle.lb_database.specs.Measuring.{AreReports};

use chare_index::Pe;
use lb_snapshot::{Loads, Sizes, Units};
use std::alloc::{AllocError, Allocator};

/// A list of `n` times this value.
pub(crate) fn filled<T: Copy, A: Allocator>(
    alloc: A,
    value: T,
    n: usize,
) -> Result<Vec<T, A>, AllocError>
    ensures items { IfOk result (λ list. list.items ≡ replicate n value) }
    ensures refused { OnErr result (0 < n) }
{
    let mut list = Vec::with_capacity(alloc, n)?;
    list.resize(n, value)?;
    Ok(list)
}

/// The loads of a snapshot: a copy of these.
#[tactic(auto, using(lb_snapshot::proofs::Made::made_where))]
pub(crate) fn copied_loads<A: Allocator>(alloc: A, units: &[Units]) -> Result<Loads<A>, AllocError>
    requires { IsLoads units.now }
    ensures items { IfOk result (λ loads. loads ≡ units.now) }
    ensures refused { OnErr result (0 < length units.now) }
{
    let mut copy = Vec::with_capacity(alloc, units.len())?;
    copy.extend_from_slice(units)?;
    Ok(Loads::new(copy).unwrap())
}

/// The sizes of a snapshot: what all elements have reported.
pub(crate) fn reported_sizes<A: Allocator>(
    alloc: A,
    reports: &[Option<(u32, Pe)>],
) -> Result<Sizes<A>, AllocError>
    requires there { All IsSome reports.now }
    requires within { AreReports reports.now }
    ensures items { IfOk result (λ sizes. map Some sizes ≡ reports.now) }
    ensures refused { OnErr result (0 < length reports.now) }
{
    Ok(Sizes::new(pairs_of(alloc, reports)?).unwrap())
}

fn pairs_of<A: Allocator>(
    alloc: A,
    reports: &[Option<(u32, Pe)>],
) -> Result<Vec<(u32, Pe), A>, AllocError>
    requires { All IsSome reports.now }
    ensures items { IfOk result (λ pairs. map Some pairs.items ≡ reports.now) }
    ensures refused { OnErr result (0 < length reports.now) }
{
    let mut pairs = Vec::with_capacity(alloc, reports.len())?;
    for report in reports {
        pairs.push(report.unwrap())?;
    }
    Ok(pairs)
}
