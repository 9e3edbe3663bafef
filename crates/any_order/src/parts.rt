//! The parts that a reordered division has in common with others: the least division, the names and the cuts.

ghost use Rattle.std.specs.Prelude.{◌≡◌, ℕ, ◌<◌, ◌≤◌, IfErr, OnOk, MatchBool, MatchOption, length, slice_index};
ghost use Rattle.lb_certificates.specs.Certificate.{IsCertified, NoneAbove};
ghost use Rattle.lb_certificates.specs.Chain.{IsDivision};
ghost use Rattle.lb_certificates.specs.Flaws.{AreApart, Repeats};
ghost use Rattle.any_order.specs.AnyOrder.{IsPlan, reordered_limit};
ghost use Rattle.any_order.specs.Flaws.{HasReorderedFlaw, IsFirstReorderedFlaw};
ghost use Rattle.any_order.specs.Internal.{AreMeasured, AreOrdered, bounded_of, IsFirstHeavy};

use crate::bounded::Bounded;
use crate::flaw::ReorderedFlaw;
use crate::reordered::Reordered;
use chare_index::Limits;
use lb_certificates::check_division;
use lb_snapshot::{Loads, Snapshot};
use std::alloc::Allocator;

/// What a reordered division claims of the elements. The limit is far below what 64 bits hold, since the division is a least
/// one.
pub(crate) fn bounded_of<'a, A: Allocator, B: Allocator>(
    snapshot: &'a Snapshot<A>,
    pes: u32,
    reordered: &'a Reordered<B>,
) -> Bounded<'a, B>
    requires certified { IsCertified snapshot.now.loads pes reordered.now.least }
    ensures value { result ≡ bounded_of snapshot.now.loads snapshot.now.sizes reordered.now }
    ensures measured { AreMeasured snapshot.now.loads snapshot.now.sizes }
{
    Bounded {
        loads: snapshot.loads().as_slice(),
        sizes: snapshot.sizes().as_slice(),
        limit: reordered.tolerance.limit(reordered.least.bottleneck),
        any: reordered.any.as_slice(),
        free: reordered.free.as_slice(),
    }
}

/// The flaws of the least division.
pub(crate) fn check_least<A: Allocator, B: Allocator>(
    snapshot: &Snapshot<A>,
    pes: u32,
    reordered: &Reordered<B>,
) -> Result<(), ReorderedFlaw>
    ensures certified { OnOk result (IsCertified snapshot.now.loads pes reordered.now.least) }
    ensures first_flaw { IfErr result (IsFirstReorderedFlaw (HasReorderedFlaw snapshot.now.loads snapshot.now.sizes pes reordered.now)) }
{
    if let Err(flaw) = check_division(snapshot.loads(), pes, &reordered.least) {
        return Err(ReorderedFlaw::Least(flaw));
    }
    Ok(())
}

/// The flaws of the number of PEs and the names.
pub(crate) fn check_names<A: Allocator, B: Allocator>(
    snapshot: &Snapshot<A>,
    pes: u32,
    reordered: &Reordered<B>,
) -> Result<(), ReorderedFlaw>
    requires certified { IsCertified snapshot.now.loads pes reordered.now.least }
    ensures ordered { OnOk result (AreOrdered pes reordered.now.names) }
    ensures first_flaw { IfErr result (IsFirstReorderedFlaw (HasReorderedFlaw snapshot.now.loads snapshot.now.sizes pes reordered.now)) }
{
    let names = reordered.names.as_slice();
    if pes == 0 || pes > Limits::PES {
        return Err(ReorderedFlaw::PeCount);
    }
    if names.len() != pes as usize {
        return Err(ReorderedFlaw::NameCount);
    }
    if !all_below(names, pes) {
        return Err(ReorderedFlaw::NameRange);
    }
    if !all_apart(names) {
        return Err(ReorderedFlaw::NameTwice);
    }
    Ok(())
}

// Whether each name is below the number of PEs.
fn all_below(names: &[u32], pes: u32) -> bool
    ensures below { MatchBool result ((b : ℕ) → b < length names.now → slice_index names.now b < pes)
        ((b : ℕ) × (b < length names.now) × (pes ≤ slice_index names.now b)) }
{
    for &name in names {
        if name >= pes {
            return false;
        }
    }
    true
}

// Whether no name occurs twice.
fn all_apart(names: &[u32]) -> bool
    ensures apart { MatchBool result (AreApart names.now) (Repeats names.now) }
{
    for b in 0..names.len() {
        if names[..b].contains(&names[b]) {
            return false;
        }
    }
    true
}

/// The flaws of the cuts.
pub(crate) fn check_cuts<A: Allocator, B: Allocator>(
    snapshot: &Snapshot<A>,
    pes: u32,
    reordered: &Reordered<B>,
) -> Result<(), ReorderedFlaw>
    requires certified { IsCertified snapshot.now.loads pes reordered.now.least }
    requires ordered { AreOrdered pes reordered.now.names }
    ensures plan { OnOk result (IsPlan snapshot.now.loads pes (reordered_limit reordered.now) reordered.now.cuts reordered.now.names) }
    ensures first_flaw { IfErr result (IsFirstReorderedFlaw (HasReorderedFlaw snapshot.now.loads snapshot.now.sizes pes reordered.now)) }
{
    let cuts = reordered.cuts.as_slice();
    if cuts.len() != pes as usize + 1 {
        return Err(ReorderedFlaw::CutCount);
    }
    if !reordered.cuts.divides(snapshot.loads().len()) {
        return Err(ReorderedFlaw::NoDivision);
    }
    let limit = bounded_of(snapshot, pes, reordered).limit;
    match first_heavy(snapshot.loads(), pes, limit, cuts) {
        None => Ok(()),
        Some(b) => Err(ReorderedFlaw::Heavy(b)),
    }
}

// The first block above the limit.
fn first_heavy<A: Allocator>(loads: &Loads<A>, pes: u32, limit: u64, cuts: &[u32]) -> Option<u32>
    requires divides { IsDivision 0 (length loads.now) pes cuts.now }
    ensures first { MatchOption result (NoneAbove loads.now pes limit cuts.now) (IsFirstHeavy loads.now pes limit cuts.now) }
{
    for b in 0..pes {
        let first = cuts[b as usize] as usize;
        let end = cuts[b as usize + 1] as usize;
        if loads.load(first, end) > limit {
            return Some(b);
        }
    }
    None
}
