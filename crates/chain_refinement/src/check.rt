//! Checks cuts that keep an order of the PEs: the limit, the bytes moved, and the proof that no others move fewer.

ghost use Rattle.std.specs.Prelude.{◌≡◌, ℕ, ◌+◌, ◌-◌, ◌<◌, ◌≤◌, ◌↔◌, IsOk, IfErr, OnOk, MatchBool, MatchOption, length, slice_index};
ghost use Rattle.lb_snapshot.specs.Measured.{IsLoads, IsSizes};
ghost use Rattle.lb_certificates.specs.Certificate.{IsCertified, NoneAbove};
ghost use Rattle.lb_certificates.specs.Chain.{IsDivision, IsLeastDivision, peak};
ghost use Rattle.lb_certificates.specs.Flaws.{AreApart, Repeats};
ghost use Rattle.chain_refinement.specs.Flaws.{HasRefinementFlaw, IsFirstRefinementFlaw};
ghost use Rattle.chain_refinement.specs.Internal.{AreOrdered, claim_of, IsFirstHeavy};
ghost use Rattle.chain_refinement.specs.Refinement.{AreFewest, AreWithin, height_at, IsRefinement, refined_limit};
ghost use Rattle.chain_refinement.specs.Walks.{IsLeastStart};

use crate::claim::HeightsClaim;
use crate::costs::cost_of_cuts;
use crate::flaw::RefinementFlaw;
use crate::order::stand_in_order;
use crate::place::climbed_to;
use crate::refinement::Refinement;
use crate::steep::first_steep;
use crate::walk::{Window, slid};
use chare_index::Limits;
use lb_certificates::check_division;
use lb_snapshot::{Loads, Snapshot, Units};
use std::alloc::Allocator;

/// Checks a refinement for `pes` PEs, whoever made it. `Ok` means that no block is above the limit, that the limit is as far
/// above the least possible load as the tolerance says, and that no cuts within the limit move fewer bytes where the PEs keep
/// this order.
///
/// Any number of PEs and any lists may be passed. It takes no memory. Where the elements are in the order of the PEs by the
/// present cuts, it takes time in proportion to the elements, the PEs, the steps, and the places around each present cut at
/// which the heights rise; otherwise in proportion to the elements times the PEs.
///
/// # Errors
///
/// The first [`RefinementFlaw`] that applies, in their order, and of those of one kind the one at the first block and place.
///
/// That heights bound what cuts cost is the duality of shortest paths: R. K. Ahuja, T. L. Magnanti and J. B. Orlin,
/// "Network Flows", 1993, chapter 4.
pub fn check_refinement<A: Allocator, B: Allocator>(
    snapshot: &Snapshot<A>,
    pes: u32,
    refinement: &Refinement<B>,
) -> Result<(), RefinementFlaw>
    ensures exact { IsOk result ↔ IsRefinement snapshot.now.loads snapshot.now.sizes pes refinement.now }
    ensures peak { OnOk result (peak snapshot.now.loads refinement.now.cuts ≤ refined_limit refinement.now) }
    ensures least { OnOk result (IsLeastDivision snapshot.now.loads pes refinement.now.least.bottleneck refinement.now.least.cuts) }
    ensures fewest { OnOk result (AreFewest snapshot.now.loads snapshot.now.sizes refinement.now.order (refined_limit refinement.now) refinement.now.cuts) }
    ensures first_flaw { IfErr result (IsFirstRefinementFlaw (HasRefinementFlaw snapshot.now.loads snapshot.now.sizes pes refinement.now)) }
{
    check_parts(snapshot, pes, refinement)
}

// Runs the checks of `check_refinement` one after another.
fn check_parts<A: Allocator, B: Allocator>(
    snapshot: &Snapshot<A>,
    pes: u32,
    refinement: &Refinement<B>,
) -> Result<(), RefinementFlaw>
    ensures right { OnOk result (IsRefinement snapshot.now.loads snapshot.now.sizes pes refinement.now) }
    ensures paired { OnOk result (length snapshot.now.loads ≡ length snapshot.now.sizes) }
    ensures first_flaw { IfErr result (IsFirstRefinementFlaw (HasRefinementFlaw snapshot.now.loads snapshot.now.sizes pes refinement.now)) }
{
    check_least(snapshot, pes, refinement)?;
    check_order(snapshot, pes, refinement)?;
    check_cuts(snapshot, pes, refinement)?;
    check_heights(snapshot, pes, refinement)?;
    check_bound(snapshot, pes, refinement)
}

// The flaws of the least division.
fn check_least<A: Allocator, B: Allocator>(
    snapshot: &Snapshot<A>,
    pes: u32,
    refinement: &Refinement<B>,
) -> Result<(), RefinementFlaw>
    ensures certified { OnOk result (IsCertified snapshot.now.loads pes refinement.now.least) }
    ensures first_flaw { IfErr result (IsFirstRefinementFlaw (HasRefinementFlaw snapshot.now.loads snapshot.now.sizes pes refinement.now)) }
{
    if let Err(flaw) = check_division(snapshot.loads(), pes, &refinement.least) {
        return Err(RefinementFlaw::Least(flaw));
    }
    Ok(())
}

// The flaws of the number of PEs and their order.
fn check_order<A: Allocator, B: Allocator>(
    snapshot: &Snapshot<A>,
    pes: u32,
    refinement: &Refinement<B>,
) -> Result<(), RefinementFlaw>
    requires certified { IsCertified snapshot.now.loads pes refinement.now.least }
    ensures ordered { OnOk result (AreOrdered pes refinement.now.order) }
    ensures first_flaw { IfErr result (IsFirstRefinementFlaw (HasRefinementFlaw snapshot.now.loads snapshot.now.sizes pes refinement.now)) }
{
    let names = refinement.order.as_slice();
    if pes == 0 || pes > Limits::PES {
        return Err(RefinementFlaw::PeCount);
    }
    if names.len() != pes as usize {
        return Err(RefinementFlaw::NameCount);
    }
    if !all_below(names, pes) {
        return Err(RefinementFlaw::NameRange);
    }
    if !all_apart(names) {
        return Err(RefinementFlaw::NameTwice);
    }
    Ok(())
}

// Whether each name is below the number of PEs.
fn all_below(names: &[u32], pes: u32) -> bool
    ensures below { MatchBool result ((b : ℕ) → b < length names.now → slice_index names.now b < pes)
        ((b : ℕ) × (b < length names.now) × (pes ≤ slice_index names.now b)) }
{
    for &name in names {
        if name >= pes {
            return false;
        }
    }
    true
}

// Whether no name occurs twice.
fn all_apart(names: &[u32]) -> bool
    ensures apart { MatchBool result (AreApart names.now) (Repeats names.now) }
{
    for b in 0..names.len() {
        if names[..b].contains(&names[b]) {
            return false;
        }
    }
    true
}

// The flaws of the cuts.
fn check_cuts<A: Allocator, B: Allocator>(
    snapshot: &Snapshot<A>,
    pes: u32,
    refinement: &Refinement<B>,
) -> Result<(), RefinementFlaw>
    requires certified { IsCertified snapshot.now.loads pes refinement.now.least }
    requires ordered { AreOrdered pes refinement.now.order }
    ensures within { OnOk result (AreWithin snapshot.now.loads refinement.now.order (refined_limit refinement.now) refinement.now.cuts) }
    ensures first_flaw { IfErr result (IsFirstRefinementFlaw (HasRefinementFlaw snapshot.now.loads snapshot.now.sizes pes refinement.now)) }
{
    let cuts = refinement.cuts.as_slice();
    if cuts.len() != pes as usize + 1 {
        return Err(RefinementFlaw::CutCount);
    }
    if !refinement.cuts.divides(snapshot.loads().len()) {
        return Err(RefinementFlaw::NoDivision);
    }
    let limit = claim_of(snapshot, pes, refinement).limit;
    match first_heavy(snapshot.loads(), pes, limit, cuts) {
        None => Ok(()),
        Some(b) => Err(RefinementFlaw::Heavy(b)),
    }
}

// The first block above the limit.
fn first_heavy<A: Allocator>(loads: &Loads<A>, pes: u32, limit: u64, cuts: &[u32]) -> Option<u32>
    requires divides { IsDivision 0 (length loads.now) pes cuts.now }
    ensures first { MatchOption result (NoneAbove loads.now pes limit cuts.now) (IsFirstHeavy loads.now pes limit cuts.now) }
{
    for b in 0..pes {
        let first = cuts[b as usize] as usize;
        let end = cuts[b as usize + 1] as usize;
        if loads.load(first, end) > limit {
            return Some(b);
        }
    }
    None
}

// What the refinement claims of the elements. The limit is far below what 64 bits hold, since the division is a least one.
fn claim_of<'a, A: Allocator, B: Allocator>(
    snapshot: &'a Snapshot<A>,
    pes: u32,
    refinement: &'a Refinement<B>,
) -> HeightsClaim<'a, B>
    requires certified { IsCertified snapshot.now.loads pes refinement.now.least }
    ensures value { result ≡ claim_of snapshot.now.loads snapshot.now.sizes refinement.now }
    ensures loads { IsLoads snapshot.now.loads }
    ensures sizes { IsSizes snapshot.now.sizes }
    ensures paired { length snapshot.now.loads ≡ length snapshot.now.sizes }
{
    HeightsClaim {
        loads: snapshot.loads().as_slice(),
        sizes: snapshot.sizes().as_slice(),
        names: refinement.order.as_slice(),
        limit: refinement.tolerance.limit(refinement.least.bottleneck),
        heights: refinement.heights.as_slice(),
    }
}

// The flaws of the heights themselves.
fn check_heights<A: Allocator, B: Allocator>(
    snapshot: &Snapshot<A>,
    pes: u32,
    refinement: &Refinement<B>,
) -> Result<(), RefinementFlaw>
    requires certified { IsCertified snapshot.now.loads pes refinement.now.least }
    requires ordered { AreOrdered pes refinement.now.order }
    requires within { AreWithin snapshot.now.loads refinement.now.order (refined_limit refinement.now) refinement.now.cuts }
    ensures counted { OnOk result (length refinement.now.heights ≡ pes) }
    ensures starts { OnOk result (height_at refinement.now.heights 0 0 ≡ 0) }
    ensures first_flaw { IfErr result (IsFirstRefinementFlaw (HasRefinementFlaw snapshot.now.loads snapshot.now.sizes pes refinement.now)) }
{
    if refinement.heights.as_slice().len() != pes as usize {
        return Err(RefinementFlaw::HeightCount);
    }
    let claim = claim_of(snapshot, pes, refinement);
    if climbed_to(&claim, 0, 0).height != 0 {
        return Err(RefinementFlaw::HeightStart);
    }
    Ok(())
}

// The flaws of the bound that the heights give.
fn check_bound<A: Allocator, B: Allocator>(
    snapshot: &Snapshot<A>,
    pes: u32,
    refinement: &Refinement<B>,
) -> Result<(), RefinementFlaw>
    requires certified { IsCertified snapshot.now.loads pes refinement.now.least }
    requires ordered { AreOrdered pes refinement.now.order }
    requires within { AreWithin snapshot.now.loads refinement.now.order (refined_limit refinement.now) refinement.now.cuts }
    requires counted { length refinement.now.heights ≡ pes }
    requires starts { height_at refinement.now.heights 0 0 ≡ 0 }
    ensures right { OnOk result (IsRefinement snapshot.now.loads snapshot.now.sizes pes refinement.now) }
    ensures paired { OnOk result (length snapshot.now.loads ≡ length snapshot.now.sizes) }
    ensures first_flaw { IfErr result (IsFirstRefinementFlaw (HasRefinementFlaw snapshot.now.loads snapshot.now.sizes pes refinement.now)) }
{
    let claim = claim_of(snapshot, pes, refinement);
    let in_order = stand_in_order(claim.sizes, claim.names, &refinement.present);
    let present = refinement.present.as_slice();
    if let Some((b, x)) = first_steep(&claim, in_order, present) {
        return Err(RefinementFlaw::Steep(b, x));
    }
    let start = last_start(claim.loads, claim.limit);
    let bound = climbed_to(&claim, pes - 1, start).height;
    if bound < cost_of_cuts(&claim, in_order, present, refinement.cuts.as_slice()) {
        return Err(RefinementFlaw::HeightLow);
    }
    Ok(())
}

// The first place at which the last block may begin.
fn last_start(loads: &[Units], limit: u64) -> usize
    requires measured { IsLoads loads.now }
    ensures start { IsLeastStart loads.now (length loads.now) limit result }
{
    let mut window = Window {
        start: 0,
        weight: 0,
    };
    for element in 0..loads.len() {
        window = slid(loads, window, element, limit);
    }
    window.start
}
