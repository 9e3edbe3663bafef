//! The check of what somebody claims to be a decision within a tolerance.

ghost use Rattle.std.specs.Prelude.{◌≡◌, ◌+◌, ◌<◌, ◌≤◌, ◌↔◌, ℕ, IsTrue, None, IfOk, OnOk, IfErr, MatchBool, MatchOption, length};
ghost use Rattle.std.specs.List.{between, zip};
ghost use Rattle.lb_certificates.specs.Chain.{IsDivision};
ghost use Rattle.lb_certificates.specs.Flaws.{flaw_number, flaw_place};
ghost use Rattle.lb_certificates.specs.Naming.{bytes_moved};
ghost use Rattle.chain_refinement.specs.Flaws.{refinement_flaw_number, refinement_flaw_place};
ghost use Rattle.chain_refinement.specs.Orders.{IsPresentOrder};
ghost use Rattle.lb_lists.specs.Claims.{division_of, IsFlawTold, IsToldRight};
ghost use Rattle.lb_lists.specs.RefinedClaims.{refined_flaw_number, refined_flaw_place, refinement_of, AreNamesRight, IsBestWithin};
ghost use Rattle.lb_lists.specs.RefinedClaims.{IsFirstRefinedFlaw, IsNamesFlaw, IsRightRefined, IsRightUpToNames};
ghost use Rattle.lb_lists.specs.Runs.{sizes_of, AreSmall, FitsSnapshot, IsAsked, IsRefineRefusal, Listed};
ghost use Rattle.lb_lists.specs.Steps.{heights_in};

use crate::checking::{flaw_told, floor_from, number_of, prices_from};
use crate::error::{RefineError, RunError};
use crate::refined_claim::RefinedClaim;
use crate::run::Run;
use crate::snapshot::snapshot_of;
use crate::steps::pairs_between;
use chain_refinement::{
    Heights, PresentOrder, Refinement, RefinementFlaw, Steps, Tolerance, check_refinement,
    present_order,
};
use chare_index::{Limits, Pes};
use lb_certificates::{Cuts, Division, Flaw, Naming, Prices, check_naming};
use lb_refinement::{greatest_load, moved_by};
use lb_snapshot::{Sizes, Snapshot};
use std::alloc::{AllocError, Allocator};

/// What is wrong with a claim of a decision within a tolerance.
#[derive(Clone, Copy, Debug, PartialEq, Eq)]
pub enum RefinedFlaw {
    /// The cuts, the least division, the order or the heights have this flaw.
    OfRefinement(RefinementFlaw),
    /// These are right, and the order and the present cuts are not those of the PEs, or the PEs have no order.
    OrderWrong,
    /// That is right, too, and the bottleneck is not the load of the heaviest block.
    BottleneckWrong,
    /// That is right, too, and the PEs are to keep their order, which the names are not.
    NamesNotOrder,
    /// All that is right, and the names, their prices, the bytes or the places have this flaw.
    OfDecision(Flaw),
}

// The heights that are claimed.
fn heights_from<A: Allocator + Copy>(
    alloc: A,
    claim: &RefinedClaim<'_>,
) -> Result<Heights<A>, AllocError>
    ensures { IfOk result (λ heights. heights ≡ heights_in claim.now.step_starts claim.now.step_places claim.now.step_rises) }
{
    let starts = claim.step_starts;
    let mut rows = Vec::new(alloc);
    for b in 1..starts.len() {
        let steps = pairs_between(
            alloc,
            claim.step_places,
            claim.step_rises,
            starts[b - 1],
            starts[b],
        )?;
        rows.push(Steps::new(steps))?;
    }
    Ok(Heights::new(rows))
}

// The division that is claimed to be least.
fn least_from<A: Allocator + Copy>(
    alloc: A,
    claim: &RefinedClaim<'_>,
) -> Result<Division<A>, AllocError>
    ensures { IfOk result (λ d. d ≡ division_of claim.now.least claim.now.least_cuts claim.now.decision.stops) }
{
    Ok(Division {
        bottleneck: claim.least,
        cuts: Cuts::new(Vec::from_slice(alloc, claim.least_cuts)?),
        floor: floor_from(alloc, claim.decision.stops)?,
    })
}

// The refinement that is claimed.
fn refinement_from<A: Allocator + Copy>(
    alloc: A,
    tolerance: Tolerance,
    claim: &RefinedClaim<'_>,
) -> Result<Refinement<A>, AllocError>
    ensures { IfOk result (λ r. r ≡ refinement_of tolerance claim.now) }
{
    Ok(Refinement {
        least: least_from(alloc, claim)?,
        tolerance,
        order: Naming::new(Vec::from_slice(alloc, claim.order)?),
        present: Cuts::new(Vec::from_slice(alloc, claim.present)?),
        cuts: Cuts::new(Vec::from_slice(alloc, claim.decision.cuts)?),
        heights: heights_from(alloc, claim)?,
    })
}

// The lists of a claim, in the form that the checkers take.
#[derive(Drop)]
struct RefinedParts<A: Allocator> {
    refinement: Refinement<A>,
    naming: Naming<A>,
    prices: Prices<A>,
}

// The lists of this claim.
fn refined_parts<A: Allocator + Copy>(
    alloc: A,
    tolerance: Tolerance,
    claim: &RefinedClaim<'_>,
) -> Result<RefinedParts<A>, AllocError>
    ensures refinement { IfOk result (λ p. p.refinement ≡ refinement_of tolerance claim.now) }
    ensures naming { IfOk result (λ p. p.naming ≡ claim.now.decision.names) }
    ensures block_prices { IfOk result (λ p. p.prices.u ≡ claim.now.decision.block_prices) }
    ensures pe_prices { IfOk result (λ p. p.prices.v ≡ claim.now.decision.pe_prices) }
{
    let refinement = refinement_from(alloc, tolerance, claim)?;
    let naming = Naming::new(Vec::from_slice(alloc, claim.decision.names)?);
    Ok(RefinedParts {
        refinement,
        naming,
        prices: prices_from(alloc, &claim.decision)?,
    })
}

// The first flaw of the names, prices, bytes and places of a claim with these parts, whose refinement is right.
fn names_flaw<A: Allocator>(
    snapshot: &Snapshot<A>,
    claim: &RefinedClaim<'_>,
    parts: &RefinedParts<A>,
) -> Option<Flaw>
    requires cuts { parts.now.refinement.cuts ≡ claim.now.decision.cuts }
    requires naming { parts.now.naming ≡ claim.now.decision.names }
    requires block_prices { parts.now.prices.u ≡ claim.now.decision.block_prices }
    requires pe_prices { parts.now.prices.v ≡ claim.now.decision.pe_prices }
    requires paired { length snapshot.now.loads ≡ length snapshot.now.sizes }
    ensures { (run : Listed) → snapshot.now.loads ≡ run.loads → snapshot.now.sizes ≡ sizes_of run
        → MatchOption result (AreNamesRight run claim.now.decision) (IsNamesFlaw run claim.now.decision) }
{
    match check_naming(
        snapshot.sizes(),
        &parts.refinement.cuts,
        &parts.naming,
        &parts.prices,
    ) {
        Err(flaw) => Some(flaw),
        Ok(moved) => flaw_told(moved, snapshot.loads().len(), &claim.decision),
    }
}

// Whether an order is this one, with these present cuts.
fn is_same<A: Allocator>(found: &PresentOrder<A>, order: &[u32], present: &[u32]) -> bool
    ensures { IsTrue result ↔ ((found.now.names ≡ order.now) × (found.now.present ≡ present.now)) }
{
    found.names.as_slice() == order && found.present.as_slice() == present
}

// Whether the PEs have an order, and this is it, with these present cuts.
#[tactic(auto, using(crate::proofs::RefinedClaims::order_is))]
fn is_order<A: Allocator + Copy, B: Allocator>(
    alloc: A,
    sizes: &Sizes<B>,
    pes: Pes,
    order: &[u32],
    present: &[u32],
) -> Result<bool, AllocError>
    ensures { IfOk result (λ is. MatchBool is (IsPresentOrder sizes.now pes order.now present.now) (¬ (IsPresentOrder sizes.now pes order.now present.now))) }
{
    let Some(found) = present_order(alloc, sizes, pes)? else {
        return Ok(false);
    };
    Ok(is_same(&found, order, present))
}

// The first flaw of the bytes and the places of a claim whose names are the order of the PEs, and whose refinement is right.
fn in_order_flaw<A: Allocator>(
    snapshot: &Snapshot<A>,
    pes: u32,
    claim: &RefinedClaim<'_>,
) -> Option<Flaw>
    requires some_pe { 0 < pes }
    requires few_pes { pes ≤ Limits.PES }
    requires divides { IsDivision 0 (length snapshot.now.loads) pes claim.now.decision.cuts }
    requires named { length claim.now.decision.names ≡ pes }
    requires paired { length snapshot.now.loads ≡ length snapshot.now.sizes }
    ensures { MatchOption result
        (IsToldRight (bytes_moved snapshot.now.sizes claim.now.decision.cuts claim.now.decision.names) (length snapshot.now.loads) claim.now.decision)
        (IsFlawTold (bytes_moved snapshot.now.sizes claim.now.decision.cuts claim.now.decision.names) (length snapshot.now.loads) claim.now.decision) }
{
    let decision = &claim.decision;
    let moved = moved_by(snapshot.sizes().as_slice(), decision.cuts, decision.names);
    flaw_told(moved, snapshot.loads().len(), decision)
}

// The first flaw of a claim whose refinement, order and bottleneck are right.
fn flaw_of_names<A: Allocator>(
    snapshot: &Snapshot<A>,
    pes: u32,
    claim: &RefinedClaim<'_>,
    parts: &RefinedParts<A>,
) -> Option<RefinedFlaw>
    requires cuts { parts.now.refinement.cuts ≡ claim.now.decision.cuts }
    requires naming { parts.now.naming ≡ claim.now.decision.names }
    requires block_prices { parts.now.prices.u ≡ claim.now.decision.block_prices }
    requires pe_prices { parts.now.prices.v ≡ claim.now.decision.pe_prices }
    requires paired { length snapshot.now.loads ≡ length snapshot.now.sizes }
    requires some_pe { 0 < pes }
    requires few_pes { pes ≤ Limits.PES }
    requires order { length claim.now.order ≡ pes }
    requires divides { IsDivision 0 (length snapshot.now.loads) pes claim.now.decision.cuts }
    ensures { (run : Listed) (thousandths : ℕ) → snapshot.now.loads ≡ run.loads → snapshot.now.sizes ≡ sizes_of run
        → IsRightUpToNames run pes thousandths claim.now
        → MatchOption result (IsRightRefined run pes thousandths claim.now) (IsFirstRefinedFlaw run pes thousandths claim.now) }
{
    if !claim.keep_order {
        return match names_flaw(snapshot, claim, parts) {
            Some(flaw) => Some(RefinedFlaw::OfDecision(flaw)),
            None => None,
        };
    }
    if claim.decision.names != claim.order {
        return Some(RefinedFlaw::NamesNotOrder);
    }
    match in_order_flaw(snapshot, pes, claim) {
        Some(flaw) => Some(RefinedFlaw::OfDecision(flaw)),
        None => None,
    }
}

// The first flaw of a claim with these parts, where it is known whether its order is that of the PEs.
fn first_refined_flaw<A: Allocator>(
    snapshot: &Snapshot<A>,
    pes: u32,
    claim: &RefinedClaim<'_>,
    parts: &RefinedParts<A>,
    in_order: bool,
) -> Option<RefinedFlaw>
    requires cuts { parts.now.refinement.cuts ≡ claim.now.decision.cuts }
    requires naming { parts.now.naming ≡ claim.now.decision.names }
    requires block_prices { parts.now.prices.u ≡ claim.now.decision.block_prices }
    requires pe_prices { parts.now.prices.v ≡ claim.now.decision.pe_prices }
    requires paired { length snapshot.now.loads ≡ length snapshot.now.sizes }
    requires in_order { MatchBool in_order (IsPresentOrder snapshot.now.sizes pes claim.now.order claim.now.present)
        (¬ (IsPresentOrder snapshot.now.sizes pes claim.now.order claim.now.present)) }
    ensures { (run : Listed) (thousandths : ℕ) → snapshot.now.loads ≡ run.loads → snapshot.now.sizes ≡ sizes_of run
        → parts.now.refinement ≡ refinement_of thousandths claim.now
        → MatchOption result (IsRightRefined run pes thousandths claim.now) (IsFirstRefinedFlaw run pes thousandths claim.now) }
{
    if let Err(flaw) = check_refinement(snapshot, pes, &parts.refinement) {
        return Some(RefinedFlaw::OfRefinement(flaw));
    }
    if !in_order {
        return Some(RefinedFlaw::OrderWrong);
    }
    if greatest_load(snapshot.loads(), pes, claim.decision.cuts) != claim.decision.bottleneck {
        return Some(RefinedFlaw::BottleneckWrong);
    }
    flaw_of_names(snapshot, pes, claim, parts)
}

/// Checks what somebody claims to be a decision for a run and `pes` PEs within a tolerance in thousandths, whose cuts are near
/// the present ones: `None` exactly where every part of the claim is right, and otherwise its first flaw. `None` means that no
/// division of the elements into `pes` consecutive blocks has a heaviest block lighter than `least`, that the PEs stand in the
/// claim's order, in which no cuts within the tolerance move fewer bytes, that the bottleneck is the load of the heaviest block,
/// that no naming of the blocks moves fewer bytes, or, where the PEs are to keep their order, that the names are the order, and
/// that the claim states the bytes that its own naming moves, and for each element the name of its block. Whether the plan moves
/// fewer bytes is not checked.
///
/// Any claim may be passed. Flaws are looked for in the order of [`RefinedFlaw`], and within one kind in that of
/// [`RefinementFlaw`] or [`Flaw`]. The check takes memory in proportion to the claim's lists and the steps of all blocks.
///
/// # Errors
///
/// [`BadTolerance`](RefineError::BadTolerance) where it is above [`Tolerance::MOST`]; then as
/// [`refine_run`](crate::refine_run).
pub fn check_refined<A: Allocator + Copy>(
    alloc: A,
    run: &Run<'_>,
    pes: u32,
    thousandths: u32,
    claim: &RefinedClaim<'_>,
) -> Result<Option<RefinedFlaw>, RefineError>
    ensures exact { IfOk result (λ flaw. MatchOption flaw (IsRightRefined run.now pes thousandths claim.now) (IsFirstRefinedFlaw run.now pes thousandths claim.now)) }
    ensures best { IfOk result (λ flaw. flaw ≡ None → IsBestWithin run.now pes thousandths claim.now) }
    ensures small_tolerance { OnOk result (thousandths ≤ 1000) }
    ensures asked { OnOk result (IsAsked run.now pes) }
    ensures small { OnOk result (AreSmall run.now.loads) }
    ensures fits { OnOk result (FitsSnapshot run.now pes) }
    ensures refused { IfErr result (IsRefineRefusal thousandths (IsAsked run.now pes) (AreSmall run.now.loads) (FitsSnapshot run.now pes)) }
{
    let Some(tolerance) = Tolerance::new(thousandths) else {
        return Err(RefineError::BadTolerance);
    };
    let snapshot = match snapshot_of(alloc, run, pes) {
        Ok(snapshot) => snapshot,
        Err(refused) => return Err(refused),
    };
    let Ok(parts) = refined_parts(alloc, tolerance, claim) else {
        return Err(RefineError::Run(RunError::OutOfMemory));
    };
    let count = Pes::of(pes);
    let Ok(in_order) = is_order(alloc, snapshot.sizes(), count, claim.order, claim.present) else {
        return Err(RefineError::Run(RunError::OutOfMemory));
    };
    let flaw = first_refined_flaw(&snapshot, pes, claim, &parts, in_order);
    drop(parts);
    drop(snapshot);
    Ok(flaw)
}

/// The number of a flaw, from 1: those of a [`RefinementFlaw`] are 1 to 11 and 20 to 30, those of order, bottleneck and names 31 to
/// 33, and those of the decision 12 to 19.
pub fn number_of_refined(flaw: RefinedFlaw) -> u8
    ensures value { result ≡ refined_flaw_number flaw }
    ensures positive { 1 ≤ result }
{
    match flaw {
        RefinedFlaw::OfRefinement(flaw) => number_of_refinement(flaw),
        RefinedFlaw::OrderWrong => 31,
        RefinedFlaw::BottleneckWrong => 32,
        RefinedFlaw::NamesNotOrder => 33,
        RefinedFlaw::OfDecision(flaw) => number_of(flaw),
    }
}

// The number of a flaw of a refinement.
fn number_of_refinement(flaw: RefinementFlaw) -> u8
    ensures value { result ≡ refinement_flaw_number flaw }
    ensures positive { 1 ≤ result }
{
    match flaw {
        RefinementFlaw::Least(flaw) => number_of(flaw),
        RefinementFlaw::PeCount => 20,
        RefinementFlaw::NameCount => 21,
        RefinementFlaw::NameRange => 22,
        RefinementFlaw::NameTwice => 23,
        RefinementFlaw::CutCount => 24,
        RefinementFlaw::NoDivision => 25,
        RefinementFlaw::Heavy(_) => 26,
        RefinementFlaw::HeightCount => 27,
        RefinementFlaw::HeightStart => 28,
        RefinementFlaw::Steep(_, _) => 29,
        RefinementFlaw::HeightLow => 30,
    }
}

/// The block, the stop (from 1), the block and the PE, or the block and the place that a flaw names, and 0 for each that it
/// does not name.
pub fn place_of_refined(flaw: RefinedFlaw) -> (u32, u32)
    ensures value { result ≡ refined_flaw_place flaw }
{
    match flaw {
        RefinedFlaw::OfRefinement(RefinementFlaw::Least(flaw)) | RefinedFlaw::OfDecision(flaw) =>
            place_of(flaw),
        RefinedFlaw::OfRefinement(RefinementFlaw::Heavy(block)) => (block, 0),
        RefinedFlaw::OfRefinement(RefinementFlaw::Steep(block, place)) => (block, place),
        _ => (0, 0),
    }
}

/// The block, the stop (from 1), or the block and the PE that a flaw of a decision names, and 0 for each that it does not name.
pub(crate) fn place_of(flaw: Flaw) -> (u32, u32)
    ensures { result ≡ flaw_place flaw }
{
    match flaw {
        Flaw::Heavy(block) => (block, 0),
        Flaw::FenceLight(stop) => (stop, 0),
        Flaw::PriceHigh(block, pe) => (block, pe),
        _ => (0, 0),
    }
}
