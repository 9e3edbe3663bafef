//! The check of what somebody claims to be a decision in any order of the PEs.

ghost use Rattle.std.specs.Prelude.{◌≡◌, ◌+◌, ◌<◌, ◌≤◌, ℕ, None, IfOk, OnOk, IfErr, MatchOption, length, take, drop};
ghost use Rattle.lb_certificates.specs.Flaws.{flaw_number};
ghost use Rattle.lb_lists.specs.Claims.{division_of};
ghost use Rattle.lb_lists.specs.ReorderedClaims.{claim_flaw_number, claim_flaw_place, number_of_division, reordered_in, IsBestOfAll, IsFirstClaimFlaw, IsRightReordered};
ghost use Rattle.lb_lists.specs.Runs.{sizes_of, AreSmall, FitsSnapshot, IsAsked, IsRefineRefusal, Listed};
ghost use Rattle.lb_lists.specs.Steps.{heights_in};
ghost use Rattle.lb_lists.specs.declared.limits.TheConstants.RunLimits.{PES};

use crate::checking::{flaw_told, floor_from, number_of};
use crate::claim::{back, front};
use crate::error::{RefineError, RunError};
use crate::refined_checking::place_of;
use crate::reordered_claim::ReorderedClaim;
use crate::run::Run;
use crate::snapshot::snapshot_of;
use crate::steps::pairs_between;
use any_order::{ByteBounds, Levels, Reordered, ReorderedFlaw, check_reordered, moved_by};
use chain_refinement::Tolerance;
use lb_certificates::{Cuts, Division, Flaw, Naming};
use lb_refinement::greatest_load;
use lb_snapshot::Snapshot;
use std::alloc::{AllocError, Allocator};

/// What is wrong with a claim of a decision in any order of the PEs.
#[derive(Clone, Copy, Debug, PartialEq, Eq)]
pub enum ReorderedClaimFlaw {
    /// The least division, the cuts, the names or the bounds have this flaw.
    OfReordered(ReorderedFlaw),
    /// These are right, and the bottleneck is not the load of the heaviest block.
    BottleneckWrong,
    /// All that is right, and the bytes or the places have this flaw.
    OfDecision(Flaw),
}

// The rows of these levels.
fn rows_from<A: Allocator + Copy>(
    alloc: A,
    starts: &[usize],
    places: &[u32],
    bytes: &[u64],
) -> Result<ByteBounds<A>, AllocError>
    ensures { IfOk result (λ bounds. bounds ≡ heights_in starts.now places.now bytes.now) }
{
    let mut rows = Vec::new(alloc);
    for b in 1..starts.len() {
        let levels = pairs_between(alloc, places, bytes, starts[b - 1], starts[b])?;
        rows.push(Levels::new(levels))?;
    }
    Ok(ByteBounds::new(rows))
}

// The division that is claimed to be least.
fn least_from<A: Allocator + Copy>(
    alloc: A,
    claim: &ReorderedClaim<'_>,
) -> Result<Division<A>, AllocError>
    ensures { IfOk result (λ d. d ≡ division_of claim.now.least claim.now.least_cuts claim.now.decision.stops) }
{
    Ok(Division {
        bottleneck: claim.least,
        cuts: Cuts::new(Vec::from_slice(alloc, claim.least_cuts)?),
        floor: floor_from(alloc, claim.decision.stops)?,
    })
}

// The reordered division that is claimed.
fn reordered_from<A: Allocator + Copy>(
    alloc: A,
    pes: u32,
    tolerance: Tolerance,
    claim: &ReorderedClaim<'_>,
) -> Result<Reordered<A>, AllocError>
    requires few_pes { pes ≤ PES }
    ensures { IfOk result (λ r. r ≡ reordered_in pes tolerance claim.now) }
{
    let blocks = pes as usize;
    let (places, bytes) = (claim.level_places, claim.level_bytes);
    Ok(Reordered {
        least: least_from(alloc, claim)?,
        tolerance,
        cuts: Cuts::new(Vec::from_slice(alloc, claim.decision.cuts)?),
        names: Naming::new(Vec::from_slice(alloc, claim.decision.names)?),
        any: rows_from(alloc, front(claim.level_starts, blocks + 2), places, bytes)?,
        free: rows_from(alloc, back(claim.level_starts, blocks + 1), places, bytes)?,
    })
}

// The first flaw of a claim with this reordered division.
fn first_claim_flaw<A: Allocator>(
    snapshot: &Snapshot<A>,
    pes: u32,
    claim: &ReorderedClaim<'_>,
    reordered: &Reordered<A>,
) -> Option<ReorderedClaimFlaw>
    requires cuts { reordered.now.cuts ≡ claim.now.decision.cuts }
    requires names { reordered.now.names ≡ claim.now.decision.names }
    requires paired { length snapshot.now.loads ≡ length snapshot.now.sizes }
    ensures { (run : Listed) (thousandths : ℕ) → snapshot.now.loads ≡ run.loads → snapshot.now.sizes ≡ sizes_of run
        → reordered.now ≡ reordered_in pes thousandths claim.now
        → MatchOption result (IsRightReordered run pes thousandths claim.now) (IsFirstClaimFlaw run pes thousandths claim.now) }
{
    if let Err(flaw) = check_reordered(snapshot, pes, reordered) {
        return Some(ReorderedClaimFlaw::OfReordered(flaw));
    }
    let decision = &claim.decision;
    if greatest_load(snapshot.loads(), pes, decision.cuts) != decision.bottleneck {
        return Some(ReorderedClaimFlaw::BottleneckWrong);
    }
    let sizes = snapshot.sizes().as_slice();
    let moved = moved_by(sizes, decision.cuts, decision.names);
    match flaw_told(moved, sizes.len(), decision) {
        Some(flaw) => Some(ReorderedClaimFlaw::OfDecision(flaw)),
        None => None,
    }
}

/// Checks what somebody claims to be a decision for a run and `pes` PEs within a tolerance in thousandths, in any order of the PEs:
/// `None` exactly where every part of the claim is right, and otherwise its first flaw. `None` means that no division of the
/// elements into `pes` consecutive blocks has a heaviest block lighter than `least`, that no cuts within the tolerance and no names
/// of their blocks move fewer bytes, that the bottleneck is the load of the heaviest block, and that the claim states the bytes that
/// its own names move, and for each element the name of its block. It is so wherever the elements are.
///
/// Any claim may be passed. Flaws are looked for in the order of [`ReorderedClaimFlaw`], and within one kind in that of
/// [`ReorderedFlaw`] or [`Flaw`]. The check takes memory in proportion to the claim's lists and the levels of all rows, and time as
/// [`check_reordered`] does.
///
/// # Errors
///
/// [`BadTolerance`](RefineError::BadTolerance) where it is above [`Tolerance::MOST`]; then as
/// [`refine_run`](crate::refine_run).
pub fn check_reordered_claim<A: Allocator + Copy>(
    alloc: A,
    run: &Run<'_>,
    pes: u32,
    thousandths: u32,
    claim: &ReorderedClaim<'_>,
) -> Result<Option<ReorderedClaimFlaw>, RefineError>
    ensures exact { IfOk result (λ flaw. MatchOption flaw (IsRightReordered run.now pes thousandths claim.now) (IsFirstClaimFlaw run.now pes thousandths claim.now)) }
    ensures best { IfOk result (λ flaw. flaw ≡ None → IsBestOfAll run.now pes thousandths claim.now) }
    ensures small_tolerance { OnOk result (thousandths ≤ 1000) }
    ensures asked { OnOk result (IsAsked run.now pes) }
    ensures small { OnOk result (AreSmall run.now.loads) }
    ensures fits { OnOk result (FitsSnapshot run.now pes) }
    ensures refused { IfErr result (IsRefineRefusal thousandths (IsAsked run.now pes) (AreSmall run.now.loads) (FitsSnapshot run.now pes)) }
{
    let Some(tolerance) = Tolerance::new(thousandths) else {
        return Err(RefineError::BadTolerance);
    };
    let snapshot = match snapshot_of(alloc, run, pes) {
        Ok(snapshot) => snapshot,
        Err(refused) => return Err(refused),
    };
    let Ok(reordered) = reordered_from(alloc, pes, tolerance, claim) else {
        return Err(RefineError::Run(RunError::OutOfMemory));
    };
    let flaw = first_claim_flaw(&snapshot, pes, claim, &reordered);
    drop(reordered);
    drop(snapshot);
    Ok(flaw)
}

/// The number of a flaw, from 1. Flaws that other claims can have, too, have the number that they have there: 1 to 11 for the least
/// division, 12 to 14 for the names, 20, 24 to 26 and 32 as in [`number_of_refined`](crate::number_of_refined), 18 and 19 for bytes
/// and places. Those of the bounds are 35 to 38.
pub fn number_of_reordered(flaw: ReorderedClaimFlaw) -> u8
    ensures value { result ≡ claim_flaw_number flaw }
    ensures positive { 1 ≤ result }
{
    match flaw {
        ReorderedClaimFlaw::OfReordered(flaw) => number_in_division(flaw),
        ReorderedClaimFlaw::BottleneckWrong => 32,
        ReorderedClaimFlaw::OfDecision(flaw) => number_of(flaw),
    }
}

// The number of a flaw of a reordered division.
fn number_in_division(flaw: ReorderedFlaw) -> u8
    ensures value { result ≡ number_of_division flaw }
    ensures positive { 1 ≤ result }
{
    match flaw {
        ReorderedFlaw::Least(flaw) => number_of(flaw),
        ReorderedFlaw::PeCount => 20,
        ReorderedFlaw::NameCount => 12,
        ReorderedFlaw::NameRange => 13,
        ReorderedFlaw::NameTwice => 14,
        ReorderedFlaw::CutCount => 24,
        ReorderedFlaw::NoDivision => 25,
        ReorderedFlaw::Heavy(_) => 26,
        ReorderedFlaw::RowCount => 35,
        ReorderedFlaw::Start => 36,
        ReorderedFlaw::Steep(_, _, _) => 37,
        ReorderedFlaw::Low => 38,
    }
}

/// The block, the stop (from 1), or the number of blocks with the places where one more begins and ends, that a flaw names, and 0
/// for each that it does not name.
pub fn place_of_reordered(flaw: ReorderedClaimFlaw) -> (u32, u32, u32)
    ensures value { result ≡ claim_flaw_place flaw }
{
    match flaw {
        ReorderedClaimFlaw::OfReordered(ReorderedFlaw::Least(flaw))
        | ReorderedClaimFlaw::OfDecision(flaw) => {
            let (first, second) = place_of(flaw);
            (first, second, 0)
        }
        ReorderedClaimFlaw::OfReordered(ReorderedFlaw::Heavy(block)) => (block, 0, 0),
        ReorderedClaimFlaw::OfReordered(ReorderedFlaw::Steep(blocks, first, end)) => {
            (blocks, first, end)
        }
        _ => (0, 0, 0),
    }
}
