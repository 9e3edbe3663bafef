//! Checks a decision that is given as plain lists, and numbers its flaws.

ghost use Rattle.std.specs.Prelude.{◌≡◌, ◌<◌, ◌≤◌, None, IfOk, OnOk, IfErr, MatchBool, MatchOption, length, vec_len};
ghost use Rattle.lb_certificates.specs.Chain.{IsDivision};
ghost use Rattle.lb_certificates.specs.Flaws.{flaw_number};
ghost use Rattle.lb_certificates.specs.Naming.{blocks_between};
ghost use Rattle.lb_lists.specs.Claims.{division_of, floor_of, IsBest, IsFirstFlaw, IsFlawTold, IsRightClaim, IsToldRight};
ghost use Rattle.lb_lists.specs.Places.{ArePlaces};
ghost use Rattle.lb_lists.specs.Runs.{AreSmall, IsAsked, IsRefusal};

use crate::claim::{Claim, shorten};
use crate::error::RunError;
use crate::places::are_places;
use crate::run::{Run, are_small, is_asked};
use lb_certificates::{
    Cuts, Division, Flaw, Floor, Naming, PriceList, Prices, Stops, check_chain, check_naming_of,
};
use std::alloc::{AllocError, Allocator};

/// The floor with these stops.
pub(crate) fn floor_from<A: Allocator>(alloc: A, stops: &[u32]) -> Result<Floor<A>, AllocError>
    ensures { IfOk result (λ f. f ≡ floor_of stops.now) }
{
    if stops.is_empty() {
        return Ok(Floor::Zero);
    }
    Ok(Floor::Fence(Stops::new(Vec::from_slice(alloc, stops)?)))
}

// The division that is claimed.
fn division_from<A: Allocator + Copy>(
    alloc: A,
    claim: &Claim<'_>,
) -> Result<Division<A>, AllocError>
    ensures { IfOk result (λ d. d ≡ division_of claim.now.bottleneck claim.now.cuts claim.now.stops) }
{
    Ok(Division {
        bottleneck: claim.bottleneck,
        cuts: Cuts::new(Vec::from_slice(alloc, claim.cuts)?),
        floor: floor_from(alloc, claim.stops)?,
    })
}

/// The prices that are claimed.
pub(crate) fn prices_from<A: Allocator + Copy>(
    alloc: A,
    claim: &Claim<'_>,
) -> Result<Prices<A>, AllocError>
    ensures blocks { IfOk result (λ p. p.u ≡ claim.now.block_prices) }
    ensures pes { IfOk result (λ p. p.v ≡ claim.now.pe_prices) }
{
    Ok(Prices {
        u: PriceList::new(Vec::from_slice(alloc, claim.block_prices)?),
        v: PriceList::new(Vec::from_slice(alloc, claim.pe_prices)?),
    })
}

// The lists of a claim, in the form that the checkers take, and room for what one block costs on each PE.
#[derive(Drop)]
struct Parts<A: Allocator> {
    division: Division<A>,
    naming: Naming<A>,
    prices: Prices<A>,
    costs: Vec<u64, A>,
}

// The lists of this claim for `pes` PEs.
fn parts_of<A: Allocator + Copy>(
    alloc: A,
    claim: &Claim<'_>,
    pes: u32,
) -> Result<Parts<A>, AllocError>
    ensures division { IfOk result (λ p. p.division ≡ division_of claim.now.bottleneck claim.now.cuts claim.now.stops) }
    ensures naming { IfOk result (λ p. p.naming ≡ claim.now.names) }
    ensures block_prices { IfOk result (λ p. p.prices.u ≡ claim.now.block_prices) }
    ensures pe_prices { IfOk result (λ p. p.prices.v ≡ claim.now.pe_prices) }
    ensures costs { IfOk result (λ p. vec_len p.costs ≡ pes) }
{
    let division = division_from(alloc, claim)?;
    let naming = Naming::new(Vec::from_slice(alloc, claim.names)?);
    let prices = prices_from(alloc, claim)?;
    Ok(Parts {
        division,
        naming,
        prices,
        costs: vec![in alloc; 0u64; pes as usize]?,
    })
}

// Whether there is a place for each of this number of elements, and each is the name of its block.
fn is_placed(count: usize, claim: &Claim<'_>) -> bool
    requires some_block { 0 < blocks_between claim.now.cuts }
    requires divides { IsDivision 0 count (blocks_between claim.now.cuts) claim.now.cuts }
    requires named { length claim.now.names ≡ blocks_between claim.now.cuts }
    ensures { MatchBool result (ArePlaces claim.now.cuts claim.now.names count claim.now.new_places)
        (¬ (ArePlaces claim.now.cuts claim.now.names count claim.now.new_places)) }
{
    if claim.new_places.len() != count {
        return false;
    }
    are_places(claim.cuts, claim.names, claim.new_places)
}

/// The first flaw in what a claim states beside a right division and right names: in the bytes, and then in the places.
pub(crate) fn flaw_told(moved: u64, count: usize, claim: &Claim<'_>) -> Option<Flaw>
    requires some_block { 0 < blocks_between claim.now.cuts }
    requires divides { IsDivision 0 count (blocks_between claim.now.cuts) claim.now.cuts }
    requires named { length claim.now.names ≡ blocks_between claim.now.cuts }
    ensures { MatchOption result (IsToldRight moved count claim.now) (IsFlawTold moved count claim.now) }
{
    if claim.moved != moved {
        return Some(Flaw::MovedWrong);
    }
    if !is_placed(count, claim) {
        return Some(Flaw::MovesWrong);
    }
    None
}

// The first flaw of a claim with these parts.
fn first_flaw<A: Allocator>(
    run: &Run<'_>,
    pes: u32,
    claim: &Claim<'_>,
    parts: &mut Parts<A>,
) -> Option<Flaw>
    requires run { IsAsked run.now pes }
    requires division { parts.old.division ≡ division_of claim.now.bottleneck claim.now.cuts claim.now.stops }
    requires naming { parts.old.naming ≡ claim.now.names }
    requires block_prices { parts.old.prices.u ≡ claim.now.block_prices }
    requires pe_prices { parts.old.prices.v ≡ claim.now.pe_prices }
    requires costs { vec_len parts.old.costs ≡ pes }
    ensures { MatchOption result (IsRightClaim run.now pes claim.now) (IsFirstFlaw run.now pes claim.now) }
{
    let division = &parts.division;
    if let Err(flaw) = check_chain(run.loads, pes, division) {
        return Some(flaw);
    }
    match check_naming_of(
        run.bytes,
        run.places,
        &division.cuts,
        &parts.naming,
        &parts.prices,
        &mut parts.costs,
    ) {
        Err(flaw) => Some(flaw),
        Ok(moved) => flaw_told(moved, run.loads.len(), claim),
    }
}

/// Checks what somebody claims of a run and `pes` PEs: `None` exactly where every part of the claim is right, and otherwise its
/// first flaw. `None` means that no division of the elements into `pes` consecutive blocks has a lighter heaviest block, that
/// no naming of the blocks moves fewer bytes, and that the claim states the bytes that its own naming moves, and for each
/// element the name of its block.
///
/// Any claim may be passed. Its flaws are looked for in the order of [`Flaw`], where [`MovesWrong`](Flaw::MovesWrong) means a
/// wrong place. The run's lists and the places are only read, and of a certificate's list that is too long only as much is
/// copied as shows that it is.
///
/// # Errors
///
/// As [`plan_run`](crate::plan_run).
pub fn check_claim<A: Allocator + Copy>(
    alloc: A,
    run: &Run<'_>,
    pes: u32,
    claim: &Claim<'_>,
) -> Result<Option<Flaw>, RunError>
    ensures exact { IfOk result (λ flaw. MatchOption flaw (IsRightClaim run.now pes claim.now) (IsFirstFlaw run.now pes claim.now)) }
    ensures best { IfOk result (λ flaw. flaw ≡ None → IsBest run.now pes claim.now) }
    ensures asked { OnOk result (IsAsked run.now pes) }
    ensures small { OnOk result (AreSmall run.now.loads) }
    ensures refused { IfErr result (IsRefusal (IsAsked run.now pes) (AreSmall run.now.loads)) }
{
    if !is_asked(run, pes) {
        return Err(RunError::BadInput);
    }
    if !are_small(run.loads) {
        return Err(RunError::BadLoad);
    }
    let short = shorten(claim, pes);
    let Ok(mut parts) = parts_of(alloc, &short, pes) else {
        return Err(RunError::OutOfMemory);
    };
    let flaw = first_flaw(run, pes, &short, &mut parts);
    drop(parts);
    Ok(flaw)
}

/// The number of a flaw, from 1, in the order in which flaws are looked for.
pub fn number_of(flaw: Flaw) -> u8
    ensures value { result ≡ flaw_number flaw }
    ensures positive { 1 ≤ result }
{
    match flaw {
        Flaw::CutCount => 1,
        Flaw::CutStart => 2,
        Flaw::CutOrder => 3,
        Flaw::CutEnd => 4,
        Flaw::Heavy(_) => 5,
        Flaw::FenceCount => 6,
        Flaw::FenceStart => 7,
        Flaw::FenceOrder => 8,
        Flaw::FenceEnd => 9,
        Flaw::FenceLight(_) => 10,
        Flaw::ZeroFloor => 11,
        Flaw::NameCount => 12,
        Flaw::NameRange => 13,
        Flaw::NameTwice => 14,
        Flaw::PriceCount => 15,
        Flaw::PriceHigh(_, _) => 16,
        Flaw::PriceGap => 17,
        Flaw::MovedWrong => 18,
        Flaw::MovesWrong => 19,
    }
}
