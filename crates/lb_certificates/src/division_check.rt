//! Checks a division and its certificate.

ghost use Rattle.std.specs.Prelude.{◌≡◌, ◌+◌, ◌<◌, ◌↔◌, length, slice_index, IsOk, OnOk, IfErr, MatchBool, MatchOption};
ghost use Rattle.std.specs.List.Sorted.{IsNonDecreasing};
ghost use Rattle.lb_certificates.specs.Chain.{IsDivision, IsLeastDivision};
ghost use Rattle.lb_certificates.specs.Certificate.{HoldsFor, IsCertified, NoneAbove, NoneLight, IsFirstLight};
ghost use Rattle.lb_certificates.specs.Flaws.{Falls, HasFlaw, IsFirst};

use crate::division::{Division, Floor};
use crate::flaw::Flaw;
use crate::sums::total;
use lb_snapshot::{Loads, Units};
use std::alloc::Allocator;

/// Checks a division of these loads into `pes` blocks, whoever made it. `Ok` means that its bottleneck is the
/// load of its heaviest block, and that no division into `pes` blocks has a lighter heaviest block.
///
/// Any number of PEs and any lists may be passed. The loads are added up twice, and no memory is taken.
///
/// # Errors
///
/// The first [`Flaw`] that applies, in their order.
///
/// The fence is the certificate of the lower bound of A. Pinar and C. Aykanat, JPDC 64(8), 2004: a probe at
/// the bottleneck less one ends short of the last element.
pub fn check_division<A: Allocator, B: Allocator>(
    loads: &Loads<A>,
    pes: u32,
    division: &Division<B>,
) -> Result<(), Flaw>
    ensures exact { IsOk result ↔ IsCertified loads.now pes division.now }
    ensures least { OnOk result (IsLeastDivision loads.now pes division.now.bottleneck division.now.cuts) }
    ensures first_flaw { IfErr result (IsFirst (HasFlaw loads.now pes division.now)) }
{
    check_chain(loads.as_slice(), pes, division)
}

/// What [`check_division`] checks, over loads that keep no limits: any number of them, each of any size. They are added
/// up twice, in 128 bits, and no memory is taken.
///
/// # Errors
///
/// The first [`Flaw`] that applies, in their order.
#[tactic(auto, using(crate::proofs::LeastDivisions::least_from_certified, crate::proofs::NoFlaws::certified_where_ok, crate::proofs::NoFlaws::ok_where_certified))]
pub fn check_chain<B: Allocator>(
    loads: &[Units],
    pes: u32,
    division: &Division<B>,
) -> Result<(), Flaw>
    ensures exact { IsOk result ↔ IsCertified loads.now pes division.now }
    ensures least { OnOk result (IsLeastDivision loads.now pes division.now.bottleneck division.now.cuts) }
    ensures first_flaw { IfErr result (IsFirst (HasFlaw loads.now pes division.now)) }
{
    check_cuts(loads, pes, division)?;
    check_blocks(loads, pes, division)?;
    check_floor(loads, pes, division)
}

// Whether no number is greater than the next.
pub(crate) fn rises(numbers: &[u32]) -> bool
    ensures { MatchBool result (IsNonDecreasing numbers.now) (Falls numbers.now) }
{
    numbers.is_sorted()
}

// The flaws of the list of cuts itself.
fn check_cuts<B: Allocator>(loads: &[Units], pes: u32, division: &Division<B>) -> Result<(), Flaw>
    ensures divides { OnOk result (IsDivision 0 (length loads.now) pes division.now.cuts) }
    ensures first_flaw { IfErr result (IsFirst (HasFlaw loads.now pes division.now)) }
{
    let cuts = division.cuts.as_slice();
    if cuts.len() as u64 != u64::from(pes) + 1 {
        return Err(Flaw::CutCount);
    }
    if cuts[0] != 0 {
        return Err(Flaw::CutStart);
    }
    if !rises(cuts) {
        return Err(Flaw::CutOrder);
    }
    if cuts[pes as usize] as usize != loads.len() {
        return Err(Flaw::CutEnd);
    }
    Ok(())
}

// The first block above the bottleneck.
fn check_blocks<B: Allocator>(loads: &[Units], pes: u32, division: &Division<B>) -> Result<(), Flaw>
    requires { IsDivision 0 (length loads.now) pes division.now.cuts }
    ensures within { OnOk result (NoneAbove loads.now pes division.now.bottleneck division.now.cuts) }
    ensures first_flaw { IfErr result (IsFirst (HasFlaw loads.now pes division.now)) }
{
    let cuts = division.cuts.as_slice();
    for b in 0..pes {
        let first = cuts[b as usize] as usize;
        let end = cuts[b as usize + 1] as usize;
        if total(&loads[first..end]) > u128::from(division.bottleneck) {
            return Err(Flaw::Heavy(b));
        }
    }
    Ok(())
}

// The flaws of the floor.
fn check_floor<B: Allocator>(loads: &[Units], pes: u32, division: &Division<B>) -> Result<(), Flaw>
    requires divides { IsDivision 0 (length loads.now) pes division.now.cuts }
    requires within { NoneAbove loads.now pes division.now.bottleneck division.now.cuts }
    ensures holds { OnOk result (HoldsFor loads.now pes division.now.bottleneck division.now.floor) }
    ensures first_flaw { IfErr result (IsFirst (HasFlaw loads.now pes division.now)) }
{
    let Floor::Fence(stops) = &division.floor else {
        if division.bottleneck == 0 {
            return Ok(());
        }
        return Err(Flaw::ZeroFloor);
    };
    let stops = stops.as_slice();
    if stops.len() as u64 != u64::from(pes) + 1 {
        return Err(Flaw::FenceCount);
    }
    if stops[0] != 0 {
        return Err(Flaw::FenceStart);
    }
    if !rises(stops) {
        return Err(Flaw::FenceOrder);
    }
    if stops[pes as usize] as usize >= loads.len() {
        return Err(Flaw::FenceEnd);
    }
    match first_light(loads, pes, division.bottleneck, stops) {
        None => Ok(()),
        Some(i) => Err(Flaw::FenceLight(i)),
    }
}

// The first stop, numbered from 1, up to which the elements from the stop before it weigh less than the
// bottleneck.
fn first_light(loads: &[Units], pes: u32, bottleneck: u64, stops: &[u32]) -> Option<u32>
    requires counted { length stops.now ≡ pes + 1 }
    requires ordered { IsNonDecreasing stops.now }
    requires ends { slice_index stops.now pes < length loads.now }
    ensures { MatchOption result (NoneLight loads.now pes bottleneck stops.now) (IsFirstLight loads.now pes bottleneck stops.now) }
{
    for i in 0..pes {
        let first = stops[i as usize] as usize;
        let last = stops[i as usize + 1] as usize;
        if total(&loads[first..last + 1]) < u128::from(bottleneck) {
            return Some(i + 1);
        }
    }
    None
}
