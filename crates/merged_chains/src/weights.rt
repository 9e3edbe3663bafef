//! Checks a division by the loads of its blocks and ranges, without the elements.

ghost use Rattle.std.specs.Prelude.{◌≡◌, ℕ, ◌+◌, ◌-◌, ◌<◌, ◌↔◌, List, length, IsOk, OnOk, IfErr, MatchBool, MatchOption};
ghost use Rattle.std.specs.List.Sorted.{IsNonDecreasing};
ghost use Rattle.lb_certificates.specs.Chain.{IsDivision, IsLeastDivision};
ghost use Rattle.lb_certificates.specs.Certificate.{IsCertified};
ghost use Rattle.lb_certificates.specs.Flaws.{Falls, HasFlaw, IsFirst};
ghost use Rattle.merged_chains.specs.Weights.{HasWeightFlaw, HoldsBy, IsFirstHeavy, IsFirstLighter, IsWeighed, NoneHeavy, NoneLighter, WhereWeights};

use lb_certificates::{Division, Flaw, Floor};
use std::alloc::Allocator;

/// Checks a division of this many elements into `pes` blocks by the loads of its ranges alone: those of its blocks, and
/// those of the elements from each stop of its fence to the next, both included, in work units. Where the numbers are
/// those loads, whoever added them up, the answer is that of [`check_chain`](lb_certificates::check_chain) on all loads.
/// So each rank adds up what it has of each range, and no rank sees all elements.
///
/// Any division may be passed, and any `pes` numbers of each kind; those of the fence are not looked at where the floor
/// is [`Zero`](Floor::Zero). No memory is taken.
///
/// # Errors
///
/// The first [`Flaw`] that applies, in their order.
pub fn check_weights<B: Allocator>(
    elements: usize,
    pes: u32,
    division: &Division<B>,
    block_loads: &[u64],
    fence_loads: &[u64],
) -> Result<(), Flaw>
    requires blocks { length block_loads.now ≡ pes }
    requires ranges { length fence_loads.now ≡ pes }
    ensures exact { IsOk result ↔ IsWeighed elements pes division.now block_loads.now fence_loads.now }
    ensures first_flaw { IfErr result (IsFirst (HasWeightFlaw elements pes division.now block_loads.now fence_loads.now)) }
    ensures of_division { WhereWeights elements pes division.now block_loads.now fence_loads.now (λ loads. IsOk result ↔ IsCertified loads pes division.now) }
    ensures least { WhereWeights elements pes division.now block_loads.now fence_loads.now
        (λ loads. OnOk result (IsLeastDivision loads pes division.now.bottleneck division.now.cuts)) }
    ensures flaw_of_division { WhereWeights elements pes division.now block_loads.now fence_loads.now (λ loads. IfErr result (IsFirst (HasFlaw loads pes division.now))) }
{
    check_numbers(elements, pes, division, block_loads, fence_loads)
}

// What it checks, of the numbers alone.
fn check_numbers<B: Allocator>(
    elements: usize,
    pes: u32,
    division: &Division<B>,
    block_loads: &[u64],
    fence_loads: &[u64],
) -> Result<(), Flaw>
    requires blocks { length block_loads.now ≡ pes }
    requires ranges { length fence_loads.now ≡ pes }
    ensures weighed { OnOk result (IsWeighed elements pes division.now block_loads.now fence_loads.now) }
    ensures first_flaw { IfErr result (IsFirst (HasWeightFlaw elements pes division.now block_loads.now fence_loads.now)) }
{
    check_cuts(elements, pes, division)?;
    if let Some(b) = first_heavy(pes, block_loads, division.bottleneck) {
        return Err(Flaw::Heavy(b));
    }
    check_floor(elements, pes, division, block_loads, fence_loads)
}

// The flaws of the list of cuts itself, whatever the numbers.
fn check_cuts<B: Allocator>(elements: usize, pes: u32, division: &Division<B>) -> Result<(), Flaw>
    ensures divides { OnOk result (IsDivision 0 elements pes division.now.cuts) }
    ensures first_flaw { (block_loads fence_loads : List ℕ) → IfErr result (IsFirst (HasWeightFlaw elements pes division.now block_loads fence_loads)) }
{
    let cuts = division.cuts.as_slice();
    if cuts.len() as u64 != u64::from(pes) + 1 {
        return Err(Flaw::CutCount);
    }
    if cuts[0] != 0 {
        return Err(Flaw::CutStart);
    }
    if !rises(cuts) {
        return Err(Flaw::CutOrder);
    }
    if cuts[pes as usize] as usize != elements {
        return Err(Flaw::CutEnd);
    }
    Ok(())
}

// The flaws of the floor.
fn check_floor<B: Allocator>(
    elements: usize,
    pes: u32,
    division: &Division<B>,
    block_loads: &[u64],
    fence_loads: &[u64],
) -> Result<(), Flaw>
    requires ranges { length fence_loads.now ≡ pes }
    requires divides { IsDivision 0 elements pes division.now.cuts }
    requires within { NoneHeavy block_loads.now pes division.now.bottleneck }
    ensures holds { OnOk result (HoldsBy elements pes division.now.bottleneck fence_loads.now division.now.floor) }
    ensures first_flaw { IfErr result (IsFirst (HasWeightFlaw elements pes division.now block_loads.now fence_loads.now)) }
{
    let Floor::Fence(stops) = &division.floor else {
        if division.bottleneck == 0 {
            return Ok(());
        }
        return Err(Flaw::ZeroFloor);
    };
    let stops = stops.as_slice();
    if stops.len() as u64 != u64::from(pes) + 1 {
        return Err(Flaw::FenceCount);
    }
    if stops[0] != 0 {
        return Err(Flaw::FenceStart);
    }
    if !rises(stops) {
        return Err(Flaw::FenceOrder);
    }
    if stops[pes as usize] as usize >= elements {
        return Err(Flaw::FenceEnd);
    }
    match first_lighter(pes, fence_loads, division.bottleneck) {
        None => Ok(()),
        Some(i) => Err(Flaw::FenceLight(i)),
    }
}

// Whether no number is greater than the next.
pub(crate) fn rises(numbers: &[u32]) -> bool
    ensures { MatchBool result (IsNonDecreasing numbers.now) (Falls numbers.now) }
{
    numbers.is_sorted()
}

// The first block whose number is above the bottleneck.
fn first_heavy(pes: u32, block_loads: &[u64], bottleneck: u64) -> Option<u32>
    requires { length block_loads.now ≡ pes }
    ensures { MatchOption result (NoneHeavy block_loads.now pes bottleneck) (IsFirstHeavy block_loads.now pes bottleneck) }
{
    for b in 0..pes {
        if block_loads[b as usize] > bottleneck {
            return Some(b);
        }
    }
    None
}

// The first range of the fence, numbered from 1, whose number is below the bottleneck.
fn first_lighter(pes: u32, fence_loads: &[u64], bottleneck: u64) -> Option<u32>
    requires { length fence_loads.now ≡ pes }
    ensures { MatchOption result (NoneLighter fence_loads.now pes bottleneck) (IsFirstLighter fence_loads.now pes bottleneck) }
{
    for i in 0..pes {
        if fence_loads[i as usize] < bottleneck {
            return Some(i + 1);
        }
    }
    None
}
