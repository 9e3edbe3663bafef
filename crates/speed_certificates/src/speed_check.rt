//! Checks a division over PEs of unequal speed, and its certificate.

ghost use Rattle.std.specs.Prelude.{◌≡◌, ◌+◌, ◌<◌, ◌≤◌, ◌↔◌, length, slice_index, IsOk, OnOk, IfErr, MatchBool, MatchOption};
ghost use Rattle.std.specs.List.Sorted.{IsNonDecreasing};
ghost use Rattle.lb_certificates.specs.Chain.{IsDivision};
ghost use Rattle.lb_certificates.specs.Flaws.{Falls};
ghost use Rattle.speed_certificates.specs.Speeds.{ArePes, IsLeastTime};
ghost use Rattle.speed_certificates.specs.Certificate.{IsTimeCertified, NoneLate, NoneEarly, IsFirstEarly, HoldsFrom};
ghost use Rattle.speed_certificates.specs.Flaws.{HasFlaw, IsFirst};

use crate::division::{TimeFloor, TimedDivision};
use crate::flaw::TimeFlaw;
use crate::pes::PeSpeeds;
use crate::time::EndTime;
use crate::work::{ends_after, ends_before, work_of};
use lb_snapshot::Units;
use std::alloc::Allocator;

/// Checks a division of these loads into a block for each of these PEs, whoever made it. `Ok` means that its time is the greatest
/// end time of a PE, and that no division has a lower one.
///
/// Any loads and any lists may be passed. The loads are added up twice, and no memory is taken.
///
/// # Errors
///
/// The first [`TimeFlaw`] that applies, in their order.
///
/// The fence is the certificate of the lower bound of A. Pinar, E. K. Tabak and C. Aykanat, JPDC 68(11), 2008: a probe in
/// which each PE has a capacity of its own ends short of the last element.
pub fn check_speeds<A: Allocator>(
    loads: &[Units],
    pes: &PeSpeeds<'_>,
    division: &TimedDivision<A>,
) -> Result<(), TimeFlaw>
    ensures exact { IsOk result ↔ IsTimeCertified loads.now pes.now division.now }
    ensures least { OnOk result (IsLeastTime loads.now pes.now division.now.cuts division.now.time) }
    ensures first_flaw { IfErr result (IsFirst (HasFlaw loads.now pes.now division.now)) }
{
    if division.time.speed == 0 {
        return Err(TimeFlaw::NoSpeed);
    }
    check_cuts(loads, pes, division)?;
    check_blocks(loads, pes, division)?;
    check_floor(loads, pes, division)
}

// Whether no number is greater than the next one.
fn rises(numbers: &[u32]) -> bool
    ensures { MatchBool result (IsNonDecreasing numbers.now) (Falls numbers.now) }
{
    numbers.is_sorted()
}

// Whether the cuts divide the elements.
fn check_cuts<A: Allocator>(
    loads: &[Units],
    pes: &PeSpeeds<'_>,
    division: &TimedDivision<A>,
) -> Result<(), TimeFlaw>
    requires some_speed { 1 ≤ division.now.time.speed }
    ensures pes { ArePes pes.now }
    ensures divides { OnOk result (IsDivision 0 (length loads.now) (length pes.now.speeds) division.now.cuts) }
    ensures first_flaw { IfErr result (IsFirst (HasFlaw loads.now pes.now division.now)) }
{
    let cuts = division.cuts.as_slice();
    if cuts.len() as u64 != u64::from(pes.len()) + 1 {
        return Err(TimeFlaw::CutCount);
    }
    if cuts[0] != 0 {
        return Err(TimeFlaw::CutStart);
    }
    if !rises(cuts) {
        return Err(TimeFlaw::CutOrder);
    }
    if cuts[pes.len() as usize] as usize != loads.len() {
        return Err(TimeFlaw::CutEnd);
    }
    Ok(())
}

// Whether no PE ends after the time.
fn check_blocks<A: Allocator>(
    loads: &[Units],
    pes: &PeSpeeds<'_>,
    division: &TimedDivision<A>,
) -> Result<(), TimeFlaw>
    requires some_speed { 1 ≤ division.now.time.speed }
    requires divides { IsDivision 0 (length loads.now) (length pes.now.speeds) division.now.cuts }
    ensures none_late { OnOk result (NoneLate loads.now pes.now division.now.time division.now.cuts (length pes.now.speeds)) }
    ensures first_flaw { IfErr result (IsFirst (HasFlaw loads.now pes.now division.now)) }
{
    let cuts = division.cuts.as_slice();
    for b in 0..pes.len() {
        let first = cuts[b as usize] as usize;
        let end = cuts[b as usize + 1] as usize;
        let work = work_of(pes.background(b), &loads[first..end]);
        if ends_after(work, pes.speed(b), division.time) {
            return Err(TimeFlaw::Late(b));
        }
    }
    Ok(())
}

// Whether the floor holds.
fn check_floor<A: Allocator>(
    loads: &[Units],
    pes: &PeSpeeds<'_>,
    division: &TimedDivision<A>,
) -> Result<(), TimeFlaw>
    requires some_speed { 1 ≤ division.now.time.speed }
    requires divides { IsDivision 0 (length loads.now) (length pes.now.speeds) division.now.cuts }
    requires none_late { NoneLate loads.now pes.now division.now.time division.now.cuts (length pes.now.speeds) }
    ensures holds { OnOk result (HoldsFrom loads.now pes.now division.now.time division.now.floor) }
    ensures first_flaw { IfErr result (IsFirst (HasFlaw loads.now pes.now division.now)) }
{
    let stops = match &division.floor {
        TimeFloor::Idle(pe) => return check_idle(loads, pes, division, *pe),
        TimeFloor::Fence(stops) => stops.as_slice(),
    };
    if stops.len() as u64 != u64::from(pes.len()) + 1 {
        return Err(TimeFlaw::FenceCount);
    }
    if stops[0] != 0 {
        return Err(TimeFlaw::FenceStart);
    }
    if !rises(stops) {
        return Err(TimeFlaw::FenceOrder);
    }
    if stops[pes.len() as usize] as usize >= loads.len() {
        return Err(TimeFlaw::FenceEnd);
    }
    match first_early(loads, pes, division.time, stops) {
        None => Ok(()),
        Some(i) => Err(TimeFlaw::FenceEarly(i)),
    }
}

// Whether the PE that the floor names ends at the time or later, whatever its block is.
fn check_idle<A: Allocator>(
    loads: &[Units],
    pes: &PeSpeeds<'_>,
    division: &TimedDivision<A>,
    pe: u32,
) -> Result<(), TimeFlaw>
    requires some_speed { 1 ≤ division.now.time.speed }
    requires divides { IsDivision 0 (length loads.now) (length pes.now.speeds) division.now.cuts }
    requires none_late { NoneLate loads.now pes.now division.now.time division.now.cuts (length pes.now.speeds) }
    requires idle { division.now.floor ≡ TimeFloor.Idle pe }
    ensures holds { OnOk result (HoldsFrom loads.now pes.now division.now.time division.now.floor) }
    ensures first_flaw { IfErr result (IsFirst (HasFlaw loads.now pes.now division.now)) }
{
    if pe >= pes.len() {
        return Err(TimeFlaw::IdleRange);
    }
    let work = u128::from(pes.background(pe));
    if ends_before(work, pes.speed(pe), division.time) {
        return Err(TimeFlaw::IdleEarly);
    }
    Ok(())
}

// The first stop, numbered from 1, up to which the PE before it would end before the time, with the elements from the stop before.
fn first_early(loads: &[Units], pes: &PeSpeeds<'_>, time: EndTime, stops: &[u32]) -> Option<u32>
    requires some_speed { 1 ≤ time.speed }
    requires counted { length stops.now ≡ length pes.now.speeds + 1 }
    requires ordered { IsNonDecreasing stops.now }
    requires ends { slice_index stops.now (length pes.now.speeds) < length loads.now }
    ensures { MatchOption result (NoneEarly loads.now pes.now time stops.now (length pes.now.speeds)) (IsFirstEarly loads.now pes.now time stops.now (length pes.now.speeds)) }
{
    for i in 0..pes.len() {
        let first = stops[i as usize] as usize;
        let last = stops[i as usize + 1] as usize;
        let work = work_of(pes.background(i), &loads[first..last + 1]);
        if ends_before(work, pes.speed(i), time) {
            return Some(i + 1);
        }
    }
    None
}
