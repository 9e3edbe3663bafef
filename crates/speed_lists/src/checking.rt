//! Checks a division over PEs of unequal speed that is given in lists.

ghost use Rattle.std.specs.Prelude.{◌≡◌, None, Ok, [], MatchOption, IfOk, IfErr, OnOk};
ghost use Rattle.speed_certificates.specs.Certificate.{IsTimeCertified};
ghost use Rattle.speed_certificates.specs.Flaws.{flaw_place, HasFlaw, IsFirst};
ghost use Rattle.speed_certificates.specs.Speeds.{ArePes, IsLeastTime};
ghost use Rattle.speed_lists.specs.Lists.{floor_of, pes_of, time_flaw_number, timed_of, AreCounted, IsSpeedRefusal};

use crate::dividing::are_counted;
use crate::error::SpeedError;
use lb_certificates::{Cuts, Stops};
use lb_snapshot::Units;
use speed_certificates::{EndTime, PeSpeeds, TimeFlaw, TimeFloor, TimedDivision, check_speeds};
use std::alloc::{AllocError, Allocator};

/// Checks a division of these loads over PEs of these speeds, with this background, as [`check_speeds`] does, and returns its first
/// flaw. Loads, cuts and stops may be any lists; where there are no stops, the floor names the PE `idle`.
///
/// # Errors
///
/// [`SpeedError::BadInput`] for no PE or 2^32 - 1 or more, and where there are not as many speeds as numbers of background; then
/// [`SpeedError::BadSpeed`]; then [`SpeedError::OutOfMemory`], where copies of the cuts and the stops were refused.
pub fn check_speed_lists<A: Allocator + Copy>(
    alloc: A,
    loads: &[Units],
    speeds: &[u32],
    background: &[u64],
    time: EndTime,
    cuts: &[u32],
    stops: &[u32],
    idle: u32,
) -> Result<Option<TimeFlaw>, SpeedError>
    ensures exact { IfOk result (λ flaw. MatchOption flaw
        (IsTimeCertified loads.now (pes_of speeds.now background.now) (timed_of {A = Unit {0}} time cuts.now stops.now idle))
        (IsFirst (HasFlaw loads.now (pes_of speeds.now background.now) (timed_of {A = Unit {0}} time cuts.now stops.now idle)))) }
    ensures least { result ≡ Ok None → IsLeastTime loads.now (pes_of speeds.now background.now) cuts.now time }
    ensures asked { OnOk result (AreCounted speeds.now background.now) }
    ensures pes { OnOk result (ArePes (pes_of speeds.now background.now)) }
    ensures refused { IfErr result (IsSpeedRefusal (AreCounted speeds.now background.now) (pes_of speeds.now background.now) []) }
{
    if !are_counted(speeds, background) {
        return Err(SpeedError::BadInput);
    }
    let Some(pes) = PeSpeeds::new(speeds, background) else {
        return Err(SpeedError::BadSpeed);
    };
    let division = division_from(alloc, time, cuts, stops, idle)?;
    Ok(check_speeds(loads, &pes, &division).err())
}

// The division of these parts.
fn division_from<A: Allocator + Copy>(
    alloc: A,
    time: EndTime,
    cuts: &[u32],
    stops: &[u32],
    idle: u32,
) -> Result<TimedDivision<A>, AllocError>
    ensures { IfOk result (λ d. d ≡ timed_of time cuts.now stops.now idle) }
{
    Ok(TimedDivision {
        time,
        cuts: Cuts::new(Vec::from_slice(alloc, cuts)?),
        floor: floor_from(alloc, stops, idle)?,
    })
}

// The floor with these stops.
fn floor_from<A: Allocator>(alloc: A, stops: &[u32], idle: u32) -> Result<TimeFloor<A>, AllocError>
    ensures { IfOk result (λ f. f ≡ floor_of idle stops.now) }
{
    if stops.is_empty() {
        return Ok(TimeFloor::Idle(idle));
    }
    Ok(TimeFloor::Fence(Stops::new(Vec::from_slice(alloc, stops)?)))
}

/// The number of a flaw, by which exports report it. A flaw that a division of the loads alone can have too has the number that it
/// has there.
pub fn number_of_time(flaw: TimeFlaw) -> u8
    ensures number { result ≡ time_flaw_number flaw }
{
    match flaw {
        TimeFlaw::CutCount => 1,
        TimeFlaw::CutStart => 2,
        TimeFlaw::CutOrder => 3,
        TimeFlaw::CutEnd => 4,
        TimeFlaw::FenceCount => 6,
        TimeFlaw::FenceStart => 7,
        TimeFlaw::FenceOrder => 8,
        TimeFlaw::FenceEnd => 9,
        TimeFlaw::NoSpeed => 39,
        TimeFlaw::Late(_) => 40,
        TimeFlaw::IdleRange => 41,
        TimeFlaw::IdleEarly => 42,
        TimeFlaw::FenceEarly(_) => 43,
    }
}

/// The PE or the stop that a flaw names, and 0 where it names none.
pub fn place_of_time(flaw: TimeFlaw) -> u32
    ensures place { result ≡ flaw_place flaw }
{
    match flaw {
        TimeFlaw::Late(pe) => pe,
        TimeFlaw::FenceEarly(stop) => stop,
        _ => 0,
    }
}
