//! Divides over PEs of unequal speed, and writes the division into lists.

ghost use Rattle.std.specs.Prelude.{◌≡◌, ◌↔◌, ◌+◌, ◌<◌, ◌≤◌, ◌^◌, IsTrue, IfOk, IfErr, OnOk, OnErr, length, sum, take, drop};
ghost use Rattle.speed_certificates.specs.Speeds.{ArePes};
ghost use Rattle.speed_partition.specs.Chosen.{IsChosen};
ghost use Rattle.speed_lists.specs.Lists.{idle_in, pes_of, stops_in, timed_of, AreCounted, IsDivisionAsked, IsSpeedRefusal};

use crate::error::SpeedError;
use chain_partition::Chain;
use lb_snapshot::Units;
use speed_certificates::{EndTime, PeSpeeds, SpeedLimits, TimeFloor};
use speed_partition::divide_by_speeds;
use std::alloc::Allocator;

/// The numbers of a division that was written.
#[derive(Clone, Copy, Debug, PartialEq, Eq)]
pub struct Timed {
    /// The greatest end time.
    pub time: EndTime,
    /// The number of stops: one more than PEs, or 0 where the floor names a PE.
    pub stops: usize,
    /// The PE that the floor names, and 0 where it is a fence.
    pub idle: u32,
}

/// Divides a chain over PEs of these speeds, with this background, as [`divide_by_speeds`] does, and writes the cuts, and the stops
/// at the front of their list.
///
/// # Errors
///
/// [`SpeedError::BadInput`] for no PE or 2^32 - 1 or more, for 2^32 loads or more, where there are not as many speeds as numbers of
/// background, and where the lists for the cuts and the stops have not one entry more; then the others, in their order.
pub fn divide_speeds_into<A: Allocator + Copy>(
    alloc: A,
    loads: &[Units],
    speeds: &[u32],
    background: &[u64],
    cuts: &mut [u32],
    stops: &mut [u32],
) -> Result<Timed, SpeedError>
    ensures chosen { IfOk result (λ d. IsChosen loads.now (pes_of speeds.now background.now) (timed_of {A = Unit {0}} d.time cuts.new (take d.stops stops.new) d.idle)) }
    ensures counted { IfOk result (λ d. d.stops ≤ length speeds.now + 1) }
    ensures behind { IfOk result (λ d. drop d.stops stops.new ≡ drop d.stops stops.old) }
    ensures asked { OnOk result (IsDivisionAsked loads.now speeds.now background.now cuts.old stops.old) }
    ensures pes { OnOk result (ArePes (pes_of speeds.now background.now)) }
    ensures light { OnOk result (sum loads.now < 2 ^ 63) }
    ensures refused { IfErr result (IsSpeedRefusal (IsDivisionAsked loads.now speeds.now background.now cuts.old stops.old) (pes_of speeds.now background.now) loads.now) }
    ensures kept { OnErr result ((cuts.new ≡ cuts.old) × (stops.new ≡ stops.old)) }
{
    let marks = speeds.len() as u64 + 1;
    if !are_counted(speeds, background) || loads.len() > u32::MAX as usize {
        return Err(SpeedError::BadInput);
    }
    if cuts.len() as u64 != marks || stops.len() as u64 != marks {
        return Err(SpeedError::BadInput);
    }
    let Some(pes) = PeSpeeds::new(speeds, background) else {
        return Err(SpeedError::BadSpeed);
    };
    let chain = Chain::new(alloc, loads)?;
    let division = divide_by_speeds(alloc, &chain, &pes)?;
    cuts.copy_from_slice(division.cuts.as_slice());
    Ok(Timed {
        time: division.time,
        stops: write_stops(&division.floor, stops),
        idle: idle_of(&division.floor),
    })
}

/// Whether there are as many PEs as there may be, and a background for each.
pub(crate) fn are_counted(speeds: &[u32], background: &[u64]) -> bool
    ensures { IsTrue result ↔ AreCounted speeds.now background.now }
{
    1 <= speeds.len()
        && speeds.len() <= SpeedLimits::PES as usize
        && speeds.len() == background.len()
}

// Writes the stops of a floor, and returns their number.
fn write_stops<A: Allocator>(floor: &TimeFloor<A>, stops: &mut [u32]) -> usize
    requires room { length (stops_in floor.now) ≤ length stops.old }
    ensures counted { result ≡ length (stops_in floor.now) }
    ensures written { take result stops.new ≡ stops_in floor.now }
    ensures behind { drop result stops.new ≡ drop result stops.old }
{
    match floor {
        TimeFloor::Idle(_) => 0,
        TimeFloor::Fence(fence) => {
            let found = fence.as_slice();
            stops[..found.len()].copy_from_slice(found);
            found.len()
        }
    }
}

// The PE that a floor names.
fn idle_of<A: Allocator>(floor: &TimeFloor<A>) -> u32
    ensures { result ≡ idle_in floor.now }
{
    match floor {
        TimeFloor::Idle(pe) => *pe,
        TimeFloor::Fence(_) => 0,
    }
}
