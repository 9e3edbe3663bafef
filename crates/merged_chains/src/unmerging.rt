//! Turns a division of the merged chain into one of the chain.

ghost use Rattle.std.specs.Prelude.{◌≡◌, IfOk};
ghost use Rattle.merged_chains.specs.Merged.{unmerged, unmerged_division, unmerged_floor};

use crate::places::place_of;
use lb_certificates::{Cuts, Division, Floor, Stops};
use std::alloc::{AllocError, Allocator};

/// The division of a chain that a division of its merged chain stands for ([`merged_law`](crate::merged_law)): with the start
/// of a run in place of each cut and stop. A run that there is not is taken to start at 0.
///
/// # Errors
///
/// Out of memory, where one of the two lists of starts was refused.
pub fn unmerge<A: Allocator + Copy>(
    alloc: A,
    division: &Division<A>,
    starts: &[u32],
) -> Result<Division<A>, AllocError>
    ensures value { IfOk result (λ d. d ≡ unmerged_division starts.now division.now) }
{
    let cuts = Cuts::new(starts_of(alloc, division.cuts.as_slice(), starts)?);
    let floor = start_stops(alloc, &division.floor, starts)?;
    Ok(Division {
        bottleneck: division.bottleneck,
        cuts,
        floor,
    })
}

// The floor with the start of a run in place of each stop.
fn start_stops<A: Allocator>(
    alloc: A,
    floor: &Floor<A>,
    starts: &[u32],
) -> Result<Floor<A>, AllocError>
    ensures value { IfOk result (λ other. other ≡ unmerged_floor starts.now floor.now) }
{
    let Floor::Fence(stops) = floor else {
        return Ok(Floor::Zero);
    };
    let stops = starts_of(alloc, stops.as_slice(), starts)?;
    Ok(Floor::Fence(Stops::new(stops)))
}

// Where these runs start.
fn starts_of<A: Allocator>(
    alloc: A,
    runs: &[u32],
    starts: &[u32],
) -> Result<Vec<u32, A>, AllocError>
    ensures value { IfOk result (λ list. list.items ≡ unmerged starts.now runs.now) }
{
    let mut list = Vec::with_capacity(alloc, runs.len())?;
    for &run in runs {
        list.push_reserved(place_of(starts, run as usize));
    }
    Ok(list)
}
