//! Divisions of a chain for callers that have plain lists. No stops are the floor of a bottleneck of 0.

ghost use Rattle.std.specs.Prelude.{◌≡◌, ◌↔◌, ℕ, ◌+◌, ◌<◌, ◌≤◌, ◌^◌, None, Ok, List, [], MatchOption, IfOk, IfErr, OnOk, OnErr, length, sum, take, drop};
ghost use Rattle.chain_partition.specs.Chosen.{IsChosen};
ghost use Rattle.lb_certificates.specs.Certificate.{IsCertified};
ghost use Rattle.lb_certificates.specs.Chain.{IsLeastDivision};
ghost use Rattle.lb_certificates.specs.Flaws.{HasFlaw, IsFirst};
ghost use Rattle.merged_chains.specs.Lists.{division_of, floor_of, stops_in, IsCheckAsked, IsDivisionAsked, IsPartRefusal};
ghost use Rattle.merged_chains.specs.Weights.{HasWeightFlaw, IsWeighed, WhereWeights};

use crate::error::PartError;
use crate::part_lists::is_block_count;
use crate::weights::check_weights;
use chain_partition::{Chain, divide_chain};
use lb_certificates::{Cuts, Division, Flaw, Floor, Stops};
use lb_snapshot::Units;
use std::alloc::{AllocError, Allocator};

/// The numbers of a division that was written.
#[derive(Clone, Copy, Debug, PartialEq, Eq)]
pub struct Divided {
    /// The load of the heaviest block, in work units.
    pub bottleneck: u64,
    /// The number of stops: one more than blocks, or 0 where the bottleneck is 0.
    pub stops: usize,
}

/// Divides a chain into `pes` blocks, as [`divide_chain`] does, and writes the cuts, and the stops at the front of their list.
///
/// # Errors
///
/// [`PartError::BadInput`] for no blocks or more than [`PartLimits::PES`](crate::PartLimits::PES), 2^32 loads or more, or where
/// the lists for the cuts and the stops have not `pes + 1` entries; then [`PartError::BadLoad`]; then [`PartError::OutOfMemory`].
pub fn divide_into<A: Allocator + Copy>(
    alloc: A,
    loads: &[Units],
    pes: u32,
    cuts: &mut [u32],
    stops: &mut [u32],
) -> Result<Divided, PartError>
    ensures chosen { IfOk result (λ d. IsChosen loads.now pes (division_of {A = Unit {0}} d.bottleneck cuts.new (take d.stops stops.new))) }
    ensures counted { IfOk result (λ d. d.stops ≤ pes + 1) }
    ensures behind { IfOk result (λ d. drop d.stops stops.new ≡ drop d.stops stops.old) }
    ensures asked { OnOk result (IsDivisionAsked loads.now pes cuts.old stops.old) }
    ensures light { OnOk result (sum loads.now < 2 ^ 63) }
    ensures refused { IfErr result (IsPartRefusal (IsDivisionAsked loads.now pes cuts.old stops.old) loads.now) }
    ensures kept { OnErr result ((cuts.new ≡ cuts.old) × (stops.new ≡ stops.old)) }
{
    let marks = u64::from(pes) + 1;
    if !is_block_count(pes) || cuts.len() as u64 != marks || stops.len() as u64 != marks {
        return Err(PartError::BadInput);
    }
    let chain = Chain::new(alloc, loads)?;
    let division = divide_chain(alloc, &chain, pes)?;
    cuts.copy_from_slice(division.cuts.as_slice());
    Ok(Divided {
        bottleneck: division.bottleneck,
        stops: write_stops(&division.floor, stops),
    })
}

// Writes the stops of a floor, and returns their number.
fn write_stops<A: Allocator>(floor: &Floor<A>, stops: &mut [u32]) -> usize
    requires room { length (stops_in floor.now) ≤ length stops.old }
    ensures counted { result ≡ length (stops_in floor.now) }
    ensures written { take result stops.new ≡ stops_in floor.now }
    ensures behind { drop result stops.new ≡ drop result stops.old }
{
    match floor {
        Floor::Zero => 0,
        Floor::Fence(fence) => {
            let found = fence.as_slice();
            stops[..found.len()].copy_from_slice(found);
            found.len()
        }
    }
}

/// Checks a division of this number of elements by the loads of its ranges alone, as [`check_weights`] does, and returns its first
/// flaw. The cuts and the stops may be any lists.
///
/// # Errors
///
/// [`PartError::BadInput`] for no blocks or more than [`PartLimits::PES`](crate::PartLimits::PES), or where there are not `pes`
/// loads of each kind; then [`PartError::OutOfMemory`], where copies of the cuts and the stops were refused.
pub fn check_lists<A: Allocator + Copy>(
    alloc: A,
    elements: u32,
    pes: u32,
    bottleneck: u64,
    cuts: &[u32],
    stops: &[u32],
    block_loads: &[u64],
    fence_loads: &[u64],
) -> Result<Option<Flaw>, PartError>
    ensures exact { IfOk result (λ flaw. MatchOption flaw
        (IsWeighed elements pes (division_of {A = Unit {0}} bottleneck cuts.now stops.now) block_loads.now fence_loads.now)
        (IsFirst (HasWeightFlaw elements pes (division_of {A = Unit {0}} bottleneck cuts.now stops.now) block_loads.now fence_loads.now))) }
    ensures of_division { WhereWeights elements pes (division_of {A = Unit {0}} bottleneck cuts.now stops.now) block_loads.now fence_loads.now
        (λ loads. IfOk result (λ flaw. MatchOption flaw
        (IsCertified loads pes (division_of {A = Unit {0}} bottleneck cuts.now stops.now))
        (IsFirst (HasFlaw loads pes (division_of {A = Unit {0}} bottleneck cuts.now stops.now))))) }
    ensures least { WhereWeights elements pes (division_of {A = Unit {0}} bottleneck cuts.now stops.now) block_loads.now fence_loads.now
        (λ loads. result ≡ Ok None → IsLeastDivision loads pes bottleneck cuts.now) }
    ensures asked { OnOk result (IsCheckAsked pes block_loads.now fence_loads.now) }
    ensures refused { IfErr result (IsPartRefusal (IsCheckAsked pes block_loads.now fence_loads.now) []) }
{
    let blocks = pes as usize;
    if !is_block_count(pes) || block_loads.len() != blocks || fence_loads.len() != blocks {
        return Err(PartError::BadInput);
    }
    let division = division_from(alloc, bottleneck, cuts, stops)?;
    Ok(check_weights(elements as usize, pes, &division, block_loads, fence_loads).err())
}

// The division with these cuts and stops.
fn division_from<A: Allocator + Copy>(
    alloc: A,
    bottleneck: u64,
    cuts: &[u32],
    stops: &[u32],
) -> Result<Division<A>, AllocError>
    ensures { IfOk result (λ d. d ≡ division_of bottleneck cuts.now stops.now) }
{
    Ok(Division {
        bottleneck,
        cuts: Cuts::new(Vec::from_slice(alloc, cuts)?),
        floor: floor_from(alloc, stops)?,
    })
}

// The floor with these stops.
fn floor_from<A: Allocator>(alloc: A, stops: &[u32]) -> Result<Floor<A>, AllocError>
    ensures { IfOk result (λ f. f ≡ floor_of stops.now) }
{
    if stops.is_empty() {
        return Ok(Floor::Zero);
    }
    Ok(Floor::Fence(Stops::new(Vec::from_slice(alloc, stops)?)))
}
