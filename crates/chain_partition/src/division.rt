//! Finds the least division by bisection over running sums, and the fence that proves it least.

ghost use Rattle.std.specs.Prelude.{◌≡◌, ◌≤◌, IfOk};
ghost use Rattle.lb_certificates.specs.Chain.{IsLeastDivision, IsLeastPeak};
ghost use Rattle.lb_certificates.specs.Certificate.{IsCertified};
ghost use Rattle.chain_partition.specs.Chosen.{IsChosen, IsLeastFloor};
ghost use Rattle.chain_partition.specs.Sums.{IsSampled};

use crate::chain::Chain;
use crate::search::{least_bottleneck, opening};
use crate::walk::greedy_ends;
use chare_index::Limits;
use lb_certificates::{Cuts, Division, Floor, Stops};
use lb_snapshot::{Loads, Units};
use std::alloc::{AllocError, Allocator};

/// The division of these loads into `pes` blocks, 1 to 256, whose heaviest block is lightest. Its blocks take as
/// many elements as fit within the bottleneck, in order, and its floor is the least fence. The bottleneck is
/// found by exact bisection on running sums: A. Pinar and C. Aykanat, JPDC 64(8), 2004.
///
/// # Errors
///
/// Memory for the running sums or for one of the two lists of `pes + 1` numbers was refused.
pub fn divide<A: Allocator + Copy, B: Allocator>(
    alloc: A,
    loads: &Loads<B>,
    pes: u32,
) -> Result<Division<A>, AllocError>
    requires some_pe { 1 ≤ pes }
    requires few_pes { pes ≤ Limits.PES }
    ensures chosen { IfOk result (IsChosen loads.now pes) }
    ensures certified { IfOk result (IsCertified loads.now pes) }
    ensures least { IfOk result (λ d. IsLeastDivision loads.now pes d.bottleneck d.cuts) }
{
    let chain = Chain::of(alloc, loads)?;
    divide_chain(alloc, &chain, pes)
}

/// Divides a [`Chain`] as [`divide`] divides loads, into `pes` blocks, 1 or more.
///
/// # Errors
///
/// Memory for one of the two lists of `pes + 1` numbers was refused.
pub fn divide_chain<A: Allocator + Copy, B: Allocator>(
    alloc: A,
    chain: &Chain<'_, B>,
    pes: u32,
) -> Result<Division<A>, AllocError>
    requires some_pe { 1 ≤ pes }
    ensures chosen { IfOk result (IsChosen chain.now pes) }
    ensures certified { IfOk result (IsCertified chain.now pes) }
    ensures least { IfOk result (λ d. IsLeastDivision chain.now pes d.bottleneck d.cuts) }
{
    let bounds = opening(chain.loads(), chain.load(0, chain.len()), pes);
    let bottleneck = least_bottleneck(chain.loads(), chain.samples(), pes, bounds);
    division_at(alloc, chain.loads(), chain.samples(), pes, bottleneck)
}

/// The division with this bottleneck, which is the least.
pub(crate) fn division_at<A: Allocator + Copy>(
    alloc: A,
    loads: &[Units],
    samples: &[u64],
    pes: u32,
    bottleneck: u64,
) -> Result<Division<A>, AllocError>
    requires valid { IsSampled loads.now samples.now }
    requires least { IsLeastPeak loads.now 0 pes bottleneck }
    ensures chosen { IfOk result (IsChosen loads.now pes) }
{
    let cuts = Cuts::new(greedy_ends(alloc, loads, samples, pes, bottleneck)?);
    let floor = least_floor(alloc, loads, samples, pes, bottleneck)?;
    Ok(Division {
        bottleneck,
        cuts,
        floor,
    })
}

// The least fence for the least bottleneck. A bottleneck of 0 needs no fence.
fn least_floor<A: Allocator>(
    alloc: A,
    loads: &[Units],
    samples: &[u64],
    pes: u32,
    bottleneck: u64,
) -> Result<Floor<A>, AllocError>
    requires valid { IsSampled loads.now samples.now }
    requires least { IsLeastPeak loads.now 0 pes bottleneck }
    ensures floor { IfOk result (IsLeastFloor loads.now pes bottleneck) }
{
    if bottleneck == 0 {
        return Ok(Floor::Zero);
    }
    let stops = greedy_ends(alloc, loads, samples, pes, bottleneck - 1)?;
    Ok(Floor::Fence(Stops::new(stops)))
}
