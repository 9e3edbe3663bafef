//! The probe: whether a number of blocks within a limit can hold all elements.

ghost use Rattle.std.specs.Prelude.{◌≡◌, ◌≤◌, IfOk};
ghost use Rattle.chain_partition.specs.Chosen.{IsProbe};
ghost use Rattle.chain_partition.specs.Sums.{IsSampled};

use crate::chain::Chain;
use crate::outcome::Probe;
use crate::prefix::Prefix;
use crate::walk::greedy_ends;
use chare_index::Limits;
use lb_certificates::{Cuts, Stops};
use lb_snapshot::{Loads, Units};
use std::alloc::{AllocError, Allocator};

/// Fills `pes` blocks in order, each with as many elements as fit within the limit: the probe of A. Pinar and C. Aykanat, JPDC
/// 64(8), 2004. `pes` is 1 to 256, and the limit any number. A caller that tries several limits makes the running sums once and
/// calls [`probe_on`].
///
/// # Errors
///
/// Memory for the running sums or for the list of `pes + 1` numbers was refused.
pub fn probe<A: Allocator + Copy, B: Allocator>(
    alloc: A,
    loads: &Loads<B>,
    pes: u32,
    limit: u64,
) -> Result<Probe<A>, AllocError>
    requires some_pe { 1 ≤ pes }
    requires few_pes { pes ≤ Limits.PES }
    ensures probed { IfOk result (IsProbe loads.now pes limit) }
{
    let chain = Chain::of(alloc, loads)?;
    probe_chain(alloc, &chain, pes, limit)
}

/// Probes as [`probe`] does, on running sums: each block's end is found by binary search.
///
/// # Errors
///
/// Memory for the one list of `pes + 1` numbers was refused.
pub fn probe_on<A: Allocator, B: Allocator>(
    alloc: A,
    prefix: &Prefix<B>,
    pes: u32,
    limit: u64,
) -> Result<Probe<A>, AllocError>
    requires some_pe { 1 ≤ pes }
    requires few_pes { pes ≤ Limits.PES }
    ensures probed { IfOk result (IsProbe prefix.now pes limit) }
{
    probe_sums(alloc, prefix.loads(), prefix.samples(), pes, limit)
}

/// Probes a [`Chain`] as [`probe`] probes loads, with `pes` blocks, 1 or more.
///
/// # Errors
///
/// Memory for the one list of `pes + 1` numbers was refused.
pub fn probe_chain<A: Allocator, B: Allocator>(
    alloc: A,
    chain: &Chain<'_, B>,
    pes: u32,
    limit: u64,
) -> Result<Probe<A>, AllocError>
    requires some_pe { 1 ≤ pes }
    ensures probed { IfOk result (IsProbe chain.now pes limit) }
{
    probe_sums(alloc, chain.loads(), chain.samples(), pes, limit)
}

// Probes loads by the running sums that are kept of them.
fn probe_sums<A: Allocator>(
    alloc: A,
    loads: &[Units],
    samples: &[u64],
    pes: u32,
    limit: u64,
) -> Result<Probe<A>, AllocError>
    requires valid { IsSampled loads.now samples.now }
    ensures probed { IfOk result (IsProbe loads.now pes limit) }
{
    let ends = greedy_ends(alloc, loads, samples, pes, limit)?;
    if ends[pes as usize] as usize == loads.len() {
        Ok(Probe::Fits(Cuts::new(ends)))
    } else {
        Ok(Probe::Stops(Stops::new(ends)))
    }
}
