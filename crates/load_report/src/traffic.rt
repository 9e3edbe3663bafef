//! The bytes that leave and enter PEs where elements move.

ghost use Rattle.std.specs.Prelude.{◌≡◌, IfOk, length};
ghost use Rattle.lb_certificates.specs.Naming.{moved_bytes};
ghost use Rattle.load_report.specs.Figures.{IsPlacement, moving, traffic_of};

use crate::figures::greatest_load;
use crate::places::present_places;
use chare_index::Pe;
use lb_snapshot::Snapshot;
use std::alloc::{AllocError, Allocator};

/// The traffic of the PEs with the most bytes to send and to receive, where elements move.
#[derive(Clone, Copy, Debug, PartialEq, Eq)]
pub struct Traffic {
    /// The most packed bytes that leave a PE.
    pub leave: u64,
    /// The most packed bytes that enter a PE.
    pub enter: u64,
}

impl Traffic {
    /// The traffic where the elements of a snapshot move to these places on this number of PEs.
    ///
    /// # Errors
    ///
    /// Out of memory.
    pub fn of<A: Allocator + Copy, B: Allocator>(
        alloc: A,
        snapshot: &Snapshot<B>,
        places: &[u32],
        pes: u32,
    ) -> Result<Traffic, AllocError>
        requires { IsPlacement snapshot.now.loads places.now pes }
        ensures value { IfOk result (λ traffic. traffic ≡ traffic_of snapshot.now places.now pes) }
    {
        let present = present_places(alloc, snapshot)?;
        let bytes = moving(alloc, snapshot.sizes().as_slice(), places)?;
        Ok(Traffic {
            leave: greatest_load(&bytes, &present, snapshot.procs()),
            enter: greatest_load(&bytes, places, pes),
        })
    }
}

// The packed bytes of each element that moves to its place, and 0 for one that stays.
#[tactic(auto, using(crate::proofs::Traffics::moving_more))]
fn moving<A: Allocator>(
    alloc: A,
    sizes: &[(u32, Pe)],
    places: &[u32],
) -> Result<Vec<u64, A>, AllocError>
    requires { length places.now ≡ length sizes.now }
    ensures { IfOk result (λ bytes. bytes.items ≡ moving sizes.now places.now) }
{
    let mut bytes = Vec::with_capacity(alloc, sizes.len())?;
    for i in 0..sizes.len() {
        bytes.push(moved_bytes(sizes[i], places[i]))?;
    }
    Ok(bytes)
}

// The bytes of an element that moves to this PE, and 0 where it is on it already.
fn moved_bytes(size: (u32, Pe), place: u32) -> u64
    ensures { result ≡ moved_bytes size place }
{
    let (bytes, pe) = size;
    if pe.get() == place {
        0
    } else {
        u64::from(bytes)
    }
}
