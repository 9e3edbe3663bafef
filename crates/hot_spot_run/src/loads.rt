//! The loads of the PEs in a round.

use chare_index::{Index, Limits, opening_pe};
use hot_spot_strip::{StripChain, cell_work};
use lb_snapshot::Snapshot;
use std::alloc::Allocator;

/// The greatest load of a PE, and that of all PEs together.
#[derive(Clone, Copy)]
pub(crate) struct Spread {
    pub(crate) greatest: u64,
    pub(crate) total: u64,
}

impl Spread {
    /// No PE.
    pub(crate) fn none() -> Spread {
        Spread {
            greatest: 0,
            total: 0,
        }
    }

    /// The spread with one more PE.
    pub(crate) fn with(self, load: u64) -> Spread {
        Spread {
            greatest: self.greatest.max(load),
            total: self.total.saturating_add(load),
        }
    }
}

/// The loads of a round that was measured.
pub(crate) fn measured<A: Allocator>(snapshot: &Snapshot<A>) -> Spread {
    let mut spread = Spread::none();
    for pe in 0..snapshot.procs() {
        spread = spread.with(measured_on(snapshot, pe));
    }
    spread
}

// The load of a PE in a snapshot.
fn measured_on<A: Allocator>(snapshot: &Snapshot<A>, pe: u32) -> u64 {
    let mut load = 0u64;
    let places = snapshot.sizes().as_slice();
    for (units, (_, place)) in snapshot.loads().as_slice().iter().zip(places) {
        if place.get() == pe {
            load = load.saturating_add(*units);
        }
    }
    load
}

/// The loads of a round, counted from 0, of a chain whose strips stay where they opened.
pub(crate) fn expected(chain: &StripChain<'_>, pes: u32, round: u32) -> Spread {
    let mut spread = Spread::none();
    for pe in 0..pes {
        spread = spread.with(expected_on(chain, pes, pe, round));
    }
    spread
}

// The load of a PE in that round.
fn expected_on(chain: &StripChain<'_>, pes: u32, pe: u32, round: u32) -> u64 {
    let mut load = 0u64;
    for (place, count) in chain.cells.iter().enumerate() {
        if home(place, chain.cells.len(), pes) == Some(pe) {
            let units = units(chain, place, *count, round);
            load = load.saturating_add(units);
        }
    }
    load
}

// The PE on which a strip opens.
fn home(place: usize, n: usize, pes: u32) -> Option<u32> {
    if place >= n || n > Limits::ELEMENTS as usize || pes == 0 || pes > Limits::PES {
        return None;
    }
    let index = Index::new(place as u32)?;
    Some(opening_pe(index, n as u32, pes).get())
}

// The work of a strip with this number of cells in that round.
fn units(chain: &StripChain<'_>, place: usize, count: u32, round: u32) -> u64 {
    let n = chain.cells.len();
    if place >= n || n > Limits::ELEMENTS as usize || round >= chain.rounds {
        return 0;
    }
    let work = cell_work(place as u32, n as u32, round, chain.rounds, chain.work);
    work.saturating_mul(u64::from(count))
}
