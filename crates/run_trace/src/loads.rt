//! The loads of the PEs in a round, as events.

ghost use Rattle.std.specs.Prelude.{◌≡◌, ◌++◌, IfOk, OnOk, map};
ghost use Rattle.std.specs.List.{flat_map, range_with_len};
ghost use Rattle.std.specs.Option.{option_copied};
ghost use Rattle.sync_board.specs.Boards.{kept_of};
ghost use Rattle.run_trace.specs.Shown.{load_events, load_on, loads_shown};

use crate::event::TraceEvent;
use crate::happening::{Happening, What};
use lb_snapshot::Snapshot;
use lb_strategy::Decision;
use std::alloc::{AllocError, Allocator};

/// Adds the load of each PE in each round that was decided.
pub(crate) fn push_loads<A: Allocator, B: Allocator + Copy>(
    alloc: B,
    events: &mut Vec<TraceEvent, B>,
    happenings: &[Happening],
    rounds: &[(Snapshot<A>, Decision<A>)],
) -> Result<(), AllocError>
    ensures loads { OnOk result (events.new.items ≡ events.old.items ++ flat_map (loads_shown rounds.now) happenings.now) }
{
    for happening in happenings {
        push_decided(alloc, events, happening, rounds)?;
    }
    Ok(())
}

// Adds the load of each PE, where a round was decided.
fn push_decided<A: Allocator, B: Allocator>(
    alloc: B,
    events: &mut Vec<TraceEvent, B>,
    happening: &Happening,
    rounds: &[(Snapshot<A>, Decision<A>)],
) -> Result<(), AllocError>
    ensures loads { OnOk result (events.new.items ≡ events.old.items ++ loads_shown rounds.now happening.now) }
{
    match happening.what {
        What::Done(..) => Ok(()),
        What::Decided(round) => match kept_in(rounds, round.get()) {
            None => Ok(()),
            Some((snapshot, _)) => push_round(alloc, events, happening.at, snapshot),
        },
    }
}

// What is kept of a round, if it is: they are numbered from 1.
fn kept_in<A: Allocator>(
    rounds: &[(Snapshot<A>, Decision<A>)],
    round: u32,
) -> Option<&(Snapshot<A>, Decision<A>)>
    ensures { option_copied result ≡ kept_of rounds.now round }
{
    if round == 0 {
        return None;
    }
    rounds.get(round as usize - 1)
}

// Adds the load of each PE in this snapshot, in order.
fn push_round<A: Allocator, B: Allocator>(
    alloc: B,
    events: &mut Vec<TraceEvent, B>,
    at: u64,
    snapshot: &Snapshot<A>,
) -> Result<(), AllocError>
    ensures loads { OnOk result (events.new.items ≡ events.old.items ++ load_events at snapshot.now) }
{
    let loads = loads_of(alloc, snapshot)?;
    for pe in 0..snapshot.procs() {
        let load = loads[pe as usize];
        events.push(TraceEvent::Load { pe, at, load })?;
    }
    Ok(())
}

// The load of each PE in a round that was measured: what its elements were charged there.
fn loads_of<A: Allocator, B: Allocator>(
    alloc: B,
    snapshot: &Snapshot<A>,
) -> Result<Vec<u64, B>, AllocError>
    ensures loads { IfOk result (λ sums. sums.items ≡ map (load_on snapshot.now.loads snapshot.now.sizes) (range_with_len 0 snapshot.now.procs)) }
{
    let mut sums = Vec::new(alloc);
    sums.resize(snapshot.procs() as usize, 0u64)?;
    let loads = snapshot.loads().as_slice();
    let sizes = snapshot.sizes().as_slice();
    for i in 0..loads.len() {
        let (_, place) = sizes[i];
        sums[place.get() as usize] += loads[i];
    }
    Ok(sums)
}
