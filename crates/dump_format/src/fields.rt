//! Proofs that each number of a dump fits its field. These functions do nothing else.

ghost use Rattle.std.specs.Prelude.{◌≡◌, ◌<◌, ◌^◌, All, length};
ghost use Rattle.lb_certificates.specs.Certificate.{MatchFloor};
ghost use Rattle.dump_format.specs.Dumps.{AreFields, ArePrices, AreWords, IsSnapshot};

use crate::recorded::Recorded;
use chare_index::{Index, Limits, Pe};
use lb_certificates::{Division, Floor};
use lb_snapshot::Snapshot;
use std::alloc::Allocator;

// The functions of this file do nothing but prove facts that follow from types: that each number fits its field in a dump.

// The number of elements of a snapshot.
pub(crate) fn elements<A: Allocator>(snapshot: &Snapshot<A>) -> usize
    ensures value { result ≡ length snapshot.now.loads }
    ensures rules { IsSnapshot snapshot.now }
    ensures step { snapshot.now.step < 2 ^ 32 }
{
    let _ = (snapshot.step(), snapshot.procs());
    let _ = snapshot.sizes().as_slice();
    snapshot.loads().as_slice().len()
}

pub(crate) fn fields_fit<A: Allocator>(recorded: &Recorded<A>)
    ensures { AreFields recorded.now }
{
    let decision = &recorded.decision;
    let _moved = decision.moved;
    division_fits(&decision.division);
    words_fit(decision.naming.as_slice());
    prices_fit(decision.prices.u.as_slice());
    prices_fit(decision.prices.v.as_slice());
    moves_fit(decision.moves.as_slice());
}

fn division_fits<A: Allocator>(division: &Division<A>)
    ensures bottleneck { division.now.bottleneck < 2 ^ 64 }
    ensures cuts { AreWords division.now.cuts }
    ensures stops { MatchFloor division.now.floor (Unit {0}) AreWords }
{
    let _bottleneck = division.bottleneck;
    words_fit(division.cuts.as_slice());
    if let Floor::Fence(stops) = &division.floor {
        words_fit(stops.as_slice());
    }
}

fn words_fit(words: &[u32])
    ensures { AreWords words.now }
{}

fn prices_fit(prices: &[i64])
    ensures { ArePrices prices.now }
{
    for &price in prices {
        let _price = price;
    }
}

fn moves_fit(moves: &[(Index, Pe, Pe)])
    ensures present { All (λ move. move.1 < Limits.PES) moves.now }
    ensures planned { All (λ move. move.2 < Limits.PES) moves.now }
{
    for &(_, present, planned) in moves {
        let _ = (present.get(), planned.get());
    }
}
