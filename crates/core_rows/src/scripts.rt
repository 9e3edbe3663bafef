//! Worlds of three tallies, event by event: a letter that arrives before its element, and one that follows it.

ghost use Rattle.std.specs.Prelude.{◌≡◌};

use crate::fixtures::{opened, round};
use crate::steps::{expect_account, take};
use chares::Openings;
use lb_certificates::Floor;
use lb_snapshot::Snapshot;
use lb_strategy::Decision;
use row_scripts::{AFTER, BEFORE, DECIDE, Line, START};
use rts_core::{Account, World};
use std::marker::Brand;
use std::process::Abort;
use tally::Tally;

// The three tallies of the scripts, of 32, 40 and 32 bytes.
fn three_tallies(rt: &(impl Abort + AllocGlobal)) -> Vec<Tally> {
    let mut tallies = Vec::new(rt.alloc());
    for (first, pad) in &[(1, 0), (1, 8), (0, 0)] {
        let next = Tally::with_amounts(rt.alloc(), &[*first, 0], *pad);
        let next = next.expect(rt, "no tally");
        tallies.push(next).expect(rt, "out of memory");
    }
    tallies
}

// Whether a floor is a fence of these stops.
fn is_fence(floor: &Floor, want: &[u32]) -> bool {
    match floor {
        Floor::Fence(stops) => stops.as_slice() == want,
        Floor::Zero => false,
    }
}

// Whether a decision is the one for these loads: tallies 0 and 1 belong on PE 1, and tally 2 stays on PE 2.
fn is_first_decision(decision: &Decision) -> bool {
    decision.division.bottleneck == 1
        && decision.moved == 32
        && decision.division.cuts.as_slice() == [0, 2, 3, 3].as_slice()
        && decision.naming.as_slice() == [1, 2, 0].as_slice()
        && is_fence(&decision.division.floor, &[0, 1, 1, 1])
}

// Whether a snapshot has what the tallies have in the first round: what each got, its bytes, and the PE of its number.
fn is_first_snapshot(snapshot: &Snapshot) -> bool {
    let &[(first, p0), (second, p1), (third, p2)] = snapshot.sizes().as_slice() else {
        return false;
    };
    snapshot.procs() == 3
        && snapshot.loads().as_slice() == [0, 1, 1].as_slice()
        && (first, second, third) == (32, 40, 32)
        && (p0.get(), p1.get(), p2.get()) == (0, 1, 2)
}

// Whether the first round is decided in this way, on that snapshot.
fn is_decided<H: Openings<Tally>>(rt: &impl Abort, world: &World<Tally, H>) -> bool {
    match world.board().kept_for(round(rt, 1)) {
        Some((snapshot, decision)) => is_first_snapshot(snapshot) && is_first_decision(decision),
        None => false,
    }
}

// As many letters were posted as were executed.
fn all_executed(letters: u64) -> Account {
    Account {
        posted: letters,
        executed: letters,
        held: 0,
    }
}

// A world takes a script from its opening on.
fn plays<H: Openings<Tally>>(rt: &(impl Abort + AllocGlobal), chares: Vec<Tally>, lines: &[Line])
    requires run { H.pes ≡ 3 }
    requires opened { chares.items ≡ H.opened }
{
    let mut world = opened::<Tally, H>(rt, 3, chares);
    take(rt, &mut world, START);
    expect_account(rt, &world, &all_executed(3));
    take(rt, &mut world, DECIDE);
    take(rt, &mut world, lines);
    expect_account(rt, &world, &all_executed(4));
    assert!(rt; is_decided(rt, &world));
    drop(world);
}

#[test]
fn a_letter_that_comes_before_its_element(rt: HostRuntime) {
    let tallies = three_tallies(&rt);
    plays::<Brand>(&rt, tallies, BEFORE);
}

#[test]
fn a_letter_that_follows_its_element(rt: HostRuntime) {
    let tallies = three_tallies(&rt);
    plays::<Brand>(&rt, tallies, AFTER);
}
