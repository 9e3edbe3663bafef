//! Worlds as they open, up to the most PEs and elements.

ghost use Rattle.std.specs.Prelude.{◌≡◌};

use crate::couriers::couriers;
use crate::fixtures::{assert_for, index, opened, pe};
use chare_index::{Index, Pe};
use chares::{Openings, Progress};
use row_chares::Courier;
use rts_core::World;
use std::marker::Brand;
use std::process::Abort;

// Whether an element is on this PE, is looked for there, and has done nothing yet.
fn is_fresh_on<H: Openings<Courier>>(world: &World<Courier, H>, e: Index, home: Pe) -> bool {
    let Some(pe) = world.pe(home) else {
        return false;
    };
    let Some(element) = pe.room().element(e) else {
        return false;
    };
    element.progress() == Progress::opening() && world.word(e) == Some(home)
}

// Whether each element is where it opens, on PE `i * pes / n`, rounded down.
fn are_at_home<H: Openings<Courier>>(
    rt: &impl Abort,
    world: &World<Courier, H>,
    pes: u32,
    n: u32,
) -> bool {
    let mut all = world.pes() == pes as usize;
    for i in 0..n {
        let home = i.saturating_mul(pes).checked_div(n).unwrap_or(0);
        all &= is_fresh_on(world, index(rt, i), pe(rt, home));
    }
    all
}

// Whether a world of this number of PEs opens with each of these chares where it belongs.
fn opens<H: Openings<Courier>>(
    rt: &(impl Abort + AllocGlobal),
    pes: u32,
    n: u32,
    chares: Vec<Courier>,
) -> bool
    requires run { pes ≡ H.pes }
    requires opened { chares.items ≡ H.opened }
{
    let world = opened::<Courier, H>(rt, pes, chares);
    let holds = are_at_home(rt, &world, pes, n);
    drop(world);
    holds
}

fn opens_with_couriers(rt: &(impl Abort + AllocGlobal), pes: u32, n: u32) -> bool {
    opens::<Brand>(rt, pes, n, couriers(rt, &(n, 0, 0, 0)))
}

#[test]
fn each_element_opens_on_its_pe(rt: HostRuntime) {
    const SIZES: [(u32, u32); 4] = [(3, 0), (3, 7), (4, 2), (256, 65_536)];
    for (pes, n) in &SIZES {
        assert_for(&rt, opens_with_couriers(&rt, *pes, *n), *n);
    }
}
