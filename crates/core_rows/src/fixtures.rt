//! What the tests use: an assertion over a row, PEs, elements and rounds by their numbers, and worlds as they open. A value that
//! cannot be made ends the test.

ghost use Rattle.std.specs.Prelude.{◌≡◌, true};

use chare_index::{Index, Pe, Round};
use chares::Openings;
use rts_core::{Chare, World};
use std::alloc::Global;
use std::fmt::Debug;
use std::process::Abort;

/// Ends the test where this does not hold, with the row for which it has to hold.
pub(crate) fn assert_for<R: Debug + Copy>(rt: &impl Abort, holds: bool, row: R)
    ensures held { holds ≡ true }
{
    assert!(rt; holds, "{row:?}");
}

pub(crate) fn pe(rt: &impl Abort, number: u32) -> Pe {
    Pe::new(number).expect(rt, "no such PE")
}

pub(crate) fn index(rt: &impl Abort, place: u32) -> Index {
    Index::new(place).expect(rt, "no such element")
}

pub(crate) fn round(rt: &impl Abort, number: u32) -> Round {
    Round::new(number).expect(rt, "no such round")
}

/// A world that opens with these chares.
pub(crate) fn opened<C: Chare<Global>, H: Openings<C>>(
    rt: &(impl Abort + AllocGlobal),
    pes: u32,
    chares: Vec<C>,
) -> World<C, H>
    requires run { pes ≡ H.pes }
    requires opened { chares.items ≡ H.opened }
{
    assert!(rt; 1 <= pes && pes <= 256, "no such number of PEs");
    assert!(rt; chares.len() <= 65_536, "too many elements");
    World::new(rt.alloc(), pes, chares).expect(rt, "out of memory")
}
