//! The parts of a snapshot and of a decision as plain numbers, and what is made of them.

use crate::fixtures::{list, push};
use chare_index::{Index, Pe};
use dump_format::{Dump, Recorded};
use lb_certificates::{Cuts, Division, Floor, Naming, PriceList, Prices, Stops};
use lb_snapshot::{Loads, Sizes, Snapshot, Units};
use lb_strategy::{Decision, Moves};
use std::process::Abort;

/// The load, the size and the place of an element.
pub(crate) type Element = (Units, u32, u32);

/// An element that moves, the PE that it is on and the one on which it is to run.
pub(crate) type Move = (u32, u32, u32);

/// The parts of a snapshot.
#[derive(Clone, Copy)]
pub(crate) struct Elements<'a> {
    pub(crate) step: u32,
    pub(crate) procs: u32,
    pub(crate) rows: &'a [Element],
}

/// The parts of a decision, and the number of PEs that it is for. The floor is zero where there are no stops.
#[derive(Clone, Copy)]
pub(crate) struct Decided<'a> {
    pub(crate) target: u32,
    pub(crate) bottleneck: u64,
    pub(crate) cuts: &'a [u32],
    pub(crate) stops: Option<&'a [u32]>,
    pub(crate) names: &'a [u32],
    pub(crate) u: &'a [i64],
    pub(crate) v: &'a [i64],
    pub(crate) moved: u64,
    pub(crate) moves: &'a [Move],
}

/// The example.
pub(crate) static EXAMPLE: Elements<'static> = Elements {
    step: 5,
    procs: 2,
    rows: &[(1, 10, 0), (1, 9, 1), (2, 8, 0)],
};

/// The decision on the example.
pub(crate) static DECIDED: Decided<'static> = Decided {
    target: 2,
    bottleneck: 2,
    cuts: &[0, 2, 3],
    stops: Some(&[0, 1, 2]),
    names: &[1, 0],
    u: &[10, 1],
    v: &[-1, 0],
    moved: 10,
    moves: &[(0, 0, 1)],
};

fn pe(rt: &impl Abort, number: u32) -> Pe {
    Pe::new(number).expect(rt, "no such PE")
}

fn loads(rt: &(impl Abort + AllocGlobal), rows: &[Element]) -> Loads {
    let mut units = Vec::new(rt.alloc());
    for row in rows {
        push(rt, &mut units, row.0);
    }
    Loads::new(units).expect(rt, "past a limit")
}

fn sizes(rt: &(impl Abort + AllocGlobal), rows: &[Element]) -> Sizes {
    let mut pairs = Vec::new(rt.alloc());
    for &(_, size, place) in rows {
        let pair = (size, pe(rt, place));
        push(rt, &mut pairs, pair);
    }
    Sizes::new(pairs).expect(rt, "past a limit")
}

/// The snapshot with these parts.
pub(crate) fn snapshot(rt: &(impl Abort + AllocGlobal), parts: &Elements<'_>) -> Snapshot {
    let loads = loads(rt, parts.rows);
    let sizes = sizes(rt, parts.rows);
    Snapshot::new(parts.step, parts.procs, loads, sizes).expect(rt, "no snapshot")
}

fn division(rt: &(impl Abort + AllocGlobal), parts: &Decided<'_>) -> Division {
    Division {
        bottleneck: parts.bottleneck,
        cuts: Cuts::new(list(rt, parts.cuts)),
        floor: floor(rt, parts.stops),
    }
}

fn floor(rt: &(impl Abort + AllocGlobal), stops: Option<&[u32]>) -> Floor {
    match stops {
        None => Floor::Zero,
        Some(stops) => Floor::Fence(Stops::new(list(rt, stops))),
    }
}

fn prices(rt: &(impl Abort + AllocGlobal), parts: &Decided<'_>) -> Prices {
    Prices {
        u: PriceList::new(list(rt, parts.u)),
        v: PriceList::new(list(rt, parts.v)),
    }
}

fn moves(rt: &(impl Abort + AllocGlobal), rows: &[Move]) -> Moves {
    let mut moves = Vec::new(rt.alloc());
    for &(moved, present, planned) in rows {
        let index = Index::new(moved).expect(rt, "no such element");
        let step = (index, pe(rt, present), pe(rt, planned));
        push(rt, &mut moves, step);
    }
    Moves::new(moves)
}

fn decision(rt: &(impl Abort + AllocGlobal), parts: &Decided<'_>) -> Decision {
    Decision {
        division: division(rt, parts),
        naming: Naming::new(list(rt, parts.names)),
        prices: prices(rt, parts),
        moved: parts.moved,
        moves: moves(rt, parts.moves),
    }
}

/// A decision with these parts, to be recorded.
pub(crate) fn recorded(rt: &(impl Abort + AllocGlobal), parts: &Decided<'_>) -> Recorded {
    Recorded {
        target: parts.target,
        decision: decision(rt, parts),
    }
}

/// The dump of a snapshot with these parts, and of a decision with these or of none.
pub(crate) fn dump(
    rt: &(impl Abort + AllocGlobal),
    elements: &Elements<'_>,
    decided: Option<&Decided<'_>>,
) -> Dump {
    let snapshot = snapshot(rt, elements);
    let recorded = decided.map(|parts| recorded(rt, parts));
    Dump::new(snapshot, recorded).expect(rt, "no dump")
}
