//! Which decisions a dump is made of: each list has the length that follows from the target, and there are no more moves than
//! elements, each of an element that exists.

use crate::parts::{DECIDED, Decided, EXAMPLE, Move, recorded, snapshot};
use crate::rows::assert_for;
use dump_format::Dump;
use std::process::Abort;

// Whether a dump is made of the example and this decision.
fn is_made(rt: &(impl Abort + AllocGlobal), parts: &Decided<'_>) -> bool {
    let made = Dump::new(snapshot(rt, &EXAMPLE), Some(recorded(rt, parts)));
    let is_made = made.is_some();
    drop(made);
    is_made
}

// A target, the numbers of cuts, stops, names, prices of blocks and prices of PEs, and whether a dump is made of them. With no
// number of stops the floor is zero.
type Lengths = (u32, usize, Option<usize>, usize, usize, usize, bool);

// The first of these numbers, of which there are at most 258.
fn first(words: &[u32; 258], len: usize) -> &[u32] {
    &words[..len.min(258)]
}

// Whether a dump is made of the example and a decision with lists of these lengths. Its numbers are 0, as no right decision has
// them.
fn is_made_of(rt: &(impl Abort + AllocGlobal), row: &Lengths) -> bool {
    let &(target, cuts, stops, names, u, v, _) = row;
    let words = [0u32; 258];
    let prices = [0i64; 258];
    let parts = Decided {
        target,
        bottleneck: 0,
        cuts: first(&words, cuts),
        stops: stops.map(|len| first(&words, len)),
        names: first(&words, names),
        u: &prices[..u.min(258)],
        v: &prices[..v.min(258)],
        moved: 0,
        moves: &[],
    };
    is_made(rt, &parts)
}

#[test]
fn lists_of_each_length(rt: HostRuntime) {
    const ROWS: [Lengths; 16] = [
        (2, 3, Some(3), 2, 2, 2, true),
        (2, 3, None, 2, 2, 2, true),
        (2, 2, Some(3), 2, 2, 2, false),
        (2, 4, Some(3), 2, 2, 2, false),
        (2, 3, Some(2), 2, 2, 2, false),
        (2, 3, Some(4), 2, 2, 2, false),
        (2, 3, Some(3), 1, 2, 2, false),
        (2, 3, Some(3), 3, 2, 2, false),
        (2, 3, None, 2, 1, 2, false),
        (2, 3, None, 2, 3, 2, false),
        (2, 3, None, 2, 2, 1, false),
        (2, 3, None, 2, 2, 3, false),
        (3, 3, Some(3), 2, 2, 2, false),
        (0, 1, None, 0, 0, 0, false),
        (256, 257, Some(257), 256, 256, 256, true),
        (257, 258, Some(258), 257, 257, 257, false),
    ];
    for row in &ROWS {
        assert_for(&rt, is_made_of(&rt, row) == row.6, row.1);
    }
}

// Whether a dump is made of the example and its decision with these moves.
fn is_made_with(rt: &(impl Abort + AllocGlobal), moves: &[Move]) -> bool {
    let mut parts = DECIDED;
    parts.moves = moves;
    is_made(rt, &parts)
}

#[test]
fn moves_of_each_number(rt: HostRuntime) {
    const ROWS: [(&[Move], bool); 4] = [
        (&[(2, 255, 255), (2, 0, 0), (0, 0, 0)], true),
        (&[(0, 0, 1), (1, 1, 0), (2, 0, 1), (2, 1, 0)], false),
        (&[(3, 0, 1)], false),
        (&[(2, 0, 1), (65_535, 0, 1)], false),
    ];
    for row in &ROWS {
        assert_for(&rt, is_made_with(&rt, row.0) == row.1, row.0.len());
    }
}
