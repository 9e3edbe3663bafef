//! The PEs on which elements begin.

use chare_index::{Index, opening_pe};

// An element, the number of elements, the number of PEs, and the PE on which the element begins.
type Begins = (u32, u32, u32, u32);

fn begins_there(row: &Begins) -> bool {
    let &(i, n, p, pe) = row;
    let Some(index) = Index::new(i) else {
        return false;
    };
    if i < n && n <= 65_536 && 1 <= p && p <= 256 {
        return opening_pe(index, n, p).get() == pe;
    }
    false
}

#[test]
fn elements_begin_spread_over_the_pes(rt: HostRuntime) {
    const ROWS: [Begins; 5] = [
        (1, 4, 2, 0),
        (2, 4, 2, 1),
        (2, 5, 3, 1),
        (1, 2, 256, 128),
        (65_535, 65_536, 256, 255),
    ];
    for row in &ROWS {
        assert!(rt; begins_there(row), "element {} of {}", row.0, row.1);
    }
}
