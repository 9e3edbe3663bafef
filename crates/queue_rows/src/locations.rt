//! Location words, which say where elements are.

ghost use Rattle.std.specs.Prelude.{◌≡◌, IfOk};

use chare_index::Index;
use pe_queues::{Locations, PeCount};
use row_fixtures::pe;
use std::alloc::{AllocError, Global};
use std::marker::Brand;
use std::test::Fail;

// Elements 0 to 3 on two PEs, two on each.
fn four_elements<P: PeCount>(alloc: Global, pes: u32) -> Result<Locations<P>, AllocError>
    requires { (pes ≡ P.pes) × (pes ≡ 2) }
    ensures { IfOk result (λ made. (made.elements ≡ 4) × (made.pes ≡ 2)) }
{
    Locations::new(alloc, &[pe(0), pe(0), pe(1), pe(1)], pes)
}

// Where element 2 is, before and after it is set to PE 0, and where its neighbors are then.
fn moved<P: PeCount>(alloc: Global, pes: u32) -> Result<[u32; 4], Fail>
    requires { (pes ≡ P.pes) × (pes ≡ 2) }
{
    let places = four_elements::<P>(alloc, pes)?;
    let (Some(one), Some(two), Some(three)) = (Index::new(1), Index::new(2), Index::new(3)) else {
        return Err(Fail::new("no such element"));
    };
    let before = places.look(two).get();
    places.set(two, pe(0));
    Ok([
        before,
        places.look(one).get(),
        places.look(two).get(),
        places.look(three).get(),
    ])
}

#[test]
fn an_element_is_looked_up_where_it_was_set(rt: HostRuntime) -> Result<(), Fail> {
    let found = moved::<Brand>(rt.alloc(), 2)?;
    assert!(rt; found == [1, 0, 0, 1], "found {found:?}");
    Ok(())
}
