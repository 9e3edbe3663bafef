//! The worked example of three elements on two PEs, with its dumps.

ghost use Rattle.std.specs.Prelude.{◌≡◌, ◌↔◌, IfOk, IsTrue};
ghost use Rattle.row_fixtures.specs.Worked.{three_elements, three_sizes};

use crate::numbers::pe;
use chare_index::Pe;
use lb_snapshot::{Loads, Sizes, Snapshot};
use std::alloc::{AllocError, Allocator};

/// The dump of the example: three elements on two PEs, at step 5.
pub const EXAMPLE_DUMP: [u8; 52] = *b"LBD1\
    \0\0\0\x05\0\0\0\x02\0\0\0\x03\
    \0\0\0\x01\0\0\0\x0a\0\0\0\0\
    \0\0\0\x01\0\0\0\x09\0\0\0\x01\
    \0\0\0\x02\0\0\0\x08\0\0\0\0";

/// The dump of the example with a decision on it for two PEs: the bottleneck 2, the cuts 0, 2, 3 with the fence 0, 1, 2,
/// the names 1, 0 with the prices 10, 1 and -1, 0, and 10 bytes that move, with element 0 from PE 0 to PE 1.
pub const RECORDED_DUMP: [u8; 172] = *b"LBD2\
    \0\0\0\x05\0\0\0\x02\0\0\0\x03\
    \0\0\0\0\0\0\0\x01\0\0\0\x0a\0\0\0\0\
    \0\0\0\0\0\0\0\x01\0\0\0\x09\0\0\0\x01\
    \0\0\0\0\0\0\0\x02\0\0\0\x08\0\0\0\0\
    \0\0\0\x01\0\0\0\x02\
    \0\0\0\0\0\0\0\x02\0\0\0\0\0\0\0\x02\0\0\0\x03\
    \0\0\0\x01\0\0\0\0\0\0\0\x01\0\0\0\x02\
    \0\0\0\x01\0\0\0\0\
    \0\0\0\0\0\0\0\x0a\0\0\0\0\0\0\0\x01\
    \xff\xff\xff\xff\xff\xff\xff\xff\0\0\0\0\0\0\0\0\
    \0\0\0\0\0\0\0\x0a\0\0\0\x01\
    \0\0\0\0\0\0\0\0\0\0\0\x01";

/// The sizes and the PEs of the example.
///
/// # Errors
///
/// Out of memory.
pub fn example_sizes<A: Allocator>(alloc: A) -> Result<Sizes<A>, AllocError>
    ensures value { IfOk result (λ sizes. sizes ≡ three_sizes) }
{
    let pairs = [(10, pe(0)), (9, pe(1)), (8, pe(0))];
    Ok(Sizes::new(Vec::from_slice(alloc, &pairs)?).unwrap())
}

/// The example.
///
/// # Errors
///
/// Out of memory.
pub fn example<A: Allocator + Copy>(alloc: A) -> Result<Snapshot<A>, AllocError>
    ensures value { IfOk result (λ snapshot. snapshot ≡ three_elements) }
{
    let loads = Loads::new(Vec::from_slice(alloc, &[1, 1, 2])?).unwrap();
    let sizes = example_sizes(alloc)?;
    Ok(Snapshot::new(5, 2, loads, sizes).unwrap())
}

/// Whether this is the example.
pub fn is_example<A: Allocator>(snapshot: &Snapshot<A>) -> bool
    ensures value { IsTrue result ↔ (snapshot.now ≡ three_elements) }
{
    let sizes = [(10, pe(0)), (9, pe(1)), (8, pe(0))];
    snapshot.step() == 5
        && snapshot.procs() == 2
        && snapshot.loads().as_slice() == [1, 1, 2].as_slice()
        && same_pairs(snapshot.sizes().as_slice(), sizes.as_slice())
}

// Whether these are the same sizes and places.
fn same_pairs(some: &[(u32, Pe)], others: &[(u32, Pe)]) -> bool
    ensures { IsTrue result ↔ (some.now ≡ others.now) }
{
    some == others
}
