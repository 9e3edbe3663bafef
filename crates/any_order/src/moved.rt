//! The bytes that a plan moves.

ghost use Rattle.std.specs.Prelude.{◌≡◌, ◌+◌, ◌*◌, ◌<◌, ◌≤◌, length, slice_index, slice_range, sum_by};
ghost use Rattle.chare_index.specs.declared.limits.TheConstants.Limits.{STATE_BYTES};
ghost use Rattle.lb_snapshot.specs.Measured.{IsSizes};
ghost use Rattle.lb_certificates.specs.Chain.{IsDivision};
ghost use Rattle.lb_certificates.specs.Naming.{block_cost, bytes_moved, moved_bytes};

use chare_index::Pe;

// The bytes that move where this element is to run on this PE.
fn bytes_to(element: (u32, Pe), pe: u32) -> u32
    ensures { result ≡ moved_bytes element pe }
{
    let (bytes, place) = element;
    if place.get() == pe { 0 } else { bytes }
}

// The bytes that move where these elements are to run on this PE.
fn moved_to(elements: &[(u32, Pe)], pe: u32) -> u64
    requires { IsSizes elements.now }
    ensures value { result ≡ sum_by (λ size. moved_bytes size pe) elements.now }
    ensures small { result ≤ length elements.now * STATE_BYTES }
{
    let mut moved = 0;
    for &element in elements {
        moved += u64::from(bytes_to(element, pe));
    }
    moved
}

/// The bytes that cuts and the names of their blocks move: of each element whose PE is not the name of its block.
pub fn moved_by(sizes: &[(u32, Pe)], cuts: &[u32], names: &[u32]) -> u64
    requires sizes { IsSizes sizes.now }
    requires divides { IsDivision 0 (length sizes.now) (length names.now) cuts.now }
    ensures value { result ≡ bytes_moved sizes.now cuts.now names.now }
{
    let mut moved = 0;
    for b in 0..names.len() {
        let first = cuts[b] as usize;
        let end = cuts[b + 1] as usize;
        moved += moved_to(&sizes[first..end], names[b]);
    }
    moved
}
