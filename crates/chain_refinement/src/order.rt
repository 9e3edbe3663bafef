//! Whether elements are in the order of the PEs.

ghost use Rattle.std.specs.Prelude.{◌≡◌, ℕ, ◌+◌, ◌<◌, ◌≤◌, length, slice_index};
ghost use Rattle.std.specs.Bool.{OnTrue};
ghost use Rattle.lb_certificates.specs.Chain.{IsDivision};
ghost use Rattle.chain_refinement.specs.Orders.{place_of, StandInOrder};

use chare_index::Pe;
use lb_certificates::Cuts;
use std::alloc::Allocator;

/// Whether the present cuts divide the elements into a block for each name, and each element is on the PE of its block.
pub(crate) fn stand_in_order<A: Allocator>(
    sizes: &[(u32, Pe)],
    names: &[u32],
    present: &Cuts<A>,
) -> bool
    ensures order { OnTrue result (StandInOrder sizes.now names.now present.now) }
{
    let cuts = present.as_slice();
    if cuts.len() != names.len() + 1 || !present.divides(sizes.len()) {
        return false;
    }
    all_in_place(sizes, names, cuts)
}

// Whether each element is on the PE of its block, where the cuts divide the elements so.
fn all_in_place(sizes: &[(u32, Pe)], names: &[u32], cuts: &[u32]) -> bool
    requires divides { IsDivision 0 (length sizes.now) (length names.now) cuts.now }
    ensures stands { OnTrue result ((b i : ℕ) → b < length names.now → slice_index cuts.now b ≤ i → i < slice_index cuts.now (b + 1)
        → place_of sizes.now i ≡ slice_index names.now b) }
{
    for b in 0..names.len() {
        if !all_on(sizes, cuts[b] as usize, cuts[b + 1] as usize, names[b]) {
            return false;
        }
    }
    true
}

// Whether each of the elements first..end is on this PE.
fn all_on(sizes: &[(u32, Pe)], first: usize, end: usize, pe: u32) -> bool
    requires within { end ≤ length sizes.now }
    ensures on { OnTrue result ((i : ℕ) → first ≤ i → i < end → place_of sizes.now i ≡ pe) }
{
    for i in first..end {
        if sizes[i].1.get() != pe {
            return false;
        }
    }
    true
}
