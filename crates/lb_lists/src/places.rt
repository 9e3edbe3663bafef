//! The place of each element: the name of its block.

ghost use Rattle.std.specs.Prelude.{◌≡◌, ◌≤◌, ◌<◌, ◌↔◌, ℕ, All, IsTrue, length, slice_index, MatchBool};
ghost use Rattle.lb_certificates.specs.Chain.{IsDivision};
ghost use Rattle.lb_certificates.specs.Naming.{blocks_between};
ghost use Rattle.lb_lists.specs.Places.{ArePlaces};

/// Writes the name of each element's block.
pub(crate) fn write_places(cuts: &[u32], names: &[u32], new_places: &mut [u32])
    requires divides { IsDivision 0 (length new_places.old) (blocks_between cuts.now) cuts.now }
    requires some_block { 0 < blocks_between cuts.now }
    requires named { length names.now ≡ blocks_between cuts.now }
    ensures placed { ArePlaces cuts.now names.now (length new_places.old) new_places.new }
{
    for b in 0..names.len() {
        new_places[cuts[b] as usize..cuts[b + 1] as usize].fill(names[b]);
    }
}

/// Whether each element's place is the name of its block.
pub(crate) fn are_places(cuts: &[u32], names: &[u32], new_places: &[u32]) -> bool
    requires divides { IsDivision 0 (length new_places.now) (blocks_between cuts.now) cuts.now }
    requires some_block { 0 < blocks_between cuts.now }
    requires named { length names.now ≡ blocks_between cuts.now }
    ensures { MatchBool result (ArePlaces cuts.now names.now (length new_places.now) new_places.now)
        (¬ (ArePlaces cuts.now names.now (length new_places.now) new_places.now)) }
{
    for b in 0..names.len() {
        if !are_all(
            names[b],
            &new_places[cuts[b] as usize..cuts[b + 1] as usize],
        ) {
            return false;
        }
    }
    true
}

// Whether each of these places is this one.
fn are_all(name: u32, places: &[u32]) -> bool
    ensures { IsTrue result ↔ All (λ place. place ≡ name) places.now }
{
    places.iter().all(|&place| place == name)
}
