//! What a cut costs, from one place to the one before it.

ghost use Rattle.std.specs.Prelude.{◌≡◌, ◌+◌, ◌<◌, length};
ghost use Rattle.lb_snapshot.specs.Measured.{IsSizes};
ghost use Rattle.chain_refinement.specs.Refinement.{held_before, held_bytes, held_from};

use chare_index::Pe;

// The bytes of this element that are on this PE.
fn held_on(element: (u32, Pe), pe: u32) -> u32
    ensures { result ≡ held_bytes element pe }
{
    let (bytes, place) = element;
    if place.get() == pe { bytes } else { 0 }
}

/// What a cut between a block on one PE and a block on another costs at a place, from what it costs at the next one.
#[tactic(auto, using(crate::proofs::CostsBack::cost_moves_back))]
pub(crate) fn cost_before(
    elements: &[(u32, Pe)],
    place: usize,
    cost: u64,
    from: u32,
    to: u32,
) -> u64
    requires valid { IsSizes elements.now }
    requires inside { place < length elements.now }
    requires there { cost ≡ held_from elements.now from (place + 1) + held_before elements.now to (place + 1) }
    ensures here { result ≡ held_from elements.now from place + held_before elements.now to place }
{
    cost + u64::from(held_on(elements[place], from)) - u64::from(held_on(elements[place], to))
}
