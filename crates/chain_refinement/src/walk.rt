//! Walks along the chain: the bytes that a cut moves, the widest block within a limit, and the climb of a step function,
//! each from one place to the next.

ghost use Rattle.std.specs.Prelude.{◌≡◌, ◌+◌, ◌*◌, ◌<◌, ◌≤◌, length};
ghost use Rattle.chare_index.specs.declared.limits.TheConstants.Limits.{STATE_BYTES};
ghost use Rattle.lb_snapshot.specs.Measured.{IsLoads, IsSizes};
ghost use Rattle.chain_refinement.specs.Refinement.{height, held, held_before, held_bytes, held_from};
ghost use Rattle.chain_refinement.specs.Walks.{IsClimbed, IsWindow};

use chare_index::Pe;
use lb_snapshot::Units;

/// The widest block within a limit that ends at some place.
#[derive(Clone, Copy, Debug)]
pub struct Window {
    /// Where it begins.
    pub start: usize,
    /// Its load, in work units.
    pub weight: u64,
}

/// How far a step function is climbed.
#[derive(Clone, Copy, Debug)]
pub struct Climb {
    /// The number of its steps that are climbed.
    pub next: usize,
    /// The height that they reach, in bytes.
    pub height: u128,
}

// The bytes of this element that are on this PE.
fn held_on(element: (u32, Pe), pe: u32) -> u32
    ensures { result ≡ held_bytes element pe }
{
    let (bytes, place) = element;
    if place.get() == pe { bytes } else { 0 }
}

/// The bytes of these elements that are on this PE.
#[tactic(auto, using(crate::proofs::HeldBytes::next_held_fits, crate::proofs::HeldBytes::held_small))]
pub fn held_by(elements: &[(u32, Pe)], pe: u32) -> u64
    requires measured { IsSizes elements.now }
    ensures value { result ≡ held elements.now pe }
    ensures small { result ≤ length elements.now * STATE_BYTES }
{
    let mut bytes = 0;
    for &element in elements {
        bytes += u64::from(held_on(element, pe));
    }
    bytes
}

/// What the cut between a block on PE `from` and a block on PE `to` costs behind this element, from what it costs before it.
#[tactic(auto, using(crate::proofs::HeldBytes::cost_moves_on))]
pub fn cost_after(elements: &[(u32, Pe)], element: usize, cost: u64, from: u32, to: u32) -> u64
    requires measured { IsSizes elements.now }
    requires inside { element < length elements.now }
    requires before { cost ≡ held_from elements.now from element + held_before elements.now to element }
    ensures value { result ≡ held_from elements.now from (element + 1) + held_before elements.now to (element + 1) }
{
    cost - u64::from(held_on(elements[element], from)) + u64::from(held_on(elements[element], to))
}

/// The widest block within a limit that ends behind this element, from the one that ends before it. It never begins earlier.
pub fn slid(loads: &[Units], window: Window, element: usize, limit: u64) -> Window
    requires measured { IsLoads loads.now }
    requires before { IsWindow loads.now element limit window.start window.weight }
    requires inside { element < length loads.now }
    ensures window { IsWindow loads.now (element + 1) limit result.start result.weight }
    ensures onward { window.start ≤ result.start }
{
    let mut start = window.start;
    let mut weight = window.weight + loads[element];
    while weight > limit {
        weight -= loads[start];
        start += 1;
    }
    Window { start, weight }
}

/// The climb of these steps continued from one place to another.
#[tactic(auto, using(crate::proofs::Climbs::climbed_one, crate::proofs::Climbs::climbed_all))]
pub fn climbed(steps: &[(u32, u64)], climb: Climb, from: usize, to: usize) -> Climb
    requires before { IsClimbed steps.now from climb.next climb.height }
    requires onward { from ≤ to }
    ensures climbed { IsClimbed steps.now to result.next result.height }
    ensures height { result.height ≡ height steps.now to }
{
    let mut next = climb.next;
    let mut height = climb.height;
    while next < steps.len() && steps[next].0 as usize <= to {
        height += u128::from(steps[next].1);
        next += 1;
    }
    Climb { next, height }
}
