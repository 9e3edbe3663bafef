//! A step of one cell: heat is conducted, by the explicit scheme of the heat equation, and a hot cell burns.

ghost use Rattle.std.specs.Prelude.{◌≡◌};
ghost use Rattle.heat_rod.specs.Heating.{burnt, burnt_more, conducted, is_burning, next_cell};

/// How much heat is conducted in a step: the diffusivity times the time, over the square of the length of a cell.
pub const RATE: f64 = 0.25;

/// A cell burns from this temperature on.
pub const IGNITION: f64 = 0.25;

/// The temperature of the flame, which a burning cell approaches.
pub const FLAME: f64 = 1.0;

/// The share of the way to [`FLAME`] that a burning cell goes in a small step.
pub const SHARE: f64 = 0.00390625;

/// How many small steps a burning cell takes in a step.
pub const PARTS: u32 = 64;

/// The temperature beyond both ends of the rod.
pub const COLD: f64 = 0.0;

/// The temperature of a cell after a step, from its own and those of the two cells beside it.
pub fn next_cell(left: f64, cell: f64, right: f64) -> f64
    ensures value { result ≡ next_cell left cell right }
{
    let heat = conducted(left, cell, right);
    if is_burning(cell) {
        return burnt(heat, PARTS);
    }
    heat
}

// The temperature after heat was conducted from both sides.
fn conducted(left: f64, cell: f64, right: f64) -> f64
    ensures value { result ≡ conducted left cell right }
{
    cell + RATE * ((left - cell) + (right - cell))
}

/// Whether a cell burns.
pub(crate) fn is_burning(cell: f64) -> bool
    ensures value { result ≡ is_burning cell }
{
    cell >= IGNITION
}

// The temperature after this many small steps of burning.
#[tactic(auto, unfolding(crate::specs::Heating::burnt))]
fn burnt(heat: f64, parts: u32) -> f64
    ensures value { result ≡ burnt heat parts }
{
    let mut now = heat;
    for _ in 0..parts {
        now = burnt_more(now);
    }
    now
}

// The temperature after one of them.
fn burnt_more(heat: f64) -> f64
    ensures value { result ≡ burnt_more heat }
{
    heat + SHARE * (FLAME - heat)
}
