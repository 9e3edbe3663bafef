//! How a rod ended.

ghost use Rattle.std.specs.Prelude.{◌≡◌, to_bits};
ghost use Rattle.std.specs.Float.{binary64};
ghost use Rattle.std.specs.List.{fold};
ghost use Rattle.heat_run.specs.Checksums.{joined};

use heat_rod::RodStrip;
use std::alloc::Allocator;
use std::num::f64_to_bits_with_nan;

// The checksum is the FNV-1a hash of all cells, a double at a time.
const BASIS: u64 = 0xcbf2_9ce4_8422_2325;

/// How the strips of a rod ended, as far as they have been visited, in order.
#[derive(Clone, Copy, Debug, PartialEq, Eq)]
pub struct RodEnding {
    /// How many steps they took.
    pub steps: u32,
    /// The bits of the residual of the last one.
    pub residual: u64,
    /// A checksum of the bits of all their cells.
    pub checksum: u64,
}

impl RodEnding {
    /// No strip has been visited.
    pub fn of_no_strip() -> RodEnding
        ensures value { result ≡ record { steps = 0; residual = 0; checksum = 0xcbf2_9ce4_8422_2325 } }
    {
        RodEnding {
            steps: 0,
            residual: 0,
            checksum: BASIS,
        }
    }

    /// The ending with the next strip. All strips have taken the same steps, and heard of the same residual.
    pub fn with<A: Allocator>(self, strip: &RodStrip<A>) -> RodEnding
        ensures steps { result.steps ≡ strip.now.stage.done }
        ensures residual { result.residual ≡ to_bits binary64 strip.now.stage.residual }
        ensures checksum { result.checksum ≡ fold joined self.checksum strip.now.cells }
    {
        RodEnding {
            steps: strip.steps(),
            residual: f64_to_bits_with_nan(strip.residual()),
            checksum: joined_all(self.checksum, strip.cells()),
        }
    }
}

// The checksum with these cells.
fn joined_all(sum: u64, cells: &[f64]) -> u64
    ensures value { result ≡ fold joined sum cells.now }
{
    let mut sum = sum;
    for cell in cells {
        sum = joined(sum, *cell);
    }
    sum
}

// The checksum with one more cell.
#[tactic(auto, unfolding(crate::specs::Checksums::joined))]
fn joined(sum: u64, cell: f64) -> u64
    ensures value { result ≡ joined sum cell }
{
    (sum ^ f64_to_bits_with_nan(cell)).wrapping_mul(0x100_0000_01b3)
}
