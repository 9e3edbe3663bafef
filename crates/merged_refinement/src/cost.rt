//! What a cut between two ranks costs at a place.

ghost use Rattle.std.specs.Prelude.{◌≡◌, ◌≤◌, length};
ghost use Rattle.merged_refinement.specs.Rows.{standing_cost};

use chain_partition::Chain;
use std::alloc::Allocator;

/// A present cut, with the one before it and the one behind it.
#[derive(Clone, Copy)]
pub(crate) struct Standing {
    pub(crate) before: u32,
    pub(crate) here: u32,
    pub(crate) behind: u32,
}

/// The bytes that the cut moves where it is made at this place: those of the rank before it that lie behind the place, or those of
/// the rank behind it that lie before the place.
pub(crate) fn cost_at<B: Allocator>(bytes: &Chain<'_, B>, cut: Standing, place: usize) -> u64
    requires ordered { cut.before ≤ cut.here }
    requires onward { cut.here ≤ cut.behind }
    requires inside { cut.behind ≤ length bytes.now }
    ensures value { result ≡ standing_cost bytes.now cut.before cut.here cut.behind place }
{
    let here = cut.here as usize;
    if place <= here {
        bytes.load(place.max(cut.before as usize), here)
    } else {
        bytes.load(here, place.min(cut.behind as usize))
    }
}
