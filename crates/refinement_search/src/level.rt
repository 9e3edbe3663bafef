//! The step function of a row, and its levels.

ghost use Rattle.std.specs.Prelude.{◌≡◌, ℕ, ◌+◌, ◌<◌, ◌≤◌, IfOk, OnOk, length, slice_index};
ghost use Rattle.chain_refinement.specs.Refinement.{height};
ghost use Rattle.refinement_search.specs.Rows.{with_step, AreStepsOf};
ghost use Rattle.refinement_search.specs.Tables.{IsLevelTo};

use chain_refinement::Steps;
use chain_refinement::walk::{Climb, climbed};
use std::alloc::{AllocError, Allocator};

/// The step function of a row that does not fall between these places.
///
/// # Errors
///
/// Memory for the list was refused.
pub(crate) fn steps_of<A: Allocator>(
    alloc: A,
    row: &[u64],
    near: u32,
    far: u32,
) -> Result<Steps<A>, AllocError>
    requires onward { near ≤ far }
    requires inside { far < length row.now }
    requires rises { (x y : ℕ) → near ≤ x → x ≤ y → y ≤ far → slice_index row.now x ≤ slice_index row.now y }
    ensures steps { IfOk result (AreStepsOf row.now near far) }
{
    let mut steps = Vec::new(alloc);
    let mut last = row[near as usize];
    push_step(&mut steps, 0, last)?;
    for x in near..far {
        let height = row[x as usize + 1];
        push_step(&mut steps, x + 1, height - last)?;
        last = height;
    }
    Ok(Steps::new(steps))
}

// Appends a step to the others, unless it does not rise.
fn push_step<A: Allocator>(
    steps: &mut Vec<(u32, u64), A>,
    at: u32,
    rise: u64,
) -> Result<(), AllocError>
    ensures items { OnOk result (steps.new.items ≡ with_step steps.old.items at rise) }
{
    if rise == 0 {
        return Ok(());
    }
    steps.push((at, rise))?;
    Ok(())
}

/// The last place from one on, up to another, to which the height does not rise.
pub(crate) fn last_on_level<A: Allocator>(steps: &Steps<A>, low: usize, far: usize) -> usize
    requires onward { low ≤ far }
    ensures level { IsLevelTo (height steps.now) low far result }
{
    let steps = steps.as_slice();
    let mut climb = climbed(steps, Climb { next: 0, height: 0 }, 0, low);
    let mut cut = low;
    while cut < far {
        let next = climbed(steps, climb, cut, cut + 1);
        if next.height > climb.height {
            return cut;
        }
        climb = next;
        cut += 1;
    }
    cut
}
