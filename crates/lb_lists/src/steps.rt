//! The steps of heights in plain lists, block after block.

ghost use Rattle.std.specs.Prelude.{◌≡◌, ◌++◌, OnOk, IfOk};
ghost use Rattle.std.specs.List.{between, zip};
ghost use Rattle.lb_lists.specs.Steps.{all_steps, first_steps, places_of, rises_of};

use chain_refinement::Steps;
use std::alloc::{AllocError, Allocator};

/// The steps of each block, as plain lists: the number of the first step of each block and of all steps, and for each step the
/// place and the rise.
#[derive(Drop)]
pub(crate) struct FlatSteps<A: Allocator> {
    pub(crate) starts: Vec<usize, A>,
    pub(crate) places: Vec<u32, A>,
    pub(crate) rises: Vec<u64, A>,
}

/// The steps of these heights.
///
/// # Errors
///
/// Out of memory.
pub(crate) fn flat_steps<A: Allocator + Copy>(
    alloc: A,
    rows: &[Steps<A>],
) -> Result<FlatSteps<A>, AllocError>
    ensures starts { IfOk result (λ f. f.starts.items ≡ first_steps 0 rows.now) }
    ensures places { IfOk result (λ f. f.places.items ≡ places_of (all_steps rows.now)) }
    ensures rises { IfOk result (λ f. f.rises.items ≡ rises_of (all_steps rows.now)) }
{
    let mut starts = Vec::new(alloc);
    let mut places = Vec::new(alloc);
    let mut rises = Vec::new(alloc);
    starts.push(0)?;
    for row in rows {
        push_steps(&mut places, &mut rises, row.as_slice())?;
        starts.push(places.len())?;
    }
    Ok(FlatSteps {
        starts,
        places,
        rises,
    })
}

/// The pairs first..end of these lists, without those past the end of the lists.
///
/// # Errors
///
/// Out of memory.
pub(crate) fn pairs_between<A: Allocator>(
    alloc: A,
    places: &[u32],
    rises: &[u64],
    first: usize,
    end: usize,
) -> Result<Vec<(u32, u64), A>, AllocError>
    ensures { IfOk result (λ pairs. pairs.items ≡ between first end (zip places.now rises.now)) }
{
    let mut pairs = Vec::new(alloc);
    let last = end.min(places.len()).min(rises.len());
    for i in first..last {
        pairs.push((places[i], rises[i]))?;
    }
    Ok(pairs)
}

/// Appends these steps to the others.
pub(crate) fn push_steps<A: Allocator>(
    places: &mut Vec<u32, A>,
    rises: &mut Vec<u64, A>,
    steps: &[(u32, u64)],
) -> Result<(), AllocError>
    ensures places { OnOk result (places.new.items ≡ places.old.items ++ places_of steps.now) }
    ensures rises { OnOk result (rises.new.items ≡ rises.old.items ++ rises_of steps.now) }
{
    for step in steps {
        places.push(step.0)?;
        rises.push(step.1)?;
    }
    Ok(())
}
