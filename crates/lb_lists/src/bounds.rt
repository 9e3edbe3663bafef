//! Bounds in plain lists, row after row: those whatever the PEs are, and then those where a PE is free.

ghost use Rattle.std.specs.Prelude.{◌≡◌, ◌≤◌, ◌<◌, ◌++◌, ℕ, IfOk, IsTrue, List, OnOk, drop, length, take, ◌↔◌};
ghost use Rattle.lb_lists.specs.Reorderings.{level_lists_in, AreFlat, HasLevelListsOf, HasLevelRoom};
ghost use Rattle.lb_lists.specs.Steps.{all_steps, first_steps, places_of, rises_of};

use crate::refined_writing::write_front;
use crate::steps::{FlatSteps, push_steps};
use any_order::Levels;
use std::alloc::{AllocError, Allocator};

/// Buffers of the caller for the bounds that prove that no cuts and no names within a tolerance move fewer bytes, for `pes` PEs.
/// There are two bounds for each number of blocks from 0 to `pes`, and each is a row of levels: first the rows of those whatever
/// the PEs of the blocks are, and then the rows of those where none is the PE of the element behind them.
#[derive(Drop)]
pub struct BoundsBuffers<'a> {
    /// `2 * pes + 3`: for each row the number of its first level, and behind them the number of all levels.
    pub level_starts: &'a mut [usize],
    /// Capacity for the place of each level, from which on it holds.
    pub level_places: &'a mut [u32],
    /// Capacity for the bytes of each level, as many as there are places.
    pub level_bytes: &'a mut [u64],
}

/// Whether these lists have the lengths that `pes` PEs need.
pub(crate) fn has_level_room(room: &BoundsBuffers<'_>, pes: u32) -> bool
    ensures { IsTrue result ↔ HasLevelRoom pes (level_lists_in room.now) }
{
    room.level_starts.len() as u64 == 2 * u64::from(pes) + 3
        && room.level_bytes.len() == room.level_places.len()
}

/// The levels of these bounds, as plain lists.
///
/// # Errors
///
/// Out of memory.
pub(crate) fn flat_levels<A: Allocator + Copy>(
    alloc: A,
    any: &[Levels<A>],
    free: &[Levels<A>],
) -> Result<FlatSteps<A>, AllocError>
    ensures starts { IfOk result (λ f. f.starts.items ≡ first_steps 0 (any.now ++ free.now)) }
    ensures places { IfOk result (λ f. f.places.items ≡ places_of (all_steps (any.now ++ free.now))) }
    ensures rises { IfOk result (λ f. f.rises.items ≡ rises_of (all_steps (any.now ++ free.now))) }
{
    let mut starts = Vec::new(alloc);
    let mut places = Vec::new(alloc);
    let mut rises = Vec::new(alloc);
    starts.push(0)?;
    push_levels(&mut starts, &mut places, &mut rises, any)?;
    push_levels(&mut starts, &mut places, &mut rises, free)?;
    Ok(FlatSteps {
        starts,
        places,
        rises,
    })
}

// Appends these rows to the others.
fn push_levels<A: Allocator>(
    starts: &mut Vec<usize, A>,
    places: &mut Vec<u32, A>,
    rises: &mut Vec<u64, A>,
    rows: &[Levels<A>],
) -> Result<(), AllocError>
    ensures { OnOk result ((before : List (List (ℕ × ℕ))) → AreFlat before starts.old.items places.old.items rises.old.items
        → AreFlat (before ++ rows.now) starts.new.items places.new.items rises.new.items) }
{
    for row in rows {
        push_steps(places, rises, row.as_slice())?;
        starts.push(places.len())?;
    }
    Ok(())
}

/// Writes the levels where the lists have the capacity for all of them, and returns their number.
pub(crate) fn write_levels<A: Allocator>(
    levels: &FlatSteps<A>,
    room: &mut BoundsBuffers<'_>,
) -> usize
    requires starts { length room.old.level_starts.now ≡ length levels.now.starts.items }
    requires pairs { length levels.now.rises.items ≡ length levels.now.places.items }
    requires level_bytes { length room.old.level_bytes.now ≡ length room.old.level_places.now }
    ensures same_lists { HasLevelListsOf room.old room.new }
    ensures counted { result ≡ length levels.now.places.items }
    ensures starts { result ≤ length room.old.level_places.now → room.new.level_starts.now ≡ levels.now.starts.items }
    ensures places { result ≤ length room.old.level_places.now → take result room.new.level_places.now ≡ levels.now.places.items }
    ensures bytes { result ≤ length room.old.level_places.now → take result room.new.level_bytes.now ≡ levels.now.rises.items }
    ensures starts_left { length room.old.level_places.now < result → room.new.level_starts.now ≡ room.old.level_starts.now }
    ensures places_left { drop result room.new.level_places.now ≡ drop result room.old.level_places.now }
    ensures bytes_left { drop result room.new.level_bytes.now ≡ drop result room.old.level_bytes.now }
{
    let count = levels.places.len();
    if count > room.level_places.len() {
        return count;
    }
    room.level_starts.copy_from_slice(&levels.starts);
    write_front(room.level_places, &levels.places);
    write_front(room.level_bytes, &levels.rises);
    count
}
