//! A step of the cells of a strip.

ghost use Rattle.std.specs.Prelude.{◌≡◌, ◌≤◌, length, IfOk};
ghost use Rattle.std.specs.List.{count_by};
ghost use Rattle.reductions.specs.Combining.{greatest_f64};
ghost use Rattle.heat_rod.specs.Heating.{is_burning};
ghost use Rattle.heat_rod.specs.Sweeps.{greatest_change, next_cells, work_of};

use crate::heating::{PARTS, is_burning, next_cell};
use lb_snapshot::Units;
use pup_pack::Items;
use std::alloc::{AllocError, Allocator};

/// Cells of one strip.
pub const CELLS: u32 = 16;

/// How much a cell changes that does not change.
pub(crate) const STILL: f64 = 0.0;

/// The cells after a step, and the greatest change of one of them. `left` and `right` are the cells beside the strip.
pub(crate) fn stepped<A: Allocator>(
    alloc: A,
    cells: &[f64],
    left: f64,
    right: f64,
) -> Result<(Items<f64, A>, f64), AllocError>
    ensures next { IfOk result (λ r. r.0 ≡ next_cells left cells.now right) }
    ensures change { IfOk result (λ r. r.1 ≡ greatest_change left cells.now right) }
{
    let mut next = Vec::with_capacity(alloc, cells.len())?;
    let mut most = STILL;
    let mut before = left;
    for i in 0..cells.len() {
        let cell = cells[i];
        let after = cells.get(i + 1).copied().unwrap_or(right);
        let heat = next_cell(before, cell, after);
        next.push(heat)?;
        most = greatest(most, (heat - cell).abs());
        before = cell;
    }
    Ok((Items::new(next), most))
}

// The greatest of two numbers, as reductions have it.
fn greatest(left: f64, right: f64) -> f64
    ensures value { result ≡ greatest_f64 left right }
{
    if left < right || right.is_nan() {
        return right;
    }
    left
}

/// The work of a step of these cells: a unit for each, and for each small step of burning.
pub(crate) fn work_of(cells: &[f64]) -> Units
    requires few { length cells.now ≤ CELLS }
    ensures value { result ≡ work_of cells.now }
{
    cells.len() as u64 + u64::from(PARTS) * burning(cells) as u64
}

// How many of these cells burn.
#[tactic(auto, using(crate::proofs::Steps::burning_few))]
fn burning(cells: &[f64]) -> usize
    ensures value { result ≡ count_by is_burning cells.now }
    ensures within { result ≤ length cells.now }
{
    cells.iter().filter(|cell| is_burning(**cell)).count()
}
