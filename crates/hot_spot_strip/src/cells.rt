//! A round of the cells of a strip.

ghost use Rattle.std.specs.Prelude.{◌≡◌, length};
ghost use Rattle.hot_spot_strip.specs.Cells.{computed, first_value, last_value, stirred};

use crate::mixing::mixed;

/// Computes each cell from its own value, the one before it, and the one after it, by this number of rounds of mixing.
/// `before` and `after` are the values beside the strip.
pub fn compute(cells: &mut [u64], before: u64, after: u64, rounds: u64)
    ensures value { cells.new ≡ computed rounds before cells.old after }
{
    let mut left = before;
    for i in 0..cells.len() {
        let cell = cells[i];
        let right = cells.get(i + 1).copied().unwrap_or(after);
        cells[i] = mixed(stirred(left, cell, right), rounds);
        left = cell;
    }
}

/// What a cell is mixed from: the exclusive or of the cell, the one before it, and half the one after it.
fn stirred(left: u64, cell: u64, right: u64) -> u64
    ensures value { result ≡ stirred left cell right }
{
    cell ^ left ^ (right >> 1)
}

/// The first of these cells, or `none` where there is no cell.
pub fn first_value(cells: &[u64], none: u64) -> u64
    ensures value { result ≡ first_value cells.now none }
{
    cells.first().copied().unwrap_or(none)
}

/// The last of these cells, or `none` where there is no cell.
pub fn last_value(cells: &[u64], none: u64) -> u64
    ensures value { result ≡ last_value cells.now none }
{
    cells.last().copied().unwrap_or(none)
}
