//! The columns of a line about a placement.

ghost use Rattle.std.specs.Prelude.{◌≡◌, ◌*◌};
ghost use Rattle.load_report.specs.Text.{bound, deviation, excess, flawed_columns, placement_columns, ratio};

use crate::cell::{Cell, ratio};
use crate::changes::Changes;
use crate::figures::Spread;
use crate::line::Column;

/// The columns of a placement of this kind, in a dump of this step.
pub(crate) fn placement_columns(
    word: Cell,
    step: u32,
    spread: Spread,
    changes: Changes,
) -> [Column; 21]
    ensures { result ≡ placement_columns word step spread changes }
{
    [
        (9, word),
        (5, Cell::Number(u64::from(spread.pes))),
        (8, Cell::Number(spread.elements)),
        (13, Cell::Number(spread.greatest)),
        (17, average(spread)),
        (9, imbalance(spread)),
        (13, changes.least),
        (6, changes.moved),
        (7, changes.moved_share),
        (11, changes.bytes),
        (7, changes.bytes_share),
        (5, Cell::Number(u64::from(spread.empty))),
        (5, Cell::Number(u64::from(spread.idle))),
        (13, Cell::Number(spread.least)),
        (13, Cell::Number(spread.heaviest)),
        (13, bound(spread)),
        (9, deviation(spread)),
        (9, excess(spread)),
        (11, changes.leave),
        (11, changes.enter),
        (10, Cell::Number(u64::from(step))),
    ]
}

/// The columns of a decision with a flaw, for which nothing is counted.
pub(crate) fn flawed_columns(step: u32, pes: u32, elements: usize) -> [Column; 21]
    ensures { result ≡ flawed_columns step pes elements }
{
    [
        (9, Cell::Flawed),
        (5, Cell::Number(u64::from(pes))),
        (8, Cell::Number(elements as u64)),
        (13, Cell::Nothing),
        (17, Cell::Nothing),
        (9, Cell::Nothing),
        (13, Cell::Nothing),
        (6, Cell::Nothing),
        (7, Cell::Nothing),
        (11, Cell::Nothing),
        (7, Cell::Nothing),
        (5, Cell::Nothing),
        (5, Cell::Nothing),
        (13, Cell::Nothing),
        (13, Cell::Nothing),
        (13, Cell::Nothing),
        (9, Cell::Nothing),
        (9, Cell::Nothing),
        (11, Cell::Nothing),
        (11, Cell::Nothing),
        (10, Cell::Number(u64::from(step))),
    ]
}

// The average load of a PE.
fn average(spread: Spread) -> Cell
    ensures { result ≡ ratio spread.total spread.pes }
{
    ratio(u128::from(spread.total), u64::from(spread.pes))
}

// The greatest load of a PE over the average.
fn imbalance(spread: Spread) -> Cell
    ensures { result ≡ ratio (spread.greatest * spread.pes) spread.total }
{
    ratio(
        u128::from(spread.greatest) * u128::from(spread.pes),
        spread.total,
    )
}

// The least that the greatest load can be, by the average and the heaviest element.
fn bound(spread: Spread) -> Cell
    ensures { result ≡ bound spread }
{
    if spread.pes == 0 {
        return Cell::Nothing;
    }
    let average = spread.total.div_ceil(u64::from(spread.pes));
    Cell::Number(spread.heaviest.max(average))
}

// The standard deviation over the average.
fn deviation(spread: Spread) -> Cell
    ensures { result ≡ deviation spread }
{
    if spread.total == 0 {
        return Cell::Nothing;
    }
    Cell::Thousandths(u128::from(spread.deviation))
}

// How far the greatest load is above the average, in per cent of the average.
fn excess(spread: Spread) -> Cell
    ensures { result ≡ excess spread }
{
    if spread.total == 0 {
        return Cell::Nothing;
    }
    let total = u128::from(spread.total);
    let pes = u128::from(spread.pes);
    let above = (u128::from(spread.greatest) * pes).saturating_sub(total);
    Cell::Thousandths((2 * (100_000 * above) + total) / (2 * total))
}
