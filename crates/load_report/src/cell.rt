//! What is in a column of a report, and its text.

ghost use Rattle.std.specs.Prelude.{◌≡◌, ◌<◌, ◌^◌, IfOk};
ghost use Rattle.std.specs.String.{string_bytes};
ghost use Rattle.load_report.specs.Text.{cell_text, ratio, value_text};
ghost use Rattle.load_report.specs.declared.cell.Cell.TheVariants.{Thousandths};

use std::alloc::{AllocError, Allocator};

/// What is in a column of a report.
#[derive(Clone, Copy, Debug, PartialEq, Eq)]
pub(crate) enum Cell {
    /// Nothing: the column does not apply.
    Nothing,
    /// The line is about the present placement.
    Present,
    /// The line is about the placement of a planned decision.
    Planned,
    /// The line is about the placement of a decision within a tolerance.
    Within,
    /// The line is about the placement of the decision that the dump records.
    Recorded,
    /// The line is about a recorded decision that is not right.
    Flawed,
    /// A number.
    Number(u64),
    /// A number with three decimals, in thousandths.
    Thousandths(u128),
}

/// A quotient with three decimals, rounded down, or nothing where it is a quotient by 0.
pub(crate) fn ratio(above: u128, below: u64) -> Cell
    requires { above < 2 ^ 100 }
    ensures { result ≡ ratio above below }
{
    if below == 0 {
        return Cell::Nothing;
    }
    Cell::Thousandths(above * 1000 / u128::from(below))
}

/// The text of a cell in a table.
///
/// # Errors
///
/// Out of memory.
pub(crate) fn cell_text<A: Allocator>(alloc: A, cell: Cell) -> Result<String<A>, AllocError>
    ensures { IfOk result (λ text. string_bytes text ≡ cell_text cell) }
{
    match cell {
        Cell::Nothing => String::from_str(alloc, "-"),
        Cell::Present => String::from_str(alloc, "present"),
        Cell::Planned => String::from_str(alloc, "planned"),
        Cell::Within => String::from_str(alloc, "within"),
        Cell::Recorded => String::from_str(alloc, "recorded"),
        Cell::Flawed => String::from_str(alloc, "flawed"),
        Cell::Number(n) => format!(in alloc; "{n}"),
        Cell::Thousandths(n) => thousandths_text(alloc, n),
    }
}

// A number with three decimals.
fn thousandths_text<A: Allocator>(alloc: A, n: u128) -> Result<String<A>, AllocError>
    ensures { IfOk result (λ text. string_bytes text ≡ cell_text (Thousandths n)) }
{
    let (whole, tenths, hundredths) = (n / 1000, n / 100 % 10, n / 10 % 10);
    let thousandths = n % 10;
    format!(in alloc; "{whole}.{tenths}{hundredths}{thousandths}")
}

/// The text of a value, which is empty where there is none.
///
/// # Errors
///
/// Out of memory.
pub(crate) fn value_text<A: Allocator>(alloc: A, cell: Cell) -> Result<String<A>, AllocError>
    ensures { IfOk result (λ text. string_bytes text ≡ value_text cell) }
{
    match cell {
        Cell::Nothing => Ok(String::new(alloc)),
        _ => cell_text(alloc, cell),
    }
}
