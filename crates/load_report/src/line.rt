//! A line of a report.

ghost use Rattle.std.specs.Prelude.{◌≡◌, ◌++◌, OnOk, false, true};
ghost use Rattle.std.specs.List.{flat_map};
ghost use Rattle.load_report.specs.Text.{aligned, line, quoted, quoted_byte, separated};

use crate::cell::{Cell, cell_text, value_text};
use std::alloc::{AllocError, Allocator};

/// The width of a column in a table, and what is in it.
pub(crate) type Column = (usize, Cell);

/// Adds a line about a file of this name.
///
/// # Errors
///
/// Out of memory.
pub(crate) fn push_line<A: Allocator + Copy>(
    text: &mut Vec<u8, A>,
    csv: bool,
    name: &str,
    columns: &[Column],
) -> Result<(), AllocError>
    ensures { OnOk result (text.new.items ≡ text.old.items ++ line csv name.now columns.now) }
{
    if csv {
        return push_values(text, name, columns);
    }
    push_row(text, name, columns)
}

// A line of a table.
fn push_row<A: Allocator + Copy>(
    text: &mut Vec<u8, A>,
    name: &str,
    columns: &[Column],
) -> Result<(), AllocError>
    ensures { OnOk result (text.new.items ≡ text.old.items ++ line false name.now columns.now) }
{
    for &column in columns {
        push_aligned(text, column)?;
    }
    text.extend_from_slice(name.as_bytes())?;
    text.push(b'\n')?;
    Ok(())
}

// A cell at the right end of its column, and a blank.
fn push_aligned<A: Allocator + Copy>(
    text: &mut Vec<u8, A>,
    column: Column,
) -> Result<(), AllocError>
    ensures { OnOk result (text.new.items ≡ text.old.items ++ aligned column) }
{
    let (width, cell) = column;
    let alloc = *text.allocator();
    let said = cell_text(alloc, cell)?;
    let blanks = " ".repeat(alloc, width.saturating_sub(said.len()))?;
    text.extend_from_slice(blanks.as_bytes())?;
    text.extend_from_slice(said.as_bytes())?;
    text.push(b' ')?;
    Ok(())
}

// A line of comma-separated values.
fn push_values<A: Allocator + Copy>(
    text: &mut Vec<u8, A>,
    name: &str,
    columns: &[Column],
) -> Result<(), AllocError>
    ensures { OnOk result (text.new.items ≡ text.old.items ++ line true name.now columns.now) }
{
    push_quoted(text, name.as_bytes())?;
    for &column in columns {
        push_value(text, column)?;
    }
    text.push(b'\n')?;
    Ok(())
}

// A value behind a comma.
fn push_value<A: Allocator + Copy>(text: &mut Vec<u8, A>, column: Column) -> Result<(), AllocError>
    ensures { OnOk result (text.new.items ≡ text.old.items ++ separated column) }
{
    let said = value_text(*text.allocator(), column.1)?;
    text.push(b',')?;
    text.extend_from_slice(said.as_bytes())
}

// A name in quotes, with each quote in it twice.
fn push_quoted<A: Allocator>(text: &mut Vec<u8, A>, name: &[u8]) -> Result<(), AllocError>
    ensures { OnOk result (text.new.items ≡ text.old.items ++ quoted name.now) }
{
    text.push(b'"')?;
    for &byte in name {
        push_quoted_byte(text, byte)?;
    }
    text.push(b'"')?;
    Ok(())
}

// A byte of a name, and a quote twice.
fn push_quoted_byte<A: Allocator>(text: &mut Vec<u8, A>, byte: u8) -> Result<(), AllocError>
    ensures { OnOk result (text.new.items ≡ text.old.items ++ quoted_byte byte) }
{
    if byte == b'"' {
        return text.extend_from_slice(b"\"\"");
    }
    text.push(byte)?;
    Ok(())
}
