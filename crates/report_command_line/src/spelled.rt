//! Reads the numbers of PEs that `--procs` lists.

ghost use Rattle.std.specs.Prelude.{◌≡◌, ◌++◌, All, IfOk, OnOk};
ghost use Rattle.std.specs.String.{string_bytes};
ghost use Rattle.report_command_line.specs.Numbers.{IsNumber, no_numbers_line, numerals, numerals_after};
ghost use Rattle.streams.specs.Writing.{WritesPrefix};

use chare_index::Limits;
use program_words::NO_WORDS;
use std::alloc::{AllocError, AllocFailed, Allocator};
use std::io::Write;
use streams::write_out;

/// Why no numbers were read.
#[derive(Clone, Copy, Debug, PartialEq, Eq)]
pub enum NumbersError {
    /// They are not numbers of 1 to 256 (`Limits::PES`), in decimal digits without leading zeros, with a comma between two.
    Spelling,
    /// Memory was refused.
    OutOfMemory,
}

impl From<AllocError> for NumbersError {
    fn from(_: AllocError) -> NumbersError {
        NumbersError::OutOfMemory
    }
}

impl<T: Drop> From<AllocFailed<T>> for NumbersError {
    fn from(_: AllocFailed<T>) -> NumbersError {
        NumbersError::OutOfMemory
    }
}

/// Reads numbers of PEs: each 1 to 256 (`Limits::PES`), in decimal digits without leading zeros, with a comma between two.
///
/// # Errors
///
/// [`Spelling`](NumbersError::Spelling) where the text is no such list; or out of memory.
pub fn numbers<A: Allocator + Copy>(alloc: A, text: &str) -> Result<Vec<u32, A>, NumbersError>
    ensures in_range { IfOk result (λ numbers. All IsNumber numbers.items) }
    ensures spelled { IfOk result (λ numbers. numerals numbers.items ≡ text.now) }
{
    let found = read(alloc, text)?;
    let written = write(alloc, &found)?;
    if written.as_str() == text {
        return Ok(found);
    }
    Err(NumbersError::Spelling)
}

/// Writes that this text is not a list of numbers of PEs, and returns the status for that, [`NO_WORDS`]. Where memory is
/// refused nothing is written.
pub fn refuse_numbers<A: Allocator, W: Write>(alloc: A, writer: &mut W, text: &str) -> u8
    ensures told { WritesPrefix (W.contents writer.old) (W.contents writer.new) (no_numbers_line text.now) }
    ensures status { result ≡ NO_WORDS }
{
    let line = format!(in alloc;
        "lb_report: --procs {text}: give numbers of 1 to 256 with a comma between two, as in 4,8,16\n"
    );
    if let Ok(line) = line {
        let _told = write_out(writer, line.as_bytes());
    }
    NO_WORDS
}

// The numbers between the commas, also where their spelling is not allowed.
fn read<A: Allocator>(alloc: A, text: &str) -> Result<Vec<u32, A>, NumbersError>
    ensures { IfOk result (λ numbers. All IsNumber numbers.items) }
{
    let mut found = Vec::new(alloc);
    for piece in text.split(',') {
        let Ok(number) = piece.parse::<u32>() else {
            return Err(NumbersError::Spelling);
        };
        if number < 1 || number > Limits::PES {
            return Err(NumbersError::Spelling);
        }
        found.push(number)?;
    }
    Ok(found)
}

// The text of these numbers.
fn write<A: Allocator>(alloc: A, numbers: &[u32]) -> Result<String<A>, AllocError>
    ensures { IfOk result (λ text. string_bytes text ≡ numerals numbers.now) }
{
    let mut text = String::new(alloc);
    let Some((first, others)) = numbers.split_first() else {
        return Ok(text);
    };
    write!(text, "{first}")?;
    for other in others {
        write!(text, ",{other}")?;
    }
    Ok(text)
}
