//! What is wrong with a list of events, and the line for it.

ghost use Rattle.std.specs.Prelude.{◌≡◌, IfOk};
ghost use Rattle.std.specs.String.{string_bytes};
ghost use Rattle.schedule_run.specs.Lists.{TellsList, list_line};
ghost use Rattle.schedule_run.specs.declared.list_fault.ListFault.TheVariants.{Faulty};

use event_lists::EventListError;
use std::alloc::{AllocError, Allocator};
use std::io::Write;
use streams::write_out;
use workload_run::report_memory;

/// The status where a list of events has a fault.
const FAULT: u8 = 3;

/// The status where memory was refused, or the output failed.
const NO_OUTPUT: u8 = 5;

/// Why a list of events was not run.
#[derive(Clone, Copy, Debug, PartialEq, Eq)]
pub enum ListFault {
    /// Its file was not opened, or a read failed.
    Unread,
    /// Its text has this fault, or memory was refused.
    Faulty(EventListError),
    /// The event of this number, from 1 on, is not enabled after those before it.
    NotEnabled(usize),
}

/// Writes the line of a fault of a list of events, or the line for refused memory. Returns the status that a program exits with:
/// 3, or 5 where memory was refused or the writer failed.
pub fn report_list<A: Allocator, W: Write>(alloc: A, writer: &mut W, fault: ListFault) -> u8
    ensures told { TellsList fault (W.contents writer.old) (W.contents writer.new) result }
{
    if fault == ListFault::Faulty(EventListError::OutOfMemory) {
        return report_memory(writer).status();
    }
    let Ok(line) = list_line(alloc, fault) else {
        return report_memory(writer).status();
    };
    if !write_out(writer, line.as_bytes()) {
        return NO_OUTPUT;
    }
    FAULT
}

// The line of a fault. The only error is that memory was refused.
fn list_line<A: Allocator>(alloc: A, fault: ListFault) -> Result<String<A>, AllocError>
    ensures { IfOk result (λ line. string_bytes line ≡ list_line fault) }
{
    match fault {
        ListFault::Unread => String::from_str(alloc, "events: read failed\n"),
        ListFault::Faulty(error) => faulty_line(alloc, error),
        ListFault::NotEnabled(n) => format!(in alloc; "events: not enabled in line {n}\n"),
    }
}

// The line of a fault of the text.
fn faulty_line<A: Allocator>(alloc: A, error: EventListError) -> Result<String<A>, AllocError>
    ensures { IfOk result (λ line. string_bytes line ≡ list_line (Faulty error)) }
{
    match error {
        EventListError::Form(k) => format!(in alloc; "events: line {k}\n"),
        EventListError::Limit(k) => format!(in alloc; "events: limit in line {k}\n"),
        EventListError::TooLong => String::from_str(alloc, "events: too long\n"),
        EventListError::OutOfMemory => String::from_str(alloc, "out of memory\n"),
    }
}
