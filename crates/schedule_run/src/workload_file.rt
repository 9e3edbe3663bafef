//! The workload in a file.

ghost use Rattle.std.specs.Prelude.{◌≡◌, ℕ, List, Option, Some, IfErr, IfOk, IsErr};
ghost use Rattle.schedule_run.specs.Reading.{Reads};
ghost use Rattle.workload.specs.Text.{IsWithin};
ghost use Rattle.workload.specs.declared.error.WorkError.TheVariants as Why;
ghost use Rattle.workload_run.specs.Telling.{ReportsFault};

use std::alloc::Allocator;
use std::io::{self, Read, Write};
use streams::Noted;
use workload::{WorkError, Workload};
use workload_run::{RunEnd, report_fault};

/// Reads the workload in a file, or writes the one line of its fault, as [`drive_file`](workload_run::drive_file) does, and returns
/// also the system's reason where a read failed. A file that could not be opened is reported as a workload that was not read.
///
/// # Errors
///
/// How the program ends, where no workload was read.
pub fn read_workload<R: Read + Drop, W: Write, A: Allocator + Copy>(
    alloc: A,
    file: io::Result<R>,
    writer: &mut W,
) -> (Result<Workload<A>, RunEnd>, Option<io::Error>)
    ensures within { IfOk result.0 IsWithin }
    ensures opened { IfOk file (λ file. (rest : Option (List ℕ)) × Reads (R.remaining file) rest (W.contents writer.old) (W.contents writer.new) result.0) }
    ensures unopened { IfErr file (λ _. IfErr result.0 (ReportsFault Why.Read (W.contents writer.old) (W.contents writer.new))) }
    ensures unread { IfErr file (λ _. IsErr result.0) }
    ensures reason { IfErr file (λ reason. result.1 ≡ Some reason) }
{
    match file {
        Ok(reader) => {
            let mut noted = Noted::new(reader);
            let workload = read_from(alloc, &mut noted, writer);
            (workload, noted.failure())
        }
        Err(reason) => {
            let ended = report_fault(alloc, writer, WorkError::Read);
            (Err(ended), Some(reason))
        }
    }
}

// The workload of a reader.
fn read_from<R: Read, W: Write, A: Allocator + Copy>(
    alloc: A,
    reader: &mut R,
    writer: &mut W,
) -> Result<Workload<A>, RunEnd>
    ensures within { IfOk result IsWithin }
    ensures reads { Reads (R.remaining reader.old) (R.remaining reader.new) (W.contents writer.old) (W.contents writer.new) result }
{
    match Workload::read_from(alloc, reader) {
        Ok(workload) => Ok(workload),
        Err(fault) => Err(report_fault(alloc, writer, fault)),
    }
}
