//! Checkpoints that are read, and what is written of a fault.

ghost use Rattle.std.specs.Prelude.{◌≡◌, ◌≢◌, ◌⊎◌, Some, IfErr, IfOk, IsErr};
ghost use Rattle.std.specs.String.{string_bytes};
ghost use Rattle.checkpointed_runs.specs.Lines.{ReadsCheckpoint, ReportsUnread, WritesLine, checkpoint_line, status_of};
ghost use Rattle.checkpointed_runs.specs.declared.reading.NoCheckpoint.TheVariants.{OutOfMemory};
ghost use Rattle.run_checkpoint.specs.Text.{IsWithin};
ghost use Rattle.run_checkpoint.specs.declared.error.CheckpointError.TheVariants as Why;
ghost use Rattle.workload_run.specs.Lines.{memory_line};

use run_checkpoint::{Checkpoint, CheckpointError};
use std::alloc::{AllocError, Allocator};
use std::io::{self, Read, Write};
use streams::{Noted, write_out};

/// The line where memory was refused.
const NO_MEMORY: &str = "out of memory\n";

/// What was written where no checkpoint was read.
#[derive(Clone, Copy, Debug, PartialEq, Eq)]
pub enum NoCheckpoint {
    /// The line of this fault of the checkpoint; it is never that memory was refused.
    Refused(CheckpointError),
    /// The line for refused memory.
    OutOfMemory,
    /// A prefix of a line: the writer failed, or took nothing.
    WriteFailed,
}

impl NoCheckpoint {
    /// The status that a program exits with: 3 for a fault of the checkpoint, and 5 where memory or the output failed.
    pub fn status(self) -> u8
        ensures value { result ≡ status_of self }
    {
        match self {
            NoCheckpoint::Refused(_) => 3,
            NoCheckpoint::OutOfMemory | NoCheckpoint::WriteFailed => 5,
        }
    }
}

/// Reads the checkpoint in a file, or writes the one line of its fault, and returns also the system's reason where a read failed. A file
/// that could not be opened is reported as a checkpoint that was not read.
///
/// # Errors
///
/// What was written, where no checkpoint was read.
pub fn read_checkpoint<R: Read + Drop, W: Write, A: Allocator + Copy>(
    alloc: A,
    file: io::Result<R>,
    writer: &mut W,
) -> (Result<Checkpoint<A>, NoCheckpoint>, Option<io::Error>)
    ensures within { IfOk result.0 IsWithin }
    ensures opened { IfOk file (λ file. ReadsCheckpoint (R.remaining file) (W.contents writer.old) (W.contents writer.new) result.0) }
    ensures unopened { IfErr file (λ _. IfErr result.0 (ReportsUnread Why.Read (W.contents writer.old) (W.contents writer.new))) }
    ensures unread { IfErr file (λ _. IsErr result.0) }
    ensures reason { IfErr file (λ reason. result.1 ≡ Some reason) }
{
    match file {
        Ok(reader) => {
            let mut noted = Noted::new(reader);
            let checkpoint = read_from(alloc, &mut noted, writer);
            (checkpoint, noted.failure())
        }
        Err(reason) => {
            let unread = report(alloc, writer, CheckpointError::Read);
            (Err(unread), Some(reason))
        }
    }
}

// The checkpoint of a reader.
fn read_from<R: Read, W: Write, A: Allocator + Copy>(
    alloc: A,
    reader: &mut R,
    writer: &mut W,
) -> Result<Checkpoint<A>, NoCheckpoint>
    ensures within { IfOk result IsWithin }
    ensures read { ReadsCheckpoint (R.remaining reader.old) (W.contents writer.old) (W.contents writer.new) result }
{
    match Checkpoint::read_from(alloc, reader) {
        Ok(checkpoint) => Ok(checkpoint),
        Err(fault) => Err(report(alloc, writer, fault)),
    }
}

// Writes the line of a fault of a checkpoint, or the one for refused memory.
fn report<A: Allocator, W: Write>(alloc: A, writer: &mut W, fault: CheckpointError) -> NoCheckpoint
    ensures reported { ReportsUnread fault (W.contents writer.old) (W.contents writer.new) result }
{
    if fault == CheckpointError::OutOfMemory {
        return report_memory(writer);
    }
    let Ok(line) = fault_line(alloc, fault) else {
        return report_memory(writer);
    };
    report_line(writer, line.as_bytes(), NoCheckpoint::Refused(fault))
}

// Writes the line for refused memory.
fn report_memory<W: Write>(writer: &mut W) -> NoCheckpoint
    ensures written { WritesLine memory_line OutOfMemory (W.contents writer.old) (W.contents writer.new) result }
{
    report_line(writer, NO_MEMORY.as_bytes(), NoCheckpoint::OutOfMemory)
}

// Writes a line, and returns `unread`, or that the writer failed.
fn report_line<W: Write>(writer: &mut W, line: &[u8], unread: NoCheckpoint) -> NoCheckpoint
    ensures written { WritesLine line.now unread (W.contents writer.old) (W.contents writer.new) result }
{
    if write_out(writer, line) {
        unread
    } else {
        NoCheckpoint::WriteFailed
    }
}

// The line of a fault of a checkpoint. The only error is that memory was refused.
fn fault_line<A: Allocator>(alloc: A, fault: CheckpointError) -> Result<String<A>, AllocError>
    ensures line { IfOk result (λ line. string_bytes line ≡ checkpoint_line fault) }
{
    match fault {
        CheckpointError::Form(k) => format!(in alloc; "checkpoint: line {k}\n"),
        CheckpointError::Limit(k) => format!(in alloc; "checkpoint: limit in line {k}\n"),
        CheckpointError::Long => String::from_str(alloc, "checkpoint: too long\n"),
        CheckpointError::Read => String::from_str(alloc, "checkpoint: read failed\n"),
        CheckpointError::OutOfMemory => String::from_str(alloc, NO_MEMORY),
    }
}
