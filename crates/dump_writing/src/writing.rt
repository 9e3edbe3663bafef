//! Writes the text of a dump or a snapshot to a writer, without taking memory.

ghost use Rattle.std.specs.Prelude.{◌≡◌, List, ℕ, IsErrOf, OnErr};
ghost use Rattle.dump_format.specs.Text.{IsLbd2};
ghost use Rattle.dump_format.specs.declared.error.DumpError.{DumpError};
ghost use Rattle.dump_writing.specs.Writing.{Puts, PutsLbd1};
ghost use Rattle.streams.specs.Logs.{HasRefused};

use crate::decision::put_ending;
use crate::elements::put_front;
use crate::narrow::{NarrowSnapshot, put_narrow};
use dump_format::{Dump, DumpError};
use lb_snapshot::Snapshot;
use std::alloc::Allocator;
use std::io::Write;
use streams::CallLog;

/// Writes the text of a dump in the format LBD2, as [`write_dump_logged`] does. It takes no memory.
///
/// # Errors
///
/// [`Write`](DumpError::Write) where the writer fails, with any error, or takes no byte. A prefix of the text has then been
/// written.
pub fn write_dump<W: Write, A: Allocator>(writer: &mut W, dump: &Dump<A>) -> Result<(), DumpError>
    ensures written { (text : List ℕ) × IsLbd2 dump.now text × Puts (W.contents writer.old) (W.contents writer.new) text result }
{
    write_dump_logged(writer, dump, &mut CallLog::new())
}

/// Writes the text of a dump in the format LBD2, with the calls of the writer in a log. It takes no memory.
///
/// # Errors
///
/// [`Write`](DumpError::Write) where the writer fails, with any error, or takes no byte, which the log then has. A prefix of the text
/// has then been written.
pub fn write_dump_logged<W: Write, A: Allocator>(
    writer: &mut W,
    dump: &Dump<A>,
    log: &mut CallLog,
) -> Result<(), DumpError>
    ensures written { (text : List ℕ) × IsLbd2 dump.now text × Puts (W.contents writer.old) (W.contents writer.new) text result }
    ensures unwritten { OnErr result (HasRefused log.new) }
{
    put_front(writer, dump.snapshot(), log)?;
    put_ending(writer, dump, log)
}

/// Writes the text of a snapshot in the format LBD1, as [`write_to_logged`] does. It takes no memory.
///
/// # Errors
///
/// In this order:
/// - [`Wide`](DumpError::Wide) with the first element whose load is above 4,294,967,295. Nothing has then been written.
/// - [`Write`](DumpError::Write) where the writer fails, with any error, or takes no byte. A prefix of the text has then been
///   written.
pub fn write_to<W: Write, A: Allocator>(
    writer: &mut W,
    snapshot: &Snapshot<A>,
) -> Result<(), DumpError>
    ensures written { PutsLbd1 snapshot.now (W.contents writer.old) (W.contents writer.new) result }
{
    write_to_logged(writer, snapshot, &mut CallLog::new())
}

/// Writes the text of a snapshot in the format LBD1, with the calls of the writer in a log. It takes no memory.
///
/// # Errors
///
/// In this order:
/// - [`Wide`](DumpError::Wide) with the first element whose load is above 4,294,967,295. Nothing has then been written.
/// - [`Write`](DumpError::Write) where the writer fails, with any error, or takes no byte, which the log then has. A prefix of the
///   text has then been written.
pub fn write_to_logged<W: Write, A: Allocator>(
    writer: &mut W,
    snapshot: &Snapshot<A>,
    log: &mut CallLog,
) -> Result<(), DumpError>
    ensures written { PutsLbd1 snapshot.now (W.contents writer.old) (W.contents writer.new) result }
    ensures unwritten { IsErrOf result DumpError.Write → HasRefused log.new }
{
    let narrow = NarrowSnapshot::of(snapshot)?;
    put_narrow(writer, &narrow, log)
}
