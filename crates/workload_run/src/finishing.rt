//! Writes the dumps of a run that has ended, and works out the exit status.

ghost use Rattle.std.specs.Prelude.{◌≡◌, [], None, IfNone, IfSome, IsFalse, IsTrue};
ghost use Rattle.std.specs.Option.{option_map_or};
ghost use Rattle.streams.specs.Writing.{WritesPrefix};
ghost use Rattle.workload_run.specs.Finishing.{FinishesWithDumps, IsFinished, dump_line};

use crate::driven::Driven;
use crate::dumps::{DumpFiles, NotWritten, write_dumps};
use crate::round_dump::DumpFormat;
use std::alloc::Allocator;
use std::io::Write;
use streams::write_out;

/// The line where a dump was not written.
const NO_DUMP: &str = "dump: write failed\n";

/// The status where a dump was not written.
const NO_OUTPUT: u8 = 5;

/// The status that a program exits with whose dumps were written as the rounds were decided, as by
/// [`EarlyDumps`](crate::EarlyDumps): that of the run, or 5 where one was not written. In that case the writer gets the line
/// `dump: write failed`, or a prefix of it where it fails.
pub fn finish_dumped<W: Write, B: Allocator + Copy>(
    driven: &Driven<B>,
    has_failed: bool,
    writer: &mut W,
) -> u8
    ensures written { IsFalse has_failed → IsFinished driven.now.ended (W.contents writer.old) (W.contents writer.new) result }
    ensures failed { IsTrue has_failed → (result ≡ 5) × WritesPrefix (W.contents writer.old) (W.contents writer.new) dump_line }
{
    if !has_failed {
        return driven.status();
    }
    let _told = write_out(writer, NO_DUMP.as_bytes());
    NO_OUTPUT
}

/// Writes the dump of each round that was decided, as [`write_dumps`] does, where a prefix is given, however the run ended.
/// Returns the status that a program exits with: that of the run, or 5 where a dump was not written. In that case the dump
/// is returned too, and the writer gets the line `dump: write failed`, or a prefix of it where it fails.
pub fn write_asked<F: DumpFiles, W: Write, A: Allocator + Copy, B: Allocator + Copy>(
    alloc: A,
    driven: &Driven<B>,
    format: DumpFormat,
    prefix: Option<&str>,
    files: &mut F,
    writer: &mut W,
) -> (u8, Option<NotWritten>)
    ensures plain { IfNone prefix.entry (IsFinished driven.now.ended (W.contents writer.old) (W.contents writer.new) result.0 × (result.1 ≡ None)
        × (F.names files.new ≡ F.names files.old)) }
    ensures dumps { IfSome prefix.entry (λ prefix. FinishesWithDumps format prefix.now (option_map_or (λ o. o.board.rounds) driven.now.outcome []) driven.now.ended
        (F.names files.old) (F.names files.new) (W.contents writer.old) (W.contents writer.new) result.0 result.1) }
{
    let Some(prefix) = prefix else {
        return (driven.status(), None);
    };
    match write_dumps(alloc, driven.rounds(), format, prefix, files) {
        Ok(()) => (driven.status(), None),
        Err(dump) => {
            let _told = write_out(writer, NO_DUMP.as_bytes());
            (NO_OUTPUT, Some(dump))
        }
    }
}
