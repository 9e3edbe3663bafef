//! The report on a dump, from the bytes of a reader or a file to the bytes of a writer.

ghost use Rattle.std.specs.Prelude.{◌≡◌, ℕ, All, List, Option, Some, IfOk, IfErr};
ghost use Rattle.dump_report.specs.Reports.{EndsReport, IsFoundFault, IsNumber, IsReport};
ghost use Rattle.dump_format.specs.declared.error.DumpError.TheVariants.{Read};
ghost use Rattle.lb_dump.specs.Reading.{ReaderHasFailed};
ghost use Rattle.lb_replay.specs.Ended.{HasUnread, HasUnwritten};
ghost use Rattle.lb_replay.specs.declared.ended.Ended.TheVariants.{Dump};
ghost use Rattle.streams.specs.Logs.{HasRefused};

use crate::dump_text::dump_text;
use chain_refinement::Tolerance;
use dump_format::DumpError;
use lb_dump::read_from_logged;
use lb_replay::Ended;
use load_report::Style;
use std::alloc::Allocator;
use std::io::{self, Read, Write};
use streams::{CallLog, write_out_logged};

/// Reports on a dump: reads it, plans its balancing step for each of these numbers of PEs (each 1 to 256), or for the number of
/// PEs of the dump where none is given, and writes the report, with this name in it. Where there is a tolerance, the decision
/// within it is reported beside each plan, or its moves in place of those of the plan. Where there is a fault, nothing is
/// written, and the fault is returned. A decision that the dump records is reported too, where it is right, or as flawed.
///
/// What is written is a function of the bytes read, the name, the numbers, the tolerance and the style: the clause `one_text`.
pub fn report_dump<A: Allocator + Copy, R: Read, W: Write>(
    alloc: A,
    reader: &mut R,
    writer: &mut W,
    name: &str,
    procs: &[u32],
    tolerance: Option<Tolerance>,
    style: Style,
) -> Ended
    requires procs { All IsNumber procs.now }
    ensures ends { EndsReport A (R.remaining reader.old) (R.remaining reader.new) style name.now procs.now tolerance (W.contents writer.old) (W.contents writer.new) result }
    ensures one_text { (bytes text other : List ℕ) → IsReport A (Some bytes) style name.now procs.now tolerance text
        → IsReport A (Some bytes) style name.now procs.now tolerance other → text ≡ other }
{
    let mut read = CallLog::new();
    let mut written = CallLog::new();
    report_dump_logged(
        alloc,
        reader,
        writer,
        name,
        procs,
        tolerance,
        style,
        &mut read,
        &mut written,
    )
}

/// Reports on a dump as [`report_dump`] does, with the calls of the reader and those of the writer in logs. Where the end is that the
/// dump was not read, the log of the reader has an error, or 16,777,216 calls; where it is that the writer failed, the log of the writer
/// has an error, or that nothing was taken.
pub fn report_dump_logged<A: Allocator + Copy, R: Read, W: Write>(
    alloc: A,
    reader: &mut R,
    writer: &mut W,
    name: &str,
    procs: &[u32],
    tolerance: Option<Tolerance>,
    style: Style,
    read: &mut CallLog,
    written: &mut CallLog,
) -> Ended
    requires procs { All IsNumber procs.now }
    ensures ends { EndsReport A (R.remaining reader.old) (R.remaining reader.new) style name.now procs.now tolerance (W.contents writer.old) (W.contents writer.new) result }
    ensures failed { HasUnread result → ReaderHasFailed read.new }
    ensures unwritten { HasUnwritten result → HasRefused written.new }
{
    match report_text(alloc, reader, name, procs, tolerance, style, read) {
        Ok(text) if write_out_logged(writer, &text, written) => Ended::Printed,
        Ok(_) => Ended::WriteFailed,
        Err(fault) => fault,
    }
}

/// Reports on the dump in a file as [`report_dump`] does, and returns also the system's reason where a read failed. A file
/// that could not be opened counts as a dump that was not read.
pub fn report_file<A: Allocator + Copy, R: Read + Drop, W: Write>(
    alloc: A,
    file: io::Result<R>,
    writer: &mut W,
    name: &str,
    procs: &[u32],
    tolerance: Option<Tolerance>,
    style: Style,
) -> (Ended, Option<io::Error>)
    requires procs { All IsNumber procs.now }
    ensures opened { IfOk file (λ file. (rest : Option (List ℕ))
        × EndsReport A (R.remaining file) rest style name.now procs.now tolerance (W.contents writer.old) (W.contents writer.new) result.0) }
    ensures unopened { IfErr file (λ _. (result.0 ≡ Dump Read) × (W.contents writer.new ≡ W.contents writer.old)) }
    ensures reason { IfErr file (λ reason. result.1 ≡ Some reason) }
{
    match file {
        Ok(mut reader) => {
            let mut read = CallLog::new();
            let mut written = CallLog::new();
            let ended = report_dump_logged(
                alloc,
                &mut reader,
                writer,
                name,
                procs,
                tolerance,
                style,
                &mut read,
                &mut written,
            );
            (ended, read.failure())
        }
        Err(reason) => (Ended::Dump(DumpError::Read), Some(reason)),
    }
}

// The report on a dump, made whole, or the fault because of which there is none.
fn report_text<A: Allocator + Copy, R: Read>(
    alloc: A,
    reader: &mut R,
    name: &str,
    procs: &[u32],
    tolerance: Option<Tolerance>,
    style: Style,
    log: &mut CallLog,
) -> Result<Vec<u8, A>, Ended>
    requires { All IsNumber procs.now }
    ensures text { IfOk result (λ text. IsReport A (R.remaining reader.old) style name.now procs.now tolerance text.items) }
    ensures fault { IfErr result (IsFoundFault A (R.remaining reader.old) (R.remaining reader.new)) }
    ensures failed { IfErr result (λ fault. HasUnread fault → ReaderHasFailed log.new) }
{
    match read_from_logged(alloc, reader, log) {
        Ok(dump) => {
            let text = dump_text(alloc, &dump, name, procs, tolerance, style);
            drop(dump);
            text
        }
        Err(fault) => Err(Ended::Dump(fault)),
    }
}
