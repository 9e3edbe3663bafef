//! Writes an event list or a trace beside the text of a run.

ghost use Rattle.std.specs.Prelude.{◌≡◌, ◌∷◌, [], None, IfNone, IfSome, MatchOption, if◌then◌else◌};
ghost use Rattle.streams.specs.Writing.{WritesPrefix};
ghost use Rattle.workload_run.specs.Besides.{lost_line};
ghost use Rattle.workload_run.specs.Dumping.{AsksFor};

use crate::dumps::DumpFiles;
use std::io::{self, Write};
use streams::{Noted, write_out};

/// The status where a file beside the text was not written.
const NO_OUTPUT: u8 = 5;

/// A file that is written beside the text of a run, where it is asked for.
#[derive(Clone, Copy, Debug, PartialEq, Eq)]
pub enum Beside {
    /// The list of the events.
    Events,
    /// The trace.
    Trace,
}

/// What a run left for such a file.
pub trait BesideText {
    /// Writes it, flushes the writer, and returns whether all of it was written: not where memory was refused or the writer failed.
    fn write_to<W: Write>(&self, writer: &mut W) -> bool;
}

/// A file that was not written.
#[derive(Clone, Copy, Debug, Drop)]
pub struct Lost {
    /// The system's reason, where it gave one; otherwise memory was refused.
    pub reason: Option<io::Error>,
}

/// Makes the file of this name, and writes to it what the run left. Where no name is given, or nothing ran, no file is made, and one
/// of that name stays as it is. Where the file was not written, it is returned why, and `writer` gets the line `events: write failed`
/// or `trace: write failed`, or a prefix of it where it fails.
pub fn write_beside<F: DumpFiles, T: BesideText, W: Write>(
    which: Beside,
    name: Option<&str>,
    left: Option<&T>,
    files: &mut F,
    writer: &mut W,
) -> Option<Lost>
    ensures unnamed { IfNone name.entry ((F.names files.new ≡ F.names files.old) × (result ≡ None)) }
    ensures no_run { IfNone left.entry ((F.names files.new ≡ F.names files.old) × (result ≡ None)) }
    ensures asked { IfSome name.entry (λ name. IfSome left.entry (λ _. AsksFor (F.names files.old) (F.names files.new) (name.now ∷ []))) }
    ensures told { MatchOption result (W.contents writer.new ≡ W.contents writer.old)
        (λ _. WritesPrefix (W.contents writer.old) (W.contents writer.new) (lost_line which)) }
{
    let Some(name) = name else {
        return None;
    };
    let Some(left) = left else {
        return None;
    };
    let Err(lost) = write_file(name, left, files) else {
        return None;
    };
    report_lost(which, writer);
    Some(lost)
}

// Makes the file of this name, and writes to it what the run left.
fn write_file<F: DumpFiles, T: BesideText>(name: &str, left: &T, files: &mut F) -> Result<(), Lost>
    ensures asked { AsksFor (F.names files.old) (F.names files.new) (name.now ∷ []) }
{
    let file = match files.create(name) {
        Ok(file) => file,
        Err(reason) => {
            return Err(Lost {
                reason: Some(reason),
            });
        }
    };
    let mut noted = Noted::new(file);
    if left.write_to(&mut noted) {
        return Ok(());
    }
    Err(Lost {
        reason: noted.failure(),
    })
}

/// Writes the line that such a file was not written, or a prefix of it where the writer fails.
pub fn report_lost<W: Write>(which: Beside, writer: &mut W)
    ensures told { WritesPrefix (W.contents writer.old) (W.contents writer.new) (lost_line which) }
{
    let _told = write_out(writer, line_of(which).as_bytes());
}

// The line that such a file was not written.
fn line_of(which: Beside) -> &'static str
    ensures { result.now ≡ lost_line which }
{
    match which {
        Beside::Events => "events: write failed\n",
        Beside::Trace => "trace: write failed\n",
    }
}

/// The status that a program exits with after the text, the dumps and the files beside them: 5 where a file was lost, and otherwise
/// the one for the rest.
pub fn status_beside(status: u8, is_lost: bool) -> u8
    ensures value { result ≡ (if is_lost then 5 else status) }
{
    if is_lost {
        return NO_OUTPUT;
    }
    status
}
