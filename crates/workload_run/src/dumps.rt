//! Writes the dump of each round to a file of its own.

ghost use Rattle.std.specs.Prelude.{◌≡◌, ◌∷◌, [], ℕ, List, Option, IfOk, IfErr};
ghost use Rattle.std.specs.String.{string_bytes};
ghost use Rattle.workload_run.specs.Dumping.{AsksFor, AsksInTurn, AsksOnce, MayFail, file_name};

use crate::round_dump::{DumpFormat, write_round};
use dump_format::DumpError;
use lb_snapshot::Snapshot;
use lb_strategy::Decision;
use std::alloc::{AllocError, Allocator};
use std::io::{self, Write};
use streams::Noted;

/// Where dumps go, and the other files that a program writes beside the text of a run.
pub trait DumpFiles {
    /// A file that was made.
    type File: Write + Drop;

    // the names of the files that were requested, in order, where they are known
    ghost names: { Self → Option (List (List ℕ)) };

    /// Makes the file with this name, empty.
    fn create(&mut self, name: &str) -> io::Result<Self::File>
        ensures asked { AsksFor (names self.old) (names self.new) (name.now ∷ []) };
}

/// A dump that was not written.
#[derive(Clone, Copy, Debug, Drop)]
pub struct NotWritten {
    /// The round that it is of.
    pub round: u32,
    /// What was wrong: its file, a load that is too great for the format, or that memory was refused.
    pub fault: DumpError,
    /// The system's reason, where it gave one.
    pub reason: Option<io::Error>,
}

/// Writes the dump of each round to the file `PREFIX.r`, where `r` is the round, in order, as [`write_round`] does, and
/// flushes it.
///
/// # Errors
///
/// The first dump that was not written, or whose file was not flushed. A prefix of it may have been written. No later file
/// is made.
pub fn write_dumps<F: DumpFiles, A: Allocator + Copy, B: Allocator + Copy>(
    alloc: A,
    rounds: &[(Snapshot<B>, Decision<B>)],
    format: DumpFormat,
    prefix: &str,
    files: &mut F,
) -> Result<(), NotWritten>
    ensures asked { AsksInTurn format prefix.now rounds.now (F.names files.old) (F.names files.new) result }
{
    for (snapshot, decision) in rounds {
        let written = write_file(alloc, snapshot, decision, format, prefix, files);
        if let Err((fault, reason)) = written {
            return Err(NotWritten {
                round: snapshot.step(),
                fault,
                reason,
            });
        }
    }
    Ok(())
}

// Makes the file of a round, and writes its dump there. An error is what was wrong, with the system's reason.
fn write_file<F: DumpFiles, A: Allocator, B: Allocator + Copy>(
    alloc: A,
    snapshot: &Snapshot<B>,
    decision: &Decision<B>,
    format: DumpFormat,
    prefix: &str,
    files: &mut F,
) -> Result<(), (DumpError, Option<io::Error>)>
    ensures asked { AsksOnce prefix.now snapshot.now.step (F.names files.old) (F.names files.new) result }
    ensures fault { IfErr result (λ failed. MayFail failed.0 format snapshot.now) }
{
    let Ok(name) = file_name(alloc, prefix, snapshot.step()) else {
        return Err((DumpError::OutOfMemory, None));
    };
    let file = match files.create(&name) {
        Ok(file) => file,
        Err(reason) => return Err((DumpError::Write, Some(reason))),
    };
    let mut noted = Noted::new(file);
    if let Err(fault) = write_round(&mut noted, snapshot, decision, format) {
        return Err((fault, noted.failure()));
    }
    if noted.flush().is_err() {
        return Err((DumpError::Write, noted.failure()));
    }
    Ok(())
}

// The name of the file of a round. The only error is that memory was refused.
fn file_name<A: Allocator>(alloc: A, prefix: &str, round: u32) -> Result<String<A>, AllocError>
    ensures { IfOk result (λ name. string_bytes name ≡ file_name prefix.now round) }
{
    let mut name = String::from_str(alloc, prefix)?;
    write!(name, ".{round}")?;
    Ok(name)
}
