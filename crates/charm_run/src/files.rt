//! The files of the system, and what is printed of one that was not written.

ghost use Rattle.std.specs.Prelude.{None};

use run_command_line::CharmRunOptions;
use std::alloc::Global;
use std::fs::{File, Files};
use std::io::{self, Write};
use workload_run::{
    Beside, BesideText, Driven, DumpFiles, DumpFormat, EarlyDumps, Lost, NotWritten, finish_dumped,
    write_asked, write_beside,
};

/// The files of the system.
#[derive(Drop)]
pub(crate) struct SystemFiles<'a, R>(&'a R);

impl<R: Files> DumpFiles for SystemFiles<'_, R> {
    type File = R::File;

    // the names that a system is asked for are not known
    ghost names = { λ _. None };

    fn create(&mut self, name: &str) -> io::Result<R::File> {
        File::create(self.0, name)
    }
}

/// The dumps that are written where the run pauses after each round: those of a run without a journal. So they are there also if the run
/// is killed.
pub(crate) fn early_dumps<'a, R: Files + AllocGlobal>(
    rt: &'a R,
    asked: &CharmRunOptions<'a>,
) -> EarlyDumps<'a, SystemFiles<'a, R>, Global> {
    let prefix = if asked.no_journal { asked.dump } else { None };
    let format = DumpFormat::asked(asked.lbd1);
    EarlyDumps::new(rt.alloc(), SystemFiles(rt), prefix, format)
}

/// Writes the dumps of the last rounds, where those before were written early, and returns the status.
pub(crate) fn finish_dumps<R: Files + Eprint, W: Write>(
    rt: &R,
    asked: &CharmRunOptions<'_>,
    driven: &Driven<Global>,
    dumps: EarlyDumps<'_, SystemFiles<'_, R>, Global>,
    writer: &mut W,
) -> u8 {
    let (_, failed) = dumps.finish(driven.rounds());
    let status = finish_dumped(driven, failed.is_some(), writer);
    if let Some(dump) = failed {
        tell_dump(rt, asked.dump.unwrap_or(""), dump);
    }
    status
}

/// Writes the dumps of the rounds that are asked for, and returns the status.
pub(crate) fn write_dumps<R: Files + Eprint + AllocGlobal, W: Write>(
    rt: &R,
    asked: &CharmRunOptions<'_>,
    driven: &Driven<Global>,
    writer: &mut W,
) -> u8 {
    let format = DumpFormat::asked(asked.lbd1);
    let mut files = SystemFiles(rt);
    let (status, failed) = write_asked(rt.alloc(), driven, format, asked.dump, &mut files, writer);
    if let Some(dump) = failed {
        tell_dump(rt, asked.dump.unwrap_or(""), dump);
    }
    status
}

// Writes the name of a dump that was not written, and the system's reason, or otherwise what was wrong.
fn tell_dump<R: Eprint>(rt: &R, prefix: &str, dump: NotWritten) {
    let _ = match dump.reason {
        Some(reason) => eprintln!(rt; "charm_run: {prefix}.{}: {reason}", dump.round),
        None => eprintln!(rt; "charm_run: {prefix}.{}: {}", dump.round, dump.fault),
    };
}

/// Writes what a run left to the file of this name, where there is one and there was a run. Returns whether the file was lost.
pub(crate) fn keep_file<R: Files + Eprint, T: BesideText, W: Write>(
    rt: &R,
    which: Beside,
    name: Option<&str>,
    left: Option<&T>,
    writer: &mut W,
) -> bool {
    let Some(lost) = write_beside(which, name, left, &mut SystemFiles(rt), writer) else {
        return false;
    };
    tell_lost(rt, name.unwrap_or(""), lost);
    true
}

// Writes the name of a file that was lost, and the system's reason.
fn tell_lost<R: Eprint>(rt: &R, name: &str, lost: Lost) {
    let _ = match lost.reason {
        Some(reason) => eprintln!(rt; "charm_run: {name}: {reason}"),
        None => eprintln!(rt; "charm_run: {name}: out of memory"),
    };
}
