//! Writes dumps while a run is paused, so that a run that is killed later has left them.

ghost use Rattle.std.specs.Prelude.{◌≡◌, ◌≤◌, None, drop, length};
ghost use Rattle.std.specs.Option.{option_map};
ghost use Rattle.workload_run.specs.Dumping.{AsksInTurn, AsksRest};

use crate::dumps::{DumpFiles, NotWritten, write_dumps};
use crate::round_dump::DumpFormat;
use carried_runs::Pauses;
use chares::Chare;
use lb_snapshot::Snapshot;
use lb_strategy::Decision;
use rts_run::Outcome;
use std::alloc::Allocator;

/// Writes the dumps of rounds where a run pauses after them, so that those of a run that is killed later are there.
#[derive(Drop)]
pub struct EarlyDumps<'a, F, A> {
    alloc: A,
    files: F,
    prefix: Option<&'a str>,
    format: DumpFormat,
    // Of how many rounds the dumps were written.
    written: usize,
    failed: Option<NotWritten>,
}

impl<'a, F: DumpFiles + Drop, A: Allocator + Copy> EarlyDumps<'a, F, A> {
    /// Dumps in these files, which are named as by [`write_dumps`], or none without a prefix.
    pub fn new(alloc: A, files: F, prefix: Option<&'a str>, format: DumpFormat) -> Self
        ensures files { result.files ≡ files }
        ensures prefix { result.prefix ≡ prefix.entry }
        ensures format { result.format ≡ format }
        ensures none_written { result.written ≡ 0 }
        ensures none_failed { result.failed ≡ None }
    {
        EarlyDumps {
            alloc,
            files,
            prefix,
            format,
            written: 0,
            failed: None,
        }
    }

    /// Whether dumps are written.
    pub fn is_on(&self) -> bool {
        self.prefix.is_some()
    }

    /// Writes the dumps of those of a run's rounds that were decided since the last pause. Returns the files, and the first dump of all
    /// that was not written, if there is one.
    pub fn finish<B: Allocator + Copy>(
        mut self,
        rounds: &[(Snapshot<B>, Decision<B>)],
    ) -> (F, Option<NotWritten>)
        ensures asked { AsksRest self.entry.format (option_map (λ p. p.now) self.entry.prefix) self.entry.failed (drop self.entry.written rounds.now)
            (F.names self.entry.files) (F.names result.0) result.1 }
    {
        self.write(rounds);
        (self.files, self.failed)
    }

    // Writes the dumps of the rounds of a run that has decided these by now. After a dump that was not written no other is.
    fn write<B: Allocator + Copy>(&mut self, rounds: &[(Snapshot<B>, Decision<B>)])
        ensures asked { AsksRest self.old.format (option_map (λ p. p.now) self.old.prefix) self.old.failed (drop self.old.written rounds.now)
            (F.names self.old.files) (F.names self.new.files) self.new.failed }
    {
        let (Some(prefix), None) = (self.prefix, self.failed) else {
            return;
        };
        if rounds.len() < self.written {
            return;
        }
        let written = write_later(
            self.alloc,
            rounds,
            self.written,
            self.format,
            prefix,
            &mut self.files,
        );
        self.written = rounds.len();
        self.failed = written.err();
    }
}

impl<F: DumpFiles + Drop, C: Chare<A>, A: Allocator + Copy> Pauses<C, A> for EarlyDumps<'_, F, A> {
    fn are_wanted(&self) -> bool {
        self.is_on()
    }

    fn paused(&mut self, outcome: &Outcome<C, A>) {
        self.write(outcome.rounds());
    }
}

/// Writes the dumps of the rounds from this one on, as [`write_dumps`] does those of all.
///
/// # Errors
///
/// Those of [`write_dumps`].
pub fn write_later<F: DumpFiles, A: Allocator + Copy, B: Allocator + Copy>(
    alloc: A,
    rounds: &[(Snapshot<B>, Decision<B>)],
    from: usize,
    format: DumpFormat,
    prefix: &str,
    files: &mut F,
) -> Result<(), NotWritten>
    requires inside { from ≤ length rounds.now }
    ensures asked { AsksInTurn format prefix.now (drop from rounds.now) (F.names files.old) (F.names files.new) result }
{
    write_dumps(alloc, &rounds[from..], format, prefix, files)
}
