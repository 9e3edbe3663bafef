//! Runs the chares of a workload over threads: from the bytes of a reader to the text of what the run left.
//!
//! - [`drive`]: from the bytes of a reader to the bytes of a writer; [`drive_by`]: with other options than the usual ones;
//!   [`drive_file`]: from a file, observed by an [`Onlooker`].
//! - [`drive_logged`]: with the calls of the reader and of the writer in logs, which have a failure where the end is that one of these
//!   failed.
//! - [`Driven`]: the result: how it [`RunEnd`], the status for that, and the rounds.
//! - [`Workload`] and [`WorkError`], from `workload`, and [`Tally`], from `tally`: what is read and run.
//! - [`write_round`]: the dump of a round, in a [`DumpFormat`]; [`write_dumps`]: that of each round, to a file of its own of
//!   some [`DumpFiles`]; [`write_asked`]: the same where it is asked for, with the status of the whole; [`EarlyDumps`] and
//!   [`finish_dumped`]: the same for dumps that are written as the run pauses after each round, by [`write_later`].
//! - [`write_beside`]: a list of events or a trace, where it is asked for and there was a run; [`report_lost`], [`status_beside`]: the
//!   line and the status where it was not written.
//! - [`tallies_of`]: the tallies of a workload; [`tell_outcome`], [`report_fault`], [`report_memory`], [`report_text`]: what is
//!   written, for callers that run them in another way.
//!
//! ```
//! use workload_run::{RunEnd, drive};
//!
//! // One tally on one PE, which sends itself a 7.
//! let mut workload = b"pes 1\nrounds 1\npad 0\nchares 1\namounts 7\n".as_slice();
//! let mut text = Vec::new(alloc);
//! let driven = drive(&rt, alloc, &mut workload, &mut text, 1_000_000_000);
//! assert!(rt; driven.ended == RunEnd::Ran(None));
//! let expected = b"round 1 bottleneck 7 moved 0\nsums 7\nposted 1 executed 1 held 0\n";
//! assert!(rt; text.as_slice() == expected.as_slice());
//! ```
#![tactic(auto)]

mod beside;
mod driven;
mod driving;
mod dumps;
mod early_dumps;
mod ended;
mod finishing;
mod line;
mod onlooker;
mod round_dump;
mod tallies;
mod telling;

pub use beside::{Beside, BesideText, Lost, report_lost, status_beside, write_beside};
pub use driven::Driven;
pub use driving::{drive, drive_by, drive_file, drive_logged};
pub use dumps::{DumpFiles, NotWritten, write_dumps};
pub use early_dumps::{EarlyDumps, write_later};
pub use ended::RunEnd;
pub use finishing::{finish_dumped, write_asked};
pub use onlooker::Onlooker;
pub use round_dump::{DumpFormat, write_round};
pub use tallies::tallies_of;
pub use tally::Tally;
pub use telling::{report_fault, report_memory, report_text, tell_outcome};
pub use workload::{WorkError, Workload};
