//! Runs the chares of a workload on one thread: by one seed, by many, or by a list of events.
//!
//! - [`read_workload`]: the workload in a file.
//! - [`drive_seed`], [`drive_events`]: its run by a seed, or by a list of events, and the text of what that left, as for a run
//!   over threads. [`DrivenOnOne`]: the result.
//! - [`drive_seeds`]: its runs by the seeds from 1 on, and the text that says which of them a fault ended; [`tell_seeds`]: the same
//!   of any chares.
//! - [`search`], [`follow`]: the same runs, without a text.
//! - [`read_list`], [`write_list`]: reads a list of events from a file, and writes one; [`report_list`]: writes the line of a
//!   [`ListFault`].
//!
//! ```
//! use rts_run::Strategy;
//! use schedule_run::drive_seed;
//! use workload::Workload;
//! use workload_run::RunEnd;
//!
//! // One tally on one PE, which sends itself a 7.
//! let workload = Workload::parse(alloc, b"pes 1\nrounds 1\npad 0\nchares 1\namounts 7\n")?;
//! let mut text = Vec::new(alloc);
//! let driven = drive_seed(alloc, &workload, Strategy::Least, 1, &mut text);
//! assert!(rt; driven.ended == RunEnd::Ran(None));
//! let expected = b"round 1 bottleneck 7 moved 0\nsums 7\nposted 1 executed 1 held 0\n";
//! assert!(rt; text.as_slice() == expected.as_slice());
//! ```
#![tactic(auto)]

mod cast;
mod driving;
mod list_fault;
mod lists;
mod on_one;
mod running;
mod seeds;
mod verdict;
mod workload_file;

pub use driving::{drive_events, drive_seed};
pub use list_fault::{ListFault, report_list};
pub use lists::{read_list, read_list_logged, write_list};
pub use on_one::DrivenOnOne;
pub use running::{follow, search};
pub use seeds::{drive_seeds, tell_seeds};
pub use workload_file::read_workload;
