//! Replays a dump of the load database offline: from the bytes of a reader, the text of the least division of its elements into
//! consecutive blocks, with the fence that proves it, the PE of each block and the bytes that move; or of the decision within a
//! tolerance of that division.
//!
//! - [`simulate`]: the replay, from the bytes of a reader to the bytes of a writer; [`simulate_by`]: one that decides in some [`Way`];
//!   [`replay_file`]: that of a file.
//! - [`verify`]: the check of the decision that was recorded in a dump; [`verify_file`]: that of a file.
//! - [`simulate_logged`] and [`verify_logged`]: with the calls of the reader and of the writer in logs, which have a failure where
//!   the end is that one of these failed.
//! - [`Ended`]: how a replay or a check ended, and the status for it; [`dump_advice`]: what to do about a fault of a dump.
//! - [`asked`]: what the words of a command line ask for, as [`Asked`]. clap reads them, and writes the texts for what it refuses,
//!   for help and for the version.
//! - [`run`]: what a program does, by the [`Task`] that it was asked for, if its options have no [`Clash`]; [`refuse_both`]: what it
//!   writes where they have one.
//!
//! ```
//! use lb_replay::{Ended, asked, simulate, verify};
//! use program_words::{NO_WORDS, words_status};
//!
//! // No elements on three PEs, at step 7, replayed for one PE.
//! let mut dump = b"LBD1\0\0\0\x07\0\0\0\x03\0\0\0\0".as_slice();
//! let mut text = Vec::new(alloc);
//! assert!(rt; simulate(alloc, &mut dump, &mut text, Some(1)) == Ended::Printed);
//! assert!(rt; text.starts_with(b"step 7 procs 1 elements 0\n"));
//!
//! let mut line = Vec::new(alloc);
//! let mut dump = b"LBD1\0\0\0\x07\0\0\0\x03\0\0\0\0".as_slice();
//! assert!(rt; verify(alloc, &mut dump, &mut line) == Ended::NoDecision);
//! assert!(rt; line.as_slice() == b"check: no decision\n".as_slice());
//!
//! let words = ["lb_sim", "--procs", "2", "steps.lbd1"];
//! let asked_for = asked(alloc, &words).ok().ok_or("refused")?;
//! assert!(rt; asked_for.file == "steps.lbd1" && asked_for.procs == Some(2) && !asked_for.check);
//!
//! let error = asked(alloc, &["lb_sim", "--procs", "0", "steps.lbd1"])
//!     .err()
//!     .ok_or("taken")?;
//! assert!(rt; words_status(&error) == NO_WORDS);
//! ```
#![tactic(auto)]

mod ended;
mod fault;
mod help;
mod request;
mod simulation;
mod text;
mod verifying;
mod way;
mod words;

pub use ended::Ended;
pub use fault::dump_advice;
pub use request::{Asked, Clash, Task, run};
pub use simulation::{replay_file, simulate, simulate_by, simulate_logged};
pub use verifying::{verify, verify_file, verify_logged};
pub use way::Way;
pub use words::{asked, refuse_both};
