//! The command line of `charm_run`: what its arguments ask for, and the status where they ask for no run. clap reads them,
//! and writes the texts for what it refuses, for help and for the version.
//!
//! ```
//! use program_words::{NO_WORDS, words_status};
//! use run_command_line::{Task, asked};
//!
//! let words = ["charm_run", "--dump", "rounds", "--progress", "ring.work"];
//! let asked_for = asked(alloc, &words).ok().ok_or("refused")?;
//! assert!(rt; asked_for.file == "ring.work" && asked_for.dump == Some("rounds"));
//! assert!(rt; asked_for.progress && !asked_for.lbd1);
//!
//! let error = asked(alloc, &["charm_run", "--quiet", "ring.work"])
//!     .err()
//!     .ok_or("taken")?;
//! assert!(rt; words_status(&error) == NO_WORDS);
//!
//! let words = ["charm_run", "--seed", "7", "ring.work"];
//! let asked_for = asked(alloc, &words).ok().ok_or("refused")?;
//! assert!(rt; asked_for.task() == Ok(Task::Seed(7)));
//! ```
#![tactic(auto)]

mod help;
mod request;
mod words;

pub use request::{CharmRunOptions, Clash, Task};
pub use words::{asked, refuse};
