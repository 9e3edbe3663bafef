//! The command line of `lb_report`: what its arguments ask for, and the status where they ask for no report. clap reads them,
//! and writes the texts for what it refuses, for help and for the version.
//!
//! ```
//! use program_words::{NO_WORDS, words_status};
//! use report_command_line::{asked, numbers};
//!
//! let words = [
//!     "lb_report",
//!     "--procs",
//!     "4,8",
//!     "--csv",
//!     "one.lbd1",
//!     "two.lbd1",
//! ];
//! let asked_for = asked(alloc, &words).ok().ok_or("refused")?;
//! assert!(rt; asked_for.files.as_slice() == ["one.lbd1", "two.lbd1"].as_slice());
//! assert!(rt; asked_for.csv && !asked_for.moves && asked_for.tolerance.is_none());
//! let procs = numbers(alloc, asked_for.procs.ok_or("no numbers")?)?;
//! assert!(rt; procs.as_slice() == [4, 8].as_slice());
//!
//! let error = asked(alloc, &["lb_report"]).err().ok_or("taken")?;
//! assert!(rt; words_status(&error) == NO_WORDS);
//! ```
#![tactic(auto)]

mod help;
mod request;
mod spelled;
mod words;

pub use request::ReportOptions;
pub use spelled::{NumbersError, numbers, refuse_numbers};
pub use words::asked;
