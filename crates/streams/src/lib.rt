//! How the programs read and write: each failure is final, and no call is tried again.
//!
//! - [`CallLog`]: what the calls of a reader or a writer returned. A function that is given a log fails only where the log has a
//!   failure.
//! - [`Noted`]: a reader or a writer with its log.
//! - [`write_out`]: writes bytes, and returns whether all of them were written; [`write_out_logged`] does so with a log.
//! - [`Advice`]: what a program prints to the standard error about a file that it could not use: the file, what was wrong, and
//!   what to do.
#![tactic(auto)]

mod advice;
mod log;
mod noted;
mod output;

pub use advice::Advice;
pub use log::CallLog;
pub use noted::Noted;
pub use output::{write_out, write_out_logged};
