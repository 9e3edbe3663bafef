//! A line on the standard error for a person who watches a run. It is overwritten again and again, at most ten times a
//! second.
//!
//! - [`ShownProgress`]: a line for a person who watches, or none, so that one call of a run serves both.
//! - [`ProgressLine`]: the line.
//! - [`Standing`]: what it says.
//!
//! ```text
//! round 12 of 100, 3400 letters executed, 120000 a second
//! ```
//!
//! ```
//! use chare_index::NoGate;
//! use progress_line::ShownProgress;
//! use rts_run::{Config, Options, run_watched};
//! use std::io::IsTerminal;
//! use tally::Tally;
//!
//! // One tally on one PE, for one round.
//! let chares = vec![in alloc; Tally::with_amounts(alloc, &[7], 0)?]?;
//! let progress = ShownProgress::new(&rt, rt.stderr().is_terminal()).unwrap_or(ShownProgress::Off);
//! progress.expect(1);
//! let outcome = run_watched(&rt, alloc, &Config::usual(1), &Options::usual(), &NoGate, &progress, chares)?;
//! progress.finish();
//! assert!(rt; outcome.fault().is_none());
//! ```
#![tactic(auto)]

mod teller;
mod text;
mod watcher;

pub use teller::ProgressLine;
pub use text::Standing;
pub use watcher::ShownProgress;

#[cfg(test)]
mod tests;
