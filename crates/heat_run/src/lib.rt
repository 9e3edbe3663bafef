//! Runs a rod on fire over threads, and reports how it ended.
//!
//! - [`read_options`]: the words of the command line, as [`RodOptions`].
//! - [`run_rod`]: the run of a rod.
//! - [`text_of`]: how many steps it took, the residual of the last one, and a checksum of all cells. [`RodEnding`]: the same as numbers,
//!   from one strip after another.
#![tactic(auto)]

mod ending;
mod help;
mod run;
mod text;
mod words;

pub use ending::RodEnding;
pub use run::run_rod;
pub use text::text_of;
pub use words::{RodOptions, read_options};
