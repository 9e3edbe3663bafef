//! Runs that are carried on: one that ended early goes on from what it left.
//!
//! - [`carry_on`]: the elements where they are, the letters where they were held, the rounds counted on. The outcome is that of both runs
//!   together.
//! - [`run_in_parts`]: a run that pauses after each round, so that what was decided can be kept; [`Pauses`]: what is done then.
//!   [`carry_on_in_parts`]: one that is carried on so.
//!
//! docs/RUNS.md tells how PEs open again.
#![tactic(auto)]

mod carrying;
mod counting;
mod opening;
mod parts;
mod pausing;
mod reopening;

pub use carrying::carry_on;
pub use parts::{NoPauses, Pauses, carry_on_in_parts, run_in_parts};
