//! Runs whose elements open on given PEs, as those do that begin from a checkpoint.
//!
//! - [`placed_outcome`]: the outcome of a run that was stopped before its first event, with each element on its given PE.
//! - [`run_placed`]: carries such an outcome on.
#![tactic(auto)]

mod opening;
mod running;

pub use opening::placed_outcome;
pub use running::run_placed;
