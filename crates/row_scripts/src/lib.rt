//! Scripts of the worked rows: the steps of a world, one by one, with what is told of each. The crate `core_rows` and the tests in
//! `runs` take them.
//!
//! - [`ScriptEvent`], [`ScriptEntry`] and [`Line`]: an event and what is told of it, by their numbers; [`event_of`], [`are_told`] and
//!   [`is_refusal`] compare them with those of a world.
//! - [`START`] and [`DECIDE`], and then [`BEFORE`] or [`AFTER`]: three tallies on three PEs.
#![tactic(auto)]

mod scripts;
mod steps;

pub use scripts::{AFTER, BEFORE, DECIDE, START};
pub use steps::{Line, ScriptEntry, ScriptEvent, are_told, event_of, is_refusal};
