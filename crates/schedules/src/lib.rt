//! Runs of chares on one thread, in any order of events: found by a seed, repeated, and shortened.
//!
//! - [`explore`]: runs chares under a [`Schedule`]; each next event is drawn among those that are enabled, by a seed.
//! - [`replay`]: runs them by a list of events; [`replay_enabled`] leaves out those that are not enabled.
//! - [`shrink`]: finds a shorter list of events that a [`Suspect`] still calls bad.
//! - [`Explored`]: what such a run left: an [`Outcome`](rts_run::Outcome) as of a run over threads, and each
//!   [`Step`].
//!
//! docs/RUNS.md says how an event is drawn, so that a seed means the same in every version.
#![tactic(auto)]

mod bias;
mod choices;
mod chooser;
mod drawing;
mod error;
mod explored;
mod exploring;
mod generator;
mod leaving;
mod letter_count;
mod moves;
mod number_set;
mod replaying;
mod schedule;
mod shrinking;

pub use bias::Bias;
pub use courses::{Step, course_laws};
pub use error::ReplayError;
pub use explored::Explored;
pub use exploring::explore;
pub use generator::SplitMix64;
pub use replaying::{replay, replay_enabled};
pub use schedule::Schedule;
pub use shrinking::{Cast, Suspect, shrink};
