//! Courses: how a world goes on event by event, from its opening, with each event's trace entries.
//!
//! - [`Course`]: a world with the [`Step`]s that led to it. [`Course::take`] takes one step more, where its event is enabled.
//! - [`take_any`]: takes the first event that is enabled, of all that there may be, or shows that none is.
//! - [`course_laws`]: the steps of a course are a list of events that reaches its world.
#![tactic(auto)]

mod course;
mod laws;
mod searching;
mod step;
mod trying;

pub use course::{Course, Refusal};
pub use laws::course_laws;
pub use searching::take_any;
pub use step::Step;
