//! Workers, each in a thread of its own. The caller says what a worker is and what it does: this crate starts the
//! threads, waits for them, and returns what each worker ended as, in the order of the workers.
//!
//! - [`Work`]: what may be a worker. [`Ended`]: what one ends as.
//! - [`Starts`]: for which workers a thread may be started. [`EachStarts`]: for each.
//! - [`Crew`]: the capacity that a number of workers need, reserved before the first of them begins, and their
//!   run.
#![tactic(auto)]

mod begun;
mod crew;
mod work;

pub use crew::Crew;
pub use work::{EachStarts, Ended, Starts, Work};
