//! Why the planner over lists refuses a run: which list, which entry, and which rule.
//!
//! - [`run_refusal`]: the first reason, as a [`RunRefusal`], or `None` where the run is in order; [`number_of_refusal`] and
//!   [`entry_of_refusal`]: its number, and the entry that it names.
//!
//! ```
//! use lb_lists::Run;
//! use run_refusals::{RunRefusal, run_refusal};
//!
//! // Three elements on two PEs, of which the last says that it is on a third.
//! let run = Run {
//!     loads: &[1, 1, 2],
//!     bytes: &[10, 9, 8],
//!     places: &[0, 1, 2],
//!     procs: 2,
//! };
//! assert!(rt; run_refusal(&run, 2, false) == Some(RunRefusal::Astray(2)));
//! ```
#![tactic(auto)]

mod entries;
mod reasons;
mod refusal;

pub use reasons::run_refusal;
pub use refusal::{RunRefusal, entry_of_refusal, number_of_refusal};
