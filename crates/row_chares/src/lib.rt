//! Chares of the worked rows: the crates named `.._rows` and the tests in `runs` use them.
//!
//! - [`Courier`]: sends one body at each resumption, also where its letter is refused.
//! - [`Errand`]: sends as many empty letters as its state says, and finishes once it has got those that it wants.
#![tactic(auto)]

mod courier;
mod errand;

pub use courier::Courier;
pub use errand::Errand;
