//! A chare that measures a runtime: it sends its amounts to its neighbor, one in each round, and adds up those that
//! it gets. Each amount that it gets is its work, so its amounts decide the loads of every round.
//!
//! - [`Tally`]: the chare.
//! - [`TallyLimits`]: how many amounts and how much padding it may have.
//!
//! ```
//! use tally::Tally;
//!
//! // Its first amount is 3, its second 5, and 8 bytes of padding make it heavier to move.
//! let tally = Tally::with_amounts(alloc, &[3, 5], 8)?;
//! assert!(rt; tally.sum() == 0);
//! ```
#![tactic(auto)]

mod tally_chare;
mod tally_limits;

pub use tally_chare::Tally;
pub use tally_limits::TallyLimits;
