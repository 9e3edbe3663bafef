//! Runs a chain of strips over threads, and reports the loads of each round and the checksum of all cells.
//!
//! - [`run_chain`]: the run of a [`StripChain`]; [`run_chain_watched`]: the same, observed by a watch.
//! - [`text_of`]: a line for each round, and the checksum of all cells; [`ending_of`]: its last line; [`checksum`] alone.
//!
//! ```
//! use hot_spot_run::{run_chain, text_of};
//! use hot_spot_strip::{StripChain, Mode};
//! use rts_run::{Config, Options};
//!
//! // Three strips of two cells on two PEs, not balanced. Each cell takes one unit of work in the one round.
//! let chain = StripChain {
//!     mode: Mode::Static,
//!     rounds: 1,
//!     work: 0,
//!     cells: &[2, 2, 2],
//! };
//! let outcome = run_chain(&rt, alloc, &Config::usual(2), &Options::usual(), &chain)?;
//! let text = text_of(alloc, &chain, 2, &outcome)?;
//! assert!(rt;
//!     text.as_str()
//!         .starts_with("round 1 greatest 4 average 3 moved 0\nchecksum ")
//! );
//! ```
#![tactic(auto)]

mod chain;
mod loads;
mod sums;
mod text;

pub use chain::{run_chain, run_chain_watched};
pub use sums::checksum;
pub use text::{ending_of, text_of};
