//! The text of what a run of tallies left: a line for each round that was decided, the sums of the elements or the fault
//! that ended the run early, and the account of its letters.
//!
//! - [`outcome_text`]: the text; [`push_round`], [`push_ending`] and [`push_account`]: its lines; [`fault_word`]: the word for a fault in it.
//! - [`sum_laws`]: what the sums in it are, whatever the schedule of the run was.
//!
//! ```
//! use chare_index::NoGate;
//! use rts_run::{Config, run};
//! use run_text::outcome_text;
//! use tally::Tally;
//!
//! // Two tallies on two PEs, each of which sends its amount to the other and is balanced once.
//! let three = Tally::with_amounts(alloc, &[3], 8)?;
//! let five = Tally::with_amounts(alloc, &[5], 8)?;
//! let tallies = vec![in alloc; three, five]?;
//! let n = tallies.len();
//! let outcome = run(&rt, alloc, &Config::usual(2), &NoGate, tallies)?;
//! let text = outcome_text(alloc, n, &outcome)?;
//! let expected = "round 1 bottleneck 5 moved 0\nsums 5 3\nposted 2 executed 2 held 0\n";
//! assert!(rt; text.as_str() == expected);
//! ```
//!
//! A program that is proved also shows there that these are tallies, by [`sum_laws`]. [`outcome_text`] says how.
//!
//! For four tallies with two amounts each the text may be:
//!
//! ```text
//! round 1 bottleneck 6 moved 40
//! round 2 bottleneck 4 moved 40
//! sums 8 3 3 4
//! posted 8 executed 8 held 0
//! ```
#![tactic(auto)]

mod laws;
mod sums;
mod text;

pub use laws::sum_laws;
pub use text::{fault_word, outcome_text, push_account, push_ending, push_round};
