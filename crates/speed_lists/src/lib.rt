//! Divisions over PEs of unequal speed for callers that have plain lists. No stops stand for a floor that names a PE.
//!
//! - [`divide_speeds_into`]: divides, writes the cuts and the stops, and returns the other numbers, a [`Timed`].
//! - [`check_speed_lists`]: the first flaw of a division in lists, whoever made it, with its [number](number_of_time) and its
//!   [place](place_of_time).
//! - [`SpeedError`]: why a call was refused.
//!
//! ```
//! use speed_lists::divide_speeds_into;
//!
//! let (mut cuts, mut stops) = ([0; 3], [0; 3]);
//! let timed = divide_speeds_into(alloc, &[1, 2, 3, 4, 4], &[1, 2], &[0, 4], &mut cuts, &mut stops)?;
//! assert!(rt; (timed.time.work, timed.time.speed) == (6, 1));
//! assert!(rt; cuts.as_slice() == [0, 3, 5].as_slice());
//! ```
#![tactic(auto)]

mod checking;
mod dividing;
mod error;

pub use checking::{check_speed_lists, number_of_time, place_of_time};
pub use dividing::{Timed, divide_speeds_into};
pub use error::SpeedError;
