//! The least division of a chain over PEs of unequal speed, some of which have other work besides: of all ways to cut the elements
//! into a block for each PE, in order, one whose greatest end time is least, with the certificate that
//! [`check_speeds`](speed_certificates::check_speeds) accepts.
//!
//! - [`divide_by_speeds`]: that division; [`divide_by_speeds_with`] finds it with several threads.
//! - [`chosen_once_law`]: it is the only one of its kind. [`equal_speeds_law`]: over equal PEs it is the division of the loads alone.
//!
//! ```
//! use chain_partition::Chain;
//! use speed_certificates::{EndTime, PeSpeeds};
//! use speed_partition::divide_by_speeds;
//!
//! // PE 1 is twice as fast as PE 0, but has 4 units of other work. The blocks 1 2 3 and 4 4 end at 6 / 1 and at (4 + 8) / 2.
//! let chain = Chain::new(alloc, [1, 2, 3, 4, 4].as_slice())?;
//! let pes = PeSpeeds::new([1, 2].as_slice(), [0, 4].as_slice()).ok_or("out of range")?;
//! let division = divide_by_speeds(alloc, &chain, &pes)?;
//! assert!(rt; division.time == EndTime { work: 6, speed: 1 });
//! assert!(rt; division.cuts.as_slice() == [0, 3, 5].as_slice());
//! ```
#![tactic(auto)]

mod division;
mod latest;
mod laws;
mod opening;
mod search;
mod threads;
mod ticks;
mod times;
mod walk;

pub use division::divide_by_speeds;
pub use laws::{chosen_once_law, equal_speeds_law};
pub use threads::divide_by_speeds_with;
