//! On which PE each block of a division runs, where the PEs differ in speed and background. Of the namings with which no PE ends
//! after a time, the cheapest one moves the fewest bytes: an assignment problem some of whose pairs are not allowed.
//!
//! - [`name_by_speeds`]: the first of the cheapest, with prices that prove it.
//! - [`check_timely_names`]: accepts names exactly where their prices prove them, and otherwise reports the first [`NamesFlaw`].
//! - [`timely_prices_law`]: prices over the allowed pairs prove a naming cheapest.
//!
//! ```
//! use block_assignment::CostMatrix;
//! use speed_certificates::{EndTime, PeSpeeds};
//! use speed_namings::name_by_speeds;
//!
//! // Blocks of 6 and 12 units. The second is too much for the slower PE by the time 6, though its elements are there.
//! let pes = PeSpeeds::new([1, 2].as_slice(), [0, 0].as_slice()).ok_or("out of range")?;
//! let costs = CostMatrix::new(2, vec![in alloc; 50, 0, 0, 90]?).ok_or("out of range")?;
//! let time = EndTime { work: 6, speed: 1 };
//! let (naming, _) = name_by_speeds(alloc, &costs, [6, 12].as_slice(), &pes, time)?;
//! assert!(rt; naming.as_slice() == [0, 1].as_slice());
//! ```
#![tactic(auto)]

mod costs;
mod flaw;
mod laws;
mod name_check;
mod naming;
mod prices;

pub use flaw::NamesFlaw;
pub use laws::timely_prices_law;
pub use name_check::check_timely_names;
pub use naming::name_by_speeds;
