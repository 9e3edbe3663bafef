//! Divisions of a chain over PEs of unequal speed, some of which have other work besides. Block `b` runs on PE `b`. That PE ends
//! at the time (background + load) / speed, and the greatest of these end times is what a division is judged by.
//!
//! - [`PeSpeeds`]: the speed and the background of each PE, within the [`SpeedLimits`].
//! - [`EndTime`]: a time, as an exact fraction.
//! - [`TimedDivision`], with a [`TimeFloor`]: the cuts, the greatest end time, and the certificate that no division ends earlier.
//! - [`check_speeds`]: accepts a division exactly where its certificate is right, and otherwise reports the first [`TimeFlaw`].
//!
//! Whoever made the division, an `Ok` proves it least:
//!
//! ```
//! use lb_certificates::{Cuts, Stops};
//! use speed_certificates::{EndTime, PeSpeeds, TimeFloor, TimedDivision, check_speeds};
//!
//! // PE 1 is twice as fast as PE 0, but has 4 units of other work. The blocks 1 2 3 and 4 4 end at 6 / 1 and at (4 + 8) / 2.
//! let pes = PeSpeeds::new([1, 2].as_slice(), [0, 4].as_slice()).ok_or("out of range")?;
//! let division = TimedDivision {
//!     time: EndTime { work: 6, speed: 1 },
//!     cuts: Cuts(vec![in alloc; 0, 3, 5]?),
//!     floor: TimeFloor::Fence(Stops::new(vec![in alloc; 0, 2, 4]?)),
//! };
//! assert!(rt; check_speeds([1, 2, 3, 4, 4].as_slice(), &pes, &division) == Ok(()));
//! ```
#![tactic(auto)]

mod division;
mod flaw;
mod limits;
mod pes;
mod speed_check;
mod time;
mod work;

pub use division::{TimeFloor, TimedDivision};
pub use flaw::TimeFlaw;
pub use limits::SpeedLimits;
pub use pes::PeSpeeds;
pub use speed_check::check_speeds;
pub use time::EndTime;
