//! What a load balancer decides on a [`Snapshot`], and checkers whose `Ok` means that no decision is better.
//!
//! - [`Loads`], [`Sizes`] and [`Snapshot`]: the measured elements of a chare array, from `lb_snapshot`.
//! - [`Division`], with [`Cuts`], [`Floor`] and [`Stops`]: the elements cut into consecutive blocks, and the
//!   certificate that no other division has a lighter heaviest block.
//! - [`Naming`] and [`Prices`], with [`PriceList`]: on which PE each block runs, and the certificate that no
//!   other naming moves fewer bytes.
//! - [`check_division`] and [`check_naming`]: accept a division or a naming exactly where its certificate is right,
//!   and otherwise report the first [`Flaw`]; [`check_chain`] and [`check_naming_of`] do so over plain lists without limits,
//!   and [`check_held`] by the bytes of each block on each PE.
//! - [`total`]: the sum of any loads.
//!
//! Whoever made the division, an `Ok` proves it least:
//!
//! ```
//! use lb_certificates::{Cuts, Division, Floor, Loads, Stops, check_division};
//!
//! let loads = Loads::new(vec![in alloc; 1, 2, 3, 4, 5]?).ok_or("too many")?;
//! let division = Division {
//!     bottleneck: 9,
//!     cuts: Cuts(vec![in alloc; 0, 3, 5]?),
//!     floor: Floor::Fence(Stops::new(vec![in alloc; 0, 3, 4]?)),
//! };
//! assert!(rt; check_division(&loads, 2, &division) == Ok(()));
//! ```
#![tactic(auto)]

mod block_costs;
mod cuts;
mod division;
mod division_check;
mod elements;
mod flaw;
mod held_check;
mod listed_costs;
mod naming;
mod naming_check;
mod prices;
mod stops;
mod sums;

pub use cuts::Cuts;
pub use division::{Division, Floor};
pub use division_check::{check_chain, check_division};
pub use flaw::Flaw;
pub use held_check::check_held;
pub use lb_snapshot::{Loads, Sizes, Snapshot};
pub use naming::Naming;
pub use naming_check::{check_naming, check_naming_of};
pub use prices::{PriceList, Prices};
pub use stops::Stops;
pub use sums::total;
