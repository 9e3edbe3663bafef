//! What a load balancer decides on: the measured load, size and place of every element of a chare array.
//!
//! - [`Loads`]: the work units of each element in one round.
//! - [`Sizes`]: its packed size in bytes and the PE that it is on.
//! - [`Snapshot`]: both, taken at one step of a run on a number of PEs.
//!
//! Each keeps its limits, so code that has a snapshot need not test them again:
//!
//! ```
//! use chare_index::Pe;
//! use lb_snapshot::{Loads, Sizes, Snapshot};
//!
//! // The loads of three elements, the bytes and the PE of each; step 5, on two PEs.
//! let (zero, one) = (Pe::new(0).unwrap(), Pe::new(1).unwrap());
//! let loads = Loads::new(vec![in alloc; 1, 1, 2]?).ok_or("too many")?;
//! let sizes = Sizes::new(vec![in alloc; (10, zero), (9, one), (8, zero)]?).ok_or("too many")?;
//! let snapshot = Snapshot::new(5, 2, loads, sizes).ok_or("no snapshot")?;
//! assert!(rt; snapshot.step() == 5 && snapshot.procs() == 2);
//! ```
#![tactic(auto)]

mod loads;
mod sizes;
mod snapshot;

pub use loads::{Loads, Units};
pub use sizes::Sizes;
pub use snapshot::Snapshot;
