//! The least division of a chain: of all ways to cut the elements into a given number of consecutive blocks, which may be
//! empty, one whose heaviest block is lightest, with the certificate that a checker accepts.
//!
//! - [`divide`]: the least division; [`divide_with`] finds it with several threads.
//! - [`probe`]: whether blocks within a limit can hold all elements, as a [`Probe`]; [`probe_on`] takes the running sums of
//!   the loads, a [`Prefix`].
//! - [`Chain`]: loads beyond the limits of a snapshot, which a [`ChainError`] refuses only at 2^32 elements or a sum of 2^63.
//!   [`divide_chain`], [`divide_chain_with`] and [`probe_chain`] take one, and any number of blocks. [`Chain::block_within`]
//!   makes one step of a probe, the next [`Block`].
//!
//! ```
//! use chain_partition::divide;
//! use lb_snapshot::Loads;
//!
//! // Five elements in two blocks: 1 2 3 and 4 5.
//! let loads = Loads::new(vec![in alloc; 1, 2, 3, 4, 5]?).ok_or("too many")?;
//! let division = divide(alloc, &loads, 2)?;
//! assert!(rt; division.bottleneck == 9);
//! assert!(rt; division.cuts.as_slice() == [0, 3, 5].as_slice());
//! ```
#![tactic(auto)]

mod chain;
mod division;
mod error;
mod outcome;
mod prefix;
mod probing;
mod search;
mod threads;
mod walk;

pub use chain::Chain;
pub use division::{divide, divide_chain};
pub use error::ChainError;
pub use outcome::Probe;
pub use prefix::Prefix;
pub use probing::{probe, probe_chain, probe_on};
pub use threads::{divide_chain_with, divide_with};
pub use walk::Block;
