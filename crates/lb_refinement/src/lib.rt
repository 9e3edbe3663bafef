//! Decisions within a tolerance: as balanced as the tolerance asks, with as few bytes moved as the order of the PEs allows.
//!
//! - [`refine`]: decides, as [`plan`](lb_strategy::plan) does, or returns that memory was refused; [`refine_with`] does so with
//!   several threads.
//! - [`Refined`]: what they decide: a decision, and its [`Nearness`], which is what proves it; [`as_planned`], of a plan.
//! - [`OrderProof`], [`AnyOrderProof`]: the proofs that no cuts move fewer bytes in the order of the PEs, or in any order.
//! - [`refine_keeping_order`]: decides so that the PEs keep their order; [`unpriced`]: the prices of names that no prices prove.
//! - [`block_around`]: the block that contains an element.
//! - [`greatest_load`], [`moved_by`]: the load of the heaviest block, and the bytes that names move.
//! - [`laws`]: what the definitions imply.
//!
//! ```
//! use chain_refinement::Tolerance;
//! use chare_index::{Pe, Pes};
//! use lb_refinement::refine;
//! use lb_snapshot::{Loads, Sizes, Snapshot};
//!
//! // Four elements on two PEs, with loads of 5 and 7. The least possible is 6, and 7 is within 200 thousandths of it.
//! let (zero, one) = (Pe::new(0).unwrap(), Pe::new(1).unwrap());
//! let loads = Loads::new(vec![in alloc; 3, 2, 1, 6]?).ok_or("too many")?;
//! let sizes = vec![in alloc; (9, zero), (9, zero), (9, one), (9, one)]?;
//! let sizes = Sizes::new(sizes).ok_or("too many")?;
//! let snapshot = Snapshot::new(5, 2, loads, sizes).ok_or("no snapshot")?;
//!
//! let two = Pes::new(2).unwrap();
//! let least = refine(alloc, &snapshot, two, Tolerance::new(0).unwrap())?;
//! assert!(rt; least.bottleneck() == 6 && least.moved() == 9);
//! let near = refine(alloc, &snapshot, two, Tolerance::new(200).unwrap())?;
//! assert!(rt; near.bottleneck() == 7 && near.moved() == 0);
//! ```
#![tactic(auto)]

mod heaviest;
mod keeping;
pub mod laws;
mod moved;
mod nearness;
mod places;
mod refined;
mod refining;

pub use heaviest::greatest_load;
pub use keeping::{refine_keeping_order, unpriced};
pub use moved::moved_by;
pub use nearness::{AnyOrderProof, Nearness, OrderProof};
pub use places::block_around;
pub use refined::Refined;
pub use refining::{as_planned, refine, refine_with};
