//! The decision of a balancing step: which elements run where, with all its certificates, and one check that anyone can run.
//!
//! - [`Decision`], with its [`Moves`]: what a step decides.
//! - [`check`]: accepts a decision exactly where every part of it is right.
//! - [`plan`]: decides, or returns a [`PlanError`]; [`plan_with`] does so with several threads.
//! - [`name_cuts`] and [`moves_of`]: the names of any blocks, and the moves that they ask for.
//!
//! ```
//! use chare_index::Pe;
//! use lb_snapshot::{Loads, Sizes, Snapshot};
//! use lb_strategy::{check, plan};
//!
//! // Three elements on two PEs: their loads, and the bytes and the PE of each.
//! let (zero, one) = (Pe::new(0).unwrap(), Pe::new(1).unwrap());
//! let loads = Loads::new(vec![in alloc; 1, 1, 2]?).ok_or("too many")?;
//! let sizes = Sizes::new(vec![in alloc; (10, zero), (9, one), (8, zero)]?).ok_or("too many")?;
//! let snapshot = Snapshot::new(5, 2, loads, sizes).ok_or("no snapshot")?;
//!
//! let decision = plan(alloc, &snapshot, 2)?;
//! assert!(rt; check(&snapshot, 2, &decision).is_ok());
//! assert!(rt; decision.division.bottleneck == 2 && decision.moved == 10);
//! assert!(rt; decision.naming.as_slice() == [1, 0].as_slice());
//! ```
#![tactic(auto)]

mod checking;
mod decision;
mod error;
mod moves;
mod planning;

pub use checking::check;
pub use decision::Decision;
pub use error::PlanError;
pub use moves::{Moves, moves_of};
pub use planning::{name_cuts, plan, plan_with};
