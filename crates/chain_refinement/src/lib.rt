//! Balance within a tolerance: of all divisions whose greatest load is within a limit, and whose blocks run on the PEs in a
//! given order, one that moves the fewest bytes, and a checker for it.
//!
//! - [`Tolerance`]: how far the greatest load may be above the least possible one.
//! - [`Refinement`]: the cuts, with the division that the limit is measured from and the [`Heights`] that prove that no
//!   others move fewer bytes.
//! - [`check_refinement`]: accepts a refinement exactly where every part of it is right, and otherwise reports the first
//!   [`RefinementFlaw`].
//! - [`walk`]: the steps of the checker from one place of the chain to the next.
//! - [`present_order`]: finds the order of the PEs along the chain, where the elements of each are consecutive, or reports that
//!   there is none.
//! - [`PresentOrder`]: the PEs in that order, with the cuts between their elements.
//! - [`laws`]: what the definitions imply.
//!
//! ```
//! use chain_refinement::present_order;
//! use chare_index::{Pe, Pes};
//! use lb_snapshot::Sizes;
//!
//! // Three elements, of which the first two are on PE 2 and the last is on PE 0.
//! let (zero, two) = (Pe::new(0).unwrap(), Pe::new(2).unwrap());
//! let sizes = Sizes::new(vec![in alloc; (10, two), (10, two), (10, zero)]?).ok_or("too many")?;
//! let order = present_order(alloc, &sizes, Pes::new(3).unwrap())?.ok_or("in no order")?;
//! assert!(rt; order.names.as_slice() == [2, 0, 1].as_slice());
//! assert!(rt; order.present.as_slice() == [0, 2, 3, 3].as_slice());
//! ```
#![tactic(auto)]

mod check;
mod claim;
mod costs;
mod few_places;
mod flaw;
mod heights;
pub mod laws;
mod order;
mod place;
mod present;
mod refinement;
mod runs;
mod steep;
mod tolerance;
pub mod walk;

pub use check::check_refinement;
pub use flaw::RefinementFlaw;
pub use heights::{Heights, Steps};
pub use present::{PresentOrder, present_order};
pub use refinement::Refinement;
pub use tolerance::Tolerance;
