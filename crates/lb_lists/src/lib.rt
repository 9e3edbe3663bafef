//! The planner and its checker over plain slices, for callers that hold no [`Snapshot`](lb_snapshot::Snapshot). The C
//! interface calls it, and a program in Rattle may.
//!
//! - [`Run`]: the elements of a run, as lists, within the [`RunLimits`]. The lists are read where they are: none is copied, but
//!   for a tolerance.
//! - [`plan_run`]: decides, as a [`Plan`]; [`plan_into`] writes the place of each element, and [`decide_into`] the whole
//!   decision, into [`Buffers`] of the caller.
//! - [`refine_run`]: decides within a tolerance, for a run within the limits of a snapshot; [`refine_into`] writes the decision
//!   into [`Buffers`] and [`StandingBuffers`], or returns a [`RefineError`].
//! - [`refine_run_in_order`]: decides so that the PEs keep their order, which [`refine_into`] does where that is asked for.
//! - [`reorder_run`]: decides where the PEs may change their order; [`reorder_into`] writes the decision
//!   into these and [`BoundsBuffers`].
//! - [`check_claim`]: whether a [`Claim`] is right, whoever made it, or its first flaw; [`number_of`]: the number of a flaw.
//! - [`check_refined`]: whether a [`RefinedClaim`] of a decision within a tolerance is right, or its first [`RefinedFlaw`],
//!   with its [number](number_of_refined) and its [place](place_of_refined).
//! - [`check_reordered_claim`]: whether a [`ReorderedClaim`] of a decision in any order is right, or its first
//!   [`ReorderedClaimFlaw`], with its [number](number_of_reordered) and its [place](place_of_reordered).
//! - [`scale_loads`]: loads in seconds as whole numbers, or a [`ScaleError`].
//! - [`RunError`]: why a run was not planned, or a claim not checked.
//! - [`one_plan`], [`one_refined_run`]: the laws that a run has one plan, and one decision within a tolerance; [`near_least`]: the
//!   law that a plan of scaled loads is nearly least.
//!
//! ```
//! use lb_lists::{Run, plan_into};
//!
//! // Three elements on two PEs.
//! let run = Run {
//!     loads: &[1, 1, 2],
//!     bytes: &[10, 9, 8],
//!     places: &[0, 1, 0],
//!     procs: 2,
//! };
//! let mut new_places = [0; 3];
//! let planned = plan_into(alloc, &run, 2, &mut new_places)?;
//! assert!(rt; planned.bottleneck == 2 && planned.moved == 10);
//! assert!(rt; new_places.as_slice() == [1, 1, 0].as_slice());
//! ```
#![tactic(auto)]

mod bounds;
mod checking;
mod claim;
mod deciding;
mod error;
mod in_order;
mod laws;
mod limits;
mod places;
mod plan;
mod planning;
mod refined_checking;
mod refined_claim;
mod refined_writing;
mod refining;
mod reordered_checking;
mod reordered_claim;
mod reordered_writing;
mod reordering;
mod run;
mod scaling;
mod snapshot;
mod steps;

pub use bounds::BoundsBuffers;
pub use checking::{check_claim, number_of};
pub use claim::Claim;
pub use deciding::{Buffers, Decided, decide_into};
pub use error::{RefineError, RunError};
pub use in_order::refine_run_in_order;
pub use laws::{near_least, one_plan, one_refined_run};
pub use limits::RunLimits;
pub use plan::{Plan, plan_run};
pub use planning::{Planned, plan_into};
pub use refined_checking::{RefinedFlaw, check_refined, number_of_refined, place_of_refined};
pub use refined_claim::RefinedClaim;
pub use refining::{RefinedNumbers, StandingBuffers, refine_into, refine_run};
pub use reordered_checking::{
    ReorderedClaimFlaw, check_reordered_claim, number_of_reordered, place_of_reordered,
};
pub use reordered_claim::ReorderedClaim;
pub use reordering::{ReorderedNumbers, reorder_into, reorder_run};
pub use run::Run;
pub use scaling::{ScaleError, scale_loads};
