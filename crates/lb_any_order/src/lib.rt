//! Decisions within a tolerance where the PEs may change their order: as balanced as the tolerance asks, with the fewest bytes
//! moved of all.
//!
//! - [`refine_in_any_order`]: decides, as [`refine`](lb_refinement::refine) does, or returns that memory was refused. Its decision
//!   comes with the proof that no other cuts and names move fewer bytes, or is the one in the present order.
//! - [`reorder`]: the search for cuts and names within a tolerance that move the fewest bytes of all. It finds them with their
//!   proof where the elements of each PE are consecutive, and the table that it needs is not too large ([`TABLE`]). What it finds
//!   is right because [`any_order::check_reordered`] accepted it. Nothing promises that it finds something.
#![tactic(auto)]

mod ahead;
mod chain;
mod levels;
mod plan;
mod refining;
mod row;
mod search;
mod sized;

pub use refining::refine_in_any_order;
pub use search::reorder;
pub use sized::TABLE;
