//! The search for cuts within a tolerance that move the fewest bytes where the PEs keep their order along the chain.
//!
//! - [`refine_in_order`]: the cuts, with their certificate.
#![tactic(auto)]

mod cost;
mod level;
mod read;
mod row;
mod rows;
mod search;
mod spans;
mod starts;

pub use search::refine_in_order;
