//! Cuts within a tolerance that keep the order of the ranks, of a chain whose consecutive parts lie on different ranks: rank `b`
//! has the elements from one present cut to the next, and block `b` goes to rank `b`.
//!
//! - [`kept_cuts_law`]: which runs of elements keep the cuts that move the fewest bytes.
//! - [`keep_order`]: these cuts, of a chain that one rank holds, as a merged chain, between bounds around its [`Present`] cuts.
//! - [`keep_lists`]: the same for callers with plain lists, a [`MergedChain`]. What it writes is right for every chain that has these
//!   runs: it checks all that the law asks for, but that the runs are those of the chain.
#![tactic(auto)]

mod cost;
mod laws;
mod lists;
mod pile;
mod present;
mod reading;
mod row;
mod search;
mod starts;

pub use laws::kept_cuts_law;
pub use lists::{MergedChain, keep_lists};
pub use present::Present;
pub use search::keep_order;
