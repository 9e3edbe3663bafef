//! The calls of the handles of all ranks are the events of one world, in which each rank has its own copy of the location words, and
//! whatever is under way to a rank may come next. So laws of stale runs hold of ranks: those that [`rank_run_laws`] names. Where ranks
//! keep the rules of stamped runs, letters follow their elements.
//!
//! - [`rank_world_laws`]: which event a call is, how handles open, and that a list of calls is a list of events.
//! - [`rank_run_laws`]: which events the steps of a run of ranks are where notes are messages, and the laws of every such run.
//! - [`rank_hops_law`]: how often letters are forwarded between ranks that keep the rules of stamped runs.
//! - [`rank_board_laws`]: the board behind a handle may be the board of that world, from its opening on.
#![tactic(auto)]

mod boards;
mod hops;
mod runs;
mod worlds;

pub use boards::rank_board_laws;
pub use hops::rank_hops_law;
pub use runs::rank_run_laws;
pub use worlds::rank_world_laws;
