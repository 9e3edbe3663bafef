//! The account of what a run over threads left, from the local accounts of its PEs and what went through their seats.
//!
//! - [`Gathered`]: the PEs of a run as their workers end, with their seats joined into one.
//! - [`LeftBuffers`]: buffers for what is left in the queues, made before the run.
//! - [`take_next`]: the first of a list of owners.
#![tactic(auto)]

mod gathered;
mod left_buffers;
mod next_owner;

pub use gathered::Gathered;
pub use left_buffers::LeftBuffers;
pub use next_owner::take_next;
