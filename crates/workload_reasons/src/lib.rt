//! What is wrong with a line of a workload, for those who wrote it.
//!
//! - [`LineWitness`]: sees the lines of a workload while they are read, up to the first that is faulty.
//! - [`Reason`]: what is wrong with that line, with the limit that a number of it passed; [`FaultyLine`]: the line with its reason.
//! - [`said_of_fault`]: the words for a fault of a workload.
#![tactic(auto)]

mod kind;
mod reason;
mod witness;

pub use kind::Kind;
pub use reason::{FaultyLine, Reason};
pub use witness::{LineWitness, said_of_fault};
