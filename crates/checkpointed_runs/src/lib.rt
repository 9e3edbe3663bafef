//! Runs of a workload that can be killed: they keep checkpoints, and go on from one.
//!
//! - [`opening_of`]: what a run of a workload begins from; [`read_checkpoint`]: the same from a checkpoint in a file, or the one line of its
//!   fault, as [`NoCheckpoint`]; [`on_pes`]: the same on another number of PEs.
//! - [`drive_from`]: runs what is left from there, and writes the text of the whole run; [`whole_text`]: that text; [`text_laws`]: what it
//!   is where no round was decided before.
//! - [`Checkpoints`]: writes checkpoints where the run pauses, to some [`CheckpointFiles`]; [`replace`]: how one takes the place of
//!   the one before it; [`finish_kept`]: the status of a program, and the line where one was not kept.
#![tactic(auto)]

mod beginning;
mod checkpoints;
mod driving;
mod files;
mod laws;
mod reading;
mod whole;

pub use beginning::{on_pes, opening_of};
pub use checkpoints::{Checkpoints, finish_kept};
pub use driving::drive_from;
pub use files::{CheckpointFiles, replace};
pub use laws::text_laws;
pub use reading::{NoCheckpoint, read_checkpoint};
pub use whole::whole_text;
