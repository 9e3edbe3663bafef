//! The checkpoint of a run of a workload after some of its rounds, as a text: what was decided for these rounds, on which PE
//! each chare is, and the workload.
//!
//! - [`Checkpoint`]: what a text says, read by [`Checkpoint::parse`] from bytes or by [`Checkpoint::read_from`] from a reader.
//! - [`Checkpoint::read_from_logged`]: reads with the calls of the reader in a log, which has the failure where it failed.
//! - [`write_checkpoint`]: writes the text of a checkpoint.
//! - [`CheckpointError`]: why bytes are no such text.
//! - [`tallies_after`]: the chares of a workload after some of its rounds.
//!
//! ```text
//! checkpoint 1
//! round 1 bottleneck 12 moved 44
//! places 0 1 1
//! pes 2
//! rounds 2
//! pad 8
//! chares 3
//! amounts 3 5 9
//! amounts 1 0 4294967295
//! ```
//!
//! ```
//! use run_checkpoint::{Checkpoint, CheckpointError, write_checkpoint};
//!
//! let text = b"checkpoint 0\nplaces 1\npes 2\nrounds 0\npad 8\nchares 1\n";
//! let checkpoint = Checkpoint::parse(alloc, text)?;
//! assert!(rt; checkpoint.places[0].get() == 1);
//!
//! let mut written = Vec::new(alloc);
//! write_checkpoint(
//!     alloc,
//!     &checkpoint.decided,
//!     &checkpoint.places,
//!     &checkpoint.workload,
//!     &mut written,
//! )?;
//! assert!(rt; written.as_slice() == text.as_slice());
//! assert!(rt; matches!(Checkpoint::parse(alloc, b"checkpoint 01\n"), Err(CheckpointError::Form(1))));
//! ```
#![tactic(auto)]

mod body;
mod checkpoint;
mod error;
mod form;
mod head;
mod laws;
mod limits;
mod line;
mod numbers;
mod places;
mod putting;
mod rounds;
mod tallies;
mod whole;
mod workload_part;
mod writing;

pub use checkpoint::{Checkpoint, DecidedRound};
pub use error::CheckpointError;
#[doc(hidden)]
pub use laws::checkpoint_laws;
pub use tallies::tallies_after;
pub use writing::write_checkpoint;
